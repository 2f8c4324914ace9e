//! Rows of numbers, each once.
ghost use Rattle.std.specs.Prelude.{◌≡◌, ◌<◌, ◌≤◌, ◌*◌, ◌^◌, [], ◌∷◌, ◌++◌, true, false, Some, IsTrue, map, take, length, get_or, set, slice_get, IfOk, IfSome, OnOk, OnErr};
ghost use Rattle.std.specs.List.{remove};
ghost use Rattle.words.specs.Words.{ArePacked, digits};
ghost use Rattle.words.specs.Puts.{IsPut};
ghost use Rattle.rows.specs.RowSets.{PutsMarked, is_marked};

use crate::list_set::ListSet;
use crate::marked::{has_mark, put_marked_words};
use crate::row::Row;
use std::alloc::{AllocError, Global};
use std::marker::Model;
use std::mem::swap;
use words::{WordSet, changed, number_at, packed, unpack};

/// Rows of numbers, none twice, in the order in which they were put. As long as they have the expected length and small numbers, each is
/// one word, at first half of it; else each is a list of its own.
pub struct RowSet {
    alloc: Global,
    /// How many numbers a row has that is a word.
    long: usize,
    /// How many bits each number of a word has; zero if a row has too many numbers for a word.
    bits: u32,
    /// Whether the words were written again, with all bits of a word.
    whole: bool,
    /// Whether some row fits no word, so that all rows are lists.
    wide: bool,
    words: WordSet,
    lists: ListSet,
}

impl Model for RowSet {
    ghost use Rattle.std.specs.Prelude.{List, ℕ};
    ghost use Rattle.words.specs.Words.{ArePacked, rows_in};

    ghost Value = { List (List ℕ) };

    ghost view = { λ a. rows_in a.wide a.bits a.long a.words a.lists };

    ghost invariant = { λ a. ArePacked a.bits a.long a.words };
}

// So that crates above give one back by one call.
impl Drop for RowSet {
    fn drop(self) {
        let RowSet {
            alloc: _alloc,
            long: _long,
            bits: _bits,
            whole: _whole,
            wide: _wide,
            words: _words,
            lists: _lists,
        } = self;
    }
}

// The bits of each number of a row with `long` numbers. They are the bits of a whole word, or of half a word, shared out among the numbers
// and two more, so that rows can grow. No number gets more than 32 bits of a whole word, or 10 of half a word. A row of more than 30
// numbers gets the whole word. One of more than 126 gets no bits, since it is a list.
fn bits_for(long: usize, whole: bool) -> u32
    ensures few { result ≤ 32 }
    ensures room { result * long ≤ 128 }
{
    if long > 126 {
        0
    } else if whole || long > 30 {
        128 / (long as u32 + 2).max(4)
    } else {
        64 / (long as u32 + 2).max(6)
    }
}

// Overwrites `next` with the numbers of the row.
#[inline(never)]
fn rewrite(next: &mut Vec<usize>, row: &[usize]) -> Result<(), AllocError>
    ensures { OnOk result (next.new.items ≡ row.now) }
{
    next.clear();
    next.extend_from_slice(row)?;
    Ok(())
}

// The same numbers.
fn copied(alloc: Global, row: &[usize]) -> Result<Vec<usize>, AllocError>
    ensures { IfOk result (λ copy. copy.items ≡ row.now) }
{
    let mut copy = Vec::with_capacity(alloc, row.len())?;
    copy.extend_from_slice(row)?;
    Ok(copy)
}

// Reads the list at this place.
#[inline(never)]
fn look_at_list(lists: &ListSet, at: usize, row: &mut Row) -> Result<(), AllocError>
    requires { at < length lists.now }
    ensures { OnOk result (slice_get lists.now at ≡ Some row.new) }
{
    let Some(list) = lists.get(at) else {
        unreachable!()
    };
    row.set_list(list)
}

// The rows of the words, as lists.
fn listed(alloc: Global, words: &WordSet, bits: u32, long: usize) -> Result<ListSet, AllocError>
    requires { ArePacked bits long words.now }
    ensures { IfOk result (λ lists. lists ≡ map (digits (2 ^ bits) long) words.now) }
{
    let mut lists = ListSet::new();
    for at in 0..words.len() {
        let Some(word) = words.get(at) else {
            unreachable!()
        };
        let mut list = Vec::with_capacity(alloc, long)?;
        unpack(word, bits, long, &mut list)?;
        lists.put(alloc, list)?;
    }
    Ok(lists)
}

// The words of the same rows, with this many bits for each number, or none if a number has more.
fn repacked(
    alloc: Global,
    words: &WordSet,
    bits: u32,
    long: usize,
    new_bits: u32,
) -> Result<Option<WordSet>, AllocError>
    requires packed { ArePacked bits long words.now }
    requires few { new_bits ≤ 32 }
    requires room { new_bits * long ≤ 128 }
    ensures rows { IfOk result (λ found. IfSome found (λ other.
        map (digits (2 ^ new_bits) long) other ≡ map (digits (2 ^ bits) long) words.now)) }
    ensures packed { IfOk result (λ found. IfSome found (ArePacked new_bits long)) }
{
    let mut other = WordSet::new(alloc);
    let mut row = Vec::new(alloc);
    for at in 0..words.len() {
        let Some(word) = words.get(at) else {
            unreachable!()
        };
        unpack(word, bits, long, &mut row)?;
        match packed(&row, new_bits) {
            Some(word) => other.put(word)?,
            None => return Ok(None),
        }
    }
    Ok(Some(other))
}

// The number at `place` of the row in the word at `at`, or zero if there is none.
fn number_in_word(words: &WordSet, bits: u32, long: usize, at: usize, place: usize) -> usize
    requires { ArePacked bits long words.now }
    ensures { let rows = map (digits (2 ^ bits) long) words.now in
        result ≡ get_or (get_or rows at []) place 0 }
{
    match words.get(at) {
        Some(word) if bits > 0 && place < long => number_at(word, bits, place),
        _ => 0,
    }
}

impl RowSet {
    /// No rows. They are expected to have `long` numbers.
    pub fn new(alloc: Global, long: usize) -> RowSet
        ensures { result ≡ [] }
    {
        RowSet {
            alloc,
            long,
            bits: bits_for(long, false),
            whole: false,
            wide: false,
            words: WordSet::new(alloc),
            lists: ListSet::new(),
        }
    }

    /// Takes all rows out. Those to come are expected to have `long` numbers. Keeps the memory, unless that was for far more rows than
    /// there were last. Costs at most O(rows).
    pub fn restart(&mut self, long: usize)
        ensures { self.new ≡ [] }
    {
        self.restart_with(long, bits_for(long, false), false);
    }

    /// Removes all rows, as [`restart`](Self::restart) does, for rows with numbers like those of `other`. Costs O(rows) at most.
    pub fn restart_like(&mut self, other: &RowSet, long: usize)
        ensures { self.new ≡ [] }
    {
        if long <= 128 && other.bits as usize * long <= 128 {
            self.restart_with(long, other.bits, other.whole);
        } else {
            self.restart(long);
        }
    }

    // The same, with `bits` bits for each number.
    fn restart_with(&mut self, long: usize, bits: u32, whole: bool)
        requires few { bits ≤ 32 }
        requires room { bits * long ≤ 128 }
        ensures { self.new ≡ [] }
    {
        if self.words.capacity() / 16 > self.words.len().saturating_add(64) {
            self.words = WordSet::new(self.alloc);
        }
        self.words.clear();
        if self.wide {
            self.lists = ListSet::new();
        }
        self.wide = false;
        self.whole = whole;
        self.long = long;
        self.bits = bits;
    }

    /// How many rows there are. Takes constant time.
    pub fn len(&self) -> usize
        ensures { result ≡ length self.now }
    {
        if self.wide {
            self.lists.len()
        } else {
            self.words.len()
        }
    }

    /// Loads the row at this place into `row` as it is kept, a word as a word, and replaces the old content of `row`. `AllocError` if there
    /// is no memory for it: then the content of `row` is not promised. Takes constant time if the row is a word, and else the time of
    /// its numbers.
    #[inline(always)]
    pub fn look(&self, at: usize, row: &mut Row) -> Result<(), AllocError>
        requires { at < length self.now }
        ensures { OnOk result (slice_get self.now at ≡ Some row.new) }
    {
        if self.wide {
            look_at_list(&self.lists, at, row)
        } else {
            let Some(word) = self.words.get(at) else {
                unreachable!()
            };
            row.set_word(word, self.bits, self.long);
            Ok(())
        }
    }

    /// Copies the numbers of the row at this place into the list `row`, and replaces its old content. `AllocError` if there is no memory
    /// for them: then the content of `row` is not promised. Costs O(numbers).
    #[inline(never)]
    pub fn read(&self, at: usize, row: &mut Vec<usize>) -> Result<(), AllocError>
        requires { at < length self.now }
        ensures { OnOk result (slice_get self.now at ≡ Some row.new.items) }
    {
        if self.wide {
            let Some(list) = self.lists.get(at) else {
                unreachable!()
            };
            rewrite(row, list)
        } else {
            let Some(word) = self.words.get(at) else {
                unreachable!()
            };
            unpack(word, self.bits, self.long, row)
        }
    }

    /// The number at a place of the row at `at`, and zero if there is none. Takes constant time.
    pub fn number(&self, at: usize, place: usize) -> usize
        ensures { result ≡ get_or (get_or self.now at []) place 0 }
    {
        if self.wide {
            self.lists.number(at, place)
        } else {
            number_in_word(&self.words, self.bits, self.long, at, place)
        }
    }

    // How many numbers the row at `at` has.
    fn long_at(&self, at: usize) -> usize
        requires { at < length self.now }
        ensures { result ≡ length (get_or self.now at []) }
    {
        if self.wide {
            return self.lists.long_at(at);
        }
        self.long
    }

    /// Adds the row if it is not there. `AllocError` if there is no memory: then the rows are as they were. Costs O(numbers of the row),
    /// and a look-up by its hash if there are more than a few rows. If the row does not fit the words of the others, all rows are written
    /// again. That happens at most twice until a restart.
    pub fn put(&mut self, row: &[usize]) -> Result<(), AllocError>
        ensures put { OnOk result (IsPut row.now self.old self.new) }
        ensures err { OnErr result (self.new ≡ self.old) }
    {
        if self.put_packed(row)? {
            return Ok(());
        }
        if self.repack_whole()? {
            if self.put_packed(row)? {
                return Ok(());
            }
        }
        let list = copied(self.alloc, row)?;
        self.put_as_list(list)
    }

    // Puts the row with the others, if it is not there, as a word; or returns that it is not a word.
    fn put_packed(&mut self, row: &[usize]) -> Result<bool, AllocError>
        ensures put { IfOk result (λ is_put. is_put ≡ true → IsPut row.now self.old self.new) }
        ensures not_put { IfOk result (λ is_put. is_put ≡ false → self.new ≡ self.old) }
        ensures err { OnErr result (self.new ≡ self.old) }
    {
        if !self.wide && row.len() == self.long {
            if let Some(word) = packed(row, self.bits) {
                self.words.put(word)?;
                return Ok(true);
            }
        }
        Ok(false)
    }

    // Writes all rows again, with all bits of a word. Returns false and does nothing if this was done before, if rows are lists, or if a
    // number would not fit.
    fn repack_whole(&mut self) -> Result<bool, AllocError>
        ensures { self.new ≡ self.old }
    {
        if self.wide || self.whole {
            return Ok(false);
        }
        let bits = bits_for(self.long, true);
        match repacked(self.alloc, &self.words, self.bits, self.long, bits)? {
            Some(words) => {
                self.words = words;
                self.bits = bits;
                self.whole = true;
                Ok(true)
            }
            None => Ok(false),
        }
    }

    // Puts the list with the others, all as lists.
    fn put_as_list(&mut self, list: Vec<usize>) -> Result<(), AllocError>
        ensures put { OnOk result (IsPut list.items self.old self.new) }
        ensures err { OnErr result (self.new ≡ self.old) }
    {
        if !self.wide {
            self.lists = listed(self.alloc, &self.words, self.bits, self.long)?;
            self.wide = true;
            self.words = WordSet::new(self.alloc);
        }
        self.lists.put(self.alloc, list)
    }

    /// Adds a copy of the row at `from` that has `to` as its first number, and `slot` at the place `place`, if the row has zero; unless
    /// that row is there. `AllocError` if memory was refused: then the rows are as they were. Costs what [`put`](Self::put) costs.
    #[inline(never)]
    pub fn put_next(
        &mut self,
        from: usize,
        to: usize,
        place: usize,
        slot: usize,
    ) -> Result<(), AllocError>
        requires from { from < length self.old }
        requires after { 0 < place }
        requires within { place < length (get_or self.old from []) }
        requires zero_there { get_or (get_or self.old from []) place 0 ≡ 0 }
        ensures put { OnOk result
            (IsPut (set (set (get_or self.old from []) 0 to) place slot) self.old self.new) }
        ensures err { OnErr result (self.new ≡ self.old) }
    {
        if !self.wide && self.bits > 0 && to >> self.bits == 0 && slot >> self.bits == 0 {
            let Some(word) = self.words.get(from) else {
                unreachable!()
            };
            let next = changed(word, self.bits, self.long, to, place, slot);
            return self.words.put(next);
        }
        self.put_next_by_list(from, to, place, slot)
    }

    // The same, by way of a list.
    #[inline(never)]
    fn put_next_by_list(
        &mut self,
        from: usize,
        to: usize,
        place: usize,
        slot: usize,
    ) -> Result<(), AllocError>
        requires from { from < length self.old }
        requires after { 0 < place }
        requires within { place < length (get_or self.old from []) }
        ensures put { OnOk result
            (IsPut (set (set (get_or self.old from []) 0 to) place slot) self.old self.new) }
        ensures err { OnErr result (self.new ≡ self.old) }
    {
        let mut next = Vec::new(self.alloc);
        self.read(from, &mut next)?;
        next[0] = to;
        next[place] = slot;
        self.put(&next)
    }

    /// Adds each row of `other` whose number at this place is marked, without that number. A mark belongs to the number at its place in the
    /// list; a number beyond the list has no mark. `AllocError` if there is no memory: then some of the rows are added. Costs a
    /// [`put`](Self::put) for each of these rows, and a look at one number of each other row.
    pub fn put_marked(
        &mut self,
        other: &RowSet,
        place: usize,
        marks: &[bool],
    ) -> Result<(), AllocError>
        ensures { OnOk result
            (PutsMarked place marks.now other.now (length other.now) self.old self.new) }
    {
        if !self.wide
            && !other.wide
            && self.bits > 0
            && self.bits == other.bits
            && self.long + 1 == other.long
            && place < other.long
        {
            return put_marked_words(
                &mut self.words,
                &other.words,
                self.bits,
                self.long,
                place,
                marks,
            );
        }
        self.put_marked_by_list(other, place, marks)
    }

    // The same, row by row.
    #[inline(never)]
    fn put_marked_by_list(
        &mut self,
        other: &RowSet,
        place: usize,
        marks: &[bool],
    ) -> Result<(), AllocError>
        ensures { OnOk result
            (PutsMarked place marks.now other.now (length other.now) self.old self.new) }
    {
        for at in 0..other.len() {
            if other.has_marked(at, place, marks) {
                self.put_without_by_list(other, at, place)?;
            }
        }
        Ok(())
    }

    // Whether the row at `at` has a number at this place, and the number a mark.
    fn has_marked(&self, at: usize, place: usize, marks: &[bool]) -> bool
        requires { at < length self.now }
        ensures marked { result ≡ is_marked place marks.now (get_or self.now at []) }
        ensures within { IsTrue result → place < length (get_or self.now at []) }
    {
        place < self.long_at(at) && has_mark(marks, self.number(at, place))
    }

    // Puts the row at `from` of the other set, without its number at this place, if that is not there, by way of a list.
    #[inline(never)]
    fn put_without_by_list(
        &mut self,
        other: &RowSet,
        from: usize,
        place: usize,
    ) -> Result<(), AllocError>
        requires from { from < length other.now }
        requires within { place < length (get_or other.now from []) }
        ensures put { OnOk result
            (IsPut (remove (get_or other.now from []) place) self.old self.new) }
        ensures err { OnErr result (self.new ≡ self.old) }
    {
        let mut left = Vec::new(self.alloc);
        other.read(from, &mut left)?;
        let _number = left.remove(place);
        self.put(&left)
    }

    // How many bits of a word the numbers of a row may have in all: half of it, if that was enough until now.
    fn usable_bits(&self) -> usize
        ensures { result ≤ 128 }
    {
        if self.whole || self.bits as usize * self.long > 64 {
            128
        } else {
            64
        }
    }

    /// Adds a zero to the end of each row, if there is room for it without new memory, and returns whether. Takes constant time.
    pub fn lengthen(&mut self) -> bool
        ensures longer { IsTrue result → self.new ≡ map (λ row. row ++ 0 ∷ []) self.old }
        ensures same { result ≡ false → self.new ≡ self.old }
    {
        if self.wide
            || self.long >= 128
            || self.bits as usize * (self.long + 1) > self.usable_bits()
        {
            return false;
        }
        self.long += 1;
        true
    }

    /// Each set gets the rows of the other. Takes constant time.
    pub fn trade(&mut self, other: &mut RowSet)
        ensures mine { self.new ≡ other.old }
        ensures others { other.new ≡ self.old }
    {
        swap(&mut self.long, &mut other.long);
        swap(&mut self.bits, &mut other.bits);
        swap(&mut self.whole, &mut other.whole);
        swap(&mut self.wide, &mut other.wide);
        swap(&mut self.words, &mut other.words);
        if !self.wide && !other.wide {
            return;
        }
        swap(&mut self.lists, &mut other.lists);
    }

    /// Keeps the first `len` rows. Costs at most O(rows).
    #[inline(never)]
    pub fn truncate(&mut self, len: usize)
        ensures { self.new ≡ take len self.old }
    {
        if self.wide {
            self.lists.truncate(len);
        } else {
            self.words.truncate(len);
        }
    }

    /// The same rows, with memory of their own. Costs O(all their numbers).
    pub fn copied(&self) -> Result<RowSet, AllocError>
        ensures { IfOk result (λ rows. rows ≡ self.now) }
    {
        let words = self.words.copied(self.alloc)?;
        let lists = self.lists.copied(self.alloc)?;
        Ok(RowSet {
            alloc: self.alloc,
            long: self.long,
            bits: self.bits,
            whole: self.whole,
            wide: self.wide,
            words,
            lists,
        })
    }
}
