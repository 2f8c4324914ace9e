//! Products without a common row.
ghost use Rattle.std.specs.Prelude.{◌≡◌, ◌↔◌, ◌⊎◌, ◌<◌, ◌≤◌, ◌+◌, ◌-◌, ◌^◌, ◌++◌, ◌∷◌, [], ℕ, List, Some, None, true, IfOk, IfSome, OnErr, OnOk, length, min, map, drop, take, slice_get, slice_index, slice_set};
ghost use Rattle.products.specs.Products.{AreApart, AreIn, Has, HasWith, HavePlaces, IsIn, IsInAt, IsInOne, IsPiece, Product, Puts, rows_in, rows_of_sets};

use crate::appending::append;
use crate::number_set::{difference, intersection};
use crate::product::{Overlap, joined_at, overlap_of, rows_of};
use std::alloc::{AllocError, Global};
use std::marker::Model;
use std::mem::swap;

/// Products of sets of numbers. Each has a first number, and a set of numbers for each place after it. It contains each row with this first
/// number and one number of the set at each place. No row is in two of them.
pub struct Products {
    places: usize,
    rows: u64,
    firsts: Vec<usize>,
    words: Vec<u64>,
}

impl Model for Products {
    ghost use Rattle.std.specs.Prelude.{◌≡◌, ◌*◌, ◌^◌, ◌-◌, length, min};
    ghost use Rattle.products.specs.Products.{AreApart, Family, laid_out, rows_in};

    ghost Value = { Family };

    ghost view = { λ a. (a.places, laid_out a.places a.firsts.items a.words.items) };

    ghost invariant = { λ a. (length a.words.items ≡ length a.firsts.items * a.places)
        × AreApart (laid_out a.places a.firsts.items a.words.items)
        × (a.rows ≡ min (length (rows_in (laid_out a.places a.firsts.items a.words.items))) (2 ^ 64 - 1)) };
}

// So that crates above give one back by one call.
impl Drop for Products {
    fn drop(self) {
        let Products {
            places: _places,
            rows: _rows,
            firsts: _firsts,
            words: _words,
        } = self;
    }
}

impl Products {
    /// None, of rows with `places` numbers after the first.
    pub fn new(alloc: Global, places: usize) -> Products
        ensures { result ≡ (places, []) }
    {
        Products {
            places,
            rows: 0,
            firsts: Vec::new(alloc),
            words: Vec::new(alloc),
        }
    }

    /// Takes all out. Those to come are of rows with `places` numbers after the first. Keeps all of the memory. Takes constant time.
    pub fn restart(&mut self, places: usize)
        ensures { self.new ≡ (places, []) }
    {
        self.words.clear();
        self.firsts.clear();
        self.places = places;
        self.rows = 0;
    }

    /// How many sets each product has. Takes constant time.
    pub fn places(&self) -> usize
        ensures { result ≡ self.now.0 }
    {
        self.places
    }

    /// How many products there are. Takes constant time.
    pub fn len(&self) -> usize
        ensures { result ≡ length self.now.1 }
    {
        self.firsts.len()
    }

    /// The number of rows in the products, or `u64::MAX` if there are more. It also says that no row is in two of the products, and that
    /// each product has a set for each place. Takes constant time.
    pub fn rows(&self) -> u64
        ensures rows { result ≡ min (length (rows_in self.now.1)) (2 ^ 64 - 1) }
        ensures apart { AreApart self.now.1 }
        ensures long { HavePlaces self.now.0 self.now.1 }
    {
        self.rows
    }

    /// The first number of the product at this place. Takes constant time.
    pub fn first(&self, at: usize) -> usize
        requires { at < length self.now.1 }
        ensures { (product : Product) → slice_get self.now.1 at ≡ Some product → result ≡ product.0 }
    {
        self.firsts[at]
    }

    /// The sets of the product at this place. Takes constant time.
    #[inline(always)]
    pub fn sets(&self, at: usize) -> &[u64]
        requires { at < length self.now.1 }
        ensures sets { (product : Product) → slice_get self.now.1 at ≡ Some product → result.now ≡ product.1 }
        ensures long { length result.now ≡ self.now.0 }
    {
        let from = at * self.places;
        &self.words[from..from + self.places]
    }

    // Puts the product, whose rows are not there, behind the others.
    #[inline(always)]
    fn push(&mut self, first: usize, sets: &[u64]) -> Result<(), AllocError>
        requires long { length sets.now ≡ self.old.0 }
        requires apart { (row : List ℕ) → IsIn (first, sets.now) row → ¬ IsInOne self.old.1 row }
        ensures places { self.new.0 ≡ self.old.0 }
        ensures pushed { OnOk result (self.new.1 ≡ self.old.1 ++ (first, sets.now) ∷ []) }
    {
        self.firsts.reserve(1)?;
        append(&mut self.words, sets)?;
        self.firsts.push_reserved(first);
        self.rows = self.rows.saturating_add(rows_of(sets));
        Ok(())
    }

    // Puts the product, whose rows are not there, with the others. A product from this place on gets its rows if it differs from it at one
    // place alone; else the new one is put behind all.
    fn join_from(
        &mut self,
        growable_from: usize,
        first: usize,
        sets: &[u64],
    ) -> Result<(), AllocError>
        requires long { length sets.now ≡ self.old.0 }
        requires apart { (row : List ℕ) → IsIn (first, sets.now) row → ¬ IsInOne self.old.1 row }
        ensures places { self.new.0 ≡ self.old.0 }
        ensures puts { OnOk result (Puts (first, sets.now) growable_from self.old.1 self.new.1) }
    {
        let mut at = self.firsts.len();
        while at > growable_from {
            at -= 1;
            if self.firsts[at] == first {
                if let Some((place, set)) = joined_at(sets, self.sets(at)) {
                    self.replace(at, place, set, sets);
                    return Ok(());
                }
            }
        }
        self.push(first, sets)
    }

    // Adds the rows of `sets`, which no product has, to the product at `at`, by the new set at `place`.
    fn replace(&mut self, at: usize, place: usize, set: u64, sets: &[u64])
        requires at { at < length self.old.1 }
        requires place { place < self.old.0 }
        requires apart { (product : Product) → slice_get self.old.1 at ≡ Some product
            → (row : List ℕ) → IsIn (product.0, sets.now) row → ¬ IsInOne self.old.1 row }
        requires joined { (product : Product) → slice_get self.old.1 at ≡ Some product
            → (row : List ℕ) → AreIn (slice_set product.1 place set) row ↔ (AreIn product.1 row ⊎ AreIn sets.now row) }
        requires rows { (product : Product) → slice_get self.old.1 at ≡ Some product
            → length (rows_of_sets (slice_set product.1 place set))
            ≡ length (rows_of_sets product.1) + length (rows_of_sets sets.now) }
        ensures places { self.new.0 ≡ self.old.0 }
        ensures replaced { (product : Product) → slice_get self.old.1 at ≡ Some product
            → self.new.1 ≡ slice_set self.old.1 at (product.0, slice_set product.1 place set) }
    {
        let index = at * self.places + place;
        self.words[index] = set;
        self.rows = self.rows.saturating_add(rows_of(sets));
    }

    /// Puts the product, whose rows are not there, with the others: a product from which it differs at one place alone gets its rows, or
    /// else it is put behind all. `AllocError` if there is no memory for it: then the caller drops them all. Costs O(products).
    pub(crate) fn join(&mut self, first: usize, sets: &[u64]) -> Result<(), AllocError>
        requires long { length sets.now ≡ self.old.0 }
        requires apart { (row : List ℕ) → IsIn (first, sets.now) row → ¬ IsInOne self.old.1 row }
        ensures places { self.new.0 ≡ self.old.0 }
        ensures joins { OnOk result (HasWith (IsIn (first, sets.now)) self.old.1 self.new.1) }
    {
        self.join_from(0, first, sets)
    }

    /// Adds the rows of a product. Products from place `growable_from` on may get some of them, and new products are appended; the products
    /// before that place do not change. The stack is memory to work in. `AllocError` if there is no memory: then some of the rows may be
    /// there.
    ///
    /// The product is compared with all products. If it shares some of its rows with one of them, it is cut into at most one piece for each
    /// set. Each piece is compared with the products before and may be cut again. If a piece differs in a single set from a product that
    /// may get rows, that product gets its rows. Else the piece is appended.
    pub fn put(
        &mut self,
        growable_from: usize,
        first: usize,
        sets: &[u64],
        stack: &mut Vec<u64>,
    ) -> Result<(), AllocError>
        requires long { length sets.now ≡ self.old.0 }
        ensures places { self.new.0 ≡ self.old.0 }
        ensures puts { OnOk result (Puts (first, sets.now) growable_from self.old.1 self.new.1) }
    {
        let len = self.firsts.len();
        stack.clear();
        append(stack, sets)?;
        self.put_rest(len, growable_from, first, stack, 0)
    }

    // The last product before this place that shares a row with the product, or may do so, and whether it is known to have all its rows.
    #[inline(never)]
    fn last_overlapping(&self, end: usize, first: usize, sets: &[u64]) -> Option<(usize, bool)>
        requires within { end ≤ length self.now.1 }
        requires long { length sets.now ≡ self.now.0 }
        ensures none { result ≡ None → (at : ℕ) (row : List ℕ) → at < end
            → IsIn (first, sets.now) row → ¬ IsInAt self.now.1 at row }
        ensures before { IfSome result (λ met. met.0 < end) }
        ensures same { IfSome result (λ met. (product : Product) → slice_get self.now.1 met.0 ≡ Some product
            → product.0 ≡ first) }
        ensures apart { IfSome result (λ met. (at : ℕ) (row : List ℕ) → met.0 < at → at < end
            → IsIn (first, sets.now) row → ¬ IsInAt self.now.1 at row) }
        ensures inside { IfSome result (λ met. met.1 ≡ true → (row : List ℕ) → IsIn (first, sets.now) row
            → IsInOne self.now.1 row) }
    {
        let mut at = end;
        while at > 0 {
            at -= 1;
            if self.firsts[at] == first {
                match overlap_of(sets, self.sets(at)) {
                    Overlap::Apart => {}
                    Overlap::Inside => return Some((at, true)),
                    Overlap::Across => return Some((at, false)),
                }
            }
        }
        None
    }

    // Puts the rows of the product on top of the stack that are in none of the products before this place; it shares none with
    // those from there on.
    #[inline(never)]
    #[cycle(putting)]
    fn put_rest(
        &mut self,
        end: usize,
        growable_from: usize,
        first: usize,
        stack: &mut Vec<u64>,
        start: usize,
    ) -> Result<(), AllocError>
        requires within { end ≤ length self.old.1 }
        requires top { start + self.old.0 ≡ length stack.old.items }
        requires apart { (at : ℕ) (row : List ℕ) → IsIn (first, drop start stack.old.items) row
            → IsInAt self.old.1 at row → at < end }
        ensures places { self.new.0 ≡ self.old.0 }
        ensures stack { OnOk result (stack.new.items ≡ stack.old.items) }
        ensures puts { OnOk result (Puts (first, drop start stack.old.items) growable_from self.old.1 self.new.1) }
    {
        match self.last_overlapping(end, first, &stack[start..]) {
            None => self.join_from(growable_from, first, &stack[start..]),
            Some((_, true)) => Ok(()),
            Some((at, false)) => self.put_pieces(at, growable_from, first, stack, start),
        }
    }

    // Puts the rest of the product on top of the stack, without the product at `at`, in pieces, one for each set. At this set the piece has
    // the numbers that the product at `at` lacks. In the sets before it the piece has the common numbers, and behind it all its own. It may
    // share rows with products before `at` alone.
    #[cycle(putting)]
    fn put_pieces(
        &mut self,
        at: usize,
        growable_from: usize,
        first: usize,
        stack: &mut Vec<u64>,
        start: usize,
    ) -> Result<(), AllocError>
        requires within { at < length self.old.1 }
        requires top { start + self.old.0 ≡ length stack.old.items }
        requires same { (product : Product) → slice_get self.old.1 at ≡ Some product → product.0 ≡ first }
        requires apart { (i : ℕ) (row : List ℕ) → IsIn (first, drop start stack.old.items) row
            → IsInAt self.old.1 i row → i ≤ at }
        ensures places { self.new.0 ≡ self.old.0 }
        ensures stack { OnOk result (stack.new.items ≡ stack.old.items) }
        ensures puts { OnOk result (Puts (first, drop start stack.old.items) growable_from self.old.1 self.new.1) }
    {
        for behind in 0..self.places {
            let place = self.places - 1 - behind;
            let left = difference(stack[start + place], self.sets(at)[place]);
            if left != 0 {
                let top = stack.len();
                push_piece(stack, start, self.sets(at), place, left)?;
                self.put_rest(at, growable_from, first, stack, top)?;
                stack.truncate(top);
            }
        }
        Ok(())
    }

    /// Each row gets a zero behind it. `AllocError` if there is no memory for it, or if the rows would have more places than a `usize` can
    /// count: then they are as they were. Costs O(products).
    pub fn lengthen(&mut self, alloc: Global) -> Result<(), AllocError>
        ensures longer { OnOk result (self.new ≡ (self.old.0 + 1, map (λ product. (product.0, product.1 ++ 1 ∷ [])) self.old.1)) }
        ensures err { OnErr result (self.new ≡ self.old) }
    {
        let Some(places) = self.places.checked_add(1) else {
            return Err(AllocError);
        };
        let len = self.words.len().saturating_add(self.firsts.len());
        let mut words = Vec::with_capacity(alloc, len)?;
        for at in 0..self.firsts.len() {
            let from = at * self.places;
            append(&mut words, &self.words[from..from + self.places])?;
            // The set of zero alone.
            words.push(1)?;
        }
        self.words = words;
        self.places = places;
        Ok(())
    }

    /// A copy of the products. Costs O(words), where each place of each product has one word.
    pub fn copied(&self, alloc: Global) -> Result<Products, AllocError>
        ensures { IfOk result (λ copy. copy ≡ self.now) }
    {
        Ok(Products {
            places: self.places,
            rows: self.rows,
            firsts: Vec::from_slice(alloc, &self.firsts)?,
            words: Vec::from_slice(alloc, &self.words)?,
        })
    }

    /// Each gets the products of the other. Takes constant time.
    pub fn trade(&mut self, other: &mut Products)
        ensures mine { self.new ≡ other.old }
        ensures others { other.new ≡ self.old }
    {
        swap(&mut self.places, &mut other.places);
        swap(&mut self.rows, &mut other.rows);
        swap(&mut self.firsts, &mut other.firsts);
        swap(&mut self.words, &mut other.words);
    }
}

// Puts on the stack the product that begins there, with these numbers left at the place, before it those that the other sets have
// too, and behind it all.
fn push_piece(
    stack: &mut Vec<u64>,
    start: usize,
    others: &[u64],
    place: usize,
    left: u64,
) -> Result<(), AllocError>
    requires top { start + length others.now ≡ length stack.old.items }
    requires place { place < length others.now }
    requires left { (number : ℕ) → Has left number
        ↔ (Has (slice_index stack.old.items (start + place)) number × ¬ Has (slice_index others.now place) number) }
    ensures below { OnOk result (take (length stack.old.items) stack.new.items ≡ stack.old.items) }
    ensures piece { OnOk result (IsPiece place (drop start stack.old.items) others.now
        (drop (length stack.old.items) stack.new.items)) }
{
    for at in 0..others.len() {
        let set = stack[start + at];
        stack.push(set_of_piece(at, place, set, others[at], left))?;
    }
    Ok(())
}

// The set at this place of a piece.
#[inline(always)]
fn set_of_piece(at: usize, place: usize, set: u64, other: u64, left: u64) -> u64
    ensures before { at < place → (number : ℕ) → Has result number ↔ (Has set number × Has other number) }
    ensures here { at ≡ place → result ≡ left }
    ensures behind { place < at → result ≡ set }
{
    if at < place {
        intersection(set, other)
    } else if at == place {
        left
    } else {
        set
    }
}
