//! Lists of numbers, none twice.
ghost use Rattle.std.specs.Prelude.{◌≡◌, [], take, length, get_or, slice_get, option_copied, IfOk, OnOk, OnErr};
ghost use Rattle.rows.specs.Lists.{lists_in};
ghost use Rattle.words.specs.Puts.{IsPut};

use crate::lists::Lists;
use std::alloc::{AllocError, Global};
use std::marker::Model;

/// Lists of numbers, none twice, in the order in which they were put. They are in a box, which is made when one is put: without lists, as
/// when rows are words, it takes next to no room.
#[derive(Drop)]
pub struct ListSet {
    kept: Option<Box<Lists>>,
}

impl Model for ListSet {
    ghost use Rattle.std.specs.Prelude.{List, ℕ};
    ghost use Rattle.rows.specs.Lists.{lists_in};

    ghost Value = { List (List ℕ) };

    ghost view = { λ s. lists_in s.kept };
}

// Takes out the lists that are kept; with none, makes a box for some.
fn take_lists(alloc: Global, kept: &mut Option<Box<Lists>>) -> Result<Box<Lists>, AllocError>
    ensures taken { IfOk result (λ lists. lists.value ≡ lists_in kept.old) }
    ensures err { OnErr result (lists_in kept.new ≡ lists_in kept.old) }
{
    match kept.take() {
        Some(lists) => Ok(lists),
        None => Ok(Box::new(alloc, Lists::new(alloc))?),
    }
}

impl ListSet {
    /// No lists.
    pub fn new() -> ListSet
        ensures { result ≡ [] }
    {
        ListSet { kept: None }
    }

    /// How many lists there are. Takes constant time.
    #[inline(always)]
    pub fn len(&self) -> usize
        ensures { result ≡ length self.now }
    {
        match &self.kept {
            Some(lists) => lists.len(),
            None => 0,
        }
    }

    /// The list at place `at`, or `None` beyond the last list. Takes constant time.
    #[inline(never)]
    pub fn get(&self, at: usize) -> Option<&[usize]>
        ensures { option_copied result ≡ slice_get self.now at }
    {
        let Some(lists) = &self.kept else {
            return None;
        };
        lists.get(at)
    }

    /// The number at `place` of the list at `at`, or zero if there is none. Takes constant time.
    #[inline(never)]
    pub fn number(&self, at: usize, place: usize) -> usize
        ensures { result ≡ get_or (get_or self.now at []) place 0 }
    {
        let Some(list) = self.get(at) else {
            return 0;
        };
        match list.get(place) {
            Some(number) => *number,
            None => 0,
        }
    }

    /// The length of the list at place `at`, or zero if there is none. Takes constant time.
    pub fn long_at(&self, at: usize) -> usize
        ensures { result ≡ length (get_or self.now at []) }
    {
        match self.get(at) {
            Some(list) => list.len(),
            None => 0,
        }
    }

    /// Puts the list with the others, if it is not there. `AllocError` if memory was refused, or if there are too many lists for
    /// places of 32 bits: then the lists are as they were. Costs O(its numbers), and looks it up by its hash.
    #[inline(never)]
    pub fn put(&mut self, alloc: Global, list: Vec<usize>) -> Result<(), AllocError>
        ensures put { OnOk result (IsPut list.items self.old self.new) }
        ensures err { OnErr result (self.new ≡ self.old) }
    {
        let mut lists = take_lists(alloc, &mut self.kept)?;
        let outcome = lists.put(list);
        self.kept = Some(lists);
        outcome
    }

    /// Keeps the first `len` lists. Costs at most O(lists).
    #[inline(never)]
    pub fn truncate(&mut self, len: usize)
        ensures { self.new ≡ take len self.old }
    {
        let Some(mut lists) = self.kept.take() else {
            return;
        };
        lists.truncate(len);
        self.kept = Some(lists);
    }

    /// The same lists, with memory of their own. Costs O(all their numbers).
    #[inline(never)]
    pub fn copied(&self, alloc: Global) -> Result<ListSet, AllocError>
        ensures { IfOk result (λ lists. lists ≡ self.now) }
    {
        let Some(lists) = &self.kept else {
            return Ok(ListSet::new());
        };
        let copy = Box::new(alloc, lists.copied(alloc)?)?;
        Ok(ListSet { kept: Some(copy) })
    }
}
