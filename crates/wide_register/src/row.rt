//! Lean ends as they are kept.
ghost use Rattle.std.specs.Prelude.{◌≡◌, ◌≢◌, ◌+◌, ◌<◌, ◌≤◌, ◌↔◌, ◌⊎◌, ℕ, ℤ, Some, IfOk, IsTrue, OnOk, false, length};
ghost use Rattle.std.specs.List.{AllZip, Contains};
ghost use Rattle.wide_register.specs.Facts.{CanFind, FindTheSame, HasDoor, HasLeastGaps, IsCut, IsFirst, IsLeastGap, IsPut, IsSame, IsWithoutId, StoodAfter};
ghost use Rattle.wide_register.specs.declared.row.Passed.{Passed};

use crate::calls::Call;
use std::alloc::{AllocError, Global};

/// A value that stood at a gap: each open read that was invoked before the gap, so that fewer marks came before its invocation, may
/// find it.
#[derive(Clone, Copy, PartialEq, Eq)]
pub struct Passed {
    pub value: i64,
    pub gap: u64,
}

/// A lean end: the state, which each open read may find, and the open and crashed writes that took place. `passed` has the other values
/// that the open reads may find, each once, with its latest gap, the greatest value first. An operation that is not among these writes may
/// still take place just before the last write if fewer marks than `door` came before its invocation.
#[derive(Drop)]
pub struct Row {
    pub state: Option<i64>,
    pub needed: Vec<u32>,
    pub door: u64,
    pub passed: Vec<Passed>,
}

// Whether the id is among `ids`. Costs O(ids).
pub fn has_id(ids: &[u32], id: u32) -> bool
    ensures { IsTrue result ↔ Contains ids.now id }
{
    ids.contains(&id)
}

/// The first place from `from` on whose value is at most `value`. Costs O(places).
pub fn place_of(passed: &[Passed], from: usize, value: i64) -> usize
    ensures { from ≤ length passed.now → result ≤ length passed.now }
{
    let mut at = from;
    while at < passed.len() && passed[at].value > value {
        at += 1;
    }
    at
}

// Whether it is this value that stood.
fn is_of(one: &Passed, value: i64) -> bool
    ensures { IsTrue result ↔ (one.now.value ≡ value) }
{
    one.value == value
}

// Whether the value is at place `at`. If so, its gap is raised to `gap`.
fn is_raised(passed: &mut [Passed], at: usize, gap: u64, value: i64) -> bool
    ensures raised { IsTrue result → (v : ℤ) (t : ℕ) → StoodAfter passed.new v t
        ↔ (StoodAfter passed.old v t ⊎ ((value ≡ v) × (t < gap))) }
    ensures other { result ≡ false → passed.new ≡ passed.old }
{
    if at >= passed.len() || !is_of(&passed[at], value) {
        return false;
    }
    if passed[at].gap < gap {
        passed[at].gap = gap;
    }
    true
}

// The value stood at the gap, too. Costs O(found values).
fn note(passed: &mut Vec<Passed>, gap: u64, value: i64) -> Result<(), AllocError>
    ensures { OnOk result ((v : ℤ) (t : ℕ) → StoodAfter passed.new.items v t
        ↔ (StoodAfter passed.old.items v t ⊎ ((value ≡ v) × (t < gap)))) }
{
    let at = place_of(passed, 0, value);
    if is_raised(passed, at, gap, value) {
        return Ok(());
    }
    passed.insert(at, Passed { value, gap })?;
    Ok(())
}

// The same of a value, if there is one.
fn note_any(passed: &mut Vec<Passed>, gap: u64, value: Option<i64>) -> Result<(), AllocError>
    ensures { OnOk result ((v : ℤ) (t : ℕ) → StoodAfter passed.new.items v t
        ↔ (StoodAfter passed.old.items v t ⊎ ((value ≡ Some v) × (t < gap)))) }
{
    match value {
        Some(value) => {
            note(passed, gap, value)?;
            Ok(())
        }
        None => Ok(()),
    }
}

// The least gap that is later than the moment too, if the gap is.
fn least_with(least: u64, moment: u64, gap: u64) -> u64
    ensures { ((moment < gap) × (least ≤ moment) × (result ≡ moment + 1))
        ⊎ ((moment < gap → moment < least) × (result ≡ least)) }
{
    if moment < gap && least <= moment {
        moment + 1
    } else {
        least
    }
}

// The least gap that is later than the same of these moments; 0 if it is later than none. Costs O(moments).
fn least_gap(moments: &[u64], gap: u64) -> u64
    ensures { IsLeastGap moments.now gap result }
{
    let mut least = 0;
    for moment in moments {
        least = least_with(least, *moment, gap);
    }
    least
}

// Each gap becomes the least one that is later than the same of these moments.
fn cut_gaps(passed: &mut [Passed], moments: &[u64])
    ensures { AllZip (IsCut moments.now) passed.old passed.new }
{
    for one in passed.iter_mut() {
        one.gap = least_gap(moments, one.gap);
    }
}

// Whether it says more than the state: it stood at a gap, and is not the state.
fn says_more(one: &Passed, state: Option<i64>) -> bool
    ensures { IsTrue result ↔ ((0 < one.now.gap) × (state ≢ Some one.now.value)) }
{
    one.gap > 0 && state != Some(one.value)
}

// Leaves out the values that stood at no gap, and the state.
fn leave_out_known(passed: &mut Vec<Passed>, state: Option<i64>)
    ensures { (p : Passed) → Contains passed.new.items p ↔ (Contains passed.old.items p × (0 < p.gap) × (state ≢ Some p.value)) }
{
    passed.retain(|one| says_more(one, state));
}

// The write is among those that took place, unless it is done.
fn need(needed: &mut Vec<u32>, write: u32, done: u32) -> Result<(), AllocError>
    ensures { OnOk result ((i : ℕ) → i ≢ done → Contains needed.new.items i ↔ ((i ≡ write) ⊎ Contains needed.old.items i)) }
{
    if write == done {
        return Ok(());
    }
    needed.push(write)?;
    Ok(())
}

impl Row {
    /// The end of no operation. Takes constant time, and no memory.
    pub fn start(alloc: Global) -> Row
        ensures { IsFirst result }
    {
        Row {
            state: None,
            needed: Vec::new(alloc),
            door: 0,
            passed: Vec::new(alloc),
        }
    }

    /// The same again. Costs O(its lists).
    pub fn copy(&self) -> Result<Row, AllocError>
        ensures { IfOk result (IsSame self.now) }
    {
        Ok(Row {
            state: self.state,
            needed: self.needed.clone()?,
            door: self.door,
            passed: self.passed.clone()?,
        })
    }

    /// Whether the operation may still take place just before the last write.
    pub fn has_door(&self, call: &Call) -> bool
        ensures { IsTrue result ↔ HasDoor self.now call.now }
    {
        call.since < self.door && !has_id(&self.needed, call.id)
    }

    // The operation is done, or out.
    fn leave(&mut self, id: u32)
        ensures { IsWithoutId id self.old self.new }
    {
        self.needed.retain(|other| *other != id);
    }

    /// The row without the operation. Costs O(its lists).
    pub fn without(&self, id: u32) -> Result<Row, AllocError>
        ensures { IfOk result (IsWithoutId id self.now) }
    {
        let mut row = self.copy()?;
        row.leave(id);
        Ok(row)
    }

    /// Whether the open read may find the value.
    pub fn may_answer(&self, read: &Call, value: i64) -> bool
        ensures { IsTrue result ↔ CanFind self.now value read.now.since }
    {
        self.state == Some(value)
            || self
                .passed
                .iter()
                .any(|passed| passed.value == value && read.since < passed.gap)
    }

    /// Leaves out the values that no read that was invoked at one of these moments may find. Each gap becomes the least that is later than
    /// the same of them. Costs O(found values * moments), and takes no memory.
    pub fn trim(&mut self, moments: &[u64])
        ensures same { FindTheSame moments.now self.old self.new }
        ensures least { HasLeastGaps moments.now self.new }
    {
        cut_gaps(&mut self.passed, moments);
        leave_out_known(&mut self.passed, self.state);
    }

    /// The row as the write takes place at this gap and leaves this state behind all, without the operation that is done by it. From then
    /// on this value may be found before the gap. Costs O(`needed` + `passed`).
    pub fn put(
        &self,
        write: u32,
        value: Option<i64>,
        gap: u64,
        state: Option<i64>,
        done: u32,
    ) -> Result<Row, AllocError>
        ensures { IfOk result (IsPut write value gap state done self.now) }
    {
        let mut row = self.copy()?;
        row.state = state;
        row.door = gap;
        need(&mut row.needed, write, done)?;
        note_any(&mut row.passed, gap, value)?;
        row.leave(done);
        Ok(row)
    }
}
