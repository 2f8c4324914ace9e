//! Sets of integers as spans of consecutive ones.
ghost use Rattle.std.specs.Hash as fed;
ghost use Rattle.std.specs.Prelude.{◌≡◌, ◌+◌, ◌≤◌, ◌<◌, ◌<ℤ◌, ◌≤ℤ◌, ◌+ℤ◌, ◌-ℤ◌, pos, true, false, IfOk, OnOk, [], ◌++◌, List, ℤ, drop, get_or, length, min, take};
ghost use Rattle.std.specs.List.{Contains};
ghost use Rattle.std.specs.Ordering.{int_eq};
ghost use Rattle.std.specs.Cmp.Lexicographic.{pointwise};
ghost use Rattle.values.specs.declared.span_row.Span.{Span};
ghost use Rattle.values.specs.Members.{put_in};
ghost use Rattle.values.specs.Comparisons.{ints_alike, ints_equal, sum_fed, sum_fed-alike};
ghost use Rattle.values.specs.Spans.{AreSpans, EndBefore, StandApart, StartBehind, from_to, integers_in};

use crate::members::{Members, mixed};
use crate::span_row::{Span, SpanRow};
use std::alloc::{AllocError, Global};
use std::hash::{Hash, Hasher};
use std::marker::Model;

/// A set of integers, by its spans in ascending order. A span has as many consecutive members as there are, so each set has one row of
/// spans, and comparing two sets costs O(spans), not O(members). Two sets share their common parts if one was made from the other.
pub struct Spans {
    alloc: Global,
    spans: SpanRow,
    sum: u128,
}

impl Model for Spans {
    ghost use Rattle.std.specs.Prelude.{List, ℤ};
    ghost use Rattle.values.specs.Spans.{AreSpans, integers_in};

    ghost Value = { List ℤ };

    ghost view = { λ a. integers_in a.spans };

    ghost invariant = { λ a. AreSpans a.spans a.sum };
}

// So that crates above give one back by one call.
impl Drop for Spans {
    #[inline(always)]
    fn drop(self) {
        let Spans {
            alloc: _alloc,
            spans: _spans,
            sum: _sum,
        } = self;
    }
}

// Whether there is a span at this place, and it starts at the value or before.
fn starts_by(spans: &SpanRow, at: usize, value: i64) -> bool
    ensures starts { result ≡ true → (d : Span)
        → (at < length spans.now) × ((get_or spans.now at d).from ≤ℤ value) }
    ensures later { result ≡ false → (d : Span)
        → at < length spans.now → value <ℤ (get_or spans.now at d).from }
{
    at < spans.len() && spans.first_at(at) <= value
}

// The begin of the span that gets a value, which is put in behind the first `at` spans: the number of spans that stay before it, and its
// first integer. The last of the `at` spans is joined with it, unless an integer is missing between both.
fn start_of(spans: &SpanRow, at: usize, value: i64) -> (usize, i64)
    requires apart { StandApart (take at spans.now) }
    requires place { at ≤ length spans.now }
    requires before { (span : Span) → Contains (take at spans.now) span → span.to <ℤ value }
    ensures within { result.0 ≤ at }
    ensures near { at ≤ result.0 + 1 }
    ensures reaches { result.1 ≤ℤ value }
    ensures apart { EndBefore (take result.0 spans.now) result.1 }
    ensures integers { integers_in (take at spans.now)
        ≡ integers_in (take result.0 spans.now) ++ from_to result.1 (value -ℤ pos 1) }
{
    if at > 0 {
        let last = spans.last_at(at - 1);
        if last + 1 == value {
            return (at - 1, spans.first_at(at - 1));
        }
    }
    (at, value)
}

// The end of the span that gets a value, which is put in before the span at place `at`. Returns the place of the first span that stays behind
// it, and its last integer. The span at place `at` is joined with it, unless an integer is missing between both.
fn end_of(spans: &SpanRow, at: usize, value: i64) -> (usize, i64)
    requires apart { StandApart (drop at spans.now) }
    requires place { at ≤ length spans.now }
    requires behind { (span : Span) → Contains (drop at spans.now) span → value <ℤ span.from }
    ensures within { result.0 ≤ length spans.now }
    ensures follows { at ≤ result.0 }
    ensures near { result.0 ≤ at + 1 }
    ensures reaches { value ≤ℤ result.1 }
    ensures apart { StartBehind (drop result.0 spans.now) result.1 }
    ensures integers { integers_in (drop at spans.now)
        ≡ from_to (value +ℤ pos 1) result.1 ++ integers_in (drop result.0 spans.now) }
{
    if at < spans.len() {
        let next = spans.first_at(at);
        if next - 1 == value {
            return (at + 1, spans.last_at(at));
        }
    }
    (at, value)
}

// The number of integers in these spans, or `usize::MAX` if there are more.
fn room_of(spans: &[Span]) -> usize
    requires { StandApart spans.now }
    ensures { result ≡ min (length (integers_in spans.now)) usize.MAX }
{
    let mut room: usize = 0;
    for at in 0..spans.len() {
        room = room
            .saturating_add(spans[at].to.abs_diff(spans[at].from) as usize)
            .saturating_add(1);
    }
    room
}

// The number of integers in the whole row of spans, or `usize::MAX` if there are more.
fn room_for(spans: &SpanRow) -> usize
    requires { StandApart spans.now }
    ensures { result ≡ min (length (integers_in spans.now)) usize.MAX }
{
    let len = spans.len();
    let mut room: usize = 0;
    let mut at = 0;
    'parts: while at < len {
        let part = spans.part_at(at);
        room = room.saturating_add(room_of(part));
        at += part.len();
    }
    room
}

// Puts the integers from the first to the last behind the others.
fn append_integers(items: &mut Vec<i64>, from: i64, to: i64) -> Result<(), AllocError>
    requires { from ≤ℤ to }
    ensures { OnOk result (items.new.items ≡ items.old.items ++ from_to from to) }
{
    let mut value = from;
    loop {
        items.push(value)?;
        if value == to {
            return Ok(());
        }
        value += 1;
    }
}

// Puts the integers of these spans behind the others.
fn append_spans(items: &mut Vec<i64>, spans: &[Span]) -> Result<(), AllocError>
    requires { StandApart spans.now }
    ensures { OnOk result (items.new.items ≡ items.old.items ++ integers_in spans.now) }
{
    for at in 0..spans.len() {
        append_integers(items, spans[at].from, spans[at].to)?;
    }
    Ok(())
}

impl Spans {
    /// The empty set.
    pub fn new(alloc: Global) -> Spans
        ensures { result ≡ [] }
    {
        Spans {
            alloc,
            spans: SpanRow::new(),
            sum: 0,
        }
    }

    /// An equal set. Costs time and memory in O(spans) up to 128 spans, and else constant time and no memory. `AllocError` if there is no
    /// memory, or if as many sets share the spans as can be counted.
    pub fn copy(&self) -> Result<Spans, AllocError>
        ensures { IfOk result (λ other. other ≡ self.now) }
    {
        Ok(Spans {
            alloc: self.alloc,
            spans: self.spans.copy()?,
            sum: self.sum,
        })
    }

    /// The set with the value put in. Costs time and memory in O(spans) up to 128 spans, and else in O(log n). It takes no memory if the
    /// value is in already and there are more than 128 spans.
    pub fn with(&self, value: i64) -> Result<Spans, AllocError>
        ensures { IfOk result (λ more. more ≡ put_in value self.now) }
    {
        let at = self.spans.place_of(value);
        if starts_by(&self.spans, at, value) {
            return self.copy();
        }
        let (before, from) = start_of(&self.spans, at, value);
        let (behind, to) = end_of(&self.spans, at, value);
        let spans = self
            .spans
            .spliced(self.alloc, before, behind, Span { from, to })?;
        Ok(Spans {
            alloc: self.alloc,
            spans,
            sum: self.sum.wrapping_add(mixed(value)),
        })
    }

    /// The set by its members. Costs O(members).
    pub fn to_members(&self) -> Result<Members, AllocError>
        ensures { IfOk result (λ members. members ≡ self.now) }
    {
        let mut items = Vec::with_capacity(self.alloc, room_for(&self.spans))?;
        let len = self.spans.len();
        let mut at = 0;
        'parts: while at < len {
            let part = self.spans.part_at(at);
            append_spans(&mut items, part)?;
            at += part.len();
        }
        Members::of_listed(items, self.sum)
    }
}

impl PartialEq for Spans {
    ghost eq = { pointwise int_eq };

    ghost laws = { ints_alike };

    fn eq(&self, other: &Spans) -> bool {
        self.sum == other.sum && self.spans.same(&other.spans)
    }
}

impl Eq for Spans {
    ghost laws = { ints_equal };
}

impl Hash for Spans {
    ghost hash_input = { sum_fed };

    ghost respects_eq = { sum_fed-alike };

    fn hash<H: Hasher>(&self, state: &mut H) {
        self.sum.hash(state);
    }
}
