//! The tables of values that events may have.
ghost use Rattle.std.specs.Prelude.{◌↔◌, [], IsTrue};
ghost use Rattle.models.specs.declared.operation.Part.TheVariants.{Set};
ghost use Rattle.events.specs.Tables.{IsPart, IsOkPart, IsPartOf, IsFault, IsInTables, IsRepeat, Completes};

use crate::event::{Body, EventKind, Fault, Process};
use crate::groups::MOST_REPLICAS;
use models::{Name, Op, Part, each_name};
use std::alloc::Global;
use values::Members;

// Whether the part is the one that the name's line has for an invocation.
macro_rules! is_invoked {
    ($name:expr, $part:expr; $($N:ident $text:literal $P:ident $how:ident [$($A:ident)*]),*) => {
        match $name {
            $(Name::$N => matches!($part, Part::$P { .. }),)*
        }
    };
}

// Whether the part is one of those that the name's line has for an ok.
macro_rules! is_answer {
    ($name:expr, $part:expr; $($N:ident $text:literal $P:ident $how:ident [$($A:ident)*]),*) => {
        match $name {
            $(Name::$N => matches!($part, $(Part::$A { .. })|*),)*
        }
    };
}

// Whether an ok of the name says what was found.
macro_rules! is_answered {
    ($name:expr; $($N:ident $text:literal $P:ident $how:ident [$($A:ident)*]),*) => {
        match $name {
            $(Name::$N => is_answered!($how),)*
        }
    };
    (answers) => { true };
    (repeats) => { false };
}

// Whether the part is one of an invocation, a fail or an info of this name.
fn is_part(name: Name, part: &Part) -> bool
    ensures { IsTrue result ↔ IsPart name part.now }
{
    each_name!(is_invoked; name, part)
}

// Whether the part is one of an ok of this name.
fn is_ok_part(name: Name, part: &Part) -> bool
    ensures { IsTrue result ↔ IsOkPart name part.now }
{
    each_name!(is_answer; name, part)
}

/// Whether the part is one that an event of this kind and name may have (this project's own table). Takes constant time.
pub fn is_part_of(kind: EventKind, name: Name, part: &Part) -> bool
    ensures { IsTrue result ↔ IsPartOf kind name part.now }
{
    match kind {
        EventKind::Ok => is_ok_part(name, part),
        _ => is_part(name, part),
    }
}

/// Whether an event of this kind and name may have a set. The members do not matter, so the test is of the empty set.
pub fn takes_sets(alloc: Global, kind: EventKind, name: Name) -> bool
    ensures { IsTrue result ↔ IsPartOf kind name (Set []) }
{
    let empty = Part::Set(Members::new(alloc));
    is_part_of(kind, name, &empty)
}

fn is_fault(fault: &Fault) -> bool
    ensures { IsTrue result ↔ IsFault fault.now }
{
    match fault {
        Fault::Partition(groups) => groups.are_apart(),
        Fault::Heal => true,
        Fault::Pause(replica) => *replica < MOST_REPLICAS,
        Fault::Resume(replica) => *replica < MOST_REPLICAS,
        Fault::Crash(replica) => *replica < MOST_REPLICAS,
        Fault::Restart(replica) => *replica < MOST_REPLICAS,
        Fault::LoseReplies(_) => true,
    }
}

/// Whether an event of this kind and process may be about this. Costs O(a partition's groups).
#[inline(always)]
pub fn is_in_tables(kind: EventKind, process: Process, body: &Body) -> bool
    ensures { IsTrue result ↔ IsInTables kind process body.now }
{
    match process {
        Process::Client(_) => match body {
            Body::Op(op) => is_part_of(kind, op.name, &op.part),
            Body::Fault(_) => false,
        },
        Process::Nemesis => match body {
            Body::Op(_) => false,
            Body::Fault(fault) => matches!(kind, EventKind::Info) && is_fault(fault),
        },
    }
}

// Whether the part of a completion is an answer, or the same as the part of the invocation.
fn repeats(kind: EventKind, invoked: &Part, op: &Op) -> bool
    ensures { IsTrue result ↔ IsRepeat kind op.now.name invoked.now op.now.part }
{
    (matches!(kind, EventKind::Ok) && each_name!(is_answered; op.name)) || op.part.same(invoked)
}

/// Whether a completion of this kind and operation completes the invoked one.
#[inline(always)]
pub fn completes(kind: EventKind, invoked: &Op, op: &Op) -> bool
    ensures { IsTrue result ↔ Completes kind invoked.now op.now }
{
    op.name == invoked.name && op.key == invoked.key && repeats(kind, &invoked.part, op)
}
