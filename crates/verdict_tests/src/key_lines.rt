//! Lines of a few events, against statuses that follow from the definitions by hand.
ghost use Rattle.std.specs.Prelude.{◌≡◌, IfOk};
ghost use Rattle.verdict_tests.specs.LongLine.{writes, writes_from};

use crate::plain::event;
use checkpoints::KeyLine;
use events::{Body, Event, EventKind, Fault, Process};
use kinds::ModelKind;
use linspec::KeyStatus;
use models::{Name, Part};
use std::alloc::{AllocError, Global};

// A release of a mutex that nobody holds: the effects of its crash, its fail and its ok, each prepared alone; and the status before the
// commit and after it.
fn of_a_release(alloc: Global) -> Result<[KeyStatus; 5], AllocError> {
    let mut line = KeyLine::new(alloc, ModelKind::Mutex, 4096)?;
    line.push(0, &event(0, EventKind::Invoke, Name::Release, Part::Nil))?;
    let crashed = line.prepare_push(1, &event(0, EventKind::Info, Name::Release, Part::Nil))?;
    let failed = line.prepare_push(1, &event(0, EventKind::Fail, Name::Release, Part::Nil))?;
    let returned = line.prepare_push(1, &event(0, EventKind::Ok, Name::Release, Part::Nil))?;
    let before = line.status();
    line.commit();
    Ok([crashed, failed, returned, before, line.status()])
}

// The status of a line of a fault and a write, and how many events it has.
fn behind_a_fault(alloc: Global) -> Result<(KeyStatus, usize), AllocError> {
    let mut line = KeyLine::new(alloc, ModelKind::Register, 4096)?;
    let heal = Event {
        index: None,
        kind: EventKind::Info,
        process: Process::Nemesis,
        body: Body::Fault(Fault::Heal),
    };
    line.push(0, &heal)?;
    line.push(1, &event(0, EventKind::Invoke, Name::Write, Part::Int(1)))?;
    line.push(2, &event(0, EventKind::Ok, Name::Write, Part::Int(1)))?;
    Ok((line.status(), line.len()))
}

// 65 times a write of 1 that returns: 130 events, of indices 0 to 129.
fn written(alloc: Global) -> Result<KeyLine, AllocError>
    ensures { IfOk result (λ made. made.now.events ≡ writes_from 0 65) }
{
    let mut line = KeyLine::new(alloc, ModelKind::Register, 4096)?;
    for round in 0..65 {
        line.push(
            2 * round,
            &event(0, EventKind::Invoke, Name::Write, Part::Int(1)),
        )?;
        line.push(
            2 * round + 1,
            &event(0, EventKind::Ok, Name::Write, Part::Int(1)),
        )?;
    }
    Ok(line)
}

// The events of such a line alone, which are the history that it borrows from.
fn writes_made(alloc: Global) -> Result<Vec<Event>, AllocError>
    ensures { IfOk result (λ made. made.items ≡ writes 65) }
{
    let mut events = Vec::new(alloc);
    for _ in 0..65u32 {
        events.push(event(0, EventKind::Invoke, Name::Write, Part::Int(1)))?;
        events.push(event(0, EventKind::Ok, Name::Write, Part::Int(1)))?;
    }
    Ok(events)
}

// How many events a cut of such a line judges again, and how many it leaves.
fn after_cut(alloc: Global, n: u32) -> Result<(u64, usize), AllocError> {
    let borrowed = writes_made(alloc)?;
    let mut line = written(alloc)?;
    let before = line.replayed();
    line.cut(n, &borrowed)?;
    Ok((line.replayed().wrapping_sub(before), line.len()))
}

// A cut judges again only what stays behind the last 64th event.
const CUTS: [(u32, u64, usize); 4] = [(130, 0, 130), (129, 1, 129), (127, 63, 127), (64, 0, 64)];

// The status of such a line; and the number of its replays, then of another kind, and then if a cut is prepared, with those that it would
// add before the last.
fn replays(alloc: Global) -> Result<(KeyStatus, [u64; 4]), AllocError> {
    let borrowed = writes_made(alloc)?;
    let mut line = written(alloc)?;
    let status = line.status();
    let first = line.replayed();
    line.rebuild(ModelKind::CasRegister, 4096, &borrowed)?;
    let second = line.replayed();
    line.prepare_cut(127, &borrowed)?;
    Ok((
        status,
        [first, second, line.prepared_replays(), line.replayed()],
    ))
}

// Two events, of indices 3 and 5.
fn three_and_five(alloc: Global) -> Result<KeyLine, AllocError> {
    let mut line = KeyLine::new(alloc, ModelKind::Register, 4096)?;
    line.push(3, &event(0, EventKind::Invoke, Name::Write, Part::Int(1)))?;
    line.push(5, &event(0, EventKind::Ok, Name::Write, Part::Int(1)))?;
    Ok(line)
}

// Whether an empty line loses events, and begins below.
fn of_nothing(alloc: Global) -> Result<(bool, bool), AllocError> {
    let line = KeyLine::new(alloc, ModelKind::Register, 4096)?;
    Ok((line.loses(0), line.begins_below(9)))
}

fn of_two(alloc: Global, n: u32) -> Result<(bool, bool), AllocError> {
    let line = three_and_five(alloc)?;
    Ok((line.loses(n), line.begins_below(n)))
}

// Whether a cut takes events away, and whether there are events before it.
const OF_TWO: [(u32, (bool, bool)); 5] = [
    (0, (true, false)),
    (3, (true, false)),
    (4, (true, true)),
    (5, (true, true)),
    (6, (false, true)),
];

// A mutex that nobody holds is not released, while a release may crash or fail. A prepared change counts once it is committed.
const OF_A_RELEASE: [KeyStatus; 5] = [
    KeyStatus::Alive,
    KeyStatus::Alive,
    KeyStatus::Dead(1),
    KeyStatus::Alive,
    KeyStatus::Dead(1),
];

// Each event that is pushed is one replay, another kind judges each once more, and a cut counts once it is committed.
const REPLAYS: (KeyStatus, [u64; 4]) = (KeyStatus::Alive, [130, 260, 63, 260]);

#[test]
fn lines_answer(rt: HostRuntime) {
    let alloc = rt.alloc();
    assert!(rt; of_a_release(alloc) == Ok(OF_A_RELEASE));
    assert!(rt; behind_a_fault(alloc) == Ok((KeyStatus::Alive, 3)));
    for (n, again, left) in &CUTS {
        assert!(rt; after_cut(alloc, *n) == Ok((*again, *left)));
    }
    assert!(rt; replays(alloc) == Ok(REPLAYS));
    assert!(rt; of_nothing(alloc) == Ok((false, false)));
    for (n, want) in &OF_TWO {
        assert!(rt; of_two(alloc, *n) == Ok(*want));
    }
}
