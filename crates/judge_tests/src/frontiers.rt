//! Answers of frontiers that no command shows: each event by its own call, a key over budget twice, and the counts of steps.
use crate::judge_rows::Answer::{Nil, One};
use crate::judge_rows::{Case, Row, Steps};
use events::EventKind::{Fail as Failed, Invoke, Ok as Done};
use frontier::Step::{Alive, Dead, Over};
use frontier::{Frontier, Step};
use models::Name::{Enqueue, Read, Write};
use models::{Answer, Name, Op, Part, Register};
use std::alloc::{AllocError, Global};

// Five ends stand before the ok: no enqueue, either alone, and both in either order. Over leaves the frontier as it was: the other enqueue may
// still fail, and then there are fewer.
const BLOWN_TWICE: [Row; 6] = [
    (0, Invoke, Enqueue, One(5), Alive),
    (1, Invoke, Enqueue, One(6), Alive),
    (0, Done, Enqueue, One(5), Over),
    (0, Done, Enqueue, One(5), Over),
    (1, Failed, Enqueue, One(6), Alive),
    (0, Done, Enqueue, One(5), Alive),
];

const OPEN_ENQUEUES: [Row; 2] = [
    (0, Invoke, Enqueue, One(5), Alive),
    (1, Invoke, Enqueue, One(6), Alive),
];

// The ok finds five ends: it tries both enqueues on the empty queue, the second one on each end with the first, and none on the two ends
// with both.
const TWO_ENQUEUES: [Row; 3] = [
    (0, Invoke, Enqueue, One(5), Alive),
    (1, Invoke, Enqueue, One(6), Alive),
    (0, Done, Enqueue, One(5), Alive),
];

/// Cases of queues.
pub const OF_QUEUES: [Case; 3] = [
    (4, &BLOWN_TWICE, Steps::Any),
    (5, &OPEN_ENQUEUES, Steps::Are(0)),
    (5, &TWO_ENQUEUES, Steps::Are(4)),
];

const OPEN_WRITES: [Row; 3] = [
    (0, Invoke, Write, One(1), Alive),
    (1, Invoke, Write, One(2), Alive),
    (2, Invoke, Read, Nil, Alive),
];

// Two writes of different values are open, and a read returns. An invocation tries nothing, and the ok no more than each of
// the open operations on one more end than the budget.
const TWO_WRITES: [Row; 4] = [
    (0, Invoke, Write, One(1), Alive),
    (1, Invoke, Write, One(2), Alive),
    (2, Invoke, Read, Nil, Alive),
    (2, Done, Read, One(1), Over),
];

/// Cases of registers.
pub const OF_REGISTERS: [Case; 2] = [
    (5, &OPEN_WRITES, Steps::Are(0)),
    (5, &TWO_WRITES, Steps::AreAtMost(12)),
];

/// An event by its own call.
#[derive(Clone, Copy)]
enum Call {
    Write(i64),
    Read,
    Ok(i64),
    Fail,
    Crash,
}

fn op(name: Name, part: Part) -> Op {
    Op { name, key: 7, part }
}

// The answer of the call for this operation; an invocation and a crash leave the frontier alive.
fn answer(frontier: &mut Frontier<Register>, id: u32, call: Call) -> Result<Step, AllocError> {
    match call {
        Call::Write(value) => frontier.invoke(id, op(Name::Write, Part::Int(value)))?,
        Call::Read => frontier.invoke(id, op(Name::Read, Part::Nil))?,
        Call::Ok(value) => return frontier.ok(id, &Answer::Number(value)),
        Call::Fail => return frontier.fail(id),
        Call::Crash => frontier.crash(id)?,
    }
    Ok(Alive)
}

// Whether a new frontier answers each call so.
fn are_answered(alloc: Global, budget: u32, rows: &[Own]) -> Result<bool, AllocError> {
    let mut frontier = Frontier::start(alloc, budget)?;
    for (id, call, want) in rows {
        if answer(&mut frontier, *id, *call)? != *want {
            return Ok(false);
        }
    }
    Ok(true)
}

/// Calls of a frontier, and their answers.
type Own = (u32, Call, Step);

// Just before the ok there are two ends: the write has taken place or not.
const BLOWN: [Own; 2] = [(0, Call::Write(3), Alive), (0, Call::Ok(3), Over)];

// A read has found a write that then fails.
const FAILED_WRITE: [Own; 4] = [
    (0, Call::Write(1), Alive),
    (1, Call::Read, Alive),
    (1, Call::Ok(1), Alive),
    (0, Call::Fail, Dead),
];

// A write of 2 has crashed after a write of 1: a read may find 1 and the next one 2, and then none finds 1.
const CRASHED_WRITE: [Own; 10] = [
    (0, Call::Write(1), Alive),
    (0, Call::Ok(1), Alive),
    (2, Call::Write(2), Alive),
    (2, Call::Crash, Alive),
    (4, Call::Read, Alive),
    (4, Call::Ok(1), Alive),
    (6, Call::Read, Alive),
    (6, Call::Ok(2), Alive),
    (8, Call::Read, Alive),
    (8, Call::Ok(1), Dead),
];

#[test]
fn frontiers_answer(rt: HostRuntime) {
    let alloc = rt.alloc();
    assert!(rt; are_answered(alloc, 1, &BLOWN) == Ok(true));
    assert!(rt; are_answered(alloc, 4096, &FAILED_WRITE) == Ok(true));
    assert!(rt; are_answered(alloc, 4096, &CRASHED_WRITE) == Ok(true));
}
