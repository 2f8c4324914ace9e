//! Histories of sets.
use crate::judge_rows::Answer::{All, Nil, One};
use crate::judge_rows::{Case, Row, Steps};
use events::EventKind::{Fail as Failed, Info as Crashed, Invoke, Ok as Done};
use frontier::Step::{Alive, Dead};
use models::Name::{Add, Read, Write};

const STALE_READ: [Row; 4] = [
    (0, Invoke, Add, One(5), Alive),
    (0, Done, Add, One(5), Alive),
    (1, Invoke, Read, Nil, Alive),
    (1, Done, Read, All(&[]), Dead),
];

const CROSSED_ANSWERS: [Row; 8] = [
    (0, Invoke, Add, One(5), Alive),
    (1, Invoke, Add, One(6), Alive),
    (2, Invoke, Read, Nil, Alive),
    (3, Invoke, Read, Nil, Alive),
    (2, Done, Read, All(&[5]), Alive),
    (3, Done, Read, All(&[6]), Dead),
    (0, Done, Add, One(5), Dead),
    (4, Invoke, Read, Nil, Alive),
];

const FAILED_ADD_WAS_READ: [Row; 4] = [
    (0, Invoke, Add, One(5), Alive),
    (1, Invoke, Read, Nil, Alive),
    (1, Done, Read, All(&[5]), Alive),
    (0, Failed, Add, One(5), Dead),
];

const ANOTHER_ADD_STAYS: [Row; 7] = [
    (0, Invoke, Add, One(5), Alive),
    (1, Invoke, Add, One(5), Alive),
    (2, Invoke, Read, Nil, Alive),
    (2, Done, Read, All(&[5]), Alive),
    (0, Failed, Add, One(5), Alive),
    (1, Crashed, Add, One(5), Alive),
    (3, Invoke, Write, One(5), Alive),
];

const READ_BACKWARDS: [Row; 7] = [
    (0, Invoke, Add, One(5), Alive),
    (1, Invoke, Read, Nil, Alive),
    (1, Done, Read, All(&[5]), Alive),
    (2, Invoke, Read, Nil, Alive),
    (2, Done, Read, All(&[5]), Alive),
    (3, Invoke, Read, Nil, Alive),
    (3, Done, Read, All(&[]), Dead),
];

const LATE_ANSWER: [Row; 8] = [
    (0, Invoke, Read, Nil, Alive),
    (1, Invoke, Add, One(5), Alive),
    (1, Done, Add, One(5), Alive),
    (2, Invoke, Add, One(6), Alive),
    (2, Crashed, Add, One(6), Alive),
    (3, Invoke, Read, Nil, Alive),
    (3, Done, Read, All(&[6, 5]), Alive),
    (0, Done, Read, All(&[]), Alive),
];

const ADDED_AGAIN: [Row; 12] = [
    (0, Invoke, Add, One(5), Alive),
    (0, Done, Add, One(5), Alive),
    (1, Invoke, Read, Nil, Alive),
    (1, Done, Read, All(&[5]), Alive),
    (2, Invoke, Add, One(5), Alive),
    (3, Invoke, Read, Nil, Alive),
    (3, Done, Read, All(&[5]), Alive),
    (2, Failed, Add, One(5), Alive),
    (4, Invoke, Add, One(6), Alive),
    (4, Crashed, Add, One(6), Alive),
    (5, Invoke, Read, Nil, Alive),
    (5, Done, Read, All(&[6]), Dead),
];

const NIL_IS_NO_SET: [Row; 2] = [(0, Invoke, Read, Nil, Alive), (0, Done, Read, Nil, Dead)];

/// The cases of sets. No operation is tried, and no budget is exceeded.
pub const CASES: [Case; 8] = [
    (1, &STALE_READ, Steps::Are(0)),
    (1, &CROSSED_ANSWERS, Steps::Are(0)),
    (1, &FAILED_ADD_WAS_READ, Steps::Are(0)),
    (1, &ANOTHER_ADD_STAYS, Steps::Are(0)),
    (1, &READ_BACKWARDS, Steps::Are(0)),
    (1, &LATE_ANSWER, Steps::Are(0)),
    (1, &ADDED_AGAIN, Steps::Are(0)),
    (1, &NIL_IS_NO_SET, Steps::Are(0)),
];
