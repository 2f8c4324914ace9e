//! The parts of rules.

use crate::term::Term;

/// The number of the name `read`. An operation of this name leaves the state as it was, whatever its cases set.
pub const READ: u8 = 0;

/// The least and the greatest value of a variable, both of them included.
#[derive(Clone, Copy, Debug, PartialEq, Eq)]
pub struct Limits {
    pub least: i64,
    pub greatest: i64,
}

/// A variable of the state.
#[derive(Clone, Copy, Debug, PartialEq, Eq)]
pub struct Variable {
    /// The value that it holds at first: nil or an integer.
    pub start: Option<i64>,
    /// If it has limits, it is an integer within them after each operation that sets it.
    pub limits: Option<Limits>,
}

/// A variable, by its place, and the value that it holds afterwards, computed in the state before.
#[derive(Drop)]
pub struct Assignment {
    pub variable: u8,
    pub value: Term,
}

/// The answer that the ok of an operation must have.
#[derive(Drop)]
pub enum Answer {
    /// Anything.
    Any,
    /// This value.
    Exactly(Term),
    /// This value, or nil, which says nothing.
    OrNil(Term),
}

/// A case of an operation. It holds if its condition is 1, each value in it exists, and each variable that it sets stays in its limits.
#[derive(Drop)]
pub struct Case {
    pub when: Term,
    pub set: Vec<Assignment>,
    pub answer: Answer,
}

/// An operation: the number of its name, how many integers are given to it, and its cases in order.
#[derive(Drop)]
pub struct Operation {
    pub name: u8,
    pub given: u8,
    pub cases: Vec<Case>,
}
