//! The values that operations find, and the answers of clients.
ghost use Rattle.std.specs.Prelude.{◌≡◌, ◌↔◌, IsTrue, IfOk};
ghost use Rattle.models.specs.Objects.{Fits, answer_of};

use crate::operation::Part;
use std::alloc::AllocError;
use values::Members;

/// The value that an operation finds where it takes place (a sequential specification; Herlihy and Wing 1990, section 2).
#[derive(Drop)]
pub enum Found {
    /// No answer, as for a write.
    Unit,
    /// The state of a register, nil at first.
    Reg(Option<i64>),
    /// The first item of a queue.
    Item(i64),
    /// The members of a set.
    Elements(Members),
}

impl Found {
    /// An equal value, which shares the members of a set. Takes constant time, and no memory; `AllocError` if as many
    /// share them as can be counted.
    pub fn copy(&self) -> Result<Found, AllocError>
        ensures { IfOk result (λ other. other ≡ self.now) }
    {
        match self {
            Found::Unit => Ok(Found::Unit),
            Found::Reg(state) => Ok(Found::Reg(*state)),
            Found::Item(value) => Ok(Found::Item(*value)),
            Found::Elements(members) => Ok(Found::Elements(members.copy()?)),
        }
    }

    /// Whether both are the same.
    pub fn same(&self, other: &Found) -> bool
        ensures { IsTrue result ↔ (self.now ≡ other.now) }
    {
        match (self, other) {
            (Found::Unit, Found::Unit) => true,
            (Found::Reg(a), Found::Reg(b)) => *a == *b,
            (Found::Item(a), Found::Item(b)) => *a == *b,
            (Found::Elements(a), Found::Elements(b)) => a.same(b),
            _ => false,
        }
    }
}

/// The answer in the completion of an operation.
#[derive(Drop)]
pub enum Answer {
    /// Nothing, which is nil.
    Nothing,
    /// An integer.
    Number(i64),
    /// Two integers.
    Numbers(i64, i64),
    /// A set of integers.
    Many(Members),
}

impl Answer {
    /// The answer that the part of an ok gives. Moves the part and takes no memory.
    pub fn of_part(part: Part) -> Answer
        ensures { result ≡ answer_of part }
    {
        match part {
            Part::Nil => Answer::Nothing,
            Part::Int(a) => Answer::Number(a),
            Part::Pair(a, b) => Answer::Numbers(a, b),
            Part::Set(members) => Answer::Many(members),
        }
    }

    /// An equal value, which shares the members of a set. Takes constant time, and no memory; `AllocError` if as many
    /// share them as can be counted.
    pub fn copy(&self) -> Result<Answer, AllocError>
        ensures { IfOk result (λ other. other ≡ self.now) }
    {
        match self {
            Answer::Nothing => Ok(Answer::Nothing),
            Answer::Number(a) => Ok(Answer::Number(*a)),
            Answer::Numbers(a, b) => Ok(Answer::Numbers(*a, *b)),
            Answer::Many(members) => Ok(Answer::Many(members.copy()?)),
        }
    }
}

/// Whether the value that was found agrees with the answer. A register answers its state or nil, a queue its front alone, and a set its
/// members alone. An operation that finds nothing agrees with every answer (this project's own).
pub fn fits(found: &Found, answer: &Answer) -> bool
    ensures { IsTrue result ↔ Fits found.now answer.now }
{
    match (found, answer) {
        (Found::Unit, _) => true,
        (Found::Reg(_), Answer::Nothing) => true,
        (Found::Reg(state), Answer::Number(a)) => *state == Some(*a),
        (Found::Item(value), Answer::Number(a)) => *value == *a,
        (Found::Elements(members), Answer::Many(others)) => members.same(others),
        _ => false,
    }
}
