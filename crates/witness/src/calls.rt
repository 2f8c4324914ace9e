//! Operations with their answers.

use models::{Answer, Op};

/// An operation, with its answer if it has returned.
#[derive(Drop)]
pub struct Call {
    pub op: Op,
    pub answer: Option<Answer>,
}
