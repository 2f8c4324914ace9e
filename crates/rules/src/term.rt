//! Terms, which are computed in a rule.

/// An operation on two values. Those on numbers have no value at nil. A sum or a difference that leaves the integers of 64 bits has none.
#[derive(Clone, Copy, Debug, PartialEq, Eq)]
pub enum Operator {
    Plus,
    Minus,
    /// The remainder, from 0 on, of a division by a positive number. By any other number it has no value.
    Mod,
    Min,
    Max,
    /// Whether both are the same value, nil or a number: 1, or else 0. So do the comparisons below.
    Eq,
    Ne,
    Lt,
    Le,
    Gt,
    Ge,
}

/// A term, which is computed in a rule. Its value is nil or an integer of 64 bits; 1 says true, and 0 false. It may have no value.
#[derive(Drop)]
pub enum Term {
    /// This value.
    Constant(Option<i64>),
    /// The value of the variable of this place, in the state before.
    Variable(u8),
    /// The integer of this place among those that are given to the operation.
    Given(u8),
    /// The operator on the values of both terms.
    Combined(Operator, Box<Term>, Box<Term>),
    /// The value of the second term if that of the first is 1, and of the third if it is 0. The other one is not looked at.
    If(Box<Term>, Box<Term>, Box<Term>),
}
