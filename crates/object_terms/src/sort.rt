//! The sorts of values that a term may have, for faults that can be seen in the text.

/// The sort of the values of a term.
#[derive(Clone, Copy, Debug, PartialEq, Eq)]
pub enum Sort {
    /// Integers.
    Number,
    /// True or false.
    Truth,
    /// Nil, true, false or integers.
    Any,
}

impl Sort {
    /// In words.
    pub fn text(self) -> &'static str {
        match self {
            Sort::Number => "a number",
            Sort::Truth => "true or false",
            Sort::Any => "one value",
        }
    }
}
