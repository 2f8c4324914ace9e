//! What an operation finds.
ghost use Rattle.std.specs.Prelude.{◌↔◌, IsTrue};
ghost use Rattle.rules.specs.Meaning.{Fits};

/// The answers that an operation finds, if it takes place. Different ones fit different answers.
#[derive(Clone, Copy, Debug, PartialEq, Eq, Hash)]
pub enum Found {
    /// Nothing to tell: fits every answer.
    Anything,
    /// Fits this value alone.
    Exactly(Option<i64>),
    /// Fits this integer, and nil, which says nothing.
    OrNil(i64),
}

/// Whether the answer, nil or an integer, fits what was found. An answer of another form fits [`Found::Anything`] alone. Takes constant time.
pub fn fits(found: Found, answer: Option<i64>) -> bool
    ensures { IsTrue result ↔ Fits found answer }
{
    match found {
        Found::Anything => true,
        Found::Exactly(value) => value == answer,
        Found::OrNil(value) => match answer {
            None => true,
            Some(told) => told == value,
        },
    }
}
