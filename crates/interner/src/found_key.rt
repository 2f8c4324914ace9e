//! An answer as a key for looking it up.
ghost use Rattle.std.specs.Prelude.{◌≡◌, IfOk};
ghost use Rattle.interner.specs.FoundKeys.{found_of};

use models::Found;
use std::alloc::AllocError;
use values::Members;

/// The answer of an operation, with an order. Two are equal if the same was found.
#[derive(PartialEq, Eq, PartialOrd, Ord, Drop)]
pub enum FoundKey {
    Unit,
    Reg(Option<i64>),
    Item(i64),
    Elements(Members),
}

impl FoundKey {
    /// The key of the answer.
    pub fn of(found: Found) -> FoundKey
        ensures { found_of result ≡ found }
    {
        match found {
            Found::Unit => FoundKey::Unit,
            Found::Reg(state) => FoundKey::Reg(state),
            Found::Item(value) => FoundKey::Item(value),
            Found::Elements(members) => FoundKey::Elements(members),
        }
    }

    /// The answer, which shares the members of a set. Takes constant time, and no memory; `AllocError` if as many share them as can be
    /// counted.
    pub fn found(&self) -> Result<Found, AllocError>
        ensures { IfOk result (λ found. found ≡ found_of self.now) }
    {
        match self {
            FoundKey::Unit => Ok(Found::Unit),
            FoundKey::Reg(state) => Ok(Found::Reg(*state)),
            FoundKey::Item(value) => Ok(Found::Item(*value)),
            FoundKey::Elements(members) => Ok(Found::Elements(members.copy()?)),
        }
    }
}
