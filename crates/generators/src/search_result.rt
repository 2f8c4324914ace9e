//! The answer of a generator, as the search for an item finds it.
ghost use Rattle.std.specs.Prelude.{◌≡◌, IfOk, OnErr};
ghost use Rattle.generators.specs.SearchResults.{under, IsItem};

use crate::item::Item;
use crate::path::Path;
use std::alloc::AllocError;

/// What a generator answers. It says nothing of the generator afterwards, which has not moved yet.
#[derive(Drop)]
pub enum SearchResult {
    /// An item, and the path to it.
    Gives(Item, Path),
    /// None, and whether one may come later.
    Declines(bool),
}

impl SearchResult {
    /// The answer of the child at `place` as the answer of the generator above it. If the child declines, an item may come later if
    /// `others` is true. Only the path to an item needs memory.
    pub fn under(self, place: usize, others: bool) -> Result<SearchResult, AllocError>
        ensures answer { IfOk result (λ answer. answer ≡ under place others self) }
        ensures item { OnErr result (IsItem self) }
    {
        match self {
            SearchResult::Gives(item, path) => Ok(SearchResult::Gives(item, path.under(place)?)),
            SearchResult::Declines(later) => Ok(SearchResult::Declines(later || others)),
        }
    }
}
