//! Rows of numbers, each once.
//!
//! While its numbers are small, a row is one word of 128 bits, with the same number of bits for each number. At first a row fills half of
//! the word. The first number that does not fit gives all rows the whole word. Rows that grow longer are written again, with fewer bits for
//! each number. If one row fits no word, all rows become lists, which are found by an index of their hashes. `words` packs words, takes
//! them apart and keeps them. A copy of a set has no index, and makes one at the next put.
//!
//! A call allocates only if its result can be `AllocError`, or a refusal because memory ran out.
#![tactic(auto)]

mod list_set;
mod lists;
mod long_row;
mod marked;
mod row;
mod row_set;

pub use row::Row;
pub use row_set::RowSet;
