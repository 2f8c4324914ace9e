//! Rows of numbers as words, and sets of words.
//!
//! A word of 128 bits has the numbers of a row, each with the same number of bits, the first in the lowest bits. The words of a set are in
//! a list. They are appended, removed from its end, and found by an index of `buckets` if there are more than a few. A copy of a set has no
//! index, and makes one at the next put.
//!
//! A call allocates only if its result can be `AllocError`.
#![tactic(auto)]

mod index;
mod word_set;
mod words;

pub use word_set::WordSet;
pub use words::{
    changed, first_in_half, first_of, has_zero_in_half, has_zero_in_whole, largest_of, number_at,
    packed, unpack, without,
};
