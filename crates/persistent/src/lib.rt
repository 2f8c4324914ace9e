//! Rows of values that share what they have in common.
//!
//! A row has one of three forms, by the number of its values. Up to 6 values are stored in place, and take no memory. Up to 128 are stored
//! in a list of the row's own, which each change and each copy makes again: copying these few takes less time than sharing them. More
//! values are stored in a tree, which is balanced by the heights of its parts. A fork has two trees. A leaf has a list of at most 64
//! values, which copies share, and the place of its first value in that list. A change makes one leaf and the forks above it again, and
//! shares all else, so it costs O(log n). A copy takes constant time and no memory. No clause speaks of forms, heights or lengths.
//!
//! A call allocates only if its result can be `AllocError`, or a refusal because memory ran out.
#![tactic(auto)]

pub mod alike;
mod few;
mod lists;
pub mod placed;
pub mod row;
mod tree;

pub use alike::are_same;
pub use placed::Placed;
pub use row::Row;
