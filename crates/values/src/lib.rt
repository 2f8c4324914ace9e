//! Integers as states of objects: the members of a set, in a list or as spans; the items of a queue; the values of a queue without an
//! order. A copy of up to 128 values copies them, and a copy of more shares them.
//!
//! The sum of the values is kept with them, and is the hashed number. Each value is mixed to 128 bits and added. The items of a queue are
//! weighed by powers of a fixed odd number, by their places. So one value more or less changes the sum in a few steps. Values whose sums
//! differ are different. If the sums are equal the values are compared one by one, so no answer depends on the mixing.
//!
//! A call takes memory only if its result can be `AllocError`.
#![tactic(auto)]

mod copies;
pub mod items;
pub mod laws;
pub mod members;
pub mod multiset;
mod span_row;
pub mod spans;

pub use items::Items;
pub use members::Members;
pub use multiset::Multiset;
pub use spans::Spans;
