//! Products of sets of numbers, each of which stands for many rows.
//!
//! A product is a first number, and a set of numbers for each place after it. It contains each row that has this first number and one
//! number of each set. No row is in two products, so rows are counted by multiplying. A set is one word: numbers below 63 are its bits, and
//! any other number is alone in its set. A product that is put is cut into pieces at the last product that shares a row with it. Each piece
//! is merged with a product from which it differs at a single place, if there is one.
//!
//! A call allocates only if its result can be `AllocError`, or a refusal because memory ran out.
#![tactic(auto)]

pub mod appending;
pub mod number_set;
mod product;
mod products;
mod scratch;
mod taking;

pub use products::Products;
pub use scratch::Scratch;
pub use taking::take_marked;
