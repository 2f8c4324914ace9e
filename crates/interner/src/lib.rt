//! Tables of values with small numbers. Each different state and each different answer is stored once and has a number, so that ends are
//! rows of numbers.
//!
//! A state is found by an index of the states' hashes, and compared if the hash is the same. The first thirty-two answers are compared
//! in turn, and more are looked up by an order.
//!
//! A call allocates only if its result can be `AllocError`, or a refusal because memory ran out.
#![tactic(auto)]

mod found_key;
pub mod founds;
mod index;
pub mod states;

pub use founds::FoundTable;
pub use states::States;
