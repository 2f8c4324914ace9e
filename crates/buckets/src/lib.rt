//! The index of a list that grows and shrinks at its end, by buckets.
//!
//! A bucket has the place of its last thing, and each thing has the place of the thing before it in its bucket. So a look-up goes back
//! through one bucket, and the last thing is removed in constant time. Things are words or hashes ([`Bucketed`]). Anything else is indexed
//! by its hash ([`hash_of`], [`index_hashes`]).
//!
//! A call takes memory only if its result can be `AllocError`.
#![tactic(auto)]

mod bucketed;
mod hashes;
mod index;

pub use bucketed::Bucketed;
pub use hashes::{hash_of, index_hashes};
pub use index::{Index, find, index_all, put_behind};
