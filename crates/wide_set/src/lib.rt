//! Judges the history of one set as its events come, without ends: by the answers of its reads, and their moments.
//!
//! A call takes memory only if its result can be `AllocError`.
#![tactic(auto)]

mod change;
mod forgetting;
pub mod judged;
mod known;
mod log;
mod members;
mod queries;

pub use judged::WideSet;
