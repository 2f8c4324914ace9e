//! Judges the history of one queue without an order as its events come, without ends: by how often each value was enqueued and dequeued.
//!
//! A call takes memory only where its result can be `AllocError`.
#![tactic(auto)]

mod backlog;
mod change;
pub mod judged;
mod known;
mod pending;

pub use judged::WideUnorderedQueue;
