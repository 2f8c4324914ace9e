//! Judges fifo queues live, by the dequeued values: a history of a queue whose values differ is linearizable exactly if it is paired
//! (`queue_pairs`). The order of enqueues that overlap is never chosen, so an event costs no more for many clients.
//!
//! A call takes memory only where its result can be `AllocError`.
#![tactic(auto)]

mod entries;
pub mod judged;
mod known;
mod lists;
mod next;
mod waiting;

pub use judged::WideFifoQueue;
