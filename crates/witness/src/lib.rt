//! Whether an order of the operations of a history shows that the history is linearizable.
//!
//! [`confirm`] notes the status of each operation, places the operations of the order, sorts them by key, and runs those of each key one
//! after another. The result names the first operation that does not fit, with its place in the order.
//!
//! A call allocates only if its result can be `AllocError`, or a refusal because memory ran out.
#![tactic(auto)]

mod answers;
mod calls;
mod confirming;
mod keys;
mod mismatch;
mod placing;
mod queue;
mod requirement;
mod running;
mod statuses;
mod taking;

pub use calls::Call;
pub use confirming::{Confirmation, confirm};
pub use mismatch::{Mismatch, MismatchReason};
