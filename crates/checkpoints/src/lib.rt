//! The line of one key (its checker): the places of its events, and the state of the key after them.
//!
//! A line has the places of its events, which it borrows from the history, and the state of the key. The key is alive, with a frontier, or
//! it is dead or over its budget, without one. After each 64th event, if another one follows, a copy of the state is saved. A cut goes back
//! to the last copy that is left, and judges the events behind it again, fewer than 64. Another kind of object or another budget judges all
//! events again.
//!
//! A call allocates only if its result can be `AllocError`, or a refusal because memory ran out.
#![tactic(auto)]

mod ghost_events;
mod invocations;
mod key_line;
mod key_state;
pub mod laws;
mod live_key;
mod next;
mod saving;

pub use key_line::KeyLine;
