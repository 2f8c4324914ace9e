//! The lines of many keys, judged by several threads at once.
//!
//! A piece is the borrowed events of one key. Piece `i` goes to worker `i mod workers`; the calling thread is one of the workers, and joins
//! the others. The lines are in the order of their pieces, so the result is the same for each number of workers.
//!
//! A call allocates only if its result can be `AllocError`, or a refusal because memory ran out.
#![tactic(auto)]

mod key_events;
mod workers;

pub use key_events::KeyEvents;
pub use workers::recheck;
