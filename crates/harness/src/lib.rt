//! The code of the one-thread object, whose commands and laws are `machine`'s: commands in, verdicts out. It has a history under a
//! monitor, a generator of operations and faults, a schedule of faults, a replicated store, and a ticket for each operation that
//! was drawn.
//!
//! Each command is prepared, which may fail and changes nothing visible, and then committed, which takes no memory. So a board can enter a
//! command on its tape between the two.
//!
//! A call allocates only if its result can be `AllocError`, or a refusal because memory ran out.
#![tactic(auto)]

mod asking;
mod change;
pub mod config;
pub mod core_object;
mod event_changes;
mod fitness;
pub mod laws;
mod tickets;
mod trial;

pub use config::Config;
pub use core_object::Core;
pub use machine::{Command, Reply};
