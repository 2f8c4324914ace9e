//! An order of a recorded history, from the bytes of both to the line that says what the order shows.
//!
//! The history is read as for a check, the order as a list of the indices of invocations. `witness` says whether the order shows that the
//! history is linearizable, or the first place at which something does not fit.
//!
//! A call allocates only if its result can be `AllocError`, or a refusal because memory ran out.
#![tactic(auto)]

mod confirming;
mod found;
mod laws;
mod listing;
mod telling;

pub use confirming::{confirm_file, confirm_input, confirm_text};
pub use found::{Found, confirm_bytes};
pub use laws::one_answer;
pub use listing::indices_of_text;
