//! The ends of one key's legal orders, as rows of small numbers, and the effects of operations and answers on them.
//!
//! A row has the number of the end's state, and then a number for each call. The number is zero if the call is not in the end, else one
//! more than the number of its answer. Equal ends are equal rows ([`Table`]). An ok ([`advance`]) lets the rows grow by the moves of each
//! call, which is tried once in each state and remembered until the next ok. It counts them against the budget. It copies the rows whose
//! operation has the right answer, without the operation's number, and removes the grown rows. A fail ([`failed`]) keeps the rows that have
//! a zero there. A crash makes ends of the rows ([`ends_of_table`]), changes these ([`crashed_ends`]), and makes rows of them again
//! ([`table_of_ends`]).
//!
//! A call allocates only if its result can be `AllocError`, or a refusal because memory ran out.
#![tactic(auto)]

mod after;
mod growth;
mod returning;

pub use after::{crashed_ends, failed, mark_fitting, place_of_open};
pub use growth::{Workspace, advance};
pub use moves::{
    KeptEnd, PendingOp, Table, clear, copied, copied_whole, copy_calls, crash_call, drop_call,
    empty, ends_of_table, is_read, refill, step, table_of_ends, told_by,
};
pub use returning::Returning;
