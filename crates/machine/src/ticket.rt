//! Tickets.
use models::Op;
use test_store::Outcome;

/// An operation that was drawn.
#[derive(Drop)]
pub struct Ticket {
    pub thread: u32,
    pub process: u32,
    /// The index of its invocation.
    pub index: u32,
    pub op: Op,
    /// The outcome of serving it, if it was served.
    pub outcome: Option<Outcome>,
    /// Whether its invocation was cut from the history.
    pub stale: bool,
}
