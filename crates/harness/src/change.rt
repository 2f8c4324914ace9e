//! The changes that are prepared in the parts of the one-thread object.
use machine::Ticket;
use test_store::Outcome;

/// What is prepared.
#[derive(Drop)]
pub(crate) enum Change {
    /// Nothing is prepared.
    Nothing,
    /// A command is prepared that leaves all as it is.
    Same,
    /// A change of the monitor alone.
    Judged,
    /// A cut of the history at this length.
    Rewind(u32),
    /// An invocation, and its ticket. The ticket is large, so it is in a box.
    Draw(Box<Ticket>),
    /// The serve of the ticket with this number, and its outcome, which is in a box too.
    Serve(usize, Box<Outcome>),
    /// The fault that is due.
    StrikeDue,
    /// A fault that the generator gave.
    StrikeDrawn,
}
