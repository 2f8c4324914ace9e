//! Commands of a `Core`, and its replies.
use events::{Event, Fault};
use kinds::ModelKind;
use linspec::Verdict;
use models::Key;
use test_store::Outcome;

/// The commands of the one-thread object.
#[derive(Drop)]
pub enum Command {
    /// An event comes next in the history.
    Append(Event),
    /// The history is cut to its first n events.
    Rewind(u32),
    /// A key is an object of this kind.
    SetModel(Key, ModelKind),
    /// How many ends of a key may be possible just before an ok, 1 to 65,536.
    SetBudget(Key, u32),
    /// The verdict is asked for.
    Verdict,
    /// A thread draws an operation.
    Draw(u32),
    /// The operation of a ticket is carried out on the store.
    Serve(u32),
    /// The operation of a ticket is completed.
    Finish(u32),
    /// The nemesis strikes.
    Nemesis,
}

/// What it says.
#[derive(Drop)]
pub enum Reply {
    /// The verdict on the history after the command.
    Verdict(Verdict),
    /// The ticket of the operation that was drawn, and the index of its invocation.
    Drawn { ticket: u32, index: u32 },
    /// There is no operation for the thread now, but there may be one later.
    Pending,
    /// There is none for it, now or later.
    Done,
    /// The outcome of the serve.
    Served(Outcome),
    /// The fault that struck, and the index of its event.
    Fault { fault: Fault, index: u32 },
}
