//! The status of a key's history after an event.

/// What an event leaves.
#[derive(Clone, Copy, Debug, PartialEq, Eq)]
pub enum Step {
    /// The history is linearizable.
    Alive,
    /// The history is not linearizable.
    Dead,
    /// More than the budget was counted just before the event.
    Over,
}
