//! Observers of a run of clients.

use linspec::Verdict;

/// Gets the progress of a run, in the nemesis's thread, while clients run. It cannot change the run.
pub trait Watch {
    /// Whether it wants a report now. It is asked after each try of the nemesis's, so it should cost little.
    fn wants(&self) -> bool;

    /// The history has `events` events, or some more, and this is the verdict of a glance.
    fn told(&mut self, events: u64, verdict: Verdict);

    /// There are no more reports: all clients have ended, or the nemesis was refused.
    fn end(self);
}

/// Nobody looks on.
#[derive(Drop)]
pub struct NoWatch;

impl Watch for NoWatch {
    fn wants(&self) -> bool {
        false
    }

    fn told(&mut self, _events: u64, _verdict: Verdict) {}

    fn end(self) {}
}
