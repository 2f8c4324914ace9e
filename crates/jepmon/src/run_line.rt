//! The line that says how far a run of clients has come.

use clients::Watch;
use linspec::Verdict;
use observers::MovingLine;
use std::io::Eprint;
use std::rt::Clock;

/// A line on standard error that follows a run.
#[derive(Drop)]
pub struct RunLine<'a, X> {
    line: MovingLine<'a, X>,
}

impl<'a, X: Clock + Eprint> RunLine<'a, X> {
    /// One that is shown in this line.
    pub fn new(line: MovingLine<'a, X>) -> Self {
        RunLine { line }
    }
}

impl<'a, X: Clock + Eprint> Watch for RunLine<'a, X> {
    fn wants(&self) -> bool {
        self.line.is_time()
    }

    fn told(&mut self, events: u64, verdict: Verdict) {
        self.line.show_run(events, verdict);
    }

    fn end(self) {
        self.line.leave();
    }
}
