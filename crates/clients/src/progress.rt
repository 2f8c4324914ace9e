//! The messages between the threads of a run, in addition to the board.

use std::sync::atomic::{AtomicBool, AtomicU64, Ordering};

/// Whether all clients have ended, and the number of events when an operation was drawn last.
#[derive(Drop)]
pub(crate) struct Progress {
    ended: AtomicBool,
    events: AtomicU64,
}

impl Progress {
    /// No client has ended, and there is no event yet.
    pub(crate) fn new() -> Progress {
        Progress {
            ended: AtomicBool::new(false),
            events: AtomicU64::new(0),
        }
    }

    /// All clients have ended.
    pub(crate) fn end(&self) {
        self.ended.store(true, Ordering::SeqCst);
    }

    /// Whether all clients have ended.
    pub(crate) fn has_ended(&self) -> bool {
        self.ended.load(Ordering::SeqCst)
    }

    /// An operation was drawn, whose invocation has this index.
    pub(crate) fn note(&self, index: u32) {
        self.events.store(u64::from(index) + 1, Ordering::SeqCst);
    }

    /// How many events there were when an operation was drawn last.
    pub(crate) fn events(&self) -> u64 {
        self.events.load(Ordering::SeqCst)
    }
}
