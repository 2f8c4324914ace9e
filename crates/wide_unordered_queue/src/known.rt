//! The known facts of the history of a queue.
ghost use Rattle.std.specs.Prelude.{◌≡◌, IfOk};
ghost use Rattle.wide_unordered_queue.specs.Facts.{facts_of, no_facts};

use crate::backlog::Backlog;
use crate::pending::Pending;
use std::alloc::{AllocError, Global};

/// The known facts of a history: the open operations, and the values that were enqueued more often than dequeued. An enqueue that is open,
/// is done or has crashed counts. A dequeue counts once it is done.
#[derive(Drop)]
pub struct Known {
    pub alloc: Global,
    pub pending: Vec<Pending>,
    pub backlog: Backlog,
}

impl Known {
    /// The facts of a history without events. O(1), and no memory.
    pub fn new(alloc: Global) -> Known
        ensures { facts_of result ≡ no_facts }
    {
        Known {
            alloc,
            pending: Vec::new(alloc),
            backlog: Backlog::new(alloc),
        }
    }

    /// The same facts. O(open operations).
    pub fn copy(&self) -> Result<Known, AllocError>
        ensures { IfOk result (λ known. facts_of known ≡ facts_of self.now) }
    {
        Ok(Known {
            alloc: self.alloc,
            pending: Vec::from_slice(self.alloc, &self.pending)?,
            backlog: self.backlog.copy()?,
        })
    }
}
