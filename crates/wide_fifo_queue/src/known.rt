//! The known facts of the history of a queue.
ghost use Rattle.std.specs.Prelude.{◌≡◌, IfOk};
ghost use Rattle.wide_fifo_queue.specs.Facts.{call_by, facts_of, later, no_facts};

use models::{Name, Part};
use persistent::{Placed, Row};
use std::alloc::{AllocError, Global};

/// A call of a queue.
#[derive(Clone, Copy, Debug, PartialEq, Eq)]
pub enum Call {
    /// It puts the value in.
    Enqueue(i64),
    /// It takes a value out.
    Dequeue,
    /// A queue has no such operation.
    Other,
}

/// An open operation: its id, its call, and the number of marks before its invocation.
#[derive(Clone, Copy)]
pub struct Pending {
    pub id: u32,
    pub call: Call,
    pub since: u64,
}

/// An enqueue that has not failed: its value, its id, the number of marks before its invocation, and, if the value was dequeued, before the
/// return of that dequeue.
#[derive(Clone, Copy)]
pub struct Enqueued {
    pub value: i64,
    pub id: u32,
    pub since: u64,
    pub taken: Option<u64>,
}

/// A value whose enqueue is done, and which was not dequeued, with the number of marks before the return of the enqueue.
#[derive(Clone, Copy)]
pub struct Waiting {
    pub value: i64,
    pub by: u64,
}

/// The same of a value that was enqueued before a dequeued one, with the number of marks before the first return of a dequeue of such a
/// value.
#[derive(Clone, Copy)]
pub struct Owed {
    pub value: i64,
    pub by: u64,
    pub deadline: u64,
}

/// The known facts of a history: the number of its marks, the open operations, and its values.
#[derive(Drop)]
pub struct Known {
    pub alloc: Global,
    pub moment: u64,
    pub pending: Vec<Pending>,
    /// For each value that has an enqueue which has not failed one such, by value.
    pub entered: Row<Enqueued>,
    /// The other enqueues that have not failed.
    pub late: Vec<Enqueued>,
    /// The values that wait, and are not owed, by the return of their enqueue.
    pub waiting: Row<Waiting>,
    /// The owed ones, by deadline.
    pub owed: Vec<Owed>,
    /// The number of marks before the invocation of each dequeue that is open or has crashed.
    pub takers: Vec<u64>,
}

/// An enqueue's place is its value.
impl Placed for Enqueued {
    ghost place = { λ entry. entry.value };

    fn place(&self) -> i64 {
        self.value
    }

    fn is_same(&self, other: &Enqueued) -> bool {
        (self.value == other.value)
            & (self.id == other.id)
            & (self.since == other.since)
            & (self.taken == other.taken)
    }
}

/// The call of an operation of this name and part. O(1).
pub fn call_of(name: Name, part: &Part) -> Call
    ensures { result ≡ call_by name part.now }
{
    match (name, part) {
        (Name::Enqueue, Part::Int(value)) => Call::Enqueue(*value),
        (Name::Dequeue, Part::Nil) => Call::Dequeue,
        _ => Call::Other,
    }
}

impl Known {
    /// The facts of a history without events. O(1), and no memory.
    pub fn new(alloc: Global) -> Known
        ensures { facts_of result ≡ no_facts }
    {
        Known {
            alloc,
            moment: 0,
            pending: Vec::new(alloc),
            entered: Row::new(),
            late: Vec::new(alloc),
            waiting: Row::new(),
            owed: Vec::new(alloc),
            takers: Vec::new(alloc),
        }
    }

    // The same facts except for the moment and the open operations.
    fn at(&self, moment: u64, pending: Vec<Pending>) -> Result<Known, AllocError>
        ensures { IfOk result (λ known. facts_of known
            ≡ record (facts_of self.now) { now = moment; pending = pending.items }) }
    {
        Ok(Known {
            alloc: self.alloc,
            moment,
            pending,
            entered: self.entered.copy()?,
            late: Vec::from_slice(self.alloc, &self.late)?,
            waiting: self.waiting.copy()?,
            owed: Vec::from_slice(self.alloc, &self.owed)?,
            takers: Vec::from_slice(self.alloc, &self.takers)?,
        })
    }

    /// The same facts. O(open operations, crashed dequeues): values are shared.
    pub fn copy(&self) -> Result<Known, AllocError>
        ensures { IfOk result (λ known. facts_of known ≡ facts_of self.now) }
    {
        let pending = Vec::from_slice(self.alloc, &self.pending)?;
        self.at(self.moment, pending)
    }

    /// The facts with one more mark, after which these operations are open. Likewise.
    pub fn later(&self, pending: Vec<Pending>) -> Result<Known, AllocError>
        ensures { IfOk result (λ known. facts_of known ≡ later pending.items (facts_of self.now)) }
    {
        let Some(moment) = self.moment.checked_add(1) else {
            return Err(AllocError);
        };
        self.at(moment, pending)
    }
}
