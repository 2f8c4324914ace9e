//! Events.
ghost use Rattle.std.specs.Prelude.{◌≡◌, IfOk};
ghost use Rattle.events.specs.Events.{key_of, is_event_of};

use crate::groups::Groups;
use models::{Key, Op};
use std::alloc::AllocError;

/// The type of an event: its operation is invoked; it took place; it did not; it may take place at any later moment, or never. (The Jepsen
/// documentation.)
#[derive(Clone, Copy, Debug, PartialEq, Eq)]
pub enum EventKind {
    Invoke,
    Ok,
    Fail,
    Info,
}

/// Whose event it is.
#[derive(Clone, Copy, Debug, PartialEq, Eq)]
pub enum Process {
    Client(u32),
    Nemesis,
}

/// The nemesis's change of a replicated store.
#[derive(Drop)]
pub enum Fault {
    Partition(Groups),
    Heal,
    Pause(u8),
    Resume(u8),
    Crash(u8),
    Restart(u8),
    LoseReplies(u16),
}

/// The subject of an event.
#[derive(Drop)]
pub enum Body {
    Op(Op),
    Fault(Fault),
}

/// An event of a history. The part of an ok's operation is the answer.
#[derive(Drop)]
pub struct Event {
    pub index: Option<u32>,
    pub kind: EventKind,
    pub process: Process,
    pub body: Body,
}

impl Fault {
    /// An equal fault, with memory of its own. Costs O(a partition's groups).
    pub fn copy(&self) -> Result<Fault, AllocError>
        ensures { IfOk result (λ other. other ≡ self.now) }
    {
        match self {
            Fault::Partition(groups) => Ok(Fault::Partition(groups.copy()?)),
            Fault::Heal => Ok(Fault::Heal),
            Fault::Pause(replica) => Ok(Fault::Pause(*replica)),
            Fault::Resume(replica) => Ok(Fault::Resume(*replica)),
            Fault::Crash(replica) => Ok(Fault::Crash(*replica)),
            Fault::Restart(replica) => Ok(Fault::Restart(*replica)),
            Fault::LoseReplies(count) => Ok(Fault::LoseReplies(*count)),
        }
    }
}

impl Body {
    /// An equal body. The members of a set are shared. Costs O(a partition's groups), and else constant time.
    pub fn copy(&self) -> Result<Body, AllocError>
        ensures { IfOk result (λ other. other ≡ self.now) }
    {
        match self {
            Body::Op(op) => Ok(Body::Op(op.copy()?)),
            Body::Fault(fault) => Ok(Body::Fault(fault.copy()?)),
        }
    }
}

impl Event {
    /// An equal event. The members of a set are shared. Costs O(a partition's groups), and else constant time.
    pub fn copy(&self) -> Result<Event, AllocError>
        ensures { IfOk result (λ other. other ≡ self.now) }
    {
        let body = self.body.copy()?;
        Ok(Event {
            index: self.index,
            kind: self.kind,
            process: self.process,
            body,
        })
    }

    /// The key of the event's operation, or `None` if the event has none, as a fault of the nemesis.
    pub fn key(&self) -> Option<Key>
        ensures { result ≡ key_of self.now }
    {
        match (self.process, &self.body) {
            (Process::Client(_), Body::Op(op)) => Some(op.key),
            _ => None,
        }
    }

    /// Whether the event speaks of an operation on this key.
    pub fn is_of_key(&self, key: Key) -> bool
        ensures { result ≡ is_event_of key self.now }
    {
        match (self.process, &self.body) {
            (Process::Client(_), Body::Op(op)) => op.key == key,
            _ => false,
        }
    }
}
