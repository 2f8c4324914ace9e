//! Queues that are judged live.
ghost use Rattle.std.specs.Prelude.{◌≡◌, [], true, false, IfOk, IsTrue};
ghost use Rattle.std.specs.List.{Contains};
ghost use Rattle.wide_fifo_queue.specs.declared.known.Enqueued.{Enqueued};
ghost use Rattle.wide_fifo_queue.specs.Facts.{facts_of};
ghost use Rattle.judging.specs.Meaning.{Commits, IsCopy, IsStart, Observes, Prepares, mark_by};
ghost use Rattle.wide_fifo_queue.specs.Counted.{counts_more, the_object};
ghost use Rattle.wide_fifo_queue.specs.Judges.{is_an_ok, kills, step_by, step_of_dead};
ghost use Rattle.wide_fifo_queue.specs.Kept.{IsSameKnown};
ghost use Rattle.wide_fifo_queue.specs.Views.{view_of};

use crate::known::Known;
use events::EventKind;
use judging::Step;
use models::Op;
use std::alloc::{AllocError, Global};

/// The history of one fifo queue, judged as its events come, while its values differ. It is linearizable exactly if it is paired
/// (`queue_pairs`): each value that came in before a dequeued one has its own dequeue. The dequeue has answered it, or is open or crashed
/// and was invoked in time for it. Nothing branches. Once two enqueues that have not failed have one value, an ok is answered Over.
///
/// An event can be prepared and then committed. `prepare` may run out of memory, and changes nothing until `commit`, which takes no
/// memory. A second `prepare` replaces the first.
///
/// Values are kept in rows that copies share, so a copy of a queue with many values costs no more than one with few.
#[derive(Drop)]
pub struct WideFifoQueue {
    /// The key's budget, which says nothing here: equal values exceed each.
    budget: u32,
    /// The known facts of the history, if it is linearizable.
    known: Option<Known>,
    /// What is prepared.
    next: Option<Option<Known>>,
}

// The same facts, if there are any.
fn copied(known: &Option<Known>) -> Result<Option<Known>, AllocError>
    ensures { IfOk result (IsSameKnown known.now) }
{
    match known {
        Some(known) => Ok(Some(known.copy()?)),
        None => Ok(None),
    }
}

// Whether an event of this kind is an ok.
fn is_ok(kind: EventKind) -> bool
    ensures { result ≡ is_an_ok kind }
{
    matches!(kind, EventKind::Ok)
}

// Whether the event is an ok, and two enqueues that have not failed have one value.
fn is_over(known: &Known, kind: EventKind) -> bool
    ensures over { result ≡ true → IsTrue (is_an_ok kind)
        × ((e : Enqueued) × Contains (facts_of known.now).late e) }
    ensures within { result ≡ false → IsTrue (is_an_ok kind) → (facts_of known.now).late ≡ [] }
{
    if is_ok(kind) {
        return known.has_twins();
    }
    false
}

// The answer of an event after which this is known.
fn step_of(next: &Option<Known>) -> Step
    ensures { result ≡ step_by next.now }
{
    match next {
        Some(_) => Step::Alive,
        None => Step::Dead,
    }
}

// The answer of an event of a history that was not linearizable before it.
fn dead_step(kind: EventKind) -> Step
    ensures { result ≡ step_of_dead (kills kind) }
{
    if matches!(kind, EventKind::Ok | EventKind::Fail) {
        Step::Dead
    } else {
        Step::Alive
    }
}

impl WideFifoQueue {
    /// A history without events. Takes constant time, and no memory.
    pub fn start(alloc: Global, budget: u32) -> WideFifoQueue
        ensures { IsStart budget (view_of result) }
    {
        WideFifoQueue {
            budget,
            known: Some(Known::new(alloc)),
            next: None,
        }
    }

    /// The same queue, with nothing prepared. It shares the values. O(open operations, crashed dequeues).
    pub fn copy(&self) -> Result<WideFifoQueue, AllocError>
        ensures { IfOk result (λ queue. IsCopy (view_of self.now) (view_of queue)) }
    {
        let known = copied(&self.known)?;
        Ok(WideFifoQueue {
            budget: self.budget,
            known,
            next: None,
        })
    }

    /// Prepares an event of an operation, and gives its answer. The id is the index of the operation's invocation: new for an invocation,
    /// else that of an open operation. The part of an ok is the answer. Over if the event is an ok and two enqueues that have not failed
    /// have one value: then nothing is prepared. An invocation and an info are answered Alive, since they kill nothing. The history stays
    /// the same until [`commit`](Self::commit). After `AllocError` no commit must follow. Another prepared event is dropped. O(open
    /// operations, crashed dequeues, log n in the values), and O(log n) for each value whose enqueue was concurrent with the dequeued
    /// one's.
    pub fn prepare(&mut self, id: u32, kind: EventKind, op: &Op) -> Result<Step, AllocError>
        ensures { Prepares (view_of self.old) (view_of self.new) counts_more the_object (mark_by id kind op.now) result }
    {
        self.next = None;
        let Some(known) = &self.known else {
            return Ok(dead_step(kind));
        };
        if is_over(known, kind) {
            return Ok(Step::Over);
        }
        let next = known.after_event(id, kind, op)?;
        let step = step_of(&next);
        self.next = Some(next);
        Ok(step)
    }

    /// Carries out the prepared event, if there is one. It takes no memory and cannot fail.
    pub fn commit(&mut self)
        ensures { Commits (view_of self.old) (view_of self.new) }
    {
        if let Some(next) = self.next.take() {
            self.known = next;
        }
    }

    /// An event of an operation: [`prepare`](Self::prepare) and [`commit`](Self::commit) in one. After Over, and on `AllocError`, the
    /// history stays the same.
    pub fn observe(&mut self, id: u32, kind: EventKind, op: &Op) -> Result<Step, AllocError>
        ensures { Observes (view_of self.old) (view_of self.new) counts_more the_object (mark_by id kind op.now) result }
    {
        let step = self.prepare(id, kind, op)?;
        self.commit();
        Ok(step)
    }

    /// How many steps were made so far: none, since nothing is tried.
    pub fn applied(&self) -> u64
        ensures { result ≡ (view_of self.now).applied }
    {
        0
    }
}
