//! Registers with compare and set that are judged live.
ghost use Rattle.std.specs.Prelude.{◌≡◌, ◌<◌, IfOk};
ghost use Rattle.models.specs.Objects.{cas_register};
ghost use Rattle.linspec.specs.CasEnds.{HasMoreFrontsThan};
ghost use Rattle.judging.specs.Meaning.{Commits, IsCopy, IsStart, Observes, Prepares, mark_by};
ghost use Rattle.wide_cas_register.specs.Counts.{IsCounted};
ghost use Rattle.wide_cas_register.specs.Views.{IsStepLeft, kills, view_of};

use crate::fronts::Reached;
use crate::kept::Kept;
use events::EventKind;
use judging::Step;
use models::Op;
use std::alloc::{AllocError, Global};

/// The history of one register, judged as its events come, by its ends: it is linearizable exactly if it has one (`cas_ends`).
///
/// An event can be prepared and then committed. `prepare` may run out of memory, and changes nothing until `commit`, which takes no
/// memory. A second `prepare` replaces the first.
#[derive(Drop)]
pub struct WideCasRegister {
    alloc: Global,
    budget: u32,
    applied: u64,
    kept: Kept,
    /// The prepared facts.
    next: Option<Kept>,
}

// Whether an event of this kind can kill.
fn can_kill(kind: EventKind) -> bool
    ensures { result ≡ kills kind }
{
    matches!(kind, EventKind::Ok | EventKind::Fail)
}

// The answer to an event of this kind that leaves these facts.
fn step_left(left: &Kept, kind: EventKind) -> Step
    ensures { IsStepLeft left.now kind result }
{
    if left.rows.is_empty() && can_kill(kind) {
        Step::Dead
    } else {
        Step::Alive
    }
}

impl WideCasRegister {
    /// A history without events. The budget is the greatest number of fronts that an ok may meet. Takes constant time.
    pub fn start(alloc: Global, budget: u32) -> Result<Self, AllocError>
        ensures { IfOk result (λ w. IsStart budget (view_of w)) }
    {
        Ok(WideCasRegister {
            alloc,
            budget,
            applied: 0,
            kept: Kept::start(alloc)?,
            next: None,
        })
    }

    /// The greatest number of fronts that an ok may meet.
    pub fn budget(&self) -> u32
        ensures { result ≡ (view_of self.now).budget }
    {
        self.budget
    }

    /// How many steps were made so far: each tries an operation at a front.
    pub fn applied(&self) -> u64
        ensures { result ≡ (view_of self.now).applied }
    {
        self.applied
    }

    // How many steps there are after those that try each operation at this many fronts.
    fn counted(&self, tried: usize) -> u64
        ensures { IsCounted self.now.kept.calls.items tried self.now.applied result }
    {
        let steps = (tried as u64).saturating_mul(self.kept.calls.len() as u64);
        self.applied.saturating_add(steps)
    }

    /// Prepares an event of an operation, and gives its answer. The id is the index of the operation's invocation: a new one for an
    /// invocation, else that of an open operation. The part of an ok is the answer. Over if the event is an ok and more fronts than the
    /// budget stand just before it: then nothing is prepared. An invocation and an info are answered Alive, since they kill nothing. The
    /// register stands for the same histories until [`commit`](Self::commit); after `AllocError` no commit must follow. A second `prepare`
    /// replaces the first. Takes time in proportion to the pairs of the rows that it makes.
    pub fn prepare(&mut self, id: u32, kind: EventKind, op: &Op) -> Result<Step, AllocError>
        ensures { Prepares (view_of self.old) (view_of self.new) HasMoreFrontsThan cas_register
            (mark_by id kind op.now) result }
    {
        self.next = None;
        match self.kept.reached(self.alloc, kind, self.budget)? {
            Reached::Over(tried) => {
                self.applied = self.counted(tried);
                Ok(Step::Over)
            }
            Reached::All(fronts) => {
                self.applied = self.counted(fronts.len());
                let next = self.kept.after(self.alloc, id, kind, op, &fronts)?;
                let step = step_left(&next, kind);
                self.next = Some(next);
                Ok(step)
            }
        }
    }

    /// Carries out what is prepared, if anything is. It takes no memory and cannot fail.
    pub fn commit(&mut self)
        ensures { Commits (view_of self.old) (view_of self.new) }
    {
        if let Some(next) = self.next.take() {
            self.kept = next;
        }
    }

    /// An event of an operation: [`prepare`](Self::prepare) and [`commit`](Self::commit) in one. After Over, and on `AllocError`, the register
    /// stands for the same histories as before.
    pub fn observe(&mut self, id: u32, kind: EventKind, op: &Op) -> Result<Step, AllocError>
        ensures { Observes (view_of self.old) (view_of self.new) HasMoreFrontsThan cas_register
            (mark_by id kind op.now) result }
    {
        let step = self.prepare(id, kind, op)?;
        self.commit();
        Ok(step)
    }

    /// An equal one, without a prepared event. Takes time in proportion to the operations and the rows with their lists.
    pub fn copy(&self) -> Result<Self, AllocError>
        ensures { IfOk result (λ w. IsCopy (view_of self.now) (view_of w)) }
    {
        Ok(WideCasRegister {
            alloc: self.alloc,
            budget: self.budget,
            applied: self.applied,
            kept: self.kept.copy(self.alloc)?,
            next: None,
        })
    }
}
