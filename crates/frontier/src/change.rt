//! Changes of a frontier that are prepared.
ghost use Rattle.std.specs.Prelude.{◌≡◌, IfOk};

use ends::{PendingOp, Table};
use models::Op;
use std::alloc::AllocError;
use std::hash::Hash;

/// An operation that was invoked: its id, and what it is.
#[derive(Drop)]
pub struct Fresh {
    pub id: u32,
    pub op: Op,
}

/// The calls after a crash, and their table, if products have become rows.
#[derive(Drop)]
pub struct AfterCrash<S: Hash + Drop> {
    pub calls: Vec<PendingOp>,
    pub table: Table<S>,
}

/// The effect of a prepared event on a frontier. It is small and copied; its large parts are kept in the frontier. To carry it out takes no
/// memory.
#[derive(Clone, Copy)]
pub enum Change {
    /// Nothing.
    Nothing,
    /// The operation that is coming is invoked.
    Invoked,
    /// The operation with this id has returned or failed. It is among the calls no longer, and the rows or products that are left replace
    /// the others. This number of the remaining calls count as tried.
    Done(u32, usize),
    /// The calls and the table after the crash take the place of the others, and no call counts as tried.
    Crashed,
}

/// Nothing is prepared any more, and the prepared parts are dropped.
pub fn drop_prepared<S: Hash + Drop>(
    next: &mut Change,
    coming: &mut Option<Fresh>,
    after_crash: &mut Option<Box<AfterCrash<S>>>,
)
    ensures { next.new ≡ Change.Nothing }
{
    if !matches!(next, Change::Nothing) {
        *next = Change::Nothing;
        *coming = None;
        *after_crash = None;
    }
}

/// The same operation, if there is one, which shares the members of a set. Takes constant time, and no memory; `AllocError`
/// if as many share them as can be counted.
pub fn copied_fresh(fresh: &Option<Fresh>) -> Result<Option<Fresh>, AllocError>
    ensures { IfOk result (λ copy. copy ≡ fresh.now) }
{
    match fresh {
        None => Ok(None),
        Some(fresh) => Ok(Some(Fresh {
            id: fresh.id,
            op: fresh.op.copy()?,
        })),
    }
}
