//! Values that wait, by the return of their enqueue.
ghost use Rattle.std.specs.Prelude.{◌≡◌, ◌<◌, ◌≤◌, [], ◌∷◌, ◌++◌, IfOk, OnOk, length, take, drop, get_or, map};
ghost use Rattle.std.specs.List.{Contains};
ghost use Rattle.wide_fifo_queue.specs.declared.known.Waiting.{Waiting};
ghost use Rattle.wide_fifo_queue.specs.Facts.{owed_by};
ghost use Rattle.wide_fifo_queue.specs.Queries.{IsWithoutFirst};

use crate::known::{Owed, Waiting};
use persistent::Row;
use std::alloc::{AllocError, Global};

/// The values with one more behind them. O(log n).
pub fn with_waiting(
    alloc: Global,
    waiting: &Row<Waiting>,
    value: Waiting,
) -> Result<Row<Waiting>, AllocError>
    ensures { IfOk result (λ row. row ≡ waiting.now ++ value ∷ []) }
{
    waiting.with(alloc, waiting.len(), value)
}

/// The values but the first of this value. O(log n) for each that came in before it: those came in while it did, or are owed from now on.
pub fn without_waiting(
    alloc: Global,
    waiting: &Row<Waiting>,
    value: i64,
) -> Result<Row<Waiting>, AllocError>
    ensures { IfOk result (IsWithoutFirst waiting.now value) }
{
    for at in 0..waiting.len() {
        if waiting.get(at).value == value {
            return waiting.without(alloc, at);
        }
    }
    let row = waiting.copy()?;
    Ok(row)
}

/// How many of the values came in before this moment. O(log n) for each.
pub fn passed(waiting: &Row<Waiting>, since: u64) -> usize
    ensures within { result ≤ length waiting.now }
    ensures before { (w : Waiting) → Contains (take result waiting.now) w → w.by < since }
    ensures behind { result < length waiting.now → (w : Waiting) → w ≡ get_or waiting.now result w → since ≤ w.by }
{
    let mut at = 0;
    while at < waiting.len() && waiting.get(at).by < since {
        at += 1;
    }
    at
}

/// Puts the first values behind the owed ones, with this deadline. O(log n) for each.
pub fn put_owed(
    owed: &mut Vec<Owed>,
    waiting: &Row<Waiting>,
    many: usize,
    deadline: u64,
) -> Result<(), AllocError>
    requires { many ≤ length waiting.now }
    ensures { OnOk result (owed.new.items ≡ owed.old.items ++ map (owed_by deadline) (take many waiting.now)) }
{
    for at in 0..many {
        let first = waiting.get(at);
        owed.push(Owed {
            value: first.value,
            by: first.by,
            deadline,
        })?;
    }
    Ok(())
}

/// The values without the first ones. O(log n) for each of those.
pub fn without_passed(
    alloc: Global,
    waiting: &Row<Waiting>,
    many: usize,
) -> Result<Row<Waiting>, AllocError>
    requires { many ≤ length waiting.now }
    ensures { IfOk result (λ row. row ≡ drop many waiting.now) }
{
    let mut row = waiting.copy()?;
    for at in 0..many {
        row = row.without(alloc, 0)?;
    }
    Ok(row)
}
