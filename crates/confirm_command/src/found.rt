//! The finding for an order of a recorded history.
ghost use Rattle.std.specs.Prelude.{◌≡◌, ◌⊎◌, [], None, IfOk, IfErr};
ghost use Rattle.edn.specs.Refusals.{IsWhy};
ghost use Rattle.processes.specs.Threads.{MayNotStart};
ghost use Rattle.check_command.specs.Reading.{IsRead};
ghost use Rattle.confirm_command.specs.Listing.{IsOrderText};
ghost use Rattle.confirm_command.specs.Found.{ComesTo, Shows, IsHistoryRefused, IsOrderRefused, refused_of_order};

use crate::listing::indices_of_text;
use check_command::read_events;
use edn::Refusal;
use history::History;
use kinds::ModelKind;
use observers::Observer;
use std::alloc::Global;
use witness::{Confirmation, confirm};

/// The finding for an order of a recorded history.
#[derive(Drop)]
pub enum Found {
    /// Both were read to their ends: the result of the order.
    Shown(Confirmation),
    /// So many elements of the history were taken, and the next one was refused.
    RefusedEvent(usize, Refusal),
    /// A refusal of the history, other than that of an element.
    Refused(Refusal),
    /// So many elements of the order list indices, and the next one does not.
    RefusedElement(usize),
    /// A refusal of the order, other than that of an element.
    RefusedOrder(Refusal),
}

/// Reads a history of `concurrency` threads from bytes whose elements are events, and an order of its operations from others. It returns the
/// result of the order, where each key is an object of this kind.
///
/// A refusal of the history comes first. The bytes of each are read to their end. Costs O(bytes), and what [`confirm`] costs. The observer
/// gets the number of accepted events, and the refusal.
pub fn confirm_bytes<L: Observer>(
    alloc: Global,
    concurrency: u32,
    kind: ModelKind,
    bytes: &[u8],
    order: &[u8],
    observer: &L,
) -> Found
    ensures { ComesTo concurrency kind bytes.now order.now result }
{
    let history = match history_of(alloc, concurrency, bytes, observer) {
        Ok(history) => history,
        Err(found) => return found,
    };
    match order_of(alloc, order, observer) {
        Ok(order) => shown(alloc, history, kind, order.as_slice()),
        Err(found) => found,
    }
}

// The result of the order for the history.
fn shown(alloc: Global, history: History, kind: ModelKind, order: &[u32]) -> Found
    ensures { ((said : Confirmation) × (result ≡ Found.Shown said)
        × Shows kind history.events order.now said)
        ⊎ (result ≡ Found.Refused Refusal.NoMemory) }
{
    match confirm(alloc, &history, kind, order) {
        Ok(said) => Found::Shown(said),
        Err(_) => Found::Refused(Refusal::NoMemory),
    }
}

// The history that the bytes spell, or what is refused of it.
fn history_of<L: Observer>(
    alloc: Global,
    concurrency: u32,
    bytes: &[u8],
    observer: &L,
) -> Result<History, Found>
    ensures read { IfOk result (λ history. IsRead bytes.now concurrency [] history.events None) }
    ensures refused { IfErr result (IsHistoryRefused concurrency bytes.now) }
{
    match events_of(alloc, concurrency, bytes, observer) {
        Ok((history, None)) => Ok(history),
        Ok((_, Some((taken, refusal)))) => {
            observer.refused(&refusal);
            Err(Found::RefusedEvent(taken, refusal))
        }
        Err(refusal) => {
            observer.refused_text(bytes, &refusal);
            Err(Found::Refused(refusal))
        }
    }
}

// The history that is read of the bytes, and the first element that is refused.
fn events_of<L: Observer>(
    alloc: Global,
    concurrency: u32,
    bytes: &[u8],
    observer: &L,
) -> Result<(History, Option<(usize, Refusal)>), Refusal>
    ensures read { IfOk result (λ read. IsRead bytes.now concurrency [] read.0.events read.1) }
    ensures refused { IfErr result (λ why. IsWhy bytes.now why ⊎ MayNotStart concurrency why) }
{
    let mut history = History::new(alloc, concurrency)?;
    let first = read_events(alloc, &mut history, bytes, observer)?;
    Ok((history, first))
}

// The order that the bytes list, or what is refused of it.
fn order_of<L: Observer>(alloc: Global, bytes: &[u8], observer: &L) -> Result<Vec<u32>, Found>
    ensures read { IfOk result (λ order. IsOrderText bytes.now order.items) }
    ensures refused { IfErr result (IsOrderRefused bytes.now) }
{
    match indices_of_text(alloc, bytes) {
        Ok(Ok(order)) => Ok(order),
        Ok(Err(taken)) => Err(Found::RefusedElement(taken)),
        Err(refusal) => {
            observer.refused_text(bytes, &refusal);
            Err(refused_order(refusal))
        }
    }
}

/// The refusal of the order for this. Out of memory is not the order's.
pub(crate) fn refused_order(refusal: Refusal) -> Found
    ensures { result ≡ refused_of_order refusal }
{
    match refusal {
        Refusal::NoMemory => Found::Refused(Refusal::NoMemory),
        refusal => Found::RefusedOrder(refusal),
    }
}
