//! Moves that are noted by places, and forgotten all at once.
ghost use Rattle.std.specs.Prelude.{◌≡◌, ◌+◌, ◌-◌, ◌^◌, ◌<◌, ◌≤◌, ◌⊎◌, ℕ, [], length, get_or, OnOk};
ghost use Rattle.moves.specs.Notes.{AreBefore, AreUntried, nothing};

use crate::moves::Move;
use std::alloc::{AllocError, Global};
use std::marker::Model;

// So many places more are made at once, at most.
const MORE: usize = 64;

/// The memory of more moves, or of more targets, than these is not kept.
pub const MOST_KEPT: usize = 1 << 14;

// A move, and the stamp that it was noted with.
#[derive(Clone, Copy)]
struct Noted {
    stamp: u32,
    to: Move,
}

/// Which move is noted at each place. A note with another stamp than the present one says nothing, so a new stamp forgets all notes.
#[derive(Drop)]
pub struct Notes {
    stamp: u32,
    list: Vec<Noted>,
}

impl Model for Notes {
    ghost use Rattle.std.specs.Prelude.{◌+◌, List, map};
    ghost use Rattle.moves.specs.declared.moves.Move.{Move};
    ghost use Rattle.moves.specs.Notes.{AreBefore, known_by};

    ghost Value = { List Move };

    ghost view = { λ n. map (known_by n.stamp) n.list.items };

    ghost invariant = { λ n. AreBefore n.list.items (n.stamp + 1) };
}

impl Notes {
    /// Nothing is noted.
    pub fn new(alloc: Global) -> Notes
        ensures { result ≡ [] }
    {
        Notes {
            stamp: 0,
            list: Vec::new(alloc),
        }
    }

    /// The move that is noted at this place. There is none behind all places that a list has.
    #[inline(always)]
    pub fn noted_at(&self, place: usize) -> Move
        ensures noted { result ≡ get_or self.now place Move.Untried }
        ensures behind { place ≡ 2 ^ 64 - 1 → result ≡ Move.Untried }
    {
        match self.list.get(place) {
            Some(noted) if noted.stamp == self.stamp => noted.to,
            _ => Move::Untried,
        }
    }

    /// Notes the move at this place.
    #[inline(always)]
    pub fn note(&mut self, place: usize, to: Move) -> Result<(), AllocError>
        requires { place < 1048576 }
        ensures { (p : ℕ) → let now = get_or self.new p Move.Untried in
            (now ≡ get_or self.old p Move.Untried) ⊎ ((p ≡ place) × (now ≡ to)) }
    {
        let stamp = self.stamp;
        put_at(&mut self.list, place, Noted { stamp, to })
    }

    /// Forgets all that is noted. Keeps its memory, if it is not much. Takes constant time except for one call in 2^32.
    pub fn forget(&mut self, alloc: Global)
        ensures { AreUntried self.new }
    {
        self.stamp = stamp_after(alloc, self.stamp, &mut self.list);
    }
}

// The stamp that follows. The list is cleared if it would be the first one again, and replaced if it has much memory.
fn stamp_after(alloc: Global, stamp: u32, list: &mut Vec<Noted>) -> u32
    requires { AreBefore list.old.items (stamp + 1) }
    ensures { AreBefore list.new.items result }
{
    if list.capacity() > MOST_KEPT {
        *list = Vec::new(alloc);
    }
    if stamp == u32::MAX {
        list.clear();
        return 1;
    }
    stamp + 1
}

// Makes the list longer, so that it has this place, and some behind it.
#[inline(never)]
fn lengthen(list: &mut Vec<Noted>, place: usize) -> Result<(), AllocError>
    requires place { place < 1048576 }
    requires new { length list.old.items ≤ place }
    ensures kept { (p : ℕ) → get_or list.new.items p nothing ≡ get_or list.old.items p nothing }
    ensures long { OnOk result (place < length list.new.items) }
{
    let nothing = Noted {
        stamp: 0,
        to: Move::Untried,
    };
    list.resize(place + 1 + place.min(MORE), nothing)?;
    Ok(())
}

// Puts what is noted at this place.
#[inline(always)]
fn put_at(list: &mut Vec<Noted>, place: usize, noted: Noted) -> Result<(), AllocError>
    requires { place < 1048576 }
    ensures { (p : ℕ) → let now = get_or list.new.items p nothing in
        (now ≡ get_or list.old.items p nothing) ⊎ ((p ≡ place) × (now ≡ noted)) }
{
    if place >= list.len() {
        lengthen(list, place)?;
    }
    list[place] = noted;
    Ok(())
}
