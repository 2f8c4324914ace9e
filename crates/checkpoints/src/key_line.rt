//! The line of one key.
ghost use Rattle.std.specs.Prelude.{◌≡◌, ◌≤◌, Some, None, [], ◌∷◌, ◌++◌, take, length, nat_lt};
ghost use Rattle.std.specs.Prelude.{IsSome, IfSome, IfOk, OnOk, OnErr};
ghost use Rattle.std.specs.Prelude.{ℕ, List, vec_capacity};
ghost use Rattle.events.specs.declared.event.Event.{Event};
ghost use Rattle.events.specs.ProcessRule.{IsHistory};
ghost use Rattle.linspec.specs.KeyHistory.{IsStatusOf, without_events, with_pushed, cut_at, judged_by};
ghost use Rattle.checkpoints.specs.KeyLineView.{at_rest, with_next};
ghost use Rattle.linspec.specs.KeyHistory.{events_below, loses_at, begins_below};
ghost use Rattle.checkpoints.specs.KeyLineView.{replays_at, count_on};
ghost use Rattle.checkpoints.specs.Borrowed.{AreBorrowedBy, places_of};

use crate::ghost_events::{GhostEvents, picked_events};
use crate::key_state::KeyState;
use crate::next::Next;
use crate::saving::{Saves, gone_back, judged_anew, keep_or_renew, prepare_event};
use events::Event;
use kinds::ModelKind;
use linspec::KeyStatus;
use std::alloc::{AllocError, Global};
use std::marker::Model;

/// What may be committed.
#[derive(Drop)]
enum Prepared {
    /// One event more: its place in the history, all events that the line then has, and what becomes of the key.
    Push(u32, GhostEvents, Next),
    /// A change of another sort. It is large and rare, so it is in a box.
    Change(Box<Change>),
}

/// A change but a push.
#[derive(Drop)]
struct Change {
    /// By these the key is then judged.
    kind: ModelKind,
    budget: u32,
    /// So many events stay, the first ones.
    kept: usize,
    /// All events that the line then has: for proofs alone, no byte of memory.
    told: GhostEvents,
    /// The next state of the key.
    next: Next,
    /// The change of the saved states.
    saves: Saves,
    /// So many events were judged again for it.
    replays: u64,
}

/// The checker of one key: the places of its events, in their recorded order, and the status of the key. The key is alive while every
/// prefix of the events is linearizable (Herlihy and Wing 1990, section 2). Else it is dead at the last event of the shortest prefix that
/// is not. If there are more ends than the budget just before an ok, the key is over at that ok, whether it is linearizable or not (this
/// project's own).
///
/// A line gets the events of its key alone, and does not look at keys itself. It does not store events, but the place of each event in the
/// whole history, in 4 bytes. A caller that makes it judge events again lends it that history.
///
/// After each 64th event, before the next one, it saves a copy of the ends and of the status, for cuts. A key that is dead or over has no
/// ends, and then the status alone is saved. So in addition to the places of its events a line takes the memory of its ends once for each
/// 64 events. At 2^20 events that is 16,384 times, which is 1 GiB if a copy takes 64 KiB.
///
/// Each change is prepared and then committed. A prepare may fail, and changes only the prepared change. A change that was prepared before
/// is dropped. An event is prepared on the ends themselves, so no copy of them is made for it.
pub struct KeyLine {
    alloc: Global,
    kind: ModelKind,
    budget: u32,
    places: Vec<u32>,
    told: GhostEvents,
    state: KeyState,
    saved: Vec<KeyState>,
    replayed: u64,
    prepared: Option<Prepared>,
}

impl Model for KeyLine {
    ghost use Rattle.std.specs.Prelude.{vec_capacity};
    ghost use Rattle.std.specs.Option.{option_map};
    ghost use Rattle.checkpoints.specs.KeyLineView.{KeyLineView};
    ghost use Rattle.checkpoints.specs.SoundLine.{IsSoundLine, brought, replays_of};

    ghost Value = { KeyLineView };

    ghost view = { λ a. record {
      now = record { kind = a.kind; budget = a.budget; events = a.told.events };
      next = option_map (brought a.kind a.budget) a.prepared;
      replayed = a.replayed;
      prepared_replays = replays_of a.prepared;
    } };

    ghost invariant = { λ a.
        IsSoundLine a.kind a.budget a.told.events a.places.items a.state a.saved.items
        (vec_capacity a.places) a.prepared };
}

// So that crates above give one back by one call.
impl Drop for KeyLine {
    fn drop(self) {
        let KeyLine {
            alloc: _alloc,
            kind: _kind,
            budget: _budget,
            places: _places,
            told: _told,
            state: _state,
            saved: _saved,
            replayed: _replayed,
            prepared: _prepared,
        } = self;
    }
}

impl KeyLine {
    /// The line of no events of a key whose object is of this kind. An ok of it may find at most `budget` ends just before it.
    /// It takes constant time.
    pub fn new(alloc: Global, kind: ModelKind, budget: u32) -> Result<Self, AllocError>
        ensures { IfOk result (λ made. made ≡ at_rest (without_events kind budget) 0) }
    {
        let state = KeyState::start(alloc, kind, budget)?;
        Ok(KeyLine {
            alloc,
            kind,
            budget,
            places: Vec::new(alloc),
            told: picked_events(),
            state,
            saved: Vec::new(alloc),
            replayed: 0,
            prepared: None,
        })
    }

    /// Prepares to append this event, and gives the status that [`commit`](Self::commit) will bring. The index is the event's place in the
    /// whole history. It costs what the event does to the ends of the events so far
    /// ([`AnyFrontier::prepare`](frontier::AnyFrontier::prepare)). It copies no ends, except before the event that follows a 64th one, when
    /// it saves a copy. It is one replay.
    ///
    /// # Errors
    ///
    /// `AllocError` if memory was refused: then nothing is prepared, and the rest is as it was.
    #[inline(always)]
    pub fn prepare_push(&mut self, index: u32, event: &Event) -> Result<KeyStatus, AllocError>
        requires { IsHistory (self.old.now.events ++ (index, event.now) ∷ []) }
        ensures status { IfOk result (IsStatusOf (with_pushed index event.now self.old.now)) }
        ensures prepared { OnOk result
            (self.new ≡ with_next (with_pushed index event.now self.old.now) 1 self.old) }
        ensures err { OnErr result (self.new ≡ at_rest self.old.now self.old.replayed) }
    {
        clear(&mut self.prepared);
        self.places.reserve(1)?;
        let count = self.places.len();
        let next = prepare_event(&mut self.state, &mut self.saved, count, index, event)?;
        let status = next.status(&self.state);
        let told = self.told.with(&index, event);
        keep(&mut self.prepared, Prepared::Push(index, told, next));
        Ok(status)
    }

    /// Prepares to keep the events whose index is below `n` alone, and gives the status that [`commit`](Self::commit) will bring. `lent` is
    /// the whole history. It costs a copy of the ends that were saved after the last 64th event that stays, and fewer than 64 replays: of
    /// the events behind it, each given to that copy. If it takes no event away, it makes none, and copies no end.
    ///
    /// # Errors
    ///
    /// `AllocError` if memory was refused: then nothing is prepared, and the rest is as it was.
    pub fn prepare_cut(&mut self, n: u32, borrowed: &[Event]) -> Result<KeyStatus, AllocError>
        requires { AreBorrowedBy borrowed.now self.old.now.events }
        ensures status { IfOk result (IsStatusOf (cut_at n self.old.now)) }
        ensures prepared { OnOk result
            (self.new ≡ with_next (cut_at n self.old.now) (replays_at n self.old.now) self.old) }
        ensures err { OnErr result (self.new ≡ at_rest self.old.now self.old.replayed) }
    {
        clear(&mut self.prepared);
        let kept = count_below(&self.places, n);
        let mut replays = 0;
        let next = if kept < self.places.len() {
            let state = gone_back(
                self.alloc,
                self.kind,
                self.budget,
                &self.places,
                borrowed,
                &self.saved,
                kept,
                &mut replays,
            )?;
            Next::Becomes(Box::new(self.alloc, state)?)
        } else {
            Next::Stays
        };
        let status = next.status(&self.state);
        let change = Change {
            kind: self.kind,
            budget: self.budget,
            kept,
            told: self.told.first(&kept),
            next,
            saves: Saves::Kept,
            replays,
        };
        let boxed = Box::new(self.alloc, change)?;
        keep(&mut self.prepared, Prepared::Change(boxed));
        Ok(status)
    }

    /// Prepares to judge the same events by another kind of object and another budget, and gives the status that [`commit`](Self::commit)
    /// will bring. `lent` is the whole history. It costs O(the line's events), each given to a fresh frontier, which is one replay each. A
    /// copy of the ends is saved after each 64th that others follow. States that were saved before are removed.
    ///
    /// # Errors
    ///
    /// `AllocError` if memory was refused: then nothing is prepared, and the rest is as it was.
    pub fn prepare_rebuild(
        &mut self,
        kind: ModelKind,
        budget: u32,
        borrowed: &[Event],
    ) -> Result<KeyStatus, AllocError>
        requires { AreBorrowedBy borrowed.now self.old.now.events }
        ensures status { IfOk result (IsStatusOf (judged_by kind budget self.old.now)) }
        ensures prepared { OnOk result (self.new
            ≡ with_next (judged_by kind budget self.old.now) (length self.old.now.events)
            self.old) }
        ensures err { OnErr result (self.new ≡ at_rest self.old.now self.old.replayed) }
    {
        clear(&mut self.prepared);
        let kept = self.places.len();
        let mut replays = 0;
        let (state, saved) = judged_anew(
            self.alloc,
            kind,
            budget,
            &self.places,
            borrowed,
            &mut replays,
        )?;
        let status = state.status();
        let becomes = Box::new(self.alloc, state)?;
        let change = Change {
            kind,
            budget,
            kept,
            told: self.told.first(&kept),
            next: Next::Becomes(becomes),
            saves: Saves::Anew(saved),
            replays,
        };
        let boxed = Box::new(self.alloc, change)?;
        keep(&mut self.prepared, Prepared::Change(boxed));
        Ok(status)
    }

    /// Carries out what is prepared. It takes no memory and cannot fail.
    #[inline(always)]
    pub fn commit(&mut self)
        requires { IsSome self.old.next }
        ensures { IfSome self.old.next (λ next.
            self.new ≡ at_rest next (count_on self.old.replayed self.old.prepared_replays)) }
    {
        match self.prepared.take() {
            Some(Prepared::Push(index, told, next)) => {
                self.places.push_reserved(index);
                self.told = told;
                self.state.commit(next);
                self.replayed = self.replayed.saturating_add(1);
            }
            Some(Prepared::Change(change)) => {
                let Change {
                    kind,
                    budget,
                    kept,
                    told,
                    next,
                    saves,
                    replays,
                } = Box::into_inner(change);
                self.places.truncate(kept);
                self.told = told;
                keep_or_renew(&mut self.saved, kept, saves);
                self.state.commit(next);
                self.kind = kind;
                self.budget = budget;
                self.replayed = self.replayed.saturating_add(replays);
            }
            None => {}
        }
    }

    /// Drops what is prepared, if anything is.
    pub fn drop_prepared(&mut self)
        ensures { self.new ≡ at_rest self.old.now self.old.replayed }
    {
        clear(&mut self.prepared);
    }

    /// Appends this event: [`prepare_push`](Self::prepare_push) and [`commit`](Self::commit) in one.
    ///
    /// # Errors
    ///
    /// `AllocError` if memory was refused: then nothing is prepared, and the rest is as it was.
    pub fn push(&mut self, index: u32, event: &Event) -> Result<(), AllocError>
        requires { IsHistory (self.old.now.events ++ (index, event.now) ∷ []) }
        ensures ok { OnOk result (self.new
            ≡ at_rest (with_pushed index event.now self.old.now) (count_on self.old.replayed 1)) }
        ensures err { OnErr result (self.new ≡ at_rest self.old.now self.old.replayed) }
    {
        self.prepare_push(index, event)?;
        self.commit();
        Ok(())
    }

    /// Keeps the events whose index is below `n` alone: [`prepare_cut`](Self::prepare_cut) and [`commit`](Self::commit) in
    /// one.
    ///
    /// # Errors
    ///
    /// `AllocError` if memory was refused: then nothing is prepared, and the rest is as it was.
    pub fn cut(&mut self, n: u32, borrowed: &[Event]) -> Result<(), AllocError>
        requires { AreBorrowedBy borrowed.now self.old.now.events }
        ensures ok { OnOk result (self.new ≡ at_rest (cut_at n self.old.now)
            (count_on self.old.replayed (replays_at n self.old.now))) }
        ensures err { OnErr result (self.new ≡ at_rest self.old.now self.old.replayed) }
    {
        self.prepare_cut(n, borrowed)?;
        self.commit();
        Ok(())
    }

    /// Judges the same events by another kind of object and another budget: [`prepare_rebuild`](Self::prepare_rebuild) and
    /// [`commit`](Self::commit) in one.
    ///
    /// # Errors
    ///
    /// `AllocError` if memory was refused: then nothing is prepared, and the rest is as it was.
    pub fn rebuild(
        &mut self,
        kind: ModelKind,
        budget: u32,
        borrowed: &[Event],
    ) -> Result<(), AllocError>
        requires { AreBorrowedBy borrowed.now self.old.now.events }
        ensures ok { OnOk result (self.new ≡ at_rest (judged_by kind budget self.old.now)
            (count_on self.old.replayed (length self.old.now.events))) }
        ensures err { OnErr result (self.new ≡ at_rest self.old.now self.old.replayed) }
    {
        self.prepare_rebuild(kind, budget, borrowed)?;
        self.commit();
        Ok(())
    }

    /// The status of the key.
    pub fn status(&self) -> KeyStatus
        ensures { IsStatusOf self.now.now result }
    {
        self.state.status()
    }

    /// How many events the committed changes gave to the judge of the key: one for each event that was pushed, and one for each that a cut
    /// or a rebuild gave again. It stops at the greatest `u64`.
    pub fn replayed(&self) -> u64
        ensures { result ≡ self.now.replayed }
    {
        let count = self.replayed;
        count
    }

    /// The number of replays of the prepared change, which [`commit`](Self::commit) adds to the earlier ones; 0 if no change is prepared.
    pub fn prepared_replays(&self) -> u64
        ensures { result ≡ self.now.prepared_replays }
    {
        match &self.prepared {
            Some(Prepared::Push(..)) => 1,
            Some(Prepared::Change(change)) => change.replays,
            None => 0,
        }
    }

    /// How many events the line has.
    pub fn len(&self) -> usize
        ensures { result ≡ length self.now.now.events }
    {
        self.places.len()
    }

    /// Whether a cut at `n` takes events of the key away: its last event has an index of `n` or more. Takes constant time.
    pub fn loses(&self, n: u32) -> bool
        ensures { result ≡ loses_at n self.now.now }
    {
        has_from(&self.places, n)
    }

    /// Whether the key has an event of index below `n`: its first one has. Takes constant time.
    pub fn begins_below(&self, n: u32) -> bool
        ensures { result ≡ begins_below n self.now.now }
    {
        has_below(&self.places, n)
    }
}

// Drops what was prepared before. A function of its own, so that the drop is proved once.
fn clear(prepared: &mut Option<Prepared>)
    ensures { prepared.new ≡ None }
{
    *prepared = None;
}

// Keeps the change until it is carried out, and drops a change that was prepared before. A function of its own, as `clear`.
fn keep(prepared: &mut Option<Prepared>, change: Prepared)
    ensures { prepared.new ≡ Some change }
{
    *prepared = Some(change);
}

// How many events have an index below n, by the indices of the events, which rise.
fn count_below(places: &[u32], n: u32) -> usize
    ensures first { (events : List (ℕ × Event)) → IsHistory events → places.now ≡ places_of events
        → take result events ≡ events_below n events }
    ensures within { result ≤ length places.now }
{
    places.partition_point(|index| *index < n)
}

// Whether an event has an index of n or more, by the indices of the events, which rise: the last one has.
fn has_from(places: &[u32], n: u32) -> bool
    ensures { (events : List (ℕ × Event)) → IsHistory events → places.now ≡ places_of events
        → result ≡ nat_lt (length (events_below n events)) (length events) }
{
    let count = places.len();
    0 < count && n <= places[count - 1]
}

// Whether an event has an index below n, by the indices of the events, which rise: the first one has.
fn has_below(places: &[u32], n: u32) -> bool
    ensures { (events : List (ℕ × Event)) → IsHistory events → places.now ≡ places_of events
        → result ≡ nat_lt 0 (length (events_below n events)) }
{
    0 < places.len() && places[0] < n
}
