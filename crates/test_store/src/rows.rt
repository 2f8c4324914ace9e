//! The rows of the keys that were ever changed.
ghost use Rattle.std.specs.Prelude.{◌≡◌, ◌<◌, ◌∷◌, ◌++◌, [], None, nat_eq, map, IfOk, OnOk};
ghost use Rattle.std.specs.Option.{option_copied};
ghost use Rattle.std.specs.Map.{lookup};
ghost use Rattle.indexmap.specs.IndexMap.{insert_entry};
ghost use Rattle.test_store.specs.Copies.{healed, healed_entry};
ghost use Rattle.test_store.specs.Places.{place_of};

use crate::held::{Row, newest, taken_over};
use models::Key;
use std::alloc::{AllocError, Global};
use std::collections::HashMap;
use std::marker::Model;

/// The rows of the keys that were ever changed, in the order of their first changes. A key is found in constant time.
#[derive(Drop)]
pub(crate) struct Rows {
    rows: Vec<(Key, Row)>,
    /// The place of the row of each key.
    places: HashMap<Key, usize>,
}

impl Model for Rows {
    ghost use Rattle.std.specs.Prelude.{◌-◌, length, min, vec_capacity};
    ghost use Rattle.std.specs.HashMap.{spare};
    ghost use Rattle.test_store.specs.Copies.{RowsView};
    ghost use Rattle.test_store.specs.Places.{ArePlaces};

    ghost Value = { RowsView };

    ghost view = { λ a. record {
      rows = a.rows.items;
      room = min (vec_capacity a.rows - length a.rows.items) (spare a.places);
    } };

    ghost invariant = { λ a. ArePlaces a.places a.rows.items };
}

impl Rows {
    /// No rows.
    pub(crate) fn new(alloc: Global) -> Rows
        ensures { result.rows ≡ [] }
    {
        Rows {
            rows: Vec::new(alloc),
            places: HashMap::new(alloc),
        }
    }

    /// The row of a key, if it was ever changed.
    pub(crate) fn find(&self, key: Key) -> Option<&Row>
        ensures { option_copied result ≡ lookup (nat_eq key) self.now.rows }
    {
        match self.places.get(&key) {
            Some(place) => Some(&self.rows[*place].1),
            None => None,
        }
    }

    /// Makes room for one more row.
    pub(crate) fn reserve(&mut self) -> Result<(), AllocError>
        ensures same { self.new.rows ≡ self.old.rows }
        ensures room { OnOk result (0 < self.new.room) }
    {
        self.rows.reserve(1)?;
        self.places.reserve(1)
    }

    /// Puts the row of a key in the place of the one before.
    pub(crate) fn put(&mut self, key: Key, row: Row)
        requires { 0 < self.old.room }
        ensures { self.new.rows ≡ insert_entry nat_eq self.old.rows key row }
    {
        match self.places.get(&key) {
            Some(place) => self.rows[*place] = (key, row),
            None => self.put_new(key, row),
        }
    }

    // Puts the row of a key that has none.
    fn put_new(&mut self, key: Key, row: Row)
        requires room { 0 < self.old.room }
        requires new { place_of key self.old.rows ≡ None }
        ensures { self.new.rows ≡ self.old.rows ++ (key, row) ∷ [] }
    {
        match self.places.insert(key, self.rows.len()) {
            Ok(_none) => self.rows.push_reserved((key, row)),
            Err(_full) => unreachable!(),
        }
    }

    /// Equal rows, with memory of their own. No replica is chosen, so none takes anything over.
    pub(crate) fn copy(&self, alloc: Global) -> Result<Rows, AllocError>
        ensures { IfOk result (λ other. other.rows ≡ self.now.rows) }
    {
        self.healed(alloc, &[])
    }

    /// The rows in which each of these replicas has taken over the copy with the greatest version among theirs. Costs O(all rows).
    pub(crate) fn healed(&self, alloc: Global, ups: &[bool]) -> Result<Rows, AllocError>
        ensures { IfOk result (λ other. other.rows ≡ map (healed_entry ups.now) self.now.rows) }
    {
        let mut rows = Vec::with_capacity(alloc, self.rows.len())?;
        for place in 0..self.rows.len() {
            let (key, row) = &self.rows[place];
            let next = healed_row(alloc, ups, row)?;
            rows.push((*key, next))?;
        }
        let places = self.places.clone()?;
        Ok(Rows { rows, places })
    }
}

// A row in which each of these replicas has taken over the copy with the greatest version among theirs.
fn healed_row(alloc: Global, ups: &[bool], row: &Row) -> Result<Row, AllocError>
    ensures { IfOk result (λ other. other ≡ healed ups.now row.now) }
{
    match newest(ups, row.held()) {
        Some(best) => taken_over(alloc, ups, best.version, &best.state, row.held()),
        None => row.copy(alloc),
    }
}
