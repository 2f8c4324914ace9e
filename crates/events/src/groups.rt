//! The groups of a partition.
ghost use Rattle.std.specs.Prelude.{◌≡◌, ◌↔◌, ℕ, List, ◌++◌, length, map, IsTrue, IfOk, MatchBool};
ghost use Rattle.events.specs.Replicas.{AreApart, AreGroups, HasSeen};

use std::alloc::AllocError;
use std::marker::Model;

/// The most replicas: they are numbered from 0 to one below this.
pub const MOST_REPLICAS: u8 = 7;

/// As many, as a length.
pub const REPLICAS: usize = 7;

/// The groups into which a partition cuts the replicas, by their numbers. A replica that no group names is alone.
pub struct Groups {
    groups: Vec<Vec<u8>>,
}

impl Model for Groups {
    ghost use Rattle.std.specs.Prelude.{List, ℕ, map};

    ghost Value = { List (List ℕ) };

    ghost view = { λ a. map (λ v. v.items) a.groups.items };
}

// So that crates above give one back by one call.
impl Drop for Groups {
    fn drop(self) {
        let Groups { groups: _groups } = self;
    }
}

impl Groups {
    /// These groups, each the numbers of its replicas.
    pub fn new(groups: Vec<Vec<u8>>) -> Groups
        ensures { result ≡ map (λ v. v.items) groups.items }
    {
        Groups { groups }
    }

    /// The groups, in the order in which they were given.
    pub fn groups(&self) -> &[Vec<u8>]
        ensures { map (λ v. v.items) result.now ≡ self.now }
    {
        self.groups.as_slice()
    }

    /// Equal groups, with memory of their own. Costs O(numbers).
    pub fn copy(&self) -> Result<Groups, AllocError>
        ensures { IfOk result (λ other. other ≡ self.now) }
    {
        let alloc = *self.groups.allocator();
        let mut groups = Vec::new(alloc);
        for group in &self.groups {
            let numbers = Vec::from_slice(alloc, group.as_slice())?;
            groups.push(numbers)?;
        }
        Ok(Groups { groups })
    }

    /// Whether the numbers are numbers of replicas, 0 to 6, each at most once.
    pub fn are_apart(&self) -> bool
        ensures { IsTrue result ↔ AreGroups self.now }
    {
        let mut seen = [false; REPLICAS];
        for group in &self.groups {
            if !mark(group.as_slice(), &mut seen) {
                return false;
            }
        }
        true
    }
}

/// Marks the replicas with these numbers. Returns false if a number is not the number of a replica, or is marked already. Costs O(numbers).
pub fn mark(numbers: &[u8], seen: &mut [bool]) -> bool
    requires { length seen.old ≡ 7 }
    ensures { (before : List ℕ) → HasSeen seen.old before → MatchBool result
        (HasSeen seen.new (before ++ numbers.now))
        ((after : List ℕ) → ¬ AreApart ((before ++ numbers.now) ++ after)) }
{
    for number in numbers {
        let replica = usize::from(*number);
        if replica >= seen.len() || seen[replica] {
            return false;
        }
        seen[replica] = true;
    }
    true
}
