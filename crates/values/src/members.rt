//! Sets of integers.
ghost use Rattle.std.specs.Prelude.{◌≡◌, ◌↔◌, IsTrue, IfOk, [], List, ℤ, Some};
ghost use Rattle.std.specs.List.{Contains};
ghost use Rattle.std.specs.Ordering.{int_eq};
ghost use Rattle.std.specs.Cmp.Lexicographic.{pointwise};
ghost use Rattle.values.specs.Members.{IsAscending, put_in};
ghost use Rattle.values.specs.Comparisons.{ints_alike, ints_equal, ints_cmp, ints_ordered, ints_ranked, ints_agree, ints_tie, members_fed, members_fed-alike};
ghost use Rattle.values.specs.Sums.{IsListed, members_in, mixed, sum_of};

use crate::copies::copy_with_room;
use persistent::are_same;
use std::alloc::{AllocError, Global};
use std::cmp::Ordering;
use std::hash::{Hash, Hasher};
use std::marker::Model;
use std::sync::Arc;

/// A set of integers, ascending, as the result of a read and as an answer. The state of a set is [`Spans`](crate::Spans). A copy shares
/// the members, which never change.
pub struct Members {
    alloc: Global,
    listed: Option<Arc<Listed>>,
}

impl Model for Members {
    ghost Value = { List ℤ };

    ghost view = { λ a. members_in a.listed };
}

// So that crates above give one back by one call.
impl Drop for Members {
    #[inline(always)]
    fn drop(self) {
        let Members {
            alloc: _alloc,
            listed: _listed,
        } = self;
    }
}

// Integers, ascending, with their sum, which differs for most other sets.
#[derive(Drop)]
struct Listed {
    items: Vec<i64>,
    sum: u128,
}

impl Model for Listed {
    ghost Value = { List ℤ };

    ghost view = { λ a. a.items.items };

    ghost invariant = { λ a. IsListed a.items.items a.sum };
}

impl Listed {
    // These integers, which ascend.
    fn of(items: Vec<i64>) -> Listed
        requires { IsAscending items.items }
        ensures { result ≡ items.items }
    {
        let sum = sum_of(items.as_slice());
        Listed { items, sum }
    }
}

// The summand of a value in the sum of its set, its multiset or its queue. It is spread over 128 bits, so that few lists have the same
// sum, also if somebody has chosen the values for that. Its lower half is the value itself, mixed by steps that can be undone. So
// different values have different lower halves, and at each place of a queue the weighed summands of different values differ too.
pub(crate) fn mixed(value: i64) -> u128
    ensures { result ≡ mixed value }
{
    let lower = (value.cast_unsigned() ^ 0x2545_f491_4f6c_dd1d).wrapping_mul(0x9e37_79b9_7f4a_7c15);
    let folded = lower ^ (lower >> 32);
    let upper = (folded ^ 0x9fb2_1c65_1e98_df25).wrapping_mul(0xd6e8_feb8_6659_fd93);
    let turned = upper ^ (upper >> 32);
    let product = (folded as u128).wrapping_mul(turned as u128);
    (product ^ (product >> 64))
        .wrapping_add(folded as u128)
        .wrapping_mul(1 << 64)
        .wrapping_add(turned as u128)
}

// The sum of the values' summands, up to a multiple of 2^128.
fn sum_of(values: &[i64]) -> u128
    ensures { result ≡ sum_of values.now }
{
    let mut sum: u128 = 0;
    for value in values {
        sum = sum.wrapping_add(mixed(*value));
    }
    sum
}

impl Members {
    /// The empty set.
    pub fn new(alloc: Global) -> Members
        ensures { result ≡ [] }
    {
        Members {
            alloc,
            listed: None,
        }
    }

    // The set of these values; `AllocError` if there is no memory to share it.
    fn sharing(alloc: Global, listed: Listed) -> Result<Members, AllocError>
        ensures { IfOk result (λ set. set ≡ listed) }
    {
        let listed = Arc::new(alloc, listed)?;
        Ok(Members {
            alloc,
            listed: Some(listed),
        })
    }

    /// The set of values that ascend, none twice; `AllocError` if there is no memory to share them. Costs O(values).
    pub fn of_ascending(values: Vec<i64>) -> Result<Members, AllocError>
        requires { IsAscending values.items }
        ensures { IfOk result (λ set. set ≡ values.items) }
    {
        Members::sharing(*values.allocator(), Listed::of(values))
    }

    /// The same, if the caller knows the sum of the values. Takes constant time.
    pub(crate) fn of_listed(values: Vec<i64>, sum: u128) -> Result<Members, AllocError>
        requires { IsListed values.items sum }
        ensures { IfOk result (λ set. set ≡ values.items) }
    {
        Members::sharing(*values.allocator(), Listed { items: values, sum })
    }

    /// The set of values in any order, with or without repetitions; `AllocError` if there is no memory to share them. Costs a sort:
    /// O(n log n).
    pub fn of_unordered(values: Vec<i64>) -> Result<Members, AllocError>
        ensures members { IfOk result (λ set. (v : ℤ) → Contains set v ↔ Contains values.items v) }
        ensures ascending { IfOk result IsAscending }
    {
        let mut items = values;
        items.sort_unstable();
        items.dedup();
        Members::of_ascending(items)
    }

    /// The members, ascending. Takes constant time.
    pub fn as_slice(&self) -> &[i64]
        ensures value { result.now ≡ self.now }
        ensures ascending { IsAscending self.now }
    {
        match &self.listed {
            Some(listed) => listed.items.as_slice(),
            None => &[],
        }
    }

    // The sum of the members' summands.
    fn sum(&self) -> u128
        ensures { result ≡ sum_of self.now }
    {
        match &self.listed {
            Some(listed) => listed.sum,
            None => 0,
        }
    }

    /// The same set, which shares its members with this one. Takes constant time, and no memory; `AllocError` if as many
    /// share them as can be counted.
    pub fn copy(&self) -> Result<Members, AllocError>
        ensures { IfOk result (λ other. other ≡ self.now) }
    {
        match &self.listed {
            Some(listed) => Ok(Members {
                alloc: self.alloc,
                listed: Some(listed.clone()?),
            }),
            None => Ok(Members::new(self.alloc)),
        }
    }

    /// Whether both have the same members. Takes constant time if their numbers or their sums differ.
    pub fn same(&self, other: &Members) -> bool
        ensures { IsTrue result ↔ (self.now ≡ other.now) }
    {
        self == other
    }

    /// The set with the value put in. Costs O(members).
    pub fn with(&self, value: i64) -> Result<Members, AllocError>
        ensures { IfOk result (λ more. more ≡ put_in value self.now) }
    {
        let members = self.as_slice();
        match members.binary_search(&value) {
            Ok(_) => self.copy(),
            Err(at) => {
                let mut items = copy_with_room(self.alloc, members)?;
                items.insert(at, value)?;
                let sum = self.sum().wrapping_add(mixed(value));
                Members::sharing(self.alloc, Listed { items, sum })
            }
        }
    }
}

impl PartialEq for Members {
    ghost eq = { pointwise int_eq };

    ghost laws = { ints_alike };

    fn eq(&self, other: &Members) -> bool {
        self.sum() == other.sum() && are_same(self.as_slice(), other.as_slice())
    }
}

impl Eq for Members {
    ghost laws = { ints_equal };
}

impl Hash for Members {
    ghost hash_input = { members_fed };

    ghost respects_eq = { members_fed-alike };

    fn hash<H: Hasher>(&self, state: &mut H) {
        self.as_slice().len().hash(state);
        self.sum().hash(state);
    }
}

impl PartialOrd for Members {
    ghost partial_cmp = { λ a b. Some (ints_cmp a b) };

    ghost laws = { ints_ordered };

    fn partial_cmp(&self, other: &Members) -> Option<Ordering> {
        Some(self.cmp(other))
    }
}

impl Ord for Members {
    ghost cmp = { ints_cmp };

    ghost total = { ints_ranked };

    ghost matches_partial_cmp = { ints_agree };

    ghost matches_eq = { ints_tie };

    fn cmp(&self, other: &Members) -> Ordering {
        let (left, right) = (self.as_slice(), other.as_slice());
        match left.len().cmp(&right.len()) {
            Ordering::Equal => {}
            apart => return apart,
        }
        match self.sum().cmp(&other.sum()) {
            Ordering::Equal => left.cmp(right),
            apart => apart,
        }
    }
}
