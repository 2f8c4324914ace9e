//! Whether keys and members are all different by [`same`].

ghost use Rattle.std.specs.Prelude.{◌≡◌, ◌↔◌, ℤ, ◌<ℤ◌, Some, IsTrue, IfOk, OnOk, IfSome, MatchOption, map};
ghost use Rattle.edn.specs.Value.{Value, more, IsNotAmong, AreDistinct};
ghost use Rattle.edn.specs.Digest.{HasDigests};
ghost use Rattle.edn.specs.Scalar.{scalar_value, IsCollection};
ghost use Rattle.edn.specs.View.{value_of, list_of};

use crate::digest::digest;
use crate::equality::same;
use crate::value::Edn;
use std::alloc::{AllocError, Global};
use std::collections::BTreeSet;

/// An item with a key: a pair of a map, or a member of a set.
pub trait Keyed {
    ghost key_value: { Self → Value };

    fn key(&self) -> &Edn
        ensures { value_of result.now ≡ key_value self.now };
}

impl Keyed for Edn {
    ghost key_value = { value_of };

    fn key(&self) -> &Edn {
        self
    }
}

impl Keyed for (Edn, Edn) {
    ghost key_value = { λ p. value_of p.0 };

    fn key(&self) -> &Edn {
        &self.0
    }
}

/// An atom or a string. Two are the same if they are equal, and they have an order.
#[derive(Clone, Copy, PartialEq, Eq, PartialOrd, Ord)]
pub enum Scalar<'a> {
    Nil,
    Bool(bool),
    Int(i64),
    Str(&'a str),
    Keyword(&'a str),
}

// The element as an atom or a string, if it is not a collection.
fn scalar_of(element: &Edn) -> Option<Scalar<'_>>
    ensures { MatchOption result
        (IsCollection (value_of element.now)) (λ s. value_of element.now ≡ scalar_value s) }
{
    match element {
        Edn::Nil => Some(Scalar::Nil),
        Edn::Bool(b) => Some(Scalar::Bool(*b)),
        Edn::Int(n) => Some(Scalar::Int(*n)),
        Edn::Str(text) => Some(Scalar::Str(text.as_str())),
        Edn::Keyword(name) => Some(Scalar::Keyword(name.as_str())),
        _ => None,
    }
}

// Whether none of the items has the same key.
fn is_not_among<T: Keyed>(key: &Edn, items: &[T]) -> bool
    ensures { IsTrue result
        ↔ IsNotAmong (value_of key.now) (list_of (map T.key_value items.now)) }
{
    for item in items {
        if same(key, item.key()) {
            return false;
        }
    }
    true
}

// The integer, if it is greater than the last one, or there is none.
fn above(n: &i64, last: Option<i64>) -> Option<i64>
    ensures { IfSome result (λ k. (k ≡ n.now) × ((m : ℤ) → last ≡ Some m → m <ℤ n.now)) }
{
    match last {
        Some(m) if m >= *n => None,
        _ => Some(*n),
    }
}

// Whether the keys are integers that rise, as in a set that is written in order. Then all are different.
fn rise<T: Keyed>(items: &[T]) -> bool
    ensures { IsTrue result → AreDistinct (list_of (map T.key_value items.now)) }
{
    let mut last: Option<i64> = None;
    for item in items {
        let Edn::Int(n) = item.key() else {
            return false;
        };
        last = above(n, last);
        if last.is_none() {
            return false;
        }
    }
    true
}

// Whether none of the items has the same key, a collection. Its number is put into the set, and only a known number needs a search.
fn is_new_collection<T: Keyed>(
    digests: &mut BTreeSet<u64>,
    key: &Edn,
    items: &[T],
) -> Result<bool, AllocError>
    requires key { IsCollection (value_of key.now) }
    requires had { HasDigests digests.old (list_of (map T.key_value items.now)) }
    ensures is { IfOk result (λ yes. IsTrue yes
        ↔ IsNotAmong (value_of key.now) (list_of (map T.key_value items.now))) }
    ensures has { OnOk result (HasDigests digests.new
        (more (value_of key.now) (list_of (map T.key_value items.now)))) }
{
    let is_first = digests.insert(digest(key))?;
    Ok(is_first || is_not_among(key, items))
}

// Up to this number of items each key is compared with those before it, which takes no memory.
const FEW: usize = 8;

/// Whether no two of the items have the same key. Costs O(log n) for each item, and O(n) for a collection whose number ([`digest`]) an
/// earlier one has. Up to 8 items are compared in pairs. Rising integers are read once, without memory.
pub fn are_distinct<T: Keyed>(alloc: Global, items: &[T]) -> Result<bool, AllocError>
    ensures { IfOk result
        (λ yes. IsTrue yes ↔ AreDistinct (list_of (map T.key_value items.now))) }
{
    if items.len() <= FEW {
        return Ok(all_differ(items));
    }
    if rise(items) {
        return Ok(true);
    }
    let mut scalars = BTreeSet::new(alloc);
    let mut digests = BTreeSet::new(alloc);
    for (i, item) in items.iter().enumerate() {
        let key = item.key();
        let is_new = match scalar_of(key) {
            Some(scalar) => scalars.insert(scalar)?,
            None => is_new_collection(&mut digests, key, &items[..i])?,
        };
        if !is_new {
            return Ok(false);
        }
    }
    Ok(true)
}

/// Whether no two of the items have the same key, found without memory. The time grows with the square of their number.
pub fn all_differ<T: Keyed>(items: &[T]) -> bool
    ensures { IsTrue result ↔ AreDistinct (list_of (map T.key_value items.now)) }
{
    for (i, item) in items.iter().enumerate() {
        if !is_not_among(item.key(), &items[..i]) {
            return false;
        }
    }
    true
}
