//! Values in a row: a few in place, some more in a list, and many in a tree whose parts are shared.
ghost use Rattle.std.specs.Prelude.{◌≡◌, ◌↔◌, ◌+◌, ◌<◌, ◌≤◌, ℕ, IfOk, IsTrue};
ghost use Rattle.std.specs.Prelude.{[], ◌∷◌, ◌++◌, get_or, length, take, drop, ◌<ℤ◌, ◌≤ℤ◌};
ghost use Rattle.std.specs.List.{insert, remove};
ghost use Rattle.persistent.specs.Shown.{IsShown};

use crate::alike::are_same;
use crate::few::{Few, IN_PLACE};
use crate::lists::{list_around, list_of};
use crate::placed::Placed;
use crate::tree::{Tree, leaf_of, place_in};
use std::alloc::{AllocError, Global};
use std::marker::Model;

/// A row with more values than this is a tree.
pub const FLAT: usize = 128;

/// Values in a row, each at its place. A change returns another row. Up to 128 values are copied. If there are more, the other row
/// shares all except the path to the changed place, which has O(log n) parts, and a copy shares all.
#[derive(Drop)]
pub struct Row<T: Copy> {
    form: Form<T>,
}

// The form of a row.
#[derive(Drop)]
enum Form<T: Copy> {
    Empty,
    InPlace(Few<T>),
    Listed(Vec<T>),
    Shared(Tree<T>),
}

// The values, as they are looked at.
#[derive(Clone, Copy, Drop)]
enum Shown<'a, T: Copy> {
    Piece(&'a [T]),
    Whole(&'a Tree<T>),
}

impl<T: Copy> Model for Row<T> {
    ghost use Rattle.std.specs.Prelude.{List};
    ghost use Rattle.persistent.specs.Rows.{lying, IsFit};

    ghost Value = { List T };

    ghost view = { λ a. lying a.form };

    ghost invariant = { λ a. IsFit a.form };
}

// The row of this list.
fn row_of_list<T: Copy>(alloc: Global, list: Vec<T>) -> Result<Row<T>, AllocError>
    ensures { IfOk result (λ row. row ≡ list.items) }
{
    if list.len() <= FLAT {
        return Ok(Row {
            form: Form::Listed(list),
        });
    }
    let tree = leaf_of(alloc, list)?;
    Ok(Row {
        form: Form::Shared(tree),
    })
}

// The row of both parts, one behind the other. Unused places get `blank`.
fn row_of<T: Copy>(alloc: Global, blank: T, first: &[T], second: &[T]) -> Result<Row<T>, AllocError>
    ensures { IfOk result (λ row. row ≡ first.now ++ second.now) }
{
    if first.len().saturating_add(second.len()) <= IN_PLACE {
        return Ok(Row {
            form: Form::InPlace(Few::of(blank, first, second)),
        });
    }
    row_of_list(alloc, list_of(alloc, first, second)?)
}

// The same, with one value between both parts.
fn row_around<T: Copy>(
    alloc: Global,
    first: &[T],
    value: T,
    second: &[T],
) -> Result<Row<T>, AllocError>
    ensures { IfOk result (λ row. row ≡ first.now ++ value ∷ second.now) }
{
    if first.len().saturating_add(second.len()) < IN_PLACE {
        return Ok(Row {
            form: Form::InPlace(Few::around(first, value, second)),
        });
    }
    row_of_list(alloc, list_around(alloc, first, value, second)?)
}

// The row of these values without the one at this place.
fn row_without<T: Copy>(alloc: Global, values: &[T], at: usize) -> Result<Row<T>, AllocError>
    requires { at < length values.now }
    ensures { IfOk result (λ row. row ≡ remove values.now at) }
{
    row_of(alloc, values[at], &values[..at], &values[at + 1..])
}

// The row of this tree.
fn row_of_tree<T: Copy>(alloc: Global, tree: Tree<T>) -> Result<Row<T>, AllocError>
    ensures { IfOk result (λ row. row ≡ tree) }
{
    if tree.len() > FLAT {
        return Ok(Row {
            form: Form::Shared(tree),
        });
    }
    let mut list = Vec::with_capacity(alloc, tree.len())?;
    tree.append_to(&mut list)?;
    row_of_list(alloc, list)
}

impl<T: Copy> Row<T> {
    /// No values.
    pub fn new() -> Row<T>
        ensures { result ≡ [] }
    {
        Row { form: Form::Empty }
    }

    // The values, as they are looked at.
    #[inline(always)]
    fn shown(&self) -> Shown<'_, T>
        ensures is { IsShown self.now result }
    {
        match &self.form {
            Form::Empty => Shown::Piece(&[]),
            Form::InPlace(few) => Shown::Piece(few.as_slice()),
            Form::Listed(list) => Shown::Piece(list.as_slice()),
            Form::Shared(tree) => Shown::Whole(tree),
        }
    }

    /// The number of values. Takes constant time.
    pub fn len(&self) -> usize
        ensures { result ≡ length self.now }
    {
        match self.shown() {
            Shown::Piece(values) => values.len(),
            Shown::Whole(tree) => tree.len(),
        }
    }

    /// The first value. Takes constant time.
    pub fn first(&self) -> T
        requires { 0 < length self.now }
        ensures { (d : T) → result ≡ get_or self.now 0 d }
    {
        match self.shown() {
            Shown::Piece(values) => values[0],
            Shown::Whole(tree) => tree.first(),
        }
    }

    /// A row of the same values. Costs time and memory in O(values) up to 128 values, and else constant time and no memory. `AllocError`
    /// if there is no memory, or if as many rows share the values as can be counted.
    pub fn copy(&self) -> Result<Row<T>, AllocError>
        ensures { IfOk result (λ row. row ≡ self.now) }
    {
        let form = match &self.form {
            Form::Empty => Form::Empty,
            Form::InPlace(few) => Form::InPlace(few.copy()),
            Form::Listed(list) => {
                Form::Listed(list_of(*list.allocator(), list.as_slice(), &[])?)
            }
            Form::Shared(tree) => Form::Shared(tree.copy()?),
        };
        Ok(Row { form })
    }

    /// The values with `value` inserted at place `at`. Costs time and memory in O(values) up to 128 values, and else in O(log n).
    pub fn with(&self, alloc: Global, at: usize, value: T) -> Result<Row<T>, AllocError>
        requires { at ≤ length self.now }
        ensures { IfOk result (λ row. row ≡ insert self.now at value) }
    {
        if let Form::InPlace(few) = &self.form {
            if at == few.as_slice().len() {
                if let Some(more) = few.with_last(value) {
                    return Ok(Row {
                        form: Form::InPlace(more),
                    });
                }
            }
        }
        match self.shown() {
            Shown::Piece(values) => row_around(alloc, &values[..at], value, &values[at..]),
            Shown::Whole(tree) => row_of_tree(alloc, tree.with(alloc, at, value)?),
        }
    }

    /// The values without the one at place `at`. Costs time and memory in O(values) up to 128 values, and else in O(log n).
    pub fn without(&self, alloc: Global, at: usize) -> Result<Row<T>, AllocError>
        requires { at < length self.now }
        ensures { IfOk result (λ row. row ≡ remove self.now at) }
    {
        if at == 0 {
            if let Form::InPlace(few) = &self.form {
                return Ok(Row {
                    form: Form::InPlace(few.without_first()),
                });
            }
        }
        match self.shown() {
            Shown::Piece(values) => row_without(alloc, values, at),
            Shown::Whole(tree) => row_of_tree(alloc, tree.without(alloc, at)?),
        }
    }

    /// Replaces the values in from..to (at most two) by `value`. Costs time and memory in O(values) up to 128 values, and else in
    /// O(log n).
    pub fn spliced(
        &self,
        alloc: Global,
        from: usize,
        to: usize,
        value: T,
    ) -> Result<Row<T>, AllocError>
        requires order { from ≤ to }
        requires few { to ≤ from + 2 }
        requires within { to ≤ length self.now }
        ensures { IfOk result (λ row. row ≡ take from self.now ++ value ∷ drop to self.now) }
    {
        match self.shown() {
            Shown::Piece(values) => row_around(alloc, &values[..from], value, &values[to..]),
            Shown::Whole(tree) => row_of_tree(alloc, tree.spliced(alloc, from, to, value)?),
        }
    }

    /// The values from place `at` on that are stored in one piece of memory. Costs O(log n).
    pub fn part_at(&self, at: usize) -> &[T]
        requires { at < length self.now }
        ensures some { 0 < length result.now }
        ensures within { at + length result.now ≤ length self.now }
        ensures part { take (at + length result.now) self.now ≡ take at self.now ++ result.now }
    {
        match self.shown() {
            Shown::Piece(values) => &values[at..],
            Shown::Whole(tree) => tree.part_at(at),
        }
    }

    /// The value at this place. Costs O(log n).
    pub fn get(&self, at: usize) -> T
        requires { at < length self.now }
        ensures { (d : T) → result ≡ get_or self.now at d }
    {
        match self.shown() {
            Shown::Piece(values) => values[at],
            Shown::Whole(tree) => tree.get(at),
        }
    }
}

impl<T: Placed> Row<T> {
    /// A place that splits the row: the element before it, if any, has a place below `value`, and the element at it, if any, has not. A row
    /// that never falls has exactly one such place. Costs O(log n).
    pub fn place_of(&self, value: i64) -> usize
        ensures within { result ≤ length self.now }
        ensures before { (k : ℕ) (d : T) → result ≡ k + 1 → T.place (get_or self.now k d) <ℤ value }
        ensures there { (d : T) → result < length self.now → value ≤ℤ T.place (get_or self.now result d) }
    {
        match self.shown() {
            Shown::Piece(values) => place_in(values, value),
            Shown::Whole(tree) => tree.place_of(value),
        }
    }

    /// Whether both have the same values in the same order.
    pub fn same(&self, other: &Row<T>) -> bool
        ensures { IsTrue result ↔ (self.now ≡ other.now) }
    {
        match (self.shown(), other.shown()) {
            (Shown::Piece(ours), Shown::Piece(theirs)) => are_same(ours, theirs),
            (Shown::Whole(ours), Shown::Whole(theirs)) => ours.same(theirs),
            _ => false,
        }
    }
}
