//! The rest of rows whose number at a place is marked.
ghost use Rattle.std.specs.Prelude.{◌≡◌, ◌↔◌, ◌<◌, ◌≤◌, ◌-◌, [], ℕ, List, IsTrue, true, false, IfSome, OnOk, length, get_or};
ghost use Rattle.std.specs.List.{remove};
ghost use Rattle.products.specs.Products.{Has, IsInOne, IsLeft};
ghost use Rattle.products.specs.Taking.{IsLeftOf, IsOneMarked};

use crate::appending::append;
use crate::number_set::{HIGH, has};
use crate::products::Products;
use crate::scratch::Scratch;
use std::alloc::AllocError;

/// Replaces the rows by the rows of `other` whose number at `place` is marked, without that number. The first number of a row is at place
/// 0, so place 1 is the place of the first set. A mark belongs to the number at its place in the list; a number beyond the list has no
/// mark. The scratch is memory to work in. `AllocError` if there is no memory: then some of the rows may be there. Compares each product
/// that has a marked number with the products that are there so far; if several numbers are marked, or one is alone in its set, as
/// [`Products::put`] does.
pub fn take_marked(
    products: &mut Products,
    other: &Products,
    place: usize,
    marks: &[bool],
    scratch: &mut Scratch,
) -> Result<(), AllocError>
    requires after { 0 < place }
    requires within { place ≤ other.now.0 }
    ensures places { OnOk result (products.new.0 ≡ other.now.0 - 1) }
    ensures left { OnOk result ((row : List ℕ) → IsInOne products.new.1 row ↔ IsLeft other.now.1 place marks.now row) }
{
    products.restart(other.places() - 1);
    match one_marked(other, place, marks) {
        Some(number) => join_marked(products, other, place, number, &mut scratch.sets),
        None => put_marked(products, other, place, marks, scratch),
    }
}

// The one marked number that the products have at this place, if it is the only one; none also if a set there has a number
// alone.
fn one_marked(other: &Products, place: usize, marks: &[bool]) -> Option<usize>
    requires after { 0 < place }
    requires within { place ≤ other.now.0 }
    ensures { IfSome result (λ number. IsOneMarked other.now.1 (place - 1) marks.now number) }
{
    let mut all = 0u64;
    for at in 0..other.len() {
        all = all | other.sets(at)[place - 1];
    }
    if all >= HIGH {
        return None;
    }
    let mut found = None;
    for number in 0..marks.len() {
        if marks[number] && has(all, number) {
            if found.is_some() {
                return None;
            }
            found = Some(number);
        }
    }
    found
}

// Puts each row that has this number at the place, without it.
fn join_marked(
    products: &mut Products,
    other: &Products,
    place: usize,
    number: usize,
    left: &mut Vec<u64>,
) -> Result<(), AllocError>
    requires after { 0 < place }
    requires within { place ≤ other.now.0 }
    requires none { products.old ≡ (other.now.0 - 1, []) }
    ensures places { products.new.0 ≡ other.now.0 - 1 }
    ensures left { OnOk result ((row : List ℕ) → IsInOne products.new.1 row ↔ IsLeftOf other.now.1 place number row) }
{
    // It says that no row is in two of them.
    let _rows = other.rows();
    for at in 0..other.len() {
        let sets = other.sets(at);
        if has(sets[place - 1], number) {
            rewrite_without(left, sets, place - 1)?;
            products.join(other.first(at), left)?;
        }
    }
    Ok(())
}

// Puts each row whose number at the place is marked, without it, if it is not there.
fn put_marked(
    products: &mut Products,
    other: &Products,
    place: usize,
    marks: &[bool],
    scratch: &mut Scratch,
) -> Result<(), AllocError>
    requires after { 0 < place }
    requires within { place ≤ other.now.0 }
    requires none { products.old ≡ (other.now.0 - 1, []) }
    ensures places { products.new.0 ≡ other.now.0 - 1 }
    ensures left { OnOk result ((row : List ℕ) → IsInOne products.new.1 row ↔ IsLeft other.now.1 place marks.now row) }
{
    for at in 0..other.len() {
        let sets = other.sets(at);
        if has_marked(sets[place - 1], marks) {
            rewrite_without(&mut scratch.sets, sets, place - 1)?;
            products.put(0, other.first(at), &scratch.sets, &mut scratch.stack)?;
        }
    }
    Ok(())
}

// Writes the sets without the one at this place.
fn rewrite_without(left: &mut Vec<u64>, sets: &[u64], place: usize) -> Result<(), AllocError>
    requires { place < length sets.now }
    ensures { OnOk result (left.new.items ≡ remove sets.now place) }
{
    left.clear();
    append(left, &sets[..place])?;
    append(left, &sets[place + 1..])
}

// Whether a number of the set has a mark.
fn has_marked(set: u64, marks: &[bool]) -> bool
    ensures { IsTrue result ↔ ((number : ℕ) × Has set number × (get_or marks.now number false ≡ true)) }
{
    for number in 0..marks.len() {
        if marks[number] && has(set, number) {
            return true;
        }
    }
    false
}
