//! Vectors and sets of a text.
ghost use Rattle.std.specs.Prelude.{◌≡◌, ◌^◌, ◌↔◌, ◌++◌, ℕ, List, Some, IsTrue, IsSome, IsSomeAnd, IsErr, IfOk, MatchBool, option_map, length};
ghost use Rattle.edn.specs.View.{value_of, values_of};
ghost use Rattle.edn.specs.Parts.{int_in};
ghost use Rattle.events.specs.Replicas.{AreApart, AreGroups, HasSeen};
ghost use Rattle.events.specs.Spelling.{number_in, numbers_in, groups_in, each_in, ascending, set_in};

use crate::groups::{Groups, REPLICAS, mark};
use edn::Edn;
use std::alloc::{AllocError, Global};
use values::Members;

/// The integer of 0 to 255 that an element is, if it is one.
pub fn byte_of(element: &Edn) -> Option<u8>
    ensures { result ≡ number_in (2 ^ 8) (value_of element.now) }
{
    u8::try_from(element.as_int()?).ok()
}

/// The integer of 0 to 65,535 that an element is, if it is one.
pub fn count_of(element: &Edn) -> Option<u16>
    ensures { result ≡ number_in (2 ^ 16) (value_of element.now) }
{
    u16::try_from(element.as_int()?).ok()
}

/// The set of integers of an element, whose members may have any order; `None` if the element is no such set. Costs a sort: O(n log n).
/// Takes memory only if each member is an integer; `AllocError` if there is none.
pub fn set_of(alloc: Global, element: &Edn) -> Result<Option<Members>, AllocError>
    ensures found { IfOk result (λ found. found ≡ set_in (value_of element.now)) }
    ensures memory_last { IsErr result → IsSome (set_in (value_of element.now)) }
{
    let Edn::Set(elements) = element else {
        return Ok(None);
    };
    if !are_integers(elements.as_slice()) {
        return Ok(None);
    }
    let Some(integers) = integers_of(alloc, elements.as_slice())? else {
        return Ok(None);
    };
    let members = members_of(integers)?;
    Ok(Some(members))
}

// Whether each element is an integer.
fn are_integers(elements: &[Edn]) -> bool
    ensures { IsTrue result ↔ IsSome (each_in int_in (values_of elements.now)) }
{
    for element in elements {
        if element.as_int().is_none() {
            return false;
        }
    }
    true
}

// The integers, if each element is one.
fn integers_of(alloc: Global, elements: &[Edn]) -> Result<Option<Vec<i64>>, AllocError>
    ensures { IfOk result (λ found. option_map (λ v. v.items) found
        ≡ each_in int_in (values_of elements.now)) }
{
    let mut integers = Vec::new(alloc);
    for element in elements {
        let Some(value) = element.as_int() else {
            return Ok(None);
        };
        integers.push(value)?;
    }
    Ok(Some(integers))
}

// The set of these integers.
fn members_of(integers: Vec<i64>) -> Result<Members, AllocError>
    ensures { IfOk result (λ members. members ≡ ascending integers.items) }
{
    Members::of_unordered(integers)
}

/// Whether an element is groups of replicas' numbers, each number at most once.
pub fn are_groups(element: &Edn) -> bool
    ensures { IsTrue result ↔ IsSomeAnd (groups_in (value_of element.now)) AreGroups }
{
    let Edn::Vector(elements) = element else {
        return false;
    };
    let mut seen = [false; REPLICAS];
    for element in elements {
        if !mark_each(element, &mut seen) {
            return false;
        }
    }
    true
}

// Marks the replicas that a vector names. It answers false if the element is not a vector of replicas' numbers, or one of them is marked.
fn mark_each(element: &Edn, seen: &mut [bool]) -> bool
    requires { length seen.old ≡ 7 }
    ensures { (before : List ℕ) → HasSeen seen.old before → MatchBool result
        (IsSomeAnd (numbers_in (value_of element.now))
        (λ numbers. HasSeen seen.new (before ++ numbers)))
        ((numbers after : List ℕ) → numbers_in (value_of element.now) ≡ Some numbers
        → ¬ AreApart ((before ++ numbers) ++ after)) }
{
    let Edn::Vector(elements) = element else {
        return false;
    };
    for element in elements {
        let Some(number) = byte_of(element) else {
            return false;
        };
        if !mark(&[number], seen) {
            return false;
        }
    }
    true
}

/// The groups of numbers that an element is, a vector of vectors, if it is one. Costs O(numbers).
pub fn groups_of(alloc: Global, element: &Edn) -> Result<Option<Groups>, AllocError>
    ensures { IfOk result (λ found. found ≡ groups_in (value_of element.now)) }
{
    let Edn::Vector(elements) = element else {
        return Ok(None);
    };
    let mut groups = Vec::new(alloc);
    for element in elements {
        let Some(numbers) = numbers_of(alloc, element)? else {
            return Ok(None);
        };
        groups.push(numbers)?;
    }
    Ok(Some(Groups::new(groups)))
}

// The numbers that an element is, a vector of them.
fn numbers_of(alloc: Global, element: &Edn) -> Result<Option<Vec<u8>>, AllocError>
    ensures { IfOk result (λ found. option_map (λ v. v.items) found
        ≡ numbers_in (value_of element.now)) }
{
    let Edn::Vector(elements) = element else {
        return Ok(None);
    };
    let mut numbers = Vec::new(alloc);
    for element in elements {
        let Some(number) = byte_of(element) else {
            return Ok(None);
        };
        numbers.push(number)?;
    }
    Ok(Some(numbers))
}
