//! Sets of numbers, each in a word: of numbers below 63 the bits, or the highest bit and one number alone.
ghost use Rattle.std.specs.Prelude.{◌≡◌, ◌↔◌, ◌⊎◌, ℕ, IsTrue, IfOk, IfSome, length};
ghost use Rattle.products.specs.Products.{Has, numbers_of};

use std::alloc::AllocError;

/// The highest bit: a word below it is a set by bits.
pub const HIGH: u64 = 1 << 63;

// The numbers below this one are bits.
const BITS: usize = 63;

/// The set of this number alone. `AllocError` if it has more than 63 bits. Takes no memory, and constant time.
pub fn singleton(number: usize) -> Result<u64, AllocError>
    ensures { IfOk result (λ set. (n : ℕ) → Has set n ↔ (n ≡ number)) }
{
    if number < BITS {
        Ok(1 << number)
    } else if (number as u64) < HIGH {
        Ok(HIGH + number as u64)
    } else {
        Err(AllocError)
    }
}

/// Whether the set has the number. Takes constant time.
#[inline(always)]
pub fn has(set: u64, number: usize) -> bool
    ensures { IsTrue result ↔ Has set number }
{
    if set < HIGH {
        number < BITS && set >> number & 1 == 1
    } else {
        set - HIGH == number as u64
    }
}

/// What both sets have. Takes constant time.
#[inline(always)]
pub fn intersection(set: u64, other: u64) -> u64
    ensures { (n : ℕ) → Has result n ↔ (Has set n × Has other n) }
{
    if set < HIGH && other < HIGH {
        set & other
    } else {
        intersection_with_singleton(set, other)
    }
}

// The same, if one of them has a number alone.
#[inline(never)]
fn intersection_with_singleton(set: u64, other: u64) -> u64
    ensures { (n : ℕ) → Has result n ↔ (Has set n × Has other n) }
{
    if set >= HIGH {
        if has(other, (set - HIGH) as usize) {
            set
        } else {
            0
        }
    } else if other >= HIGH && has(set, (other - HIGH) as usize) {
        other
    } else if other >= HIGH {
        0
    } else {
        set & other
    }
}

/// The numbers of the first set that the second does not have. Takes constant time.
#[inline(always)]
pub(crate) fn difference(set: u64, other: u64) -> u64
    ensures { (n : ℕ) → Has result n ↔ (Has set n × ¬ Has other n) }
{
    if set < HIGH && other < HIGH {
        set & !other
    } else {
        difference_with_singleton(set, other)
    }
}

// The same, if one of them has a number alone.
#[inline(never)]
fn difference_with_singleton(set: u64, other: u64) -> u64
    ensures { (n : ℕ) → Has result n ↔ (Has set n × ¬ Has other n) }
{
    if set >= HIGH {
        return if has(other, (set - HIGH) as usize) {
            0
        } else {
            set
        };
    }
    if other < HIGH {
        return set & !other;
    }
    let number = other - HIGH;
    if number < BITS as u64 {
        set & !(1u64 << number)
    } else {
        set
    }
}

/// The numbers of either set, if both are bits or they are the same. Takes constant time.
#[inline(always)]
pub fn union(set: u64, other: u64) -> Option<u64>
    ensures { IfSome result (λ both. (n : ℕ) → Has both n ↔ (Has set n ⊎ Has other n)) }
{
    if set < HIGH && other < HIGH {
        Some(set | other)
    } else if set == other {
        Some(set)
    } else {
        None
    }
}

/// How many numbers the set has. Takes constant time.
#[inline(always)]
pub fn size(set: u64) -> u64
    ensures { result ≡ length (numbers_of set) }
{
    if set < HIGH {
        set.count_ones() as u64
    } else {
        1
    }
}
