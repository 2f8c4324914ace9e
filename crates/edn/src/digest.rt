//! A number of each element, which is different for most elements.

ghost use Rattle.std.specs.Prelude.{◌≡◌, ◌+◌, ◌%◌, ◌^◌};
ghost use Rattle.edn.specs.Digest.{digest, digest_bytes, digest_in_order, digest_members, digest_pairs, stirred};
ghost use Rattle.edn.specs.View.{value_of, values_of, entries_of};

use crate::value::Edn;

// A number spread over 64 bits.
fn stirred(number: u64) -> u64
    ensures { result ≡ stirred number }
{
    let lower = (number ^ 0x2545_f491_4f6c_dd1d).wrapping_mul(0x9e37_79b9_7f4a_7c15);
    let folded = lower ^ (lower >> 32);
    let higher = folded.wrapping_mul(0xd6e8_feb8_6659_fd93);
    higher ^ (higher >> 32)
}

// The number with one more summand.
fn with(number: u64, more: u64) -> u64
    ensures { result ≡ stirred ((number + more) % 2 ^ 64) }
{
    stirred(number.wrapping_add(more))
}

// The number with the bytes added, one after the other.
fn with_bytes(number: u64, bytes: &[u8]) -> u64
    ensures { result ≡ digest_bytes number bytes.now }
{
    let mut told = number;
    for byte in bytes {
        told = with(told, u64::from(*byte));
    }
    told
}

/// The hash of an element. Equal elements have the same hash, in any order of pairs and members. Costs O(size of the element).
#[cycle(digest)]
pub fn digest(element: &Edn) -> u64
    ensures { result ≡ digest (value_of element.now) }
{
    match element {
        Edn::Nil => 1,
        Edn::Bool(false) => 2,
        Edn::Bool(true) => 3,
        Edn::Int(number) => stirred(number.cast_unsigned()),
        Edn::Str(text) => with_bytes(4, text.as_bytes()),
        Edn::Keyword(name) => with_bytes(5, name.as_bytes()),
        Edn::Vector(elements) => digest_in_order(elements),
        Edn::Map(pairs) => with(7, digest_pairs(pairs)),
        Edn::Set(elements) => with(8, digest_members(elements)),
    }
}

#[cycle(digest)]
fn digest_in_order(elements: &[Edn]) -> u64
    ensures { result ≡ digest_in_order 6 (values_of elements.now) }
{
    let mut told = 6;
    for element in elements {
        told = with(told, digest(element));
    }
    told
}

#[cycle(digest)]
fn digest_members(elements: &[Edn]) -> u64
    ensures { result ≡ digest_members (values_of elements.now) }
{
    let mut sum: u64 = 0;
    for element in elements {
        sum = sum.wrapping_add(digest(element));
    }
    sum
}

#[cycle(digest)]
fn digest_pairs(pairs: &[(Edn, Edn)]) -> u64
    ensures { result ≡ digest_pairs (entries_of pairs.now) }
{
    let mut sum: u64 = 0;
    for pair in pairs {
        sum = sum.wrapping_add(digest_pair(pair));
    }
    sum
}

#[cycle(digest)]
fn digest_pair(pair: &(Edn, Edn)) -> u64
    ensures { result ≡ stirred ((stirred (digest (value_of pair.now.0)) + digest (value_of pair.now.1)) % 2 ^ 64) }
{
    with(stirred(digest(&pair.0)), digest(&pair.1))
}
