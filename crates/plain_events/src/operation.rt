//! The name and the value of an operation.
ghost use Rattle.std.specs.Prelude.{◌<◌, ◌^◌, codes, IfSome};
ghost use Rattle.edn.specs.Value.{keyword};
ghost use Rattle.models.specs.Names.{text_of};
ghost use Rattle.events.specs.EventMap.{number};
ghost use Rattle.plain_events.specs.Prefixes.{IsAtomAt, IsPairAt, AreTwoAt, IsPartAt, IsValueAt};

use crate::numbers::{integer, number};
use crate::set::set_at;
use crate::word::{past_byte, past_keyword, past_word};
use models::{Key, Name, Part, each_name};
use std::alloc::Global;

macro_rules! name_at {
    ($text:expr; $($N:ident $spelled:literal $part:ident $how:ident [$($parts:ident)*]),*) => {{
        $(if let Some(rest) = past_keyword($text, $spelled) {
            return Some((Name::$N, rest));
        })*
        None
    }};
}

// The name of an operation.
fn name_at(text: &[u8]) -> Option<(Name, &[u8])>
    ensures { IfSome result (λ x. IsAtomAt text.now (keyword (text_of x.0)) x.1.now) }
{
    each_name!(name_at; text)
}

/// The pair of `:f` and a name, and what follows it; or none, which says nothing.
#[inline(never)]
pub fn name_pair(text: &[u8]) -> Option<(Name, &[u8])>
    ensures { IfSome result (λ x. IsPairAt text.now (codes "f") (keyword (text_of x.0)) x.1.now) }
{
    let value = past_keyword(text, "f")?;
    name_at(value)
}

// Two integers behind an opening bracket, up to the closing one.
fn two(inner: &[u8]) -> Option<(i64, i64, &[u8])>
    ensures { IfSome result (λ x. AreTwoAt inner.now x.0 x.1 x.2.now) }
{
    let (a, rest) = integer(inner)?;
    let (b, rest) = integer(rest)?;
    let rest = past_byte(rest, b']')?;
    Some((a, b, rest))
}

/// The part of an operation: nil, an integer, a vector of two or a set.
pub fn part_at(alloc: Global, text: &[u8]) -> Option<(Part, &[u8])>
    ensures { IfSome result (λ x. IsPartAt text.now x.0 x.1.now) }
{
    if let Some(rest) = past_word(text, b"nil") {
        return Some((Part::Nil, rest));
    }
    if let Some(inner) = past_byte(text, b'[') {
        let (a, b, rest) = two(inner)?;
        return Some((Part::Pair(a, b), rest));
    }
    if let Some((members, rest)) = set_at(alloc, text) {
        return Some((Part::Set(members), rest));
    }
    let (a, rest) = integer(text)?;
    Some((Part::Int(a), rest))
}

// A key, and what follows it and the white space behind it.
fn key_at(text: &[u8]) -> Option<(Key, &[u8])>
    ensures atom { IfSome result (λ x. IsAtomAt text.now (number x.0) x.1.now) }
    ensures below { IfSome result (λ x. x.0 < 2 ^ 16) }
{
    let (value, rest) = number(text)?;
    let key = u16::try_from(value).ok()?;
    Some((key, rest))
}

/// The pair of `:value` and a vector of a key and a part, and what follows it; or none, which says nothing. Memory is taken
/// for the members of a set alone.
#[inline(never)]
pub fn value_pair(alloc: Global, text: &[u8]) -> Option<(Key, Part, &[u8])>
    ensures { IfSome result (λ x. IsValueAt text.now x.0 x.1 x.2.now) }
{
    let value = past_keyword(text, "value")?;
    let inner = past_byte(value, b'[')?;
    let (key, rest) = key_at(inner)?;
    let (part, rest) = part_at(alloc, rest)?;
    let rest = past_byte(rest, b']')?;
    Some((key, part, rest))
}
