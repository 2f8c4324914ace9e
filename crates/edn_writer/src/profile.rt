//! Which elements have a text.

ghost use Rattle.std.specs.Prelude.{◌↔◌, IsTrue};
ghost use Rattle.edn_writer.specs.Profile.{IsInteger64, IsInProfile, IsInProfileAt, AreInProfileAt, PairsAreInProfileAt};
ghost use Rattle.edn.specs.View.{value_of, values_of, entries_of};

use edn::{Edn, MAX_OPEN, all_differ, is_keyword_name};

/// Whether the element has a text. Its keywords have an ASCII letter first and then ASCII letters, digits and `-`, `_`, `?`, `!`, `*` or
/// `.`. The keys of each map and the members of each set are distinct by [`same`](edn::same), and at most 32 collections are open at once.
/// Each element that was read has one.
///
/// No memory is taken. The time grows with the square of the number of pairs of a map or members of a set.
pub fn in_profile(element: &Edn) -> bool
    ensures { IsTrue result ↔ IsInProfile (value_of element.now) }
{
    in_profile_at(0, element)
}

// Each number of the type has 64 bits.
fn is_integer(number: i64) -> bool
    ensures { IsTrue result ↔ IsInteger64 number }
{
    let _ = number;
    true
}

// The same if `depth` collections are open round the element.
#[cycle(profile)]
fn in_profile_at(depth: u8, element: &Edn) -> bool
    ensures { IsTrue result ↔ IsInProfileAt depth (value_of element.now) }
{
    match element {
        Edn::Nil => true,
        Edn::Bool(_) => true,
        Edn::Int(number) => is_integer(*number),
        Edn::Str(_) => true,
        Edn::Keyword(name) => is_keyword_name(name.as_bytes()),
        Edn::Vector(elements) => depth < MAX_OPEN && all_in_profile(depth + 1, elements),
        Edn::Map(pairs) => {
            depth < MAX_OPEN && pairs_in_profile(depth + 1, pairs) && all_differ(pairs)
        }
        Edn::Set(members) => {
            depth < MAX_OPEN && all_in_profile(depth + 1, members) && all_differ(members)
        }
    }
}

#[cycle(profile)]
fn all_in_profile(depth: u8, elements: &[Edn]) -> bool
    ensures { IsTrue result ↔ AreInProfileAt depth (values_of elements.now) }
{
    for element in elements {
        if !in_profile_at(depth, element) {
            return false;
        }
    }
    true
}

#[cycle(profile)]
fn pairs_in_profile(depth: u8, pairs: &[(Edn, Edn)]) -> bool
    ensures { IsTrue result ↔ PairsAreInProfileAt depth (entries_of pairs.now) }
{
    for pair in pairs {
        if !in_profile_at(depth, &pair.0) || !in_profile_at(depth, &pair.1) {
            return false;
        }
    }
    true
}
