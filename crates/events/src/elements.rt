//! Elements of a text.
ghost use Rattle.std.specs.Prelude.{◌≡◌, ◌^◌, option_map};
ghost use Rattle.edn.specs.Value.{int, vector, none, more};
ghost use Rattle.edn.specs.View.{value_of, values_of};
ghost use Rattle.models.specs.Names.{Finds};
ghost use Rattle.events.specs.Spelling.{two_in, IsNumber};

use edn::Edn;
use models::Key;

// The elements, if they are two.
fn both(elements: &[Edn]) -> Option<(&Edn, &Edn)>
    ensures { option_map (λ p. (value_of p.0.now, value_of p.1.now)) result
        ≡ two_in (vector (values_of elements.now)) }
{
    if elements.len() != 2 {
        return None;
    }
    Some((&elements[0], &elements[1]))
}

/// The two elements of the vector of two that an element is, if it is one.
pub fn two_of(element: &Edn) -> Option<(&Edn, &Edn)>
    ensures { option_map (λ p. (value_of p.0.now, value_of p.1.now)) result
        ≡ two_in (value_of element.now) }
{
    match element {
        Edn::Vector(parts) => both(parts.as_slice()),
        _ => None,
    }
}

/// The two integers of the vector of two that an element is, if it is one.
pub fn integers_of(element: &Edn) -> Option<(i64, i64)>
    ensures { Finds result
        (λ p. value_of element.now ≡ vector (more (int p.0) (more (int p.1) none))) }
{
    let (a, b) = two_of(element)?;
    Some((a.as_int()?, b.as_int()?))
}

/// The integer of 0 to 2^32 - 1 that an element is, if it is one.
pub fn number_of(element: &Edn) -> Option<u32>
    ensures { Finds result (IsNumber (2 ^ 32) (value_of element.now)) }
{
    u32::try_from(element.as_int()?).ok()
}

/// The integer of 0 to 65,535 that an element is, if it is one.
pub fn key_of(element: &Edn) -> Option<Key>
    ensures { Finds result (IsNumber (2 ^ 16) (value_of element.now)) }
{
    u16::try_from(element.as_int()?).ok()
}
