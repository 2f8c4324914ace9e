//! Searches of members, which ascend.
ghost use Rattle.std.specs.Prelude.{◌≡◌, ◌↔◌, ◌⊎◌, ◌<◌, ℤ, None, IfSome, IsTrue, length};
ghost use Rattle.std.specs.List.{Contains};
ghost use Rattle.values.specs.Members.{IsAscending};
ghost use Rattle.set_chains.specs.Chains.{IsWithin};

/// Whether the value is a member. O(log n) in the members.
pub fn has(members: &[i64], value: &i64) -> bool
    requires { IsAscending members.now }
    ensures { IsTrue result ↔ Contains members.now value.now }
{
    members.binary_search(value).is_ok()
}

// Whether both are one value.
fn is_same(member: &i64, value: &i64) -> bool
    ensures { IsTrue result ↔ (member.now ≡ value.now) }
{
    *member == *value
}

// Whether the value is the member at this place.
fn is_at(members: &[i64], at: usize, value: &i64) -> bool
    ensures there { IsTrue result → Contains members.now value.now }
    ensures within { IsTrue result → at < length members.now }
{
    at < members.len() && is_same(&members[at], value)
}

// The place behind the value, if it is a member. O(1) if the value is at this place, else O(log n) in the members.
fn place_behind(members: &[i64], at: usize, value: &i64) -> Option<usize>
    requires { IsAscending members.now }
    ensures found { IfSome result (λ _. Contains members.now value.now) }
    ensures none { result ≡ None → ¬ Contains members.now value.now }
{
    if is_at(members, at, value) {
        return Some(at + 1);
    }
    match members.binary_search(value) {
        Ok(place) => Some(place + 1),
        Err(_) => None,
    }
}

/// Whether each of these is among those. O(these), and O(log n) in those for each one that is not next to the last.
pub fn is_within(these: &[i64], those: &[i64]) -> bool
    requires { IsAscending those.now }
    ensures { IsTrue result ↔ IsWithin these.now those.now }
{
    let mut at = 0;
    for value in these {
        match place_behind(those, at, value) {
            Some(next) => at = next,
            None => return false,
        }
    }
    true
}

// The place behind the value among the first ones, or this place if it is among the second ones alone.
fn place_in_either(first: &[i64], second: &[i64], at: usize, value: &i64) -> Option<usize>
    requires first { IsAscending first.now }
    requires second { IsAscending second.now }
    ensures found { IfSome result (λ _. Contains first.now value.now ⊎ Contains second.now value.now) }
    ensures none { result ≡ None → ¬ (Contains first.now value.now ⊎ Contains second.now value.now) }
{
    match place_behind(first, at, value) {
        Some(next) => Some(next),
        None => { if has(second, value) { Some(at) } else { None } }
    }
}

/// Whether each of these is among the first or the second ones. O(these), and O(log n) in the others for each one that is not next to
/// the last among the first ones.
pub fn is_covered(these: &[i64], first: &[i64], second: &[i64]) -> bool
    requires first { IsAscending first.now }
    requires second { IsAscending second.now }
    ensures { IsTrue result ↔ ((v : ℤ) → Contains these.now v → Contains first.now v ⊎ Contains second.now v) }
{
    let mut at = 0;
    for value in these {
        match place_in_either(first, second, at, value) {
            Some(next) => at = next,
            None => return false,
        }
    }
    true
}
