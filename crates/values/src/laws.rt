//! Laws that show that the members of a set are what they should be.
ghost use Rattle.std.specs.Prelude.{◌≡◌, ◌↔◌, ◌⊎◌, ℤ, List};
ghost use Rattle.std.specs.List.{Contains};
ghost use Rattle.values.specs.Members.{IsAscending, put_in};

/// A set with a value put in has that value and its members before, and no other; and it stays ascending.
pub fn put_in_law()
    ensures members { (v : ℤ) (members : List ℤ) (x : ℤ) →
        Contains (put_in v members) x ↔ ((x ≡ v) ⊎ Contains members x) }
    ensures ascending { (v : ℤ) (members : List ℤ) →
        IsAscending members → IsAscending (put_in v members) }
{}
