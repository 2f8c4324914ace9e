//! The elements of rows.
ghost use Rattle.std.specs.Prelude.{◌≡◌, ◌↔◌, IsTrue, ℤ};

/// An element of a row. It has a place among the integers, and a row with ascending places is searched by place.
pub trait Placed: Copy {
    ghost place: { Self → ℤ };

    /// The value's place. Takes constant time.
    fn place(&self) -> i64
        ensures { result ≡ place self.now };

    /// Whether both are one value. Takes constant time.
    fn is_same(&self, other: &Self) -> bool
        ensures { IsTrue result ↔ (self.now ≡ other.now) };
}

/// An integer is its own place.
impl Placed for i64 {
    ghost place = { λ value. value };

    fn place(&self) -> i64 {
        *self
    }

    fn is_same(&self, other: &i64) -> bool {
        *self == *other
    }
}
