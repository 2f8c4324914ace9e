//! A few values in place, without memory of their own.
ghost use Rattle.std.specs.Prelude.{◌≡◌, ◌+◌, ◌<◌, ◌≤◌, ◌∷◌, ◌++◌, [], IfSome, drop, length, take};

use std::marker::Model;

/// The greatest number of values that are stored in place.
pub const IN_PLACE: usize = 6;

/// Values in place: `len` values from place `from` on. The values before and behind them mean nothing.
#[derive(Drop)]
pub struct Few<T: Copy> {
    places: [T; IN_PLACE],
    from: u32,
    len: u32,
}

impl<T: Copy> Model for Few<T> {
    ghost use Rattle.std.specs.Prelude.{List, ◌+◌, ◌≤◌, take, drop};
    ghost use Rattle.persistent.specs.declared.few.TheConstants.{IN_PLACE};

    ghost Value = { List T };

    ghost view = { λ a. take a.len (drop a.from a.places) };

    ghost invariant = { λ a. a.from + a.len ≤ IN_PLACE };
}

// Puts these values behind the first ones.
#[inline(always)]
fn put<T: Copy>(places: &mut [T; IN_PLACE], at: usize, values: &[T])
    requires { at + length values.now ≤ IN_PLACE }
    ensures { take (at + length values.now) places.new ≡ take at places.old ++ values.now }
{
    for k in 0..values.len() {
        places[at + k] = values[k];
    }
}

impl<T: Copy> Few<T> {
    /// The values of both parts, one part behind the other, with one value between them.
    #[inline(always)]
    pub fn around(first: &[T], value: T, second: &[T]) -> Few<T>
        requires { length first.now + length second.now < IN_PLACE }
        ensures { result ≡ first.now ++ value ∷ second.now }
    {
        let mut places = [value; IN_PLACE];
        put(&mut places, 0, first);
        places[first.len()] = value;
        put(&mut places, first.len() + 1, second);
        Few {
            places,
            from: 0,
            len: (first.len() + 1 + second.len()) as u32,
        }
    }

    /// The values of both parts, one part behind the other. Unused places get `blank`.
    #[inline(always)]
    pub fn of(blank: T, first: &[T], second: &[T]) -> Few<T>
        requires { length first.now + length second.now ≤ IN_PLACE }
        ensures { result ≡ first.now ++ second.now }
    {
        let mut places = [blank; IN_PLACE];
        put(&mut places, 0, first);
        put(&mut places, first.len(), second);
        Few {
            places,
            from: 0,
            len: (first.len() + second.len()) as u32,
        }
    }

    /// The same values.
    #[inline(always)]
    pub fn copy(&self) -> Few<T>
        ensures { result ≡ self.now }
    {
        Few {
            places: self.places,
            from: self.from,
            len: self.len,
        }
    }

    /// The values without the first one.
    #[inline(always)]
    pub fn without_first(&self) -> Few<T>
        requires { 0 < length self.now }
        ensures { result ≡ drop 1 self.now }
    {
        Few {
            places: self.places,
            from: self.from + 1,
            len: self.len - 1,
        }
    }

    /// The values with one more behind them, or `None` if all places are used.
    #[inline(always)]
    pub fn with_last(&self, value: T) -> Option<Few<T>>
        ensures with { IfSome result (λ more. more ≡ self.now ++ value ∷ []) }
        ensures few { IfSome result (λ more. length more ≤ IN_PLACE) }
    {
        let end = (self.from + self.len) as usize;
        if end == IN_PLACE {
            return None;
        }
        let mut places = self.places;
        places[end] = value;
        Some(Few {
            places,
            from: self.from,
            len: self.len + 1,
        })
    }

    /// The values.
    #[inline(always)]
    pub fn as_slice(&self) -> &[T]
        ensures is { result.now ≡ self.now }
        ensures few { length result.now ≤ IN_PLACE }
    {
        let from = self.from as usize;
        let places = &self.places[..];
        &places[from..from + self.len as usize]
    }
}
