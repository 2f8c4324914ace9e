//! Laws of the texts, proved of their definition alone.

ghost use Rattle.std.specs.Prelude.{◌≡◌, ℕ, [], ◌∷◌, pos, List};
ghost use Rattle.edn.specs.Value.{Value, Values, int, none, more, Same};
ghost use Rattle.edn.specs.Text.{IsText, IsLongestTextPrefix};

/// A text has one reading.
pub fn one_reading()
    ensures { (bytes : List ℕ) (v w : Values) → IsText bytes v → IsText bytes w → v ≡ w }
{}

/// An input has one longest prefix that is a text, so there is one place at which it is refused.
pub fn one_place()
    ensures { (bytes : List ℕ) (m n : ℕ) → IsLongestTextPrefix bytes m → IsLongestTextPrefix bytes n → m ≡ n }
{}

/// `#_ [] 1;x` reads as 1.
pub fn discards_are_skipped()
    ensures { IsText (35 ∷ 95 ∷ 32 ∷ 91 ∷ 93 ∷ 32 ∷ 49 ∷ 59 ∷ 120 ∷ []) (more (int (pos 1)) none) }
{}

/// Sameness is reflexive, symmetric and transitive.
pub fn sameness_is_an_equivalence()
    ensures reflexive { (v : Value) → Same v v }
    ensures symmetric { (v w : Value) → Same v w → Same w v }
    ensures transitive { (u v w : Value) → Same u v → Same v w → Same u w }
{}
