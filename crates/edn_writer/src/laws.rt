//! Laws of canonical texts, proved of their definition alone.

ghost use Rattle.std.specs.Prelude.{◌≡◌, ℕ, List};
ghost use Rattle.edn.specs.Value.{Value, Values, none, more};
ghost use Rattle.edn.specs.Text.{IsText};
ghost use Rattle.edn_writer.specs.Profile.{IsInProfile, AreInProfileAt};
ghost use Rattle.edn_writer.specs.Canonical.{canonical};

/// The canonical text of a value in the profile reads as that value, and as nothing else.
pub fn canonical_text_reads_back()
    ensures reads { (v : Value) → IsInProfile v → IsText (canonical v) (more v none) }
    ensures alone { (v : Value) (vs : Values) → IsInProfile v → IsText (canonical v) vs
        → vs ≡ more v none }
{}

/// Each value that is read is in the profile.
pub fn what_is_read_has_a_text()
    ensures { (bytes : List ℕ) (values : Values) → IsText bytes values → AreInProfileAt 0 values }
{}
