//! Laws about the outcomes of every value of [`Rules`](crate::Rules), whether a reader accepts it or not.
ghost use Rattle.std.specs.Prelude.{◌≡◌, ℕ, ℤ, true, Option, List, length};
ghost use Rattle.std.specs.Option.{option_eq};
ghost use Rattle.std.specs.Ordering.{int_eq};
ghost use Rattle.std.specs.Cmp.Lexicographic.{pointwise};
ghost use Rattle.rules.specs.declared.finding.Found.{Found};
ghost use Rattle.rules.specs.declared.rules.Rules.{Rules};
ghost use Rattle.rules.specs.Meaning.{State, outcome_of, reads, read_name, start_of};
ghost use Rattle.rules.specs.Laws.{KeepsLimits, IsNilBeyond, LeadsTo, StartsWithin};

/// An operation whose name reads does not change the state. The name `read` always reads, whatever its cases set.
pub fn reads_law()
    ensures leaves { (rules : Rules) (name : ℕ) (given : List ℤ) (s t : State) (found : Found) →
        reads rules name ≡ true → LeadsTo rules name given s t found → s ≡ t }
    ensures read { (rules : Rules) → reads rules read_name ≡ true }
{}

/// An operation keeps each variable within its limits, keeps nil at each place without a variable, and keeps the number of places. So
/// states are bounded.
pub fn limits_law()
    ensures limits { (rules : Rules) (name : ℕ) (given : List ℤ) (s t : State) (found : Found) →
        KeepsLimits rules s → LeadsTo rules name given s t found → KeepsLimits rules t }
    ensures nil { (rules : Rules) (name : ℕ) (given : List ℤ) (s t : State) (found : Found) →
        IsNilBeyond rules s → LeadsTo rules name given s t found → IsNilBeyond rules t }
    ensures places { (rules : Rules) (name : ℕ) (given : List ℤ) (s t : State) (found : Found) →
        LeadsTo rules name given s t found → length t ≡ length s }
{}

/// The start state is within the limits if each variable starts within its own. It has nil at each place without a variable.
pub fn start_law()
    ensures limits { (rules : Rules) → StartsWithin rules → KeepsLimits rules (start_of rules) }
    ensures nil { (rules : Rules) → IsNilBeyond rules (start_of rules) }
{}

/// Two states that compare equal are the same state.
pub fn states_law()
    ensures { (s t : List (Option ℤ)) → pointwise (option_eq int_eq) s t ≡ true → s ≡ t }
{}
