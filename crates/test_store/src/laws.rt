//! Laws of the store.
ghost use Rattle.std.specs.Prelude.{◌≡◌, ℕ, ◌+◌};
ghost use Rattle.models.specs.declared.operation.Op.{Op};
ghost use Rattle.kinds.specs.declared.model_kind.ModelKind.{ModelKind};
ghost use Rattle.events.specs.declared.event.Fault.{Fault};
ghost use Rattle.test_store.specs.declared.outcome.Mode.{Mode};
ghost use Rattle.test_store.specs.declared.outcome.Mode.TheVariants.{Strict};
ghost use Rattle.test_store.specs.declared.outcome.Outcome.{Outcome};
ghost use Rattle.test_store.specs.Store.{Cluster, opening, MayServe, after_fault, IsCount, VersionsWithin};
ghost use Rattle.test_store.specs.Truth.{start_truth, IsTrueOf, KeepsTruth, LeavesTruth};

/// In strict mode the store holds one true state of each key, as one copy would: at first the start states. A serve that is done or lost
/// steps it as the operation does. One that is refused leaves it, and so does each fault. [`Store::serve`](crate::Store::serve) and
/// [`Store::fault`](crate::Store::fault) cite it, and the law `no_trial_is_a_false_alarm` of `machine` rests on it.
pub fn strict_law()
    ensures opening { (n : ℕ) (kind : ModelKind) → IsCount n
        → IsTrueOf kind (opening n Strict kind) (start_truth kind) }
    ensures serve { (old new : Cluster) (e : ℕ) (op : Op) (outcome : Outcome)
        → MayServe old e op outcome new → KeepsTruth old op outcome new }
    ensures fault { (fault : Fault) (s : Cluster) → LeavesTruth s (after_fault fault s) }
{}

/// No version is greater than the number of serves: a serve raises the greatest version by one at most, and a fault by
/// none. `store_tests` cites it, and the law `counted_law` of `machine` rests on it.
pub fn versions_law()
    ensures opening { (n : ℕ) (mode : Mode) (kind : ModelKind)
        → VersionsWithin (opening n mode kind) 0 }
    ensures serve { (old new : Cluster) (e : ℕ) (op : Op) (outcome : Outcome) (n : ℕ)
        → MayServe old e op outcome new → VersionsWithin old n → VersionsWithin new (n + 1) }
    ensures fault { (fault : Fault) (s : Cluster) (n : ℕ)
        → VersionsWithin s n → VersionsWithin (after_fault fault s) n }
{}

/// A serve has one outcome at most, and leads to one store. The law `one_step` of `machine` rests on it.
pub fn one_serve_law()
    ensures { (old new other : Cluster) (e : ℕ) (op : Op) (outcome another : Outcome)
        → MayServe old e op outcome new → MayServe old e op another other
        → (outcome ≡ another) × (new ≡ other) }
{}
