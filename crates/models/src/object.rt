//! The parts of each sequential object: a sequential specification (Herlihy and Wing 1990, section 2).
ghost use Rattle.std.specs.Prelude.{true, ◌≡◌, ◌↔◌, ◌≤◌, ◌<◌, ◌++◌, IsTrue, IfOk, OnOk, OnErr, List, length};
ghost use Rattle.models.specs.declared.operation.Op.{Op};
ghost use Rattle.models.specs.declared.finding.Found.{Found};
ghost use Rattle.models.specs.Objects.{AreApart, ReadsLeave, of_table};

use crate::finding::Found;
use crate::operation::Op;
use std::alloc::{AllocError, Global};
use std::hash::Hash;

/// A sequential object: its states, the one it starts in, and the outcomes of each operation in each state, which are a
/// function of the state and the operation alone.
pub trait SeqObject {
    /// Its states. They compare and are hashed lawfully, and states that compare equal are the same.
    type State: Drop + Hash;

    /// The start state.
    ghost start_state: { Self.State };

    /// The outcomes of an operation in a state, each the state after it and what it finds.
    ghost apply_to: { Op → Self.State → List (Self.State × Found) };

    /// The start state.
    fn start(alloc: Global) -> Self::State
        ensures { result ≡ start_state };

    /// An equal state; `AllocError` if there is no memory for it, or if as many share it as can be counted. Costs O(spans) for a set, and
    /// else constant time: the items and values of queues are shared.
    fn copy(alloc: Global, state: &Self::State) -> Result<Self::State, AllocError>
        ensures { IfOk result (λ other. other ≡ state.now) };

    /// Whether the operation has more than `most` outcomes in the state, for a caller who will not make them all. They leave different
    /// states. Takes no memory. For a queue without an order it costs O(`most`), each with the logarithm of all values.
    fn has_more_outcomes(state: &Self::State, op: &Op, most: usize) -> bool
        requires { 1 ≤ most }
        ensures more { IsTrue result ↔ (most < length (apply_to op.now state.now)) }
        ensures apart { AreApart (apply_to op.now state.now) };

    /// Whether a state is one value without memory of its own, and each operation has at most one outcome in it. Then the effect of each
    /// operation in a state has a short record. Takes constant time.
    fn has_scalar_states() -> bool
        ensures { IsTrue result → (op : Op) (state : Self.State) → length (apply_to op state) ≤ 1 };

    /// Puts the outcomes of the operation in the state behind those in the list, so that a caller who keeps the list has no list made for
    /// each step. `AllocError` if there is no memory for a new state or for the list, which is then as before. Leaves the state as it was.
    /// Costs O(spans) for a set, and O(members) for a read of it. Else each outcome costs O(log n) in the items or values.
    fn append_outcomes(
        alloc: Global,
        state: &Self::State,
        op: &Op,
        outcomes: &mut Vec<(Self::State, Found)>,
    ) -> Result<(), AllocError>
        ensures appended { OnOk result
            (outcomes.new.items ≡ outcomes.old.items ++ apply_to op.now state.now) }
        ensures kept { OnErr result (outcomes.new.items ≡ outcomes.old.items) };

    /// States that compare equal are the same state.
    ghost exact: { (a b : Self.State) → Self.State.eq a b ≡ true → a ≡ b };

    /// A read leaves the state as it was.
    ghost reads: { ReadsLeave (of_table Self.State start_state apply_to) };

    /// The outcomes of the operation in the state, each once: the state after it and what it finds. None if it can't take place;
    /// `AllocError` if there is no memory for a new state or for the list. Leaves the state as it was. Costs what
    /// [`append_outcomes`](Self::append_outcomes) costs.
    final fn apply(
        alloc: Global,
        state: &Self::State,
        op: &Op,
    ) -> Result<Vec<(Self::State, Found)>, AllocError>
        ensures { IfOk result (λ outcomes. outcomes.items ≡ apply_to op.now state.now) }
    {
        let mut outcomes = Vec::new(alloc);
        Self::append_outcomes(alloc, state, op, &mut outcomes)?;
        Ok(outcomes)
    }

    /// Whether both are the same state.
    final fn same(a: &Self::State, b: &Self::State) -> bool
        ensures { IsTrue result ↔ (a.now ≡ b.now) }
    {
        *a == *b
    }
}
