//! The wide set: its budget counts nothing.
ghost use Rattle.std.specs.Prelude.{[]};
ghost use Rattle.values.specs.Comparisons.{ints_eq-exact};
ghost use Rattle.models.specs.Reads.{set_reads};

use models::{Found, Op, SeqObject, Set};
use std::alloc::{AllocError, Global};
use values::Spans;

/// A [`Set`] with the same table. Only its budget counts something else.
pub struct WideSet;

impl SeqObject for WideSet {
    type State = Spans;

    ghost use Rattle.models.specs.Objects.{set_apply};

    ghost start_state = { [] };

    ghost apply_to = { λ op s. set_apply op.name op.part s };

    fn start(alloc: Global) -> Spans {
        Set::start(alloc)
    }

    fn copy(alloc: Global, state: &Spans) -> Result<Spans, AllocError> {
        Set::copy(alloc, state)
    }

    fn has_more_outcomes(state: &Spans, op: &Op, most: usize) -> bool {
        Set::has_more_outcomes(state, op, most)
    }

    fn has_scalar_states() -> bool {
        Set::has_scalar_states()
    }

    fn append_outcomes(
        alloc: Global,
        state: &Spans,
        op: &Op,
        outcomes: &mut Vec<(Spans, Found)>,
    ) -> Result<(), AllocError> {
        Set::append_outcomes(alloc, state, op, outcomes)
    }

    ghost exact = { ints_eq-exact };

    ghost reads = { set_reads };
}
