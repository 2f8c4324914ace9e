//! The events of a line, for proofs alone.
ghost use Rattle.std.specs.Prelude.{◌≡◌, ℕ, List};
ghost use Rattle.std.specs.Borrow.{ftrue};
ghost use Rattle.events.specs.declared.event.Event.{Event};

use events::Event;
use std::marker::Model;

/// The events of a line with their indices, in their recorded order. They exist in proofs alone: this takes no memory, and its functions do
/// nothing when they run. The proof of a caller picks the events.
#[derive(Drop)]
pub(crate) struct GhostEvents {
    pub(crate) ghost events: { List (ℕ × Event) },
}

impl Model for GhostEvents {
    ghost also_owns = { λ _. ftrue };
}

// It owns nothing.
unsafe impl Send for GhostEvents {}

unsafe impl Sync for GhostEvents {}

/// These events.
#[inline(always)]
pub(crate) fn picked_events() -> GhostEvents
    ghost picked: { List (ℕ × Event) }
    ensures { result.events ≡ picked }
{
    GhostEvents {}
}

impl GhostEvents {
    /// Events that are picked by these and one more.
    pub(crate) fn with(&self, _index: &u32, _event: &Event) -> GhostEvents
        ghost picked: { List (ℕ × Event) }
        ensures { result.events ≡ picked }
    {
        picked_events()
    }

    /// Events that are picked by these and a count.
    pub(crate) fn first(&self, _count: &usize) -> GhostEvents
        ghost picked: { List (ℕ × Event) }
        ensures { result.events ≡ picked }
    {
        picked_events()
    }
}
