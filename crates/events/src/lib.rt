//! Events of clients and of the nemesis, in the manner of Jepsen: their fields and values, their spelling in a text, and their meaning for
//! operations. `history` says which of them may follow which.
//!
//! A call allocates only if its result can be `AllocError`, or a refusal because memory ran out.
#![tactic(auto)]

mod collections;
mod elements;
pub mod event;
mod event_map;
mod fault_kind;
mod groups;
mod laws;
mod spelling;
mod tables;

pub use event::{Body, Event, EventKind, Fault, Process};
pub use event_map::map_of_event;
pub use groups::{Groups, MOST_REPLICAS};
pub use laws::{key_events_law, one_event, order_of_a_set_says_nothing};
pub use spelling::from_edn;
pub use tables::{completes, is_in_tables, is_part_of};
