//! A replicated store in the process, with faults: the store for a test under a monitor.
//!
//! Each replica has a copy of each key, with a version. In the strict mode an operation takes place where its replica reaches a
//! majority: on the newest copy among these, which each of them then takes, with the version one greater. In the sloppy mode it
//! takes place on the replica's own copy, and the copies are brought together when a partition heals, so that such a store loses
//! writes. Faults cut links, pause and crash replicas, and lose replies.
//!
//! A call allocates only if its result can be `AllocError`, or a refusal because memory ran out.
#![tactic(auto)]

mod fault;
pub mod held;
mod laws;
pub mod links;
pub mod outcome;
mod rows;
pub mod store;

pub use fault::{names_once, names_present};
pub use held::Held;
pub use laws::{one_serve_law, strict_law, versions_law};
pub use links::Links;
pub use outcome::{Mode, Outcome};
pub use store::Store;
