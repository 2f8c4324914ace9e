//! The meaning of a linearizable history: definitions, and laws that show that the definitions are right. Every verdict is proved by these
//! definitions.
//!
//! `specs/Orders.antt` has legal orders and linearizability, of one object and of many. `Ends.antt` has the ends of the legal orders of one
//! key, and when there are more than a budget. `Counts.antt` has the count of each kind, and `Verdicts.antt` the status of a key and the
//! join of all keys. `JudgedHistory.antt` has the same for a history of many keys with its kinds and budgets. [`brute`] computes
//! linearizability by trying orders, for tests.
//!
//! A call allocates only if its result can be `AllocError`, or a refusal because memory ran out.
#![tactic(auto)]

mod brute_force;
mod kept_marks;
pub mod laws;
pub mod verdict;

pub use brute_force::brute;
pub use laws::crashed_reads_law;
pub use verdict::{KeyStatus, Verdict};
