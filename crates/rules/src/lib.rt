//! The rules of an object: its variables, its operations, and for each operation the cases that say what it does.
//!
//! The first case that holds is what the operation does ([`Rules::outcome`]). So an operation has at most one outcome: the state after it, and
//! what it finds. `specs/Meaning.antt` defines the meaning, for every value of [`Rules`], accepted by a reader or not. A
//! word that names nothing has no value, and a case with such a word does not hold.
//!
//! No call of this crate allocates.
#![tactic(auto)]

mod arithmetic;
mod assignments;
mod cases;
mod finding;
mod laws;
mod rule;
mod rules;
mod term;
mod value;

pub use finding::{Found, fits};
pub use laws::{limits_law, reads_law, start_law, states_law};
pub use rule::{Answer, Assignment, Case, Limits, Operation, READ, Variable};
pub use rules::{MOST_VARIABLES, Rules, State};
pub use term::{Operator, Term};
pub use value::value_of;
