//! Ends as products of sets of small numbers, and the effects of operations and answers on them.
//!
//! If reads are open, most ends differ by the reads' answers alone, so that few products contain many ends. If three writes in turn have
//! returned during one open read, one product says that the read may have found any of the values, or nothing yet. An ok ([`advance`]) goes
//! through products as `ends` goes through rows, and tries all calls when it first meets a state. It widens each product before the product
//! is put: if a call would leave the state as it is, the call's set gets the number of its answer. If all calls were tried before, the ok
//! makes no step, and only keeps what its answer leaves. If there are many states or answers, products get new numbers, for the states and
//! answers in use alone ([`renumbered`]).
//!
//! A call allocates only if its result can be `AllocError`, or a refusal because memory ran out.
#![tactic(auto)]

mod after;
mod conversion;
mod growth;
mod ok_and_fail;
mod target;
mod transitions;
mod workspace;

pub use conversion::{as_products, as_rows, renumbered};
pub use ok_and_fail::{advance, failed};
pub use workspace::Workspace;
