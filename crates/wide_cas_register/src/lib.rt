//! The history of one register with compare and set, judged as its events come, by its ends. A read, or a write that the next write hides,
//! is among the operations of an end only if an answer needs it.
//!
//! A call takes memory only where its result can be `AllocError`.
#![tactic(auto)]

mod calls;
mod fronts;
pub mod judged;
mod kept;
mod left;
mod next;
mod row;

pub use judged::WideCasRegister;
