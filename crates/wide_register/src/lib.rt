//! The history of one register, judged as its events come, by its lean ends. An end has a write that is open or has timed out only if an
//! answer needs it.
//!
//! A call takes memory only if its result can be `AllocError`.
#![tactic(auto)]

mod calls;
mod gather;
pub mod judged;
mod kept;
mod left;
mod next;
mod row;

pub use judged::WideRegister;
