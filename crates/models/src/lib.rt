//! The sequential objects: operations, the values that they find, and answers.
//!
//! An object is a table ([`SeqObject`]): a state to start with, and for each operation in a state the outcomes, each a state after it and
//! its answer. There is no outcome if it can't take place. [`fits`] says whether an answer agrees with the value that was found. The
//! names of operations are in one list, and the functions that tell them apart are macros over this list.
//!
//! A call allocates only if its result can be `AllocError`, or a refusal because memory ran out.
#![tactic(auto)]

pub mod cas_register;
pub mod fifo_queue;
pub mod finding;
pub mod laws;
pub mod mutex;
pub mod object;
pub mod operation;
mod outcomes;
pub mod register;
pub mod set;
pub mod unordered_queue;

pub use cas_register::CasRegister;
pub use fifo_queue::FifoQueue;
pub use finding::{Answer, Found, fits};
pub use mutex::Mutex;
pub use object::SeqObject;
pub use operation::{Key, Name, Op, Part};
pub use register::Register;
pub use set::Set;
pub use unordered_queue::UnorderedQueue;
