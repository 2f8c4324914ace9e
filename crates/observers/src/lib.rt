//! The texts in addition to standard output. The observer of a running program is an [`Observer`], which gets the progress and the reasons
//! of refusals; [`OnStandardError`] prints them there. No contract speaks of it, but that each refusal that is printed has a hint, and
//! nothing of it changes what a program reads, writes to standard output or ends with.
//!
//! A call allocates only if its result can be `AllocError`, or a refusal because memory ran out.
#![tactic(auto)]

mod hints;
mod moving_line;
mod observer;
mod remark;
mod standard_error;

pub use hints::hint_of;
pub use moving_line::MovingLine;
pub use observer::Observer;
pub use standard_error::OnStandardError;
