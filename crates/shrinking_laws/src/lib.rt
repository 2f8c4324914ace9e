//! Laws of parts of a history: what follows for the history where a part of it, or one that asks for more, is linearizable, or
//! is not.
#![tactic(auto)]

pub mod laws;
