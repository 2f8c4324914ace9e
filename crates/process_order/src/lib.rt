//! The law that each process of a history is sequential, as Herlihy and Wing demand it.
#![tactic(auto)]

pub mod laws;
