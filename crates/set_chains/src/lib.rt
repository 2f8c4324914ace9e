//! Laws of sets: the answers, and their moments, decide whether a history of a set is linearizable. No order has to be tried. They say so
//! of a whole history, of each event that it may get, and of the event at which it becomes illegal.
#![tactic(auto)]

pub mod laws;
