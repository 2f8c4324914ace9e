//! Laws of registers: an order of the operations needs an open or timed-out write only if an answer asks for it. So a register has few ends,
//! each of which event by event becomes others, and a history is linearizable exactly as long as one is left.
#![tactic(auto)]

pub mod laws;
