//! Laws of registers with compare and set: an order of the operations needs an open or timed-out write only if an answer or a compare and set
//! asks for it. So a history has few ends, each of which event by event becomes others, and it is linearizable exactly as long as one is left.
#![tactic(auto)]

pub mod laws;
