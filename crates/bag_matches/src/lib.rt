//! Laws of queues without an order: which values were enqueued and dequeued, and when, decides whether a history of such a queue is
//! linearizable. No order has to be tried, and equal values make no difference. They say so of a whole history, of each event that it
//! may get, and of the event at which it becomes illegal.
#![tactic(auto)]

pub mod laws;
