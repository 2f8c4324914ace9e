//! The answers of clients that run on one board, each in a thread: they overlap, faults strike beside them, and events are cut under them.
//! Each answer is worked out by hand or compared with that of one thread. It has tests alone.
#![tactic(auto)]

#[cfg(test)]
mod client_boards;
#[cfg(test)]
mod commanded;
#[cfg(test)]
mod cut;
#[cfg(test)]
mod news_across;
#[cfg(test)]
mod overlap;
#[cfg(test)]
mod striking;
