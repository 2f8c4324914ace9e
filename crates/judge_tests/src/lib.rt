//! Worked rows: calls of the crates that judge, each answer compared with one that follows from the definitions by hand; and two ways to
//! judge small histories, compared with one another. It has tests alone.
#![tactic(auto)]

#[cfg(test)]
mod agreement;
#[cfg(test)]
mod cas_registers;
#[cfg(test)]
mod fifo_queues;
#[cfg(test)]
mod frontiers;
#[cfg(test)]
mod judge;
#[cfg(test)]
mod judge_rows;
#[cfg(test)]
mod judges;
#[cfg(test)]
mod registers;
#[cfg(test)]
mod sets;
#[cfg(test)]
mod unordered_queues;
