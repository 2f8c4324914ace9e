//! Worked lines, rewinds and joins, and the results of workers, which run at once. Each answer is compared with one that follows from the
//! definitions by hand. It has tests alone.
#![tactic(auto)]

#[cfg(test)]
mod client_events;
#[cfg(test)]
mod gates;
#[cfg(test)]
mod joins;
#[cfg(test)]
mod key_lines;
#[cfg(test)]
mod loads;
#[cfg(test)]
mod pieces;
#[cfg(test)]
mod plain;
#[cfg(test)]
mod rewinds;
