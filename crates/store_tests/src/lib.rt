//! Worked rows of the generators, schedules and stores of a trial: draws, faults that are due, and stores under faults. Each answer follows
//! from the definitions by hand. It has tests alone.
#![tactic(auto)]

#[cfg(test)]
mod counted;
#[cfg(test)]
mod draws;
#[cfg(test)]
mod forms;
#[cfg(test)]
mod outcomes;
#[cfg(test)]
mod schedules;
#[cfg(test)]
mod stores;
