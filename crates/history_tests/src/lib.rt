//! Worked rows of texts, sequential objects, histories, and orders of histories. Each answer is compared with one that follows from the
//! grammar, the tables and the definitions by hand. It has tests alone.
#![tactic(auto)]

#[cfg(test)]
mod histories;
#[cfg(test)]
mod objects;
#[cfg(test)]
mod orders;
#[cfg(test)]
mod texts;
