//! Generators of operations and faults, like Jepsen's: the next step of a client, or of the nemesis.
//!
//! A generator is a tree of forms ([`Gen`]): items in turn, a mix, a limit, one after another, phases, one for each thread. A draw looks
//! for the next item without a change, by the random words of a seed, and keeps the path to it. When the item is carried out, the generator
//! moves along that path, and the stream moves past the words that were used. So a draw without an item changes nothing, and the same seed
//! gives the same run.
//!
//! A call allocates only if its result can be `AllocError`, or a refusal because memory ran out.
#![tactic(auto)]

mod asking;
mod cycle;
mod form;
mod item;
mod laws;
mod moving;
mod path;
mod search_result;
mod source;
mod words;

pub use cycle::Cycle;
pub use form::Gen;
pub use item::{Asker, Drawn, Item};
pub use laws::{
    items_are_for_the_asker, items_stay, one_outcome, one_run, some_outcome, vain_asks_move_nothing,
};
pub use source::Source;
