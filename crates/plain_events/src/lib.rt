//! Events that are spelled plainly, read from their bytes without a tree of elements between.
//!
//! Plain is the map of a client's operation whose keys are keywords, in any order. These are `:type`, `:process`, `:f` and `:value`;
//! `:index`, which may be left out; and at most 16 others, which no event needs. The operation's part is nil, an integer, a vector of two
//! or a set, its members in ascending order. The value at another key is passed over: an atom, a string, a vector, or a map whose keys are
//! keywords, at most 16. There is only white space between. Integers have no plus, and are below 9,223,372,036,854,775,800 in size. The
//! order in which [`map_of_event`](events::map_of_event) writes is read fastest, with an index, and with blanks and commas as it writes them.
//!
//! `edn::read_all` and `events::from_edn` read all other texts. If a call of this crate returns `None`, the text may still be an event: the
//! event is not plain, or there is no memory for the members of a set.
#![tactic(auto)]

mod event;
mod found;
mod keys;
mod numbers;
mod operation;
mod passed;
mod run;
mod set;
mod strings;
mod usual;
mod word;

pub use event::{plain_event, plain_line};
