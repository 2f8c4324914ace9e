//! Memory that oks and fails work in.
ghost use Rattle.std.specs.Prelude.{IsSome, OnOk};

use crate::transitions::Transitions;
use products::{Products, Scratch};
use std::alloc::{AllocError, Global};

// Memory for more products than these is given back after the ok.
const MOST_KEPT: usize = 1024;

/// The product that calls lead from: its first number and its sets.
#[derive(Drop)]
pub struct Source {
    pub number: usize,
    pub sets: Vec<u64>,
}

/// Memory that an ok works in, kept for the next one. It has the transitions of calls in states, all ends as products, the one that calls lead
/// from, the marks of fitting answers, and working sets.
#[derive(Drop)]
pub struct Work<S> {
    pub transitions: Transitions<S>,
    pub all: Products,
    pub source: Source,
    pub marks: Vec<bool>,
    pub scratch: Scratch,
}

/// Memory that oks and fails work in, which the first of them makes, and the products that are left after one. An ok that came to
/// its end and met more than 1,024 products gives the memory back.
pub struct Workspace<S> {
    pub(crate) work: Option<Box<Work<S>>>,
    pub left: Products,
}

// So that crates above give one back by one call.
impl<S: Drop> Drop for Workspace<S> {
    fn drop(self) {
        let Workspace {
            work: _work,
            left: _left,
        } = self;
    }
}

impl<S> Workspace<S> {
    /// None yet.
    pub fn new(alloc: Global) -> Workspace<S> {
        Workspace {
            work: None,
            left: Products::new(alloc, 0),
        }
    }
}

/// Makes the memory to work in, if there is none yet.
pub fn make<S: Drop>(alloc: Global, work: &mut Option<Box<Work<S>>>) -> Result<(), AllocError>
    ensures { OnOk result (IsSome work.new) }
{
    if work.is_none() {
        let none = Work {
            transitions: Transitions::new(alloc),
            all: Products::new(alloc, 0),
            source: Source {
                number: 0,
                sets: Vec::new(alloc),
            },
            marks: Vec::new(alloc),
            scratch: Scratch::new(alloc),
        };
        *work = Some(Box::new(alloc, none)?);
    }
    Ok(())
}

/// Gives the memory back, where it was used for many products.
pub fn give_back<S: Drop>(work: &mut Option<Box<Work<S>>>) {
    let were_many = match work {
        Some(work) => work.all.len() > MOST_KEPT,
        None => false,
    };
    if were_many {
        *work = None;
    }
}
