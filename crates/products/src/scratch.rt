//! Memory in which products are written before they are put.
use std::alloc::Global;

/// Sets of a product, and a stack of pieces of it. Their contents do not matter.
#[derive(Drop)]
pub struct Scratch {
    pub sets: Vec<u64>,
    pub stack: Vec<u64>,
}

impl Scratch {
    /// None yet: takes no memory.
    pub fn new(alloc: Global) -> Scratch {
        Scratch {
            sets: Vec::new(alloc),
            stack: Vec::new(alloc),
        }
    }
}
