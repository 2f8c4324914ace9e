//! What an ok asks.

use models::Answer;
use moves::PendingOp;

/// An open operation of a key that returns: the calls, its id and its answer. The first `tried` calls were tried on the kept ends, and the
/// budget is the greatest number of ends just before it.
#[derive(Clone, Copy)]
pub struct Returning<'a> {
    pub calls: &'a [PendingOp],
    pub tried: usize,
    pub budget: u32,
    pub id: u32,
    pub answer: &'a Answer,
}
