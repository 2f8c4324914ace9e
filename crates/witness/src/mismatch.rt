//! The reasons for which a list of operations is not an order of a history.

/// The reason for which an operation does not fit at its place in an order.
#[derive(Clone, Copy, Debug, PartialEq, Eq)]
pub enum MismatchReason {
    /// The history has no event of this index.
    NoEvent,
    /// The event is not an invocation.
    NoInvocation,
    /// The order has the operation at an earlier place too.
    Twice,
    /// The operation has failed, so it did not take place.
    Failed,
    /// The operation has returned before the invocation of an earlier operation of the order.
    TooLate,
    /// The operation cannot take place behind the ones before it.
    CannotTakePlace,
    /// The operation can take place there, and only with another answer.
    AnotherAnswer,
    /// The operation has returned, and is not in the order.
    LeftOut,
}

/// The first call that cannot take place behind the ones before it.
#[derive(Clone, Copy, Debug, PartialEq, Eq)]
pub struct Rejection {
    /// The place of the call, from 0.
    pub at: usize,
    pub why: MismatchReason,
}

/// An operation that does not fit an order.
#[derive(Clone, Copy, Debug, PartialEq, Eq)]
pub struct Mismatch {
    /// The place in the order, from 0. If the operation is left out, the length of the order.
    pub place: usize,
    /// The index at that place, or the index of the invocation that is left out.
    pub event: usize,
    pub why: MismatchReason,
}
