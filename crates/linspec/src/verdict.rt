//! The status of a key and the verdict on a history.

/// The status of one key.
#[derive(Clone, Copy, Debug, PartialEq, Eq)]
pub enum KeyStatus {
    /// Every prefix of its history is linearizable, and its budget was never exceeded.
    Alive,
    /// The event with this index ends the shortest front that is not linearizable.
    Dead(u32),
    /// Just before the ok event with this index, more ends were possible than the budget allows, for the first time. The key may be alive
    /// or dead.
    Over(u32),
}

/// The verdict on a history.
#[derive(Clone, Copy, Debug, PartialEq, Eq)]
pub enum Verdict {
    /// Every prefix of the history is linearizable, and no key's budget was exceeded.
    Legal,
    /// With the keys set aside whose budget was exceeded, the event of this key with this index ends the shortest front
    /// that is not linearizable.
    Illegal { key: u16, index: u32 },
    /// The rest without those keys is linearizable; this key's budget was the first to be exceeded, at this index.
    Unknown { key: u16, index: u32 },
}
