//! Schedules of faults: the fault that is due at a length of the history. A schedule is a list whose lengths never fall, with the number of
//! faults that were taken.
#![tactic(auto)]

mod schedule;

pub use schedule::Schedule;
