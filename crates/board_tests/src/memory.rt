//! Calls that are tried again.

use crate::acts::{Act, Line, act_in_turn};
use crate::answers::Answer;
use crate::boards::blank;

/// A call that runs out of memory adds no entry: a glance shows the state before it, and the same call again is the next entry. The test
/// meets this case only if it is run with one allocation that fails, which the gate does not do.
#[test]
fn want_of_memory_is_no_entry(rt: HostRuntime) {
    let rows = &[
        (0, Act::Glance, 0, Answer::Legal),
        (0, Act::CallTwice(Line::WriteBegins), 1, Answer::Legal),
        (0, Act::CallTwice(Line::WriteEnds), 2, Answer::Legal),
        (0, Act::CallTwice(Line::ReadBegins), 3, Answer::Legal),
        (
            0,
            Act::CallTwice(Line::ReadEnds(4)),
            4,
            Answer::Illegal(7, 3),
        ),
        (0, Act::CallTwice(Line::ReadEnds(4)), 5, Answer::Refused(3)),
    ];
    assert!(rt; matches!(act_in_turn(&rt, blank(&rt, rt.alloc(), 1), rows), (None, _)));
}
