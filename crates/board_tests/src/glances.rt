//! Glances during calls.

use crate::acts::{Act, Line, act_in_turn};
use crate::answers::Answer;
use crate::boards::blank;
use crate::during_call::{DuringCall, SeatAnswer, hold_call};
use crate::shared::SharedBoard;
use edn::Gate;
use std::sync::Wait;
use std::sync::atomic::{AtomicBool, AtomicU32, Ordering};
use waiting::{TURNS, comes};

/// A seat that learns nothing sees each call of another. So a glance that remembers what it showed, and never enters the
/// published copy, fails here.
#[test]
fn glance_follows_each_call(rt: HostRuntime) {
    let rows = &[
        (0, Act::Call(Line::WriteBegins), 1, Answer::Legal),
        (1, Act::Glance, 1, Answer::Legal),
        (0, Act::Call(Line::WriteEnds), 2, Answer::Legal),
        (1, Act::Glance, 2, Answer::Legal),
        (0, Act::Call(Line::ReadBegins), 3, Answer::Legal),
        (1, Act::Glance, 3, Answer::Legal),
        (0, Act::Call(Line::ReadEnds(4)), 4, Answer::Illegal(7, 3)),
        (1, Act::Glance, 4, Answer::Illegal(7, 3)),
        (0, Act::Call(Line::ReadEnds(4)), 5, Answer::Refused(3)),
        (1, Act::Glance, 5, Answer::Illegal(7, 3)),
    ];
    assert!(rt; matches!(act_in_turn(&rt, blank(&rt, rt.alloc(), 2), rows), (None, _)));
}

// A moment of a call of the seat with this number, which lasts until a glance was made, for some turns.
#[derive(Drop)]
struct Moment {
    number: AtomicU32,
    come: AtomicBool,
    glanced: AtomicBool,
    met: AtomicBool,
}

impl Moment {
    fn new() -> Moment {
        Moment {
            number: AtomicU32::new(99),
            come: AtomicBool::new(false),
            glanced: AtomicBool::new(false),
            met: AtomicBool::new(false),
        }
    }

    fn hold(&self, number: u32) {
        self.number.store(number, Ordering::SeqCst);
        self.come.store(true, Ordering::SeqCst);
        self.met
            .store(comes(&self.glanced, TURNS), Ordering::SeqCst);
    }

    // Whether a glance was made in this moment of a call of that seat.
    fn was_met(&self, number: u32) -> bool {
        self.met.load(Ordering::SeqCst) && self.number.load(Ordering::SeqCst) == number
    }

    // The result of a glance in this moment.
    fn glance<M: SharedBoard>(&self, board: &M, seat: &mut M::Seat) -> SeatAnswer {
        if !comes(&self.come, TURNS) {
            return None;
        }
        let seen = board.glance(seat);
        self.glanced.store(true, Ordering::SeqCst);
        seen
    }
}

// Holds a call under the lock before it publishes, and once more after that.
#[derive(Drop)]
struct Meeting {
    before: Moment,
    after: Moment,
}

impl Gate for Meeting {
    fn begin(&self, place: u32) {
        self.before.hold(place);
    }

    fn end(&self, place: u32) {
        self.after.hold(place);
    }
}

// A glance before the call publishes, and one after that.
impl DuringCall for Meeting {
    fn act<M: SharedBoard, R: Wait>(
        &self,
        _rt: &R,
        board: &M,
        seat: &mut M::Seat,
    ) -> (SeatAnswer, SeatAnswer) {
        let before = self.before.glance(board, seat);
        (before, self.after.glance(board, seat))
    }
}

/// While a call holds the lock, a glance in another thread answers: before the entry is published without it, and then with it. The gate
/// gets the seat's number. So a glance that tries the lock, and shows nothing if it is held, fails here.
#[test]
fn glance_answers_while_a_call_holds_the_lock(rt: HostRuntime) {
    let meeting = Meeting {
        before: Moment::new(),
        after: Moment::new(),
    };
    let (answer, (before, after)) = hold_call(&rt, blank(&rt, rt.alloc(), 2), &meeting);
    assert!(rt; meeting.before.was_met(1) && meeting.after.was_met(1));
    assert!(rt; before == Some((0, Answer::Legal)));
    assert!(rt; after == Some((1, Answer::Legal)));
    assert!(rt; answer == (1, Answer::Legal));
}
