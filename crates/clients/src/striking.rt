//! What the nemesis does.
ghost use Rattle.clients.specs.Calls.{MadeNone};
ghost use Rattle.clients.specs.Playing.{AsksOnce, GoesOnStriking, RefusesRun};

use crate::pauses::let_others_call;
use crate::progress::Progress;
use crate::shared_board::SharedBoard;
use crate::watch::Watch;
use edn::Refusal;
use harness::Command;
use std::sync::Wait;

// The calls of others between two tries, if no fault was due. So it takes few of the turns at the lock, and a fault strikes
// some events late at most.
const CALLS: u64 = 8;

/// Asks for the first fault, before any client has begun, and gives the refusal, if it is refused.
pub(crate) fn ask_first<M: SharedBoard, R: Wait>(
    rt: &R,
    board: &M,
    seat: &mut M::Seat,
) -> Option<Refusal>
    ensures { ¬ RefusesRun result → AsksOnce (M.view seat.old) (M.view seat.new) }
{
    board.call(rt, seat, Command::Nemesis).err()
}

/// Has the nemesis strike until the clients have ended, or until it is refused, and then gives the refusal. If no fault is due, others go
/// on before the next try. Between two tries it reports to the watch, if that wants to know.
pub(crate) fn strike<M: SharedBoard, W: Watch, R: Wait>(
    rt: &R,
    board: &M,
    progress: &Progress,
    watch: &mut W,
    seat: &mut M::Seat,
) -> Option<Refusal>
    ensures { ¬ RefusesRun result → GoesOnStriking (M.view seat.old) (M.view seat.new) }
{
    for _ in rt.forever() {
        if progress.has_ended() {
            return None;
        }
        if let Some(why) = try_once(rt, board, seat) {
            return Some(why);
        }
        tell(board, progress, watch, seat);
    }
    unreachable!()
}

// One try, and the refusal that ends the nemesis, if that is one.
fn try_once<M: SharedBoard, R: Wait>(rt: &R, board: &M, seat: &mut M::Seat) -> Option<Refusal>
    ensures { ¬ RefusesRun result → GoesOnStriking (M.view seat.old) (M.view seat.new) }
{
    let tried = board.call(rt, seat, Command::Nemesis);
    match tried {
        Ok(_) => None,
        Err(Refusal::Idle) => {
            let_others_call(board, seat, CALLS);
            None
        }
        Err(why) => Some(why),
    }
}

// Tells the watch how far the run has come, if it wants to know and a glance shows it.
fn tell<M: SharedBoard, W: Watch>(board: &M, progress: &Progress, watch: &mut W, seat: &mut M::Seat)
    ensures { MadeNone (M.view seat.old) (M.view seat.new) }
{
    if watch.wants() {
        if let Some(glance) = board.glance(seat) {
            watch.told(progress.events(), glance.verdict);
        }
    }
}
