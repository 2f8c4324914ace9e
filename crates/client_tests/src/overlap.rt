//! Clients that wait for each other.
ghost use Rattle.std.specs.Prelude.{◌≡◌};

use crate::client_boards::{blank, read};
use board::{Blank, Tag};
use clients::{NoWatch, run_clients};
use edn::Gate;
use std::alloc::Global;
use std::marker::Brand;
use std::process::Abort;
use std::sync::Wait;
use std::sync::atomic::{AtomicBool, Ordering};
use std::thread::Threads;
use waiting::{TURNS, comes};

// Each of two clients waits before its first command until the other is there too; and the first, after the answer to it,
// until the second has its own.
#[derive(Drop)]
struct Meeting {
    first: AtomicBool,
    second: AtomicBool,
    answered: AtomicBool,
    ended: AtomicBool,
    // Somebody waited for too long.
    missed: AtomicBool,
}

impl Meeting {
    fn new() -> Meeting {
        Meeting {
            first: AtomicBool::new(false),
            second: AtomicBool::new(false),
            answered: AtomicBool::new(false),
            ended: AtomicBool::new(false),
            missed: AtomicBool::new(false),
        }
    }

    // Whether both came, none in vain, and the first had its answer once the second had its own.
    fn was_held(&self) -> bool {
        !self.missed.load(Ordering::SeqCst)
            && self.first.load(Ordering::SeqCst)
            && self.second.load(Ordering::SeqCst)
            && self.ended.load(Ordering::SeqCst)
    }

    fn wait_for(&self, flag: &AtomicBool) {
        if !comes(flag, TURNS) {
            self.missed.store(true, Ordering::SeqCst);
        }
    }
}

impl Gate for Meeting {
    fn begin(&self, place: u32) {
        match place {
            0 => {
                self.first.store(true, Ordering::SeqCst);
                self.wait_for(&self.second);
            }
            1 => {
                self.second.store(true, Ordering::SeqCst);
                self.wait_for(&self.first);
            }
            _ => {}
        }
    }

    fn end(&self, place: u32) {
        match place {
            0 => {
                self.wait_for(&self.answered);
                self.ended.store(true, Ordering::SeqCst);
            }
            1 => self.answered.store(true, Ordering::SeqCst),
            _ => {}
        }
    }
}

/// Two clients run at once: each waits for the other before its first command, and the first waits for the second's answer
/// while it holds its own. No clause says so: a run that serves one client after the other meets each clause, and fails here.
/// Tried by hand: with clients that one thread runs in turn, the first waits in vain.
#[test]
fn clients_overlap(rt: HostRuntime) {
    let alloc = rt.alloc();
    let items = vec![in alloc; read()].unwrap_or(Vec::new(alloc));
    let (met, events) = overlap::<Brand, _>(&rt, alloc, blank(&rt, alloc, 3, 2, items));
    assert!(rt; met && events == 4);
}

// Whether the clients met, and how many events there are.
fn overlap<B: Tag + Send + Sync, R: Threads + Wait + Abort + Sync>(
    rt: &R,
    alloc: Global,
    blank: Blank,
) -> (bool, u32)
    requires names { (blank.word ≡ B.word) × (blank.ledger.name ≡ B.name)
        × (blank.ledger.parts ≡ B.parts) }
    requires seats { blank.seats ≡ 3 }
{
    let meeting = Meeting::new();
    let Ok((board, seats)) = blank.open::<B>() else {
        panic!(rt; "not opened")
    };
    let Ok(back) = run_clients(rt, alloc, &board, seats, &meeting, NoWatch) else {
        panic!(rt; "refused")
    };
    let core = board.end(rt, back);
    (meeting.was_held(), core.monitor().history().len())
}
