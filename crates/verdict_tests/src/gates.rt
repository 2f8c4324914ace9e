//! Gates that hold a piece back until another begins, for a number of turns.

use edn::Gate;
use std::sync::atomic::{AtomicBool, AtomicU64, Ordering};
use std::thread;
use waiting::{TURNS, comes};

/// The state of a piece: it was begun; it saw the other piece begin, if it waits for that; it was ended.
#[derive(Drop)]
struct Piece {
    waits: bool,
    begun: AtomicBool,
    saw: AtomicBool,
    ended: AtomicBool,
}

impl Piece {
    fn new(waits: bool) -> Piece {
        Piece {
            waits,
            begun: AtomicBool::new(false),
            saw: AtomicBool::new(false),
            ended: AtomicBool::new(false),
        }
    }

    fn begin(&self, other: &Piece) {
        self.begun.store(true, Ordering::SeqCst);
        if self.waits {
            self.saw.store(comes(&other.begun, TURNS), Ordering::SeqCst);
        }
    }

    fn end(&self) {
        self.ended.store(true, Ordering::SeqCst);
    }

    // Whether it saw the other piece begin, if it waits for that, and has ended.
    fn was_held(&self) -> bool {
        (!self.waits || self.saw.load(Ordering::SeqCst)) && self.ended.load(Ordering::SeqCst)
    }
}

/// Piece 0 waits for piece 1, and piece 1 for piece 0 if both wait. Each other one passes.
#[derive(Drop)]
pub struct Meeting {
    first: Piece,
    second: Piece,
}

impl Meeting {
    pub fn of_both() -> Meeting {
        Meeting {
            first: Piece::new(true),
            second: Piece::new(true),
        }
    }

    pub fn of_first() -> Meeting {
        Meeting {
            first: Piece::new(true),
            second: Piece::new(false),
        }
    }

    /// Whether each that waits saw the other piece begin, and both have ended.
    pub fn was_held(&self) -> bool {
        self.first.was_held() && self.second.was_held()
    }
}

impl Gate for Meeting {
    fn begin(&self, place: u32) {
        match place {
            0 => self.first.begin(&self.second),
            1 => self.second.begin(&self.first),
            _ => {}
        }
    }

    fn end(&self, place: u32) {
        match place {
            0 => self.first.end(),
            1 => self.second.end(),
            _ => {}
        }
    }
}

/// Each of these pieces waits until all of them have begun. It counts how many begin and end, and adds up their places.
#[derive(Drop)]
pub struct Gathering {
    pieces: u64,
    begun: AtomicU64,
    begun_places: AtomicU64,
    ended: AtomicU64,
    ended_places: AtomicU64,
    // A piece waited for too long.
    missed: AtomicBool,
}

impl Gathering {
    pub fn of(pieces: u64) -> Gathering {
        Gathering {
            pieces,
            begun: AtomicU64::new(0),
            begun_places: AtomicU64::new(0),
            ended: AtomicU64::new(0),
            ended_places: AtomicU64::new(0),
            missed: AtomicBool::new(false),
        }
    }

    // Whether it is so within a number of turns, or was missed before.
    fn all_begin(&self) -> bool {
        for _ in 0..TURNS {
            if self.begun.load(Ordering::SeqCst) >= self.pieces
                || self.missed.load(Ordering::SeqCst)
            {
                return true;
            }
            thread::yield_now();
        }
        false
    }

    /// Whether each saw all the others begin, and this number have begun and ended, whose places add up to this.
    pub fn was_held(&self, places: u64) -> bool {
        !self.missed.load(Ordering::SeqCst)
            && self.begun.load(Ordering::SeqCst) == self.pieces
            && self.ended.load(Ordering::SeqCst) == self.pieces
            && self.begun_places.load(Ordering::SeqCst) == places
            && self.ended_places.load(Ordering::SeqCst) == places
    }
}

impl Gate for Gathering {
    fn begin(&self, place: u32) {
        self.begun_places
            .fetch_add(u64::from(place), Ordering::SeqCst);
        self.begun.fetch_add(1, Ordering::SeqCst);
        if !self.all_begin() {
            self.missed.store(true, Ordering::SeqCst);
        }
    }

    fn end(&self, place: u32) {
        self.ended_places
            .fetch_add(u64::from(place), Ordering::SeqCst);
        self.ended.fetch_add(1, Ordering::SeqCst);
    }
}
