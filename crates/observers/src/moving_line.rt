//! A line on a terminal that is written over.

use linspec::Verdict;
use std::cell::Cell;
use std::fmt::Display;
use std::io::Eprint;
use std::rt::Clock;
use std::time::{Duration, Instant};

// Milliseconds before it is shown for the first time.
const AT_FIRST: u64 = 1000;

// Milliseconds between two times that it is shown.
const BETWEEN: u64 = 250;

/// A line on standard error that says how far something has come. It is written over four times a second, from the first second on; if
/// standard error is not a terminal it is never shown.
#[derive(Drop)]
pub struct MovingLine<'a, X> {
    rt: &'a X,
    // When it is shown next, if ever.
    next: Cell<Option<Instant>>,
    // Whether the line is shown, and no other line follows it yet.
    is_open: Cell<bool>,
}

impl<'a, X: Clock + Eprint> MovingLine<'a, X> {
    /// A line that is not shown yet. It reads the clock if there is a terminal, and takes no memory.
    pub fn new(rt: &'a X, is_terminal: bool) -> Self {
        let next = if is_terminal {
            time_in(rt, AT_FIRST)
        } else {
            None
        };
        MovingLine {
            rt,
            next: Cell::new(next),
            is_open: Cell::new(false),
        }
    }

    /// Whether it is ever shown: not without a terminal, and not if the clock can't be read.
    pub fn moves(&self) -> bool {
        self.next.get().is_some()
    }

    /// Whether the line is shown, and no other line follows it yet.
    pub fn is_shown(&self) -> bool {
        self.is_open.get()
    }

    /// Whether it is time to show it, by the clock.
    pub fn is_time(&self) -> bool {
        let Some(next) = self.next.get() else {
            return false;
        };
        Instant::now(self.rt).is_ok_and(|now| now >= next)
    }

    /// Overwrites the line by `text` at once, also if the last text is recent. It may wait for standard error, and ignores its errors.
    pub fn show<D: Display + Drop>(&self, text: D) {
        let _ = eprint!(self.rt; "\r{text}");
        self.is_open.set(true);
        self.next.set(time_in(self.rt, BETWEEN));
    }

    /// Shows the progress of a run of clients: the number of events, and the verdict on them. It may wait as [`show`](MovingLine::show)
    /// does.
    pub fn show_run(&self, events: u64, verdict: Verdict) {
        match verdict {
            Verdict::Legal => self.show(format_args!("{events} events, legal so far    ")),
            Verdict::Illegal { key, .. } => {
                self.show(format_args!("{events} events, key {key} is illegal    "));
            }
            Verdict::Unknown { key, .. } => {
                self.show(format_args!("{events} events, key {key} is unknown    "));
            }
        }
    }

    /// Ends the line, if it is shown. It may wait for standard error, and ignores its errors.
    pub fn leave(&self) {
        if self.is_open.replace(false) {
            let _ = self.rt.eprintln("");
        }
    }
}

// The time in this number of milliseconds from now, if the clock can be read.
fn time_in<X: Clock>(clock: &X, milliseconds: u64) -> Option<Instant> {
    Instant::now(clock)
        .ok()?
        .checked_add(Duration::from_millis(milliseconds))
}
