//! A seat of any object's board, its news for others, and its answers.
ghost use Rattle.std.specs.Prelude.{◌≡◌, ◌+◌, length};
ghost use mathlib.Core.List.{IsPrefix};
ghost use Rattle.board.specs.Tape.{HasSeen, IsSummaryAfter};

use crate::one_thread::OneThread;
use crate::published::{HoldsPublished, Published, PublishedCopy, Shown};
use crate::tag::Tag;
use crate::tape::TapeEntry;
use crossbeam_utils::rule::Unruled;
use left_right::reader::Reader;
use std::collections::LinkedList;
use std::marker::Model;
use std::sync::ledger::Share;

/// The view of a seat in contracts. No value of it is made.
pub struct SeatView<S, C, R> {
    pub number: u32,
    /// The calls that were answered.
    pub count: u64,
    /// The longest tape that the seat has seen. It begins with each that it has seen.
    pub tape: LinkedList<TapeEntry<S, C, R>>,
}

/// A seat of any object's board: its number, the number of its answered calls, and the tape that it has seen. Contracts see these three.
#[derive(Drop)]
pub struct Seat<
    X: OneThread,
    B: Tag,
    T: HoldsPublished<Published<X, B>> = PublishedCopy<Published<X, B>>,
> {
    pub(crate) number: u32,
    // A glance has it while it looks.
    pub(crate) reader: Option<Reader<T, (), Unruled>>,
    // The newest publication that it has seen.
    pub(crate) newest: Published<X, B>,
    pub(crate) share: Share<B>,
}

impl<X: OneThread, B: Tag, T: HoldsPublished<Published<X, B>>> Model for Seat<X, B, T> {
    ghost use Rattle.std.specs.Prelude.{◌≡◌, IsSome};
    ghost use Rattle.board.specs.declared.seat.SeatView.{SeatView};

    ghost Value = { SeatView X.State X.Command X.Reply };

    ghost view = { λ s. record { number = s.number; count = s.share.amount; tape = s.newest } };

    ghost invariant = { λ s. (s.share.parts ≡ 1) × IsSome s.reader };
}

/// The tape that a seat had seen, for other seats of the same board. Contracts see it as the tape.
#[derive(Drop)]
pub struct News<X: OneThread, B: Tag> {
    newest: Published<X, B>,
}

impl<X: OneThread, B: Tag> Model for News<X, B> {
    ghost use Rattle.std.specs.Prelude.{List};
    ghost use Rattle.board.specs.declared.tape.TapeEntry.{TapeEntry};

    ghost Value = { List (TapeEntry X.State X.Command X.Reply) };

    ghost view = { λ n. n.newest };
}

/// The answer of a call that is an entry: the reply, the number of the entry, and the tape that its seat had then seen, as news.
#[derive(Drop)]
pub struct Answered<X: OneThread, B: Tag> {
    pub reply: X::Reply,
    /// The number of the entry, from 1.
    pub entry_number: u64,
    pub news: News<X, B>,
}

// Enters the published copy, and takes its tape if that continues the tape at hand.
fn enter<X: OneThread, B: Tag, T: HoldsPublished<Published<X, B>>>(
    reader: Reader<T, (), Unruled>,
    newest: &mut Published<X, B>,
) -> Reader<T, (), Unruled>
    ensures { IsPrefix newest.old newest.new }
{
    match reader.enter_as::<Unruled>() {
        Ok(reading) => {
            newest.follow(reading.get().published());
            reading.leave()
        }
        Err(reader) => reader,
    }
}

impl<X: OneThread, B: Tag, T: HoldsPublished<Published<X, B>>> Seat<X, B, T> {
    // Looks at the published copy, and shows the newest publication that it has then seen. It does not block and takes no memory.
    pub(crate) fn look(&mut self) -> Shown<X::Summary>
        ensures same { (self.new.number ≡ self.old.number) × (self.new.count ≡ self.old.count) }
        ensures seen { HasSeen self.new self.old.tape }
        ensures call_count { length self.new.tape ≡ result.call_count + 1 }
        ensures shown { IsSummaryAfter X.replies X.summarizes self.new.tape result.summary }
    {
        let reader = self.reader.take().unwrap();
        self.reader = Some(enter(reader, &mut self.newest));
        self.newest.show()
    }

    /// From now on the seat has seen what the sender of the news had. It takes no memory and cannot fail.
    pub fn learn(&mut self, news: News<X, B>)
        ensures same { (self.new.number ≡ self.old.number) × (self.new.count ≡ self.old.count) }
        ensures mine { HasSeen self.new self.old.tape }
        ensures theirs { HasSeen self.new news }
    {
        self.newest.follow(&news.newest);
    }

    // The tape that the seat has seen, for others. It takes no memory and cannot fail.
    pub(crate) fn news(&self) -> News<X, B>
        ensures { result ≡ self.now.tape }
    {
        News {
            newest: self.newest.again(),
        }
    }
}
