//! A board, as threads see it that share it.
use board::{Board, News, Seat, Tag};
use edn::Refusal;
use harness::{Command, Reply};
use std::sync::Wait;

/// The answer of a call: its commit and its reply.
pub type CommitAndReply = (u64, Result<Reply, Refusal>);

/// A board that threads share, each by a seat of its own.
pub trait CommandedBoard {
    type Seat;

    type News;

    /// The commit and the reply of a command; None if the call adds no entry.
    fn call<R: Wait>(
        &self,
        rt: &R,
        seat: &mut Self::Seat,
        command: Command,
    ) -> Option<CommitAndReply>;

    /// The commit of a command, and its news.
    fn tell<R: Wait>(
        &self,
        rt: &R,
        seat: &mut Self::Seat,
        command: Command,
    ) -> Option<(u64, Self::News)>;

    /// The result of a glance, once the seat has learned the news.
    fn glance_after(&self, seat: &mut Self::Seat, news: Self::News) -> Option<u64>;
}

impl<B: Tag> CommandedBoard for Board<B> {
    type Seat = Seat<B>;

    type News = News<B>;

    fn call<R: Wait>(
        &self,
        rt: &R,
        seat: &mut Seat<B>,
        command: Command,
    ) -> Option<CommitAndReply> {
        let answered = Board::call(self, rt, seat, command).ok()?;
        Some((answered.entry_number, answered.reply))
    }

    fn tell<R: Wait>(
        &self,
        rt: &R,
        seat: &mut Seat<B>,
        command: Command,
    ) -> Option<(u64, News<B>)> {
        let answered = Board::call(self, rt, seat, command).ok()?;
        Some((answered.entry_number, answered.news))
    }

    fn glance_after(&self, seat: &mut Seat<B>, news: News<B>) -> Option<u64> {
        seat.learn(news);
        match Board::glance(self, seat) {
            Some(glance) => Some(glance.call_count),
            None => None,
        }
    }
}
