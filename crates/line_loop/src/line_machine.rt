//! A machine of one thread that answers lines.
ghost use Rattle.std.specs.Prelude.{◌≡◌, ◌<◌, ◌≤◌, ℕ, Bool, List, [], length, OnOk};
ghost use Rattle.line_loop.specs.ReplyText.{line_limit};

use std::alloc::AllocError;

/// Answers lines, each by a text that may be empty.
pub trait LineMachine: Drop {
    /// Its state, as clauses see it. No value of it is made.
    type State;

    /// Its answer about its state at the end of the input.
    type Verdict: Drop;

    ghost state: { Self → Self.State };

    // In the first state the line may be answered by this text, which leads to the second.
    ghost may_reply: { Self.State → List ℕ → List ℕ → Self.State → Type 0 };

    // In this state it is closed: no further line is read.
    ghost is_closed: { Self.State → Bool };

    ghost shows: { Self.State → Self.Verdict → Type 0 };

    /// Puts the reply to a line of at most 65,536 bytes, without its line feed, into an empty vector.
    ///
    /// # Errors
    ///
    /// Only if memory is refused.
    fn answer(&mut self, line: &[u8], reply: &mut Vec<u8>) -> Result<(), AllocError>
        requires within { length line.now ≤ line_limit }
        requires empty { reply.old.items ≡ [] }
        ensures { OnOk result
            (may_reply (state self.old) line.now reply.new.items (state self.new)) };

    /// Puts the reply to a line over the limit, whichever it is, into an empty vector.
    ///
    /// # Errors
    ///
    /// Only if memory is refused.
    fn answer_too_long(&mut self, reply: &mut Vec<u8>) -> Result<(), AllocError>
        requires { reply.old.items ≡ [] }
        ensures { OnOk result ((line : List ℕ) → line_limit < length line
            → may_reply (state self.old) line reply.new.items (state self.new)) };

    /// Whether it is closed.
    fn closed(&self) -> bool
        ensures { result ≡ is_closed (state self.now) };

    /// The verdict on the present state.
    fn verdict(&self) -> Self::Verdict
        ensures { shows (state self.now) result };
}
