//! The one-thread object.
ghost use Rattle.std.specs.Prelude.{◌≡◌, Option, Some, IfOk, OnErr, IsSome};

use std::alloc::AllocError;

/// An object of one thread, whose commands come in two halves.
pub trait OneThread: Drop {
    /// The state of the machine. No value of it is made.
    type State;

    /// Its commands.
    type Command: Drop;

    /// Its replies. A refusal may be a reply.
    type Reply: Drop;

    /// The summary of a state that readers see.
    type Summary: Copy;

    ghost state: { Self → Self.State };

    // In the state before, the command is given the reply and leads to the state after.
    ghost replies: { Self.State → Self.Command → Self.Reply → Self.State → Type 0 };

    // Readers may be shown this in that state.
    ghost summarizes: { Self.State → Self.Summary → Type 0 };

    // In that state the command may run out of memory.
    ghost may_want: { Self.State → Self.Command → Type 0 };

    // The state that `commit` will bring, if a command is prepared.
    ghost promised: { Self → Option Self.State };

    /// The present summary for readers.
    fn summary(&self) -> Self::Summary
        ensures { summarizes (state self.now) result };

    /// Prepares a command, and gives its reply and the summary of the state that `commit` will bring.
    fn prepare(
        &mut self,
        command: Self::Command,
    ) -> Result<(Self::Reply, Self::Summary), AllocError>
        ensures same { state self.new ≡ state self.old }
        ensures ready { IfOk result (λ r. (next : Self.State)
            × replies (state self.old) command r.0 next × (promised self.new ≡ Some next)
            × summarizes next r.1) }
        ensures memory { OnErr result (may_want (state self.old) command) };

    /// Carries out what is prepared. It takes no memory and cannot fail.
    fn commit(&mut self)
        requires { IsSome (promised self.old) }
        ensures { promised self.old ≡ Some (state self.new) };
}
