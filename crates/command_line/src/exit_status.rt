//! The exit status where a script has ended, and if there is no order.
ghost use Rattle.std.specs.Prelude.{◌≡◌, false, MatchOption, MatchResult};
ghost use Rattle.command_line.specs.Stops.{EndsWithoutOrder, IsPutOrUnwritten};
ghost use Rattle.check_command.specs.ExitStatus.{status_of};

use crate::order::Stop;
use check_command::{REFUSED, put_text, status_of_verdict};
use edn::Refusal;
use line_loop::{Failed, Flushes, refusal_text};
use linspec::Verdict;
use observers::Observer;
use std::alloc::Global;
use std::io::{Eprint, Write};
use std::sync::Wait;

/// The exit status after a script: 0 legal, 1 illegal, 2 unknown, 3 for a script that its first refusal closed, and 3 for a
/// refusal of the whole, whose line goes to standard error. It may wait for that; if there is no memory for the line, or an
/// error, nothing is said.
pub fn status_after<P: Eprint, L: Observer>(
    rt: &P,
    alloc: Global,
    outcome: Result<Option<Verdict>, Refusal>,
    observer: &L,
) -> u8
    ensures { MatchResult outcome
        (λ said. MatchOption said (result ≡ 3) (λ verdict. result ≡ status_of verdict))
        (λ _. result ≡ 3) }
{
    match outcome {
        Ok(Some(verdict)) => status_of_verdict(&verdict),
        Ok(None) => REFUSED,
        Err(refusal) => {
            print_refusal(rt, alloc, &refusal, observer);
            REFUSED
        }
    }
}

/// Says on standard error that standard output took no more, if its writer has failed; nothing else says it, since what
/// is written there is lost. It may wait for standard error, whose errors are passed over.
pub fn say_unwritten<P: Eprint, W: Failed, L: Observer>(
    rt: &P,
    alloc: Global,
    writer: &W,
    observer: &L,
) {
    if writer.failed() {
        print_refusal(rt, alloc, &Refusal::WriteFailed, observer);
    }
}

/// The exit status if there is no order. The text of help or of the version is written and flushed, with 0. If that fails, it is said, with
/// 3; so it is if there is no memory for the text. For any other stop nothing is written, with 3: a usage fault or the line of a refusal
/// goes to standard error, whose errors are passed over. It may wait for the writer and for standard error.
pub fn status_of_stop<X: Wait + Eprint, W: Write + Failed + Flushes, L: Observer>(
    rt: &X,
    alloc: Global,
    stop: &Stop,
    writer: &mut W,
    observer: &L,
) -> u8
    requires { W.has_failed writer.old ≡ false }
    ensures { EndsWithoutOrder stop.now (W.contents writer.old) (W.contents writer.new)
        (W.has_failed writer.new) (W.is_flushed writer.new) result }
{
    match stop {
        Stop::Words(error) => {
            if error.use_stderr() {
                let _ = rt.eprint(error);
                REFUSED
            } else {
                put_request(rt, alloc, error, writer, observer)
            }
        }
        Stop::Refused(refusal) => {
            print_refusal(rt, alloc, refusal, observer);
            REFUSED
        }
    }
}

// Writes and flushes the text of help or of the version, and gives the exit status.
fn put_request<X: Wait + Eprint, W: Write + Failed + Flushes, L: Observer>(
    rt: &X,
    alloc: Global,
    request: &clap::Error,
    writer: &mut W,
    observer: &L,
) -> u8
    requires { W.has_failed writer.old ≡ false }
    ensures { IsPutOrUnwritten (W.contents writer.old) (W.contents writer.new)
        (W.has_failed writer.new) (W.is_flushed writer.new) result }
{
    match format!(in alloc; "{request}") {
        Ok(text) => {
            let status = put_text(rt, text.as_bytes(), 0, writer);
            say_unwritten(rt, alloc, writer, observer);
            status
        }
        Err(_) => {
            print_refusal(rt, alloc, &Refusal::NoMemory, observer);
            REFUSED
        }
    }
}

// Prints the line of a refusal on standard error, if that can be done.
fn print_refusal<P: Eprint, L: Observer>(rt: &P, alloc: Global, refusal: &Refusal, observer: &L) {
    if let Ok(line) = refusal_text(alloc, refusal) {
        let _ = eprint!(rt; "{line}");
    }
    observer.stopped(refusal);
}
