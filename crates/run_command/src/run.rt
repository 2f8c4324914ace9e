//! A run of clients against the store in the process.
ghost use Rattle.std.specs.Prelude.{◌≡◌, ◌≢◌, ℕ, List, IfOk, false};
ghost use Rattle.test_store.specs.declared.outcome.Mode.TheVariants.{Strict};
ghost use Rattle.harness.specs.Setups.{setup_of};
ghost use Rattle.check_command.specs.Checks.{IsPut};
ghost use Rattle.run_command.specs.RunText.{IsRunText, MaySay};

use check_command::{put_refused, put_text, status_of_verdict};
use clients::{Watch, run_trial};
use harness::{Config, Core};
use line_loop::{Failed, Flushes, refusal_text};
use observers::Observer;
use report::report;
use std::alloc::{AllocError, Global};
use std::io::Write;
use std::mem::forget;
use std::sync::Wait;
use std::thread::Threads;

/// Runs clients and the nemesis against a store in the process, each in a thread of its own. It writes and flushes the report of the
/// history, and gives the exit status: that of the verdict. Or it writes and flushes the line of a refusal, and gives 3, which it is too if
/// the writer has failed.
///
/// If the store is strict, the status is never that of an illegal verdict, in whatever order the threads run. A thread that can't be
/// started is run by another one. Nothing is written before all clients have ended. It waits for them and for the writer, and costs what
/// [`run_trial`] and [`report`] cost. The watch gets the progress meanwhile, and the observer the end.
pub fn run_store<
    X: Threads + Wait + Sync,
    W: Write + Failed + Flushes,
    L: Observer,
    V: Watch + Send + Drop,
>(rt: &X, alloc: Global, config: Config, writer: &mut W, observer: &L, watch: V) -> u8
    requires { W.has_failed writer.old ≡ false }
    ensures told { (text : List ℕ) × (status : ℕ) × MaySay (setup_of config) text status
        × IsPut text status
        (W.contents writer.old) (W.contents writer.new)
        (W.has_failed writer.new) (W.is_flushed writer.new) result }
    ensures never_illegal { config.mode ≡ Strict → result ≢ 1 }
{
    match run_trial(rt, alloc, config, watch) {
        Ok(core) => match report_text(alloc, core, observer) {
            Ok((text, status)) => put_text(rt, text.as_slice(), status, writer),
            Err(_) => put_refused(rt, Err(AllocError), writer),
        },
        Err(refusal) => {
            observer.stopped(&refusal);
            put_refused(rt, refusal_text(alloc, &refusal), writer)
        }
    }
}

// The report of the object's history, and the status of its verdict. A run is the last thing that its process does, so the object's memory
// goes back with the process.
fn report_text<L: Observer>(
    alloc: Global,
    core: Core,
    observer: &L,
) -> Result<(Vec<u8>, u8), AllocError>
    ensures { IfOk result (λ told. IsRunText core.machine told.0.items told.1) }
{
    let told = told_by(alloc, &core, observer);
    forget(core);
    told
}

// The same, of an object that stays.
fn told_by<L: Observer>(
    alloc: Global,
    core: &Core,
    observer: &L,
) -> Result<(Vec<u8>, u8), AllocError>
    ensures { IfOk result (λ told. IsRunText core.now.machine told.0.items told.1) }
{
    let mut text = Vec::new(alloc);
    report(alloc, core.monitor(), &mut text)?;
    let verdict = core.verdict();
    observer.ran(core.monitor(), &verdict);
    Ok((text, status_of_verdict(&verdict)))
}
