//! `jepmon script` reads events of a store's clients, a line each, and answers each by the verdict on all of them:
//! whether what the clients saw is linearizable (Herlihy and Wing, TOPLAS 1990). `jepmon check FILE` judges a recorded
//! history, `jepmon confirm FILE ORDER` says what an order of its operations shows, and `jepmon run` judges what clients see of a
//! store in the process, under faults.
#![tactic(auto)]

mod orders;
mod run_line;

use check_command::SeenFile;
use line_loop::Watched;
use observers::OnStandardError;
use orders::{INPUT, ended};
use std::alloc::Global;
use std::env;
use std::io::IsTerminal;
use std::process::ExitCode;

fn main(rt: HostRuntime) -> ExitCode {
    let alloc: Global = rt.alloc();
    let aside = OnStandardError::new(&rt, rt.stderr().is_terminal());
    let input = rt.stdin();
    let mut reader = SeenFile {
        file: Watched::new(rt.stdin()),
        path: INPUT,
        observer: &aside,
    };
    let mut writer = Watched::new(rt.stdout());
    ended(
        &rt,
        alloc,
        env::args(&rt),
        &input,
        &mut reader,
        &mut writer,
        &aside,
    )
}
