//! The program that explains a history, given as a text on standard input: the cause of a violation, changes that
//! remove it, and what a pass leaves open.
#![tactic(auto)]

mod asked;
mod explain;
mod run;

use crate::run::run;
use ra_cli_common::run_main;
use std::process::ExitCode;

fn main(rt: HostRuntime) -> ExitCode {
    run_main(&rt, |alloc, words, console| run(alloc, words, console))
}
