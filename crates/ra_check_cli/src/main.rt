//! The program that checks histories of replicated data types, given as a text on standard input. It is the whole
//! program without the bench, so that it can be built before the bench is proved.
#![tactic(auto)]

mod run;

use crate::run::run;
use ra_cli_common::run_main;
use std::process::ExitCode;

fn main(rt: HostRuntime) -> ExitCode {
    run_main(&rt, |alloc, words, console| run(alloc, words, console))
}
