//! The program that checks histories of replicated data types, given as a text on standard input, and runs benches of
//! replicas.
#![tactic(auto)]

mod bench;
mod run;

use crate::run::run;
use ra_bench::{OpenGate, run_bench};
use ra_cli_common::run_main;
use std::process::ExitCode;

fn main(rt: HostRuntime) -> ExitCode {
    run_main(&rt, |alloc, words, console| {
        let bench = |kind, replicas, rounds| {
            run_bench(&rt, rt.alloc(), kind, replicas, rounds, &OpenGate)
        };
        run(alloc, words, bench, console)
    })
}
