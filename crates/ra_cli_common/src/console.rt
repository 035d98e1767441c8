//! The streams of a program, and its start on those of the process.
use crate::ending::Ending;
use ra_cli_arguments::{Words, words_of};
use std::alloc::Global;
use std::io;
use std::io::{Input, Printer, StdinLock};
use std::process::ExitCode;

/// The streams of a program.
#[derive(Drop)]
pub struct Console<R, W, E> {
    /// Provides the input.
    pub reader: R,
    /// Receives the output.
    pub out: W,
    /// Receives the line of an error.
    pub err: E,
}

/// Runs a program on the arguments and the standard streams of the process, and returns its exit status.
pub fn run_main<'a, P>(rt: &'a HostRuntime, program: P) -> ExitCode
where
    P: FnOnce(
        Global,
        &Words,
        &mut Console<StdinLock, Printer<'a, HostRuntime>, io::Stderr>,
    ) -> Ending,
    // The program can be called with any arguments and streams.
    requires { P.IsAlwaysCallable program }
{
    let words = words_of(rt);
    let mut console = Console {
        reader: rt.reader(),
        out: io::writer(rt),
        err: rt.stderr(),
    };
    ExitCode::from(program(rt.alloc(), &words, &mut console).status)
}
