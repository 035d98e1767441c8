//! The program as a function of its arguments and its streams.
ghost use Rattle.std.specs.Prelude.{◌≡◌, ◌≢◌, Bool, None, Some};
ghost use Rattle.ra_cli_arguments.specs.Arguments.{stop_words};
ghost use Rattle.ra_cli_common.specs.Endings.{StopsProgram};
ghost use Rattle.ra_cli_common.specs.Check.{ChecksText};
ghost use Rattle.ra_check_cli.specs.Asked.{report_asked_by};

use ra_cli_arguments::{Run, Words, run_asked_by};
use ra_cli_common::{Console, Ending, run_check, stop_unasked};
use std::alloc::Global;
use std::io::{Read, Write};

/// Runs the program with the arguments after its name.
///
/// `check` checks the text that the reader provides, with the replies on `out` and the line of an error on `err`;
/// `check --report` also writes the report's object. For other arguments, including those of a bench, it writes the
/// line `usage` on `err`, or `no memory` if they could not be read for lack of memory.
///
/// # Complexity
///
/// That of `ra_history_text::check`.
pub fn run<R: Read, W: Write, E: Write>(
    alloc: Global,
    words: &Words,
    console: &mut Console<R, W, E>,
) -> Ending
    // For arguments that ask for no check, nothing is read.
    ensures unread { report_asked_by words.now ≡ None → console.new.reader ≡ console.old.reader }
    // For arguments that ask for no check, nothing is written on `out`.
    ensures unwritten { report_asked_by words.now ≡ None → console.new.out ≡ console.old.out }
    // For arguments that ask for no check, the status is 2, and `err` received the line `usage`, or `no memory`, if the
    // ending says that it was written.
    ensures usage { report_asked_by words.now ≡ None →
        StopsProgram result (E.contents console.old.err) (E.contents console.new.err) (stop_words words.now) }
    // For the arguments of a check, the contract of `run_check` holds: the output and the status are those of the check
    // of the text.
    ensures checked { (report : Bool) → report_asked_by words.now ≡ Some report →
        ChecksText report result (R.remaining console.old.reader) (R.remaining console.new.reader)
        (W.contents console.old.out) (W.contents console.new.out)
        (E.contents console.old.err) (E.contents console.new.err) }
    // For the arguments of a check, nothing is written on `err` unless the status is 2.
    ensures silent { (report : Bool) → report_asked_by words.now ≡ Some report → result.status ≢ 2 →
        console.new.err ≡ console.old.err }
{
    let Console { reader, out, err } = console;
    match run_asked_by(words) {
        Some(Run::Check { report }) => run_check(alloc, report, reader, out, err),
        Some(Run::Bench { .. }) | None => stop_unasked(words, err),
    }
}
