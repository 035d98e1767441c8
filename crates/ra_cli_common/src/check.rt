//! The run of a check, from a reader to an exit status.
ghost use Rattle.std.specs.Prelude.{◌≡◌, ◌≢◌};
ghost use Rattle.ra_cli_report.specs.Report.{report_line};
ghost use Rattle.ra_cli_common.specs.Check.{status_of_outcome, ChecksText, EndsAnswered};
ghost use Rattle.ra_cli_common.specs.Endings.{EndsWithLine};

use crate::ending::{Ending, stop};
use crate::report::write_report;
use ra_history_text::{Outcome, check, status};
use std::alloc::Global;
use std::io::{Read, Write};

/// Checks the text that the reader provides. Writes the replies on `out`, followed by the report's object if `report`
/// is set, and the line of an error on `err`. The status is that of the check, or 2 if the report's line cannot be made
/// or written.
///
/// # Complexity
///
/// That of `ra_history_text::check`.
pub fn run_check<R: Read, W: Write, E: Write>(
    alloc: Global,
    report: bool,
    reader: &mut R,
    out: &mut W,
    err: &mut E,
) -> Ending
    // The contract of `check` holds of what was read and written, and the exit status is that of its result. If
    // requested, the report's line follows the output, and after an error its line is on `err` if the ending says so.
    ensures checked { ChecksText report result (R.remaining reader.old) (R.remaining reader.new)
        (W.contents out.old) (W.contents out.new) (E.contents err.old) (E.contents err.new) }
    // Unless the status is 2, nothing is written on `err`.
    ensures silent { result.status ≢ 2 → err.new ≡ err.old }
{
    let answer = check(alloc, reader, out);
    let status = status(&answer);
    match answer {
        Ok(outcome) => end_answered(alloc, report, outcome, status, out, err),
        Err(fault) => stop(err, fault),
    }
}

// Ends a check that read and answered the whole text.
fn end_answered<W: Write, E: Write>(
    alloc: Global,
    report: bool,
    outcome: Outcome,
    status: u8,
    out: &mut W,
    err: &mut E,
) -> Ending
    requires { status ≡ status_of_outcome outcome }
    ensures ended { EndsAnswered report outcome result (W.contents out.old) (W.contents out.new)
        (E.contents err.old) (E.contents err.new) }
    ensures silent { result.status ≢ 2 → err.new ≡ err.old }
{
    if report {
        end_with_report(alloc, outcome, status, out, err)
    } else {
        Ending { status, told: true }
    }
}

// Ends it with the report's line after the answer.
fn end_with_report<W: Write, E: Write>(
    alloc: Global,
    outcome: Outcome,
    status: u8,
    out: &mut W,
    err: &mut E,
) -> Ending
    requires { status ≡ status_of_outcome outcome }
    ensures ended { EndsWithLine (report_line outcome.report) status result (W.contents out.old) (W.contents out.new)
        (E.contents err.old) (E.contents err.new) }
    ensures silent { result.status ≢ 2 → err.new ≡ err.old }
{
    match write_report(alloc, &outcome.report, out) {
        Ok(()) => Ending { status, told: true },
        Err(fault) => stop(err, fault),
    }
}
