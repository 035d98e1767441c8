//! The outcome of a check.
ghost use Rattle.std.specs.Prelude.{◌≡◌};
ghost use Rattle.ra_history_text.specs.Output.{status_of};

use crate::fault::CheckFault;
use ra_monitor::Report;

/// The result of the check of a text with a regular end.
#[derive(Clone, Copy, Debug, PartialEq, Eq)]
pub struct Outcome {
    /// The summary of the history.
    pub report: Report,
}

/// Returns the program's exit status: 0 for a pass without rejected commands, 1 for a violation, 2 for an error, and 3
/// for a pass with at least one rejected command.
pub fn status(result_of_check: &Result<Outcome, CheckFault>) -> u8
    // The status is 2 for an error, 1 for a violation, 0 for a pass without rejections, and 3 for a pass with
    // rejections.
    ensures { result ≡ status_of result_of_check.now }
{
    match result_of_check {
        Err(_) => 2,
        Ok(Outcome { report }) if report.fault.is_some() => 1,
        Ok(Outcome { report }) if report.refused == 0 => 0,
        Ok(_) => 3,
    }
}
