//! The end of the program.
ghost use Rattle.std.specs.Prelude.{codes};
ghost use Rattle.ra_history_text.specs.Faults.{check_fault_words};
ghost use Rattle.ra_cli_arguments.specs.Arguments.{stop_words};
ghost use Rattle.ra_cli_common.specs.Endings.{StopsProgram};

use ra_cli_arguments::{Words, WordsFault};
use ra_history_text::CheckFault;
use std::io::Write;

/// The end of the program.
#[derive(Clone, Copy, Debug, PartialEq, Eq)]
pub struct Ending {
    /// The exit status.
    pub status: u8,
    /// Whether the line on the error writer, if there is one, was written completely.
    pub told: bool,
}

/// Writes the line `usage`, for arguments that ask for no run, and returns the status of an error.
pub fn usage<E: Write>(err: &mut E) -> Ending
    // The status is 2, and `err` received the line `usage` if the ending says that it was written.
    ensures { StopsProgram result (E.contents err.old) (E.contents err.new) (codes "usage") }
{
    Ending {
        status: 2,
        told: writeln!(err, "usage").is_ok(),
    }
}

/// Writes the error's line, and returns the status of an error.
pub fn stop<E: Write>(err: &mut E, fault: CheckFault) -> Ending
    // The status is 2, and `err` received the error's line if the ending says that it was written.
    ensures { StopsProgram result (E.contents err.old) (E.contents err.new) (check_fault_words fault) }
{
    Ending {
        status: 2,
        told: writeln!(err, "{fault}").is_ok(),
    }
}

/// Writes the line for arguments that ask for nothing: `usage`, or `no memory` if they could not be read for lack of
/// memory. Returns the status of an error.
pub fn stop_unasked<E: Write>(words: &Words, err: &mut E) -> Ending
    // The status is 2, and `err` received the line for these arguments if the ending says that it was written.
    ensures { StopsProgram result (E.contents err.old) (E.contents err.new) (stop_words words.now) }
{
    match words {
        Err(WordsFault::NoMemory) => stop(err, CheckFault::NoMemory),
        Ok(_) | Err(WordsFault::NotText) => usage(err),
    }
}
