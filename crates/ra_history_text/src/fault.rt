//! The errors of a check.
ghost use Rattle.ra_history_text.specs.declared.fault.CheckFault.TheVariants as check_fault;
ghost use Rattle.ra_history_text.specs.Faults.{check_fault_words, fault_at_line};
ghost use Rattle.std.specs.Prelude.{◌≡◌, Some};

use crate::write::Unwritten;
use ra_history_lines::LineFault;
use ra_labels::NoMemory;
use std::alloc::AllocError;
use std::fmt;
use thiserror::Error;

/// Why a check returns no verdict. Lines count from 1. Its text by `Display` is proved to be that of `specs/Faults`
/// (`check_fault_words`).
#[derive(Clone, Copy, Debug, PartialEq, Eq, Error)]
pub enum CheckFault {
    /// The reader failed.
    Read,
    /// The writer failed, or accepted no byte.
    Write,
    /// The line is not in the text's grammar.
    Syntax(u32),
    /// The input ends inside the line, or before it if it is the first or the second.
    Truncated(u32),
    /// The line has more than 1,048,576 bytes.
    LineTooLong(u32),
    /// An allocation failed.
    NoMemory,
    /// The input did not end within 4,294,967,296 reads.
    Endless,
    /// The line is a command, and 1,048,576 commands precede it.
    Full(u32),
}

impl CheckFault {
    /// Returns the error of a text that has this fault at this line.
    pub fn at_line(fault: LineFault, line: u32) -> CheckFault
        // The result is the check's error for this fault, with the line's number if the fault is `Syntax`.
        ensures { result ≡ fault_at_line fault line }
    {
        match fault {
            LineFault::Syntax => CheckFault::Syntax(line),
            LineFault::NoMemory => CheckFault::NoMemory,
        }
    }
}

impl fmt::Display for CheckFault {
    ghost output = { λ fault. Some (check_fault_words fault) };

    fn fmt<W: fmt::Write>(&self, f: &mut fmt::Formatter<W>) -> fmt::Result {
        match self {
            CheckFault::Read => f.write_str("read fault"),
            CheckFault::Write => f.write_str("write fault"),
            CheckFault::Syntax(line) => write!(f, "line {line}: syntax"),
            CheckFault::Truncated(line) => write!(f, "line {line}: truncated"),
            CheckFault::LineTooLong(line) => write!(f, "line {line}: too long"),
            CheckFault::NoMemory => f.write_str("no memory"),
            CheckFault::Endless => f.write_str("endless input"),
            CheckFault::Full(line) => write!(f, "line {line}: full"),
        }
    }
}

impl From<AllocError> for CheckFault {
    ghost from_gives = { λ _ fault. fault ≡ check_fault.NoMemory };

    fn from(_refused: AllocError) -> CheckFault {
        CheckFault::NoMemory
    }
}

impl From<NoMemory> for CheckFault {
    ghost from_gives = { λ _ fault. fault ≡ check_fault.NoMemory };

    fn from(_refused: NoMemory) -> CheckFault {
        CheckFault::NoMemory
    }
}

impl From<Unwritten> for CheckFault {
    ghost from_gives = { λ _ fault. fault ≡ check_fault.Write };

    fn from(_unwritten: Unwritten) -> CheckFault {
        CheckFault::Write
    }
}
