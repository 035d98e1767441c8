//! The errors of lines and of lists of names.
ghost use Rattle.ra_history_lines.specs.declared.fault.LineFault.TheVariants as line_fault;
ghost use Rattle.ra_history_lines.specs.declared.fault.NamesFault.TheVariants as names_fault;
ghost use Rattle.std.specs.Prelude.{◌≡◌};

use ra_labels::NoMemory;

/// Why a line cannot be read.
#[derive(Clone, Copy, Debug, PartialEq, Eq)]
pub enum LineFault {
    /// The line is not in the text's grammar.
    Syntax,
    /// An allocation failed.
    NoMemory,
}

impl From<NoMemory> for LineFault {
    ghost from_gives = { λ _ fault. fault ≡ line_fault.NoMemory };

    fn from(_refused: NoMemory) -> LineFault {
        LineFault::NoMemory
    }
}

/// Why a list of names is rejected, or why a name cannot be added to one.
#[derive(Clone, Copy, Debug, PartialEq, Eq)]
pub enum NamesFault {
    /// The list is empty or has more than 64 names; or a name is to be added to 64.
    BadCount,
    /// The smallest index, from 0, whose name is malformed, reserved or a repetition of an earlier one. The index is 0
    /// for a name that is to be added.
    BadName(u32),
    /// An allocation failed.
    NoMemory,
}

impl From<NoMemory> for NamesFault {
    ghost from_gives = { λ _ fault. fault ≡ names_fault.NoMemory };

    fn from(_refused: NoMemory) -> NamesFault {
        NamesFault::NoMemory
    }
}
