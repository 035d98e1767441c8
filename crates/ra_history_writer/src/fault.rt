//! The errors of the writer of histories.
ghost use Rattle.ra_history_writer.specs.declared.fault.WriteFault.TheVariants as write_fault;
ghost use Rattle.std.specs.Prelude.{◌≡◌};

use ra_history_text::Unwritten;
use ra_labels::NoMemory;

/// Why a history is not written.
#[derive(Clone, Copy, Debug, PartialEq, Eq)]
pub enum WriteFault {
    /// The number of names differs from the monitor's number of replicas.
    BadNames,
    /// A line has more than 1,048,576 bytes. Carries the index, from 0, of the first such command among the accepted
    /// ones.
    LineTooLong(u32),
    /// The writer failed, or accepted no byte.
    Write,
    /// An allocation failed.
    NoMemory,
}

impl From<NoMemory> for WriteFault {
    ghost from_gives = { λ _ fault. fault ≡ write_fault.NoMemory };

    fn from(_refused: NoMemory) -> WriteFault {
        WriteFault::NoMemory
    }
}

impl From<Unwritten> for WriteFault {
    ghost from_gives = { λ _ fault. fault ≡ write_fault.Write };

    fn from(_unwritten: Unwritten) -> WriteFault {
        WriteFault::Write
    }
}
