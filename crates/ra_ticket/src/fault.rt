//! The errors of opening a lock and of calls.
use ra_journal::StepFault;
use std::alloc::AllocError;

/// Why a lock is not opened.
#[derive(Debug, PartialEq, Eq, Drop)]
pub enum OpenFault<M> {
    /// The number of passes is not 1 to `MOST_PASSES`. Carries the journal.
    BadPasses(M),
    /// An allocation failed. The journal, whose log was empty, is dropped.
    NoMemory,
}

impl<M> From<AllocError> for OpenFault<M> {
    ghost use Rattle.std.specs.Prelude.{◌≡◌};
    ghost use Rattle.ra_ticket.specs.declared.fault.OpenFault.TheVariants.{NoMemory};

    ghost from_gives = { λ _ fault. fault ≡ NoMemory };

    fn from(_refused: AllocError) -> OpenFault<M> {
        OpenFault::NoMemory
    }
}

/// Why a call was not served. Each variant carries the command; nothing was logged.
#[derive(Debug, PartialEq, Eq, Drop)]
pub enum CallFault<C> {
    /// All tickets are drawn: `next` is one above `GREATEST_TICKET`.
    Worn(C),
    /// The number of the log's entries has reached its limit.
    Full(C),
    /// An allocation failed.
    NoMemory(C),
    /// The lock is in use. `submit` never returns this.
    Busy {
        /// The value of `serving`.
        at: u64,
        /// The value of `next`, which is greater.
        found: u64,
        /// The command.
        command: C,
    },
}

impl<C> From<StepFault<C>> for CallFault<C> {
    ghost use Rattle.std.specs.Prelude.{◌≡◌};
    ghost use Rattle.ra_ticket.specs.Faults.{fault_of_step};

    ghost from_gives = { λ step fault. fault ≡ fault_of_step step };

    fn from(fault: StepFault<C>) -> CallFault<C> {
        match fault {
            StepFault::Full(command) => CallFault::Full(command),
            StepFault::NoMemory(command) => CallFault::NoMemory(command),
        }
    }
}
