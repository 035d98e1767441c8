//! The errors of a bench.
ghost use Rattle.std.specs.Prelude.{◌≡◌};
ghost use Rattle.ra_bench.specs.Faults.{IsUnexpectedReply, IsOfRun};
ghost use Rattle.ra_bench.specs.RunFaults.{told_of};

use crate::unexpected_reply::UnexpectedReply;
use ra_labels::{NoMemory, Reply};
use std::alloc::{AllocError, AllocFailed};
use thiserror::Error;

/// Why a bench returns no report. If several replicas fail in one round, the error is that of the lowest one; `Thread`
/// precedes all of them.
#[derive(Clone, Copy, Debug, PartialEq, Eq, Error)]
pub enum BenchFault {
    /// The number of replicas is not 1 to 16.
    #[error("bench fault")]
    BadReplicas,
    /// The number of rounds is not 1 to 1,000.
    #[error("bench fault")]
    BadRounds,
    /// The gate did not admit the replica.
    #[error("bench fault")]
    Stalled {
        /// The replica's number.
        replica: u8,
    },
    /// The reply to a report of the replica was neither `Ok` nor `Got`.
    #[error("bench fault")]
    Answered {
        /// The replica's number.
        replica: u8,
        /// The reply, in most cases a violation.
        reply: Reply,
    },
    /// The desk accepts no more reports: its log is full, or its tickets are all drawn. After the last round the number
    /// is that of the additional pass.
    #[error("bench fault")]
    Lock {
        /// The number of the replica, which is that of its pass.
        replica: u8,
    },
    /// An allocation failed.
    #[error("bench fault")]
    NoMemory,
    /// A thread could not be started. The started ones are joined.
    #[error("bench fault")]
    Thread,
}

/// Why a run did not finish.
#[derive(Clone, Copy)]
pub enum RunFault {
    /// The gate did not admit the replica.
    Stalled {
        replica: u8,
    },
    /// The replica received this reply.
    Answered {
        replica: u8,
        unwanted: UnexpectedReply,
    },
    /// The desk accepts no more reports of this pass.
    Lock {
        replica: u8,
    },
    /// An allocation failed.
    NoMemory,
    /// A thread could not be started.
    Thread,
}

impl RunFault {
    /// Returns the error as the bench reports it.
    pub fn told(self) -> BenchFault
        ensures same { result ≡ told_of self }
        ensures of_run { IsOfRun result }
        ensures answered { IsUnexpectedReply result }
    {
        match self {
            RunFault::Stalled { replica } => BenchFault::Stalled { replica },
            RunFault::Answered { replica, unwanted } => BenchFault::Answered {
                replica,
                reply: unwanted.reply(),
            },
            RunFault::Lock { replica } => BenchFault::Lock { replica },
            RunFault::NoMemory => BenchFault::NoMemory,
            RunFault::Thread => BenchFault::Thread,
        }
    }
}

impl From<NoMemory> for RunFault {
    fn from(_refused: NoMemory) -> RunFault {
        RunFault::NoMemory
    }
}

impl From<AllocError> for RunFault {
    fn from(_refused: AllocError) -> RunFault {
        RunFault::NoMemory
    }
}

impl<T: Drop> From<AllocFailed<T>> for RunFault {
    fn from(_refused: AllocFailed<T>) -> RunFault {
        RunFault::NoMemory
    }
}
