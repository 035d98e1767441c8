//! The findings of a soak test.
use thiserror::Error;

/// A violation of the desk's contract that a round shows.
#[derive(Clone, Copy, Debug, Error)]
pub enum Finding {
    /// An entry's ticket is not above the one before it.
    #[error("the ticket of entry {place} is not above the one before it")]
    Ticket {
        place: usize,
    },
    /// The log does not have a pass's call as it was answered, or has it too early.
    #[error("pass {pass} was answered, and its call {call} is not in the log as it was answered, or too early")]
    Call {
        pass: u8,
        call: usize,
    },
    /// The number of a pass's calls in the log differs from the number that was answered.
    #[error("the log has {logged} calls of pass {pass}, which was answered {told}")]
    Count {
        pass: u8,
        logged: usize,
        told: usize,
    },
    /// The number of calls in the log differs from the number that was answered.
    #[error("the log has {logged} calls, and {told} were answered")]
    Whole {
        logged: u64,
        told: u64,
    },
    /// A look returned fewer calls than its pass had seen, or more than there are.
    #[error("pass {pass} had seen {seen} calls, and a look told it of {told}")]
    Look {
        pass: u8,
        seen: usize,
        told: usize,
    },
    /// A glance returned another fault than that of its calls.
    #[error("pass {pass} was told of another fault than that of the first {calls} calls")]
    Fault {
        pass: u8,
        calls: usize,
    },
    /// A reply `no` without a lie, or another reply after a reply `no`.
    #[error("entry {place} is answered no without a lie, or otherwise behind a no")]
    Answer {
        place: usize,
    },
    /// A single-threaded monitor replies otherwise.
    #[error("one thread is answered otherwise to the command of entry {place}")]
    OneThread {
        place: usize,
    },
    /// A pass found the log full, and it is not.
    #[error("the log was told to be full, and has {logged} entries")]
    Full {
        logged: usize,
    },
}
