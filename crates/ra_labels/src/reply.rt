//! The monitor's replies, and the fault that a negative reply names.
use crate::refusal::Refusal;

/// The first condition of RA-linearization that the named sequence fails.
#[derive(Clone, Copy, Debug, PartialEq, Eq)]
pub enum Cause {
    /// The named sequence does not extend visibility.
    Order,
    /// The updates of the named sequence are not admitted.
    Update,
    /// A query is not admitted after the updates that it sees.
    Query,
}

/// The first label at which the named order fails, with its cause.
#[derive(Clone, Copy, Debug, PartialEq, Eq)]
pub struct Fault {
    /// The label's number.
    pub label: u32,
    /// The condition that fails there.
    pub cause: Cause,
}

/// The monitor's answer to one command.
#[derive(Clone, Copy, Debug, PartialEq, Eq)]
pub enum Reply {
    /// The operation is accepted under this label number, and the history holds.
    Ok(u32),
    /// The delivery of the label with this number is accepted.
    Got(u32),
    /// The join of the replica with this number is accepted.
    Joined(u8),
    /// The history so far holds; it has this number of labels.
    Yes(u32),
    /// The named order fails at this label. No later command is accepted.
    No {
        /// The label's number.
        label: u32,
        /// The condition that fails there.
        cause: Cause,
    },
    /// The command is rejected and changes nothing.
    Refused(Refusal),
}
