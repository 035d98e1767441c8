use crate::operation::Op;

/// A report to the monitor, or the request for a verdict.
#[derive(Clone, Debug, PartialEq, Eq, Drop)]
pub enum Command {
    /// The replica made this operation, with this clock if it carries a stamp.
    Operate {
        /// The replica's number, from 0.
        replica: u8,
        /// The operation with its return value.
        op: Op,
        /// The stamp's clock. The stamp's replica is the one that made the operation.
        stamp: Option<u32>,
    },
    /// The update with this label number reached the replica.
    Deliver {
        /// The receiving replica's number, from 0.
        replica: u8,
        /// The delivered label's number.
        label: u32,
    },
    /// A new replica starts with all updates that were delivered to another one.
    Join {
        /// The new replica's number: the number of replicas so far.
        replica: u8,
        /// The number of the replica whose state it copies.
        from: u8,
    },
    /// The request for a verdict on the history so far: does its named order linearize it?
    Verdict,
}
