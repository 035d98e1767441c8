//! The answer to the question whether any order explains the records.

use ra_precedence::StuckSet;

/// Whether any order of the labels explains the records.
#[derive(Drop)]
pub enum AnyOrder {
    /// An order of all labels. The parts of the labels in this order are an RA-linearization.
    Exists(Vec<u32>),
    /// No sequence is an RA-linearization, for this reason.
    NoneExists(Refutation),
}

/// The reason why no sequence explains the records.
#[derive(Drop)]
pub enum Refutation {
    /// A read whose answer no visible update yields: each one that would is followed by a contrary one of its replica.
    Read {
        /// The label of the read.
        label: u32,
        /// The element of an LWW set that is listed or not; `None` for a register.
        element: Option<u32>,
    },
    /// Labels none of which can be the last one of them, and why.
    Stuck(StuckSet),
}
