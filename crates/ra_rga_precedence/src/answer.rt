//! The answer to the question whether any order explains the records.

use ra_precedence::StuckSet;

/// Whether any order of the labels explains the records.
#[derive(Drop)]
pub enum AnyOrder {
    /// An order of all labels. The parts of the labels in this order are an RA-linearization.
    Exists(Vec<u32>),
    /// No sequence is an RA-linearization, for this reason.
    NoneExists(Refutation),
}

/// The reason why no sequence explains the records.
#[derive(Drop)]
pub enum Refutation {
    /// Two labels that insert one element.
    Twice(u32, u32),
    /// A label that inserts the root.
    Root(u32),
    /// A label that inserts behind or removes an element that no label inserts.
    Absent(u32),
    /// A read that sees a label, and not the insertion of the element behind which it inserts or that it removes.
    Open {
        /// The read.
        read: u32,
        /// The label that it sees.
        label: u32,
    },
    /// A read that lists an element that it sees no insertion of or a removal of, or that it lists twice.
    Wrong {
        /// The read.
        read: u32,
        /// The element.
        element: u32,
    },
    /// A read that does not list the element that a label inserts, which it sees and no removal of.
    Unlisted {
        /// The read.
        read: u32,
        /// The insertion.
        label: u32,
    },
    /// A read that lists an element directly before one of its ancestors.
    Below {
        /// The read.
        read: u32,
        /// The element that is listed first.
        first: u32,
        /// The next one, an ancestor of the first one.
        second: u32,
    },
    /// Labels none of which can be the last one of them, and why.
    Stuck(StuckSet),
}
