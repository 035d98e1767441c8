//! The operations of a list, and the two halves of an operation: what it asks, and what it changes.
ghost use Rattle.std.specs.Prelude.{◌≡◌};
ghost use Rattle.ra_labels.specs.ListOperations.{changes_list};

use crate::elements::Elements;
use crate::insertion::Insertion;

/// An operation of a list as a replica reports it. Elements are numbers from 1 on.
#[derive(Clone, Debug, PartialEq, Eq, Drop)]
pub enum ListOp {
    /// An insertion of a new element between two neighbours.
    Insert(Insertion),
    /// A removal of this element, which keeps its place in the order.
    Remove(u32),
    /// A read that returned exactly these elements, in this order.
    Read(Elements),
    /// A read of a part of the list: these elements are shown in this order, perhaps with others between them.
    Part(Elements),
}

impl ListOp {
    /// Returns `true` if the operation is an insertion or a removal.
    pub fn is_update(&self) -> bool
        // The result is `true` exactly for the operations that have an update half.
        ensures { result ≡ changes_list self.now }
    {
        match self {
            ListOp::Insert(_) | ListOp::Remove(_) => true,
            ListOp::Read(_) | ListOp::Part(_) => false,
        }
    }
}

/// The update half of an operation: what it does to the state of the sequential specification.
#[derive(Clone, Copy, Debug, PartialEq, Eq)]
pub enum ListUpdate {
    /// The new element is in the list, between the neighbours.
    Put(Insertion),
    /// The element is no longer shown.
    Hide(u32),
}

/// The query half of an operation: what it asks of the state of the sequential specification, with its answer.
#[derive(Drop)]
pub enum ListQuery {
    /// Both neighbours of the insertion, if they are named, are in the list, shown or not.
    Near(Insertion),
    /// The element is in the list, shown or not.
    Has(u32),
    /// The elements that are shown, in their order.
    Read(Elements),
    /// Some of the elements that are shown, in their order.
    Part(Elements),
}
