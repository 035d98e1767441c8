//! The operations that replicas report, and the two halves of an operation: an update and a query.
ghost use Rattle.std.specs.Prelude.{◌≡◌};
ghost use Rattle.ra_labels.specs.Visibility.{is_update};

use crate::elements::Elements;
use crate::list_operation::{ListOp, ListQuery, ListUpdate};

/// An operation as a replica reports it, with its arguments and its return value.
#[derive(Clone, Debug, PartialEq, Eq, Drop)]
pub enum Op {
    /// Counter: an increment by one.
    Inc,
    /// Counter: a decrement by one.
    Dec,
    /// Counter: a read that returned this number.
    Count(i32),
    /// Register: a write of this value.
    Write(u32),
    /// Register: a read that returned the last value written, or `None` if there was no write.
    Last(Option<u32>),
    /// LWW set: an addition of this element.
    LwwAdd(u32),
    /// LWW set: a removal of this element.
    LwwRemove(u32),
    /// LWW set: a read that returned these elements.
    LwwRead(Elements),
    /// OR-Set: an addition of an element under an identifier that no other addition has.
    OrAdd {
        /// The element.
        element: u32,
        /// The addition's identifier.
        id: u32,
    },
    /// OR-Set: a removal of those additions of an element that the replica observed.
    OrRemove {
        /// The element.
        element: u32,
        /// The identifiers under which the replica observed the element, as the removal returned them.
        ids: Elements,
    },
    /// OR-Set: a read that returned these elements.
    OrRead(Elements),
    /// RGA: an insertion of an element directly behind its anchor.
    After {
        /// The element behind which the new one is inserted, or 0 for the root at the start of the list.
        anchor: u32,
        /// The new element.
        element: u32,
    },
    /// RGA: a removal of this element, which stays in the list as a tombstone.
    RgaRemove(u32),
    /// RGA: a read that returned these elements in this order.
    RgaRead(Elements),
    /// List: an operation of it.
    List(ListOp),
    /// Any type: an update, of which nothing is said.
    AnyUpdate,
    /// Any type: a read. The number represents the value that it returned: equal values have the same one.
    AnyRead(u32),
    /// Multi-value register: a write of this value, which replaces the values that its replica shows.
    MvWrite(u32),
    /// Multi-value register: a read that returned these values, each once.
    MvRead(Elements),
}

impl Op {
    /// Returns `true` if the operation is an update. An OR-Set's removal, and a list's insertion and removal, are
    /// updates, although they are queries as well.
    pub fn is_update(&self) -> bool
        // The result is `true` exactly for the operations that the definitions call updates.
        ensures { result ≡ is_update self.now }
    {
        match self {
            Op::Inc | Op::Dec | Op::Write(_) => true,
            Op::LwwAdd(_) | Op::LwwRemove(_) => true,
            Op::OrAdd { .. } | Op::OrRemove { .. } => true,
            Op::After { .. } | Op::RgaRemove(_) => true,
            Op::AnyUpdate | Op::MvWrite(_) => true,
            Op::Count(_) | Op::Last(_) | Op::LwwRead(_) | Op::OrRead(_) | Op::RgaRead(_) => false,
            Op::AnyRead(_) | Op::MvRead(_) => false,
            Op::List(op) => op.is_update(),
        }
    }
}

/// The update part of an operation: what it does to the state of the sequential specification.
#[derive(Drop)]
pub enum Update {
    /// Counter: an increment by one.
    Inc,
    /// Counter: a decrement by one.
    Dec,
    /// Register: a write of this value.
    Write(u32),
    /// LWW set: an addition of this element.
    LwwAdd(u32),
    /// LWW set: a removal of this element, if it is present.
    LwwRemove(u32),
    /// OR-Set: an addition of the element under this identifier.
    OrAdd {
        /// The element.
        element: u32,
        /// The addition's identifier.
        id: u32,
    },
    /// OR-Set: a removal of the element's pairs with these identifiers.
    TakeOut {
        /// The element.
        element: u32,
        /// The identifiers.
        ids: Elements,
    },
    /// RGA: an insertion of an element directly behind its anchor.
    After {
        /// The element behind which the new one is inserted, or 0 for the root at the start of the list.
        anchor: u32,
        /// The new element.
        element: u32,
    },
    /// RGA: a removal of this element, after which reads no longer show it.
    RgaRemove(u32),
    /// List: an insertion or a removal.
    List(ListUpdate),
    /// Any type: an update.
    AnyUpdate,
    /// Multi-value register: a write of this value.
    MvWrite(u32),
}

/// The query part of an operation: what it asks of the state of the sequential specification, with its answer.
#[derive(Drop)]
pub enum Query {
    /// Counter: the number.
    Count(i32),
    /// Register: the last value written, if any.
    Last(Option<u32>),
    /// LWW set: the elements.
    LwwRead(Elements),
    /// OR-Set: the identifiers of an element's pairs.
    ReadIds {
        /// The element.
        element: u32,
        /// The identifiers.
        ids: Elements,
    },
    /// OR-Set: the elements.
    OrRead(Elements),
    /// RGA: the elements that are shown, in their order.
    RgaRead(Elements),
    /// List: a test for elements, or a read.
    List(ListQuery),
    /// Any type: the number of the value.
    AnyRead(u32),
    /// Multi-value register: the values.
    MvRead(Elements),
}
