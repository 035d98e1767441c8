//! Labels, and the stamps that some of them carry.
ghost use Rattle.std.specs.Prelude.{◌≡◌, not};
ghost use Rattle.std.specs.Ordering.{is_lt, is_le};
ghost use Rattle.ra_labels.specs.NamedOrder.{stamp_cmp, greater_of};

use crate::operation::Op;

/// The logical time at which a replica made an update. Stamps compare by clock first, then by replica.
#[derive(Clone, Copy, Debug, PartialEq, Eq, PartialOrd, Ord)]
pub struct Stamp {
    /// The logical clock, from 1 to 4,294,967,295.
    pub clock: u32,
    /// The replica that made the update.
    pub replica: u8,
}

/// The lowest rank, which is less than every stamp with a clock of at least 1.
pub const LOWEST: Stamp = Stamp {
    clock: 0,
    replica: 0,
};

impl Stamp {
    /// Returns `true` if it is less than the other stamp.
    pub fn is_below(self, other: Stamp) -> bool
        // The result is `true` exactly if the clock is less, or the clocks are equal and the replica is less.
        ensures { result ≡ is_lt (stamp_cmp self other) }
    {
        self < other
    }

    /// Returns `true` if it is not greater than the other stamp.
    pub fn is_at_most(self, other: Stamp) -> bool
        // The result is `true` exactly if it is less than the other stamp or equal to it.
        ensures up_to { result ≡ is_le (stamp_cmp self other) }
        // The result is `true` exactly if the other stamp is not less.
        ensures not_above { result ≡ not (is_lt (stamp_cmp other self)) }
    {
        self <= other
    }

    /// Returns the greater of the two stamps.
    pub fn greater(self, other: Stamp) -> Stamp
        // The result is the other stamp exactly if that is greater.
        ensures { result ≡ greater_of self other }
    {
        if self < other { other } else { self }
    }
}

/// An accepted operation: a label in the sense of the PLDI 2019 paper.
#[derive(Clone, Debug, PartialEq, Eq, Drop)]
pub struct Label {
    /// The number of labels that were accepted before it.
    pub number: u32,
    /// The replica that issued it.
    pub replica: u8,
    /// The operation with its return value.
    pub op: Op,
    /// Its stamp, if its operation carries one.
    pub stamp: Option<Stamp>,
}
