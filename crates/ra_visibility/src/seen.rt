//! The set of updates that a label sees, represented by counts.
ghost use Rattle.std.specs.Prelude.{◌≡◌, set, IfOk};
ghost use Rattle.ra_visibility.specs.Seen.{is_in, count_in};

use crate::row::Row;
use ra_labels::NoMemory;
use std::alloc::Global;
use std::marker::Model;

/// The set of updates that a label sees. It borrows the tracker.
#[derive(Drop)]
pub struct Seen<'a> {
    rows: &'a [Row],
    /// The label's replica, and the number of this replica's updates that it sees.
    replica: u8,
    own: u32,
    /// The number of updates of each other replica that it sees.
    counts: &'a [u32],
}

impl<'a> Model for Seen<'a> {
    ghost use Rattle.std.specs.Prelude.{set};
    ghost use Rattle.ra_visibility.specs.Seen.{Seen};

    ghost Value = { Seen };

    ghost view = { λ a. record { rows = a.rows.now; counts = set a.counts.now a.replica a.own } };
}

impl<'a> Seen<'a> {
    pub(crate) fn new(rows: &'a [Row], replica: u8, own: u32, counts: &'a [u32]) -> Seen<'a>
        ensures { result ≡ record { rows = rows.now; counts = set counts.now replica own } }
    {
        Seen {
            rows,
            replica,
            own,
            counts,
        }
    }

    /// Returns `true` if the label sees this one. Does not allocate.
    ///
    /// # Complexity
    ///
    /// O(1).
    pub fn has(&self, label: u32) -> bool
        // The result is `true` exactly if this label is among the updates that the label sees.
        ensures { result ≡ is_in self.now label }
    {
        match self.rows.get(label as usize) {
            Some(row) => row.is_update && row.place < self.count(row.replica),
            None => false,
        }
    }

    /// Returns how many updates of each replica the label sees, by the replica's number.
    ///
    /// # Errors
    ///
    /// `NoMemory` if allocation fails.
    ///
    /// # Complexity
    ///
    /// O(r), where `r` is the number of replicas.
    pub fn counts(&self, alloc: Global) -> Result<Vec<u32>, NoMemory>
        // The result has the count of each replica.
        ensures { IfOk result (λ counts. counts.items ≡ self.now.counts) }
    {
        let mut counts = self.counts.to_vec(alloc)?;
        if let Some(own) = counts.get_mut(self.replica as usize) {
            *own = self.own;
        }
        Ok(counts)
    }

    /// Returns how many updates of this replica the label sees: these are its first ones. Does not allocate.
    ///
    /// # Complexity
    ///
    /// O(1).
    pub fn count(&self, replica: u8) -> u32
        // The result is the number of the replica's updates that the label sees.
        ensures { result ≡ count_in self.now replica }
    {
        match self.counts.get(replica as usize) {
            Some(_) if replica == self.replica => self.own,
            Some(count) => *count,
            None => 0,
        }
    }
}
