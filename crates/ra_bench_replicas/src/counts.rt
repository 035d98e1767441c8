//! The number of updates of each replica that one replica has applied.
ghost use Rattle.std.specs.Prelude.{◌≡◌, get_or, replicate, IfOk};
ghost use Rattle.ra_bench_replicas.specs.Counts.{reach, counted};

use ra_labels::NoMemory;
use std::alloc::Global;
use std::marker::Model;

/// A count for each replica. Contracts view it as the list.
#[derive(Debug, Drop)]
pub struct Counts {
    counts: Vec<u32>,
}

impl Model for Counts {
    ghost use Rattle.std.specs.Prelude.{ℕ, List};

    ghost Value = { List ℕ };

    ghost view = { λ counts. counts.counts.items };
}

impl Counts {
    /// Creates the list of these counts. Does not allocate.
    pub fn new(counts: Vec<u32>) -> Counts
        // The list has exactly the given counts.
        ensures { result ≡ counts.items }
    {
        Counts { counts }
    }

    /// Creates a list of zeros, one for each replica.
    pub(crate) fn none(alloc: Global, replicas: u8) -> Result<Counts, NoMemory>
        ensures { IfOk result (λ counts. counts ≡ replicate replicas 0) }
    {
        let counts = vec![in alloc; 0u32; replicas as usize]?;
        Ok(Counts { counts })
    }

    /// Returns a copy of the list, in O(length of the list).
    pub(crate) fn copy(&self) -> Result<Counts, NoMemory>
        ensures { IfOk result (λ copy. copy ≡ self.now) }
    {
        Ok(Counts {
            counts: self.counts.clone()?,
        })
    }

    /// Returns the counts.
    pub fn as_slice(&self) -> &[u32]
        // The slice has exactly the counts of the list.
        ensures { result.now ≡ self.now }
    {
        &self.counts
    }

    /// Returns the count of this replica, or 0 if there is none.
    pub(crate) fn of(&self, replica: u8) -> u32
        ensures { result ≡ get_or self.now replica 0 }
    {
        match self.counts.get(replica as usize) {
            Some(count) => *count,
            None => 0,
        }
    }

    /// Returns `true` if, among the counts that both lists have, none of the others is greater than the one here.
    /// O(length of the list).
    pub(crate) fn reach(&self, others: &Counts) -> bool
        ensures { result ≡ reach self.now others.now }
    {
        self.counts
            .iter()
            .zip(&others.counts)
            .all(|(count, other)| *other <= *count)
    }

    /// Adds one to the count of this replica, if there is one.
    pub(crate) fn add(&mut self, replica: u8)
        ensures { self.new ≡ counted self.old replica }
    {
        let replica = replica as usize;
        if replica < self.counts.len() {
            self.counts[replica] = self.counts[replica].saturating_add(1);
        }
    }
}
