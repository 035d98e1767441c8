//! The map from counts to first reads.
ghost use Rattle.std.specs.Prelude.{◌≡◌, ℕ, ◌+◌, List, [], length, Some, None, OnOk, OnErr, if◌then◌else◌};
ghost use Rattle.ra_any_reads.specs.Counts.{have_same_counts};
ghost use Rattle.ra_any_reads.specs.Firsts.{first_in, first_of};

use crate::first::First;
use crate::trimming::trimmed;
use ra_labels::NoMemory;
use std::alloc::Global;
use std::collections::BTreeMap;
use std::marker::Model;

/// For each distinct vector of counts, the first read that saw the updates with these counts.
///
/// It takes O(r) words for each of them, where `r` is the number of replicas.
#[derive(Drop)]
pub struct AnyReads {
    alloc: Global,
    /// No key ends in 0.
    firsts: BTreeMap<Vec<u32>, First>,
}

impl Model for AnyReads {
    ghost use Rattle.std.specs.Prelude.{ℕ, List};
    ghost use Rattle.ra_any_reads.specs.declared.first.First.{First};
    ghost use Rattle.ra_any_reads.specs.Firsts.{entries_of, AllTrimmed};

    ghost Value = { List (List ℕ × First) };

    ghost view = { λ a. entries_of a.firsts.entries (λ key. key.items) };

    ghost invariant = { λ a. AllTrimmed (entries_of a.firsts.entries (λ key. key.items)) };
}

impl AnyReads {
    /// Creates a map without reads. Does not allocate.
    pub fn new(alloc: Global) -> AnyReads
        // There are no reads.
        ensures { result ≡ [] }
    {
        AnyReads {
            alloc,
            firsts: BTreeMap::new(alloc),
        }
    }

    /// Returns the first read that was added with these counts, up to trailing zeros. Does not allocate.
    ///
    /// # Complexity
    ///
    /// O(r · log n), where `r` is the number of counts and `n` the number of reads.
    pub fn find(&self, counts: &[u32]) -> Option<First>
        // The result is the first read with the same count for each replica.
        ensures { result ≡ first_in self.now counts.now }
    {
        match self.firsts.get(trimmed(counts)) {
            Some(first) => Some(*first),
            None => None,
        }
    }

    /// Adds the first read with these counts.
    ///
    /// # Errors
    ///
    /// `NoMemory` if allocation fails; nothing is changed.
    ///
    /// # Complexity
    ///
    /// O(r · log n), where `r` is the number of counts and `n` the number of reads.
    pub fn add(&mut self, counts: &[u32], value: u32, label: u32) -> Result<(), NoMemory>
        // No read with these counts was added before.
        requires { first_in self.old counts.now ≡ None }
        // The read is the first one with the same counts, and with other counts nothing is changed.
        ensures added { OnOk result ((other : List ℕ) → first_in self.new other
            ≡ (if have_same_counts other counts.now then Some (first_of value label) else first_in self.old other)) }
        // There is one more entry.
        ensures count { OnOk result (length self.new ≡ length self.old + 1) }
        // If allocation fails, nothing is changed.
        ensures same { OnErr result (self.new ≡ self.old) }
    {
        let key = trimmed(counts).to_vec(self.alloc)?;
        self.firsts.insert(key, First { value, label })?;
        Ok(())
    }

    /// Returns the allocator of the map.
    pub fn allocator(&self) -> Global {
        self.alloc
    }
}
