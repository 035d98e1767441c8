//! The rank of each label by its number; they are sorted only when the order is asked for.
ghost use Rattle.std.specs.Prelude.{◌≡◌, ℕ, ◌+◌, ◌<◌, true, [], length, map, IfOk, OnOk};
ghost use Rattle.std.specs.List.{insert};
ghost use Rattle.std.specs.List.Sorted.{IsPartitionedBy};
ghost use Rattle.ra_labels.specs.declared.label.Stamp.{Stamp};
ghost use Rattle.ra_time_order.specs.Positions.{not_above, IsPositionOf};
ghost use Rattle.ra_time_order.specs.LabelRanks.{sorted_ranks};

use crate::entry::Entry;
use ra_labels::{LOWEST, NoMemory, Stamp};
use std::alloc::Global;
use std::collections::BTreeSet;
use std::marker::Model;

/// The rank of each label, by its number. Contracts see the labels sorted by rank, as they do for `Sorted`.
#[derive(Drop)]
pub struct LabelRanks {
    ranks: Vec<Stamp>,
    /// A bound: no label has a greater rank.
    last: Stamp,
}

impl Model for LabelRanks {
    ghost use Rattle.std.specs.Prelude.{◌-◌, vec_len, vec_capacity};
    ghost use Rattle.ra_time_order.specs.Sorted.{Sorted};
    ghost use Rattle.ra_time_order.specs.LabelRanks.{sorted_ranks, RanksKept};

    ghost Value = { Sorted };

    ghost view = { λ a. record {
      entries = sorted_ranks a.ranks.items;
      room = vec_capacity a.ranks - vec_len a.ranks;
    } };

    ghost invariant = { λ a. RanksKept a.ranks.items a.last };
}

impl LabelRanks {
    /// Returns the ranks of no labels. Does not allocate.
    pub fn new(alloc: Global) -> LabelRanks
        ensures { result.entries ≡ [] }
    {
        LabelRanks {
            ranks: Vec::new(alloc),
            last: LOWEST,
        }
    }

    /// Reserves room for one more label.
    ///
    /// # Errors
    ///
    /// `NoMemory` if allocation fails; the labels are unchanged.
    pub fn reserve(&mut self) -> Result<(), NoMemory>
        ensures entries { self.new.entries ≡ self.old.entries }
        ensures room { OnOk result (0 < self.new.room) }
    {
        self.ranks.reserve(1)?;
        Ok(())
    }

    /// Returns `true` only if no label has a greater rank than this one.
    ///
    /// # Complexity
    ///
    /// O(1).
    pub fn is_past_all(&self, rank: Stamp) -> bool
        ensures { result ≡ true → IsPositionOf rank self.now.entries (length self.now.entries) }
    {
        self.last.is_at_most(rank)
    }

    /// Adds the next label, which has this rank, behind those that have no greater rank. Does not allocate.
    ///
    /// # Complexity
    ///
    /// O(1).
    pub fn push(&mut self, rank: Stamp)
        requires room { 0 < self.old.room }
        requires few { length self.old.entries < 4294967295 }
        ensures one { length self.new.entries ≡ length self.old.entries + 1 }
        ensures inserted { IsPartitionedBy (not_above rank) self.old.entries
            → (position : ℕ) × IsPositionOf rank self.old.entries position
            × (self.new.entries
            ≡ insert self.old.entries position (record { rank = rank; label = length self.old.entries })) }
    {
        self.ranks.push_reserved(rank);
        self.last = self.last.greater(rank);
    }

    /// Returns the numbers of all labels, sorted by rank.
    ///
    /// # Errors
    ///
    /// `NoMemory` if allocation fails.
    ///
    /// # Complexity
    ///
    /// O(n log n), where `n` is the number of labels.
    pub fn numbers(&self, alloc: Global) -> Result<Vec<u32>, NoMemory>
        ensures { IfOk result (λ numbers. numbers.items ≡ map (λ entry. entry.label) self.now.entries) }
    {
        let mut sorted = BTreeSet::new(alloc);
        for (label, rank) in self.ranks.iter().enumerate() {
            let label = label as u32;
            sorted.insert(Entry { rank: *rank, label })?;
        }
        numbers_of(alloc, &sorted)
    }
}

// Returns the numbers of these labels.
fn numbers_of(alloc: Global, sorted: &BTreeSet<Entry>) -> Result<Vec<u32>, NoMemory>
    ensures { IfOk result (λ numbers. numbers.items ≡ map (λ entry. entry.label) sorted.now.keys) }
{
    let mut numbers = Vec::new(alloc);
    for entry in sorted {
        numbers.push(entry.label)?;
    }
    Ok(numbers)
}
