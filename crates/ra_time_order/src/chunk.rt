//! A chunk: a few labels, sorted by rank.
ghost use Rattle.std.specs.Prelude.{◌≡◌, ℕ, ◌+◌, ◌<◌, ◌≤◌, ◌++◌, nat_lt, false, [], length, map, take, drop, IfOk, OnOk, OnErr, option_map, slice_index_or};
ghost use Rattle.std.specs.List.{insert, slice_get};
ghost use Rattle.std.specs.List.Sorted.{IsPartitionedBy};
ghost use Rattle.ra_time_order.specs.Positions.{no_entry, not_above, IsPositionOf};

use crate::entry::Entry;
use ra_labels::{NoMemory, Stamp};
use std::alloc::Global;
use std::marker::Model;

/// The number of labels that a new chunk has room for.
const MOST_IN_CHUNK: usize = 256;

/// A few labels, sorted by rank.
#[derive(Drop)]
pub struct Chunk {
    entries: Vec<Entry>,
}

impl Model for Chunk {
    ghost use Rattle.std.specs.Prelude.{◌-◌, ◌<◌, vec_len, vec_capacity};
    ghost use Rattle.ra_time_order.specs.Chunk.{Chunk};

    ghost Value = { Chunk };

    ghost view = { λ a. record { entries = a.entries.items; room = vec_capacity a.entries - vec_len a.entries } };

    // two labels fit
    ghost invariant = { λ a. 1 < vec_capacity a.entries };
}

impl Chunk {
    /// Creates an empty chunk with room for labels.
    ///
    /// # Errors
    ///
    /// `NoMemory` if allocation fails.
    pub fn new(alloc: Global) -> Result<Chunk, NoMemory>
        ensures entries { IfOk result (λ chunk. chunk.entries ≡ []) }
        ensures room { IfOk result (λ chunk. 0 < chunk.room) }
    {
        Ok(Chunk {
            entries: Vec::with_capacity(alloc, MOST_IN_CHUNK)?,
        })
    }

    /// Returns the number of labels.
    pub fn len(&self) -> usize
        ensures { result ≡ length self.now.entries }
    {
        self.entries.len()
    }

    /// Returns `true` if there is room for one more label.
    pub fn has_room(&self) -> bool
        ensures room { result ≡ nat_lt 0 self.now.room }
        ensures full { result ≡ false → 1 < length self.now.entries }
    {
        self.entries.len() < self.entries.capacity()
    }

    /// Returns how many labels have no greater rank than this one.
    ///
    /// # Complexity
    ///
    /// O(log n), where `n` is the number of labels.
    pub fn position(&self, rank: Stamp) -> usize
        ensures among { result ≤ length self.now.entries }
        ensures split { IsPartitionedBy (not_above rank) self.now.entries → IsPositionOf rank self.now.entries result }
    {
        self.entries.as_slice().partition_point(
            |entry: &Entry| -> bool
                ensures { result ≡ not_above rank entry.now }
            { entry.rank <= rank },
        )
    }

    /// Inserts a label behind those that have no greater rank. Does not allocate.
    pub fn insert(&mut self, entry: Entry)
        requires room { 0 < self.old.room }
        ensures one { length self.new.entries ≡ length self.old.entries + 1 }
        ensures inserted { IsPartitionedBy (not_above entry.rank) self.old.entries
            → (position : ℕ) × IsPositionOf entry.rank self.old.entries position
            × (self.new.entries ≡ insert self.old.entries position entry) }
    {
        let position = self.position(entry.rank);
        let _ = self.entries.insert(position, entry);
    }

    /// Moves the labels from a position on into a new chunk.
    ///
    /// # Errors
    ///
    /// `NoMemory` if allocation fails; the chunk is unchanged.
    pub fn split_off(&mut self, position: usize) -> Result<Chunk, NoMemory>
        requires some { 0 < position }
        requires rest { position < length self.old.entries }
        ensures kept { OnOk result (self.new.entries ≡ take position self.old.entries) }
        ensures moved { IfOk result (λ chunk. chunk.entries ≡ drop position self.old.entries) }
        ensures room { OnOk result (0 < self.new.room) }
        ensures room_moved { IfOk result (λ chunk. 0 < chunk.room) }
        ensures same { OnErr result (self.new ≡ self.old) }
    {
        let mut moved = Vec::with_capacity(*self.entries.allocator(), self.entries.capacity())?;
        moved.extend_from_slice(&self.entries.as_slice()[position..])?;
        self.entries.truncate(position);
        Ok(Chunk { entries: moved })
    }

    /// Returns the rank at a position.
    pub fn rank(&self, position: usize) -> Stamp
        requires { position < length self.now.entries }
        ensures { result ≡ (slice_index_or self.now.entries position no_entry).rank }
    {
        self.entries[position].rank
    }

    /// Returns the label at a position, or `None` behind the last one.
    pub fn at(&self, position: usize) -> Option<u32>
        ensures { result ≡ option_map (λ entry. entry.label) (slice_get self.now.entries position) }
    {
        match self.entries.get(position) {
            Some(entry) => Some(entry.label),
            None => None,
        }
    }

    /// Appends the numbers of all labels, sorted by rank.
    ///
    /// # Errors
    ///
    /// `NoMemory` if allocation fails; some of the numbers may be appended then.
    pub fn put_numbers(&self, numbers: &mut Vec<u32>) -> Result<(), NoMemory>
        ensures { OnOk result (numbers.new.items
            ≡ numbers.old.items ++ map (λ entry. entry.label) self.now.entries) }
    {
        for entry in &self.entries {
            numbers.push(entry.label)?;
        }
        Ok(())
    }
}
