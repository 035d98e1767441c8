//! A chunk: a few adjacent elements of an RGA, with a lower bound of their stamps.
ghost use Rattle.std.specs.Prelude.{◌≡◌, ◌<◌, ◌≤◌, nat_lt, false, ◌∷◌, [], length, take, drop, IfOk, OnOk, OnErr, Contains};
ghost use Rattle.std.specs.List.{insert};
ghost use Rattle.ra_rga_elements.specs.Entries.{entry_at, numbers_in, lesser_of, AllAtLeast, IsBehind, IsPast};

use crate::entry::Entry;
use ra_labels::{NoMemory, Stamp};
use std::alloc::Global;
use std::marker::Model;

/// The number of elements that a new chunk has room for.
const MOST_IN_CHUNK: usize = 128;

/// The greatest possible stamp.
const HIGHEST: Stamp = Stamp {
    clock: u32::MAX,
    replica: u8::MAX,
};

/// A few adjacent elements of the list.
#[derive(Drop)]
pub struct Chunk {
    entries: Vec<Entry>,
    /// A bound: no element has a smaller stamp.
    least: Stamp,
}

impl Model for Chunk {
    ghost use Rattle.std.specs.Prelude.{◌-◌, ◌<◌, vec_len, vec_capacity};
    ghost use Rattle.ra_rga_elements.specs.Chunk.{Chunk};
    ghost use Rattle.ra_rga_elements.specs.Entries.{AllAtLeast};

    ghost Value = { Chunk };

    ghost view = { λ a. record { entries = a.entries.items; room = vec_capacity a.entries - vec_len a.entries } };

    // two elements fit
    ghost invariant = { λ a. (1 < vec_capacity a.entries) × AllAtLeast a.least a.entries.items };
}

impl Chunk {
    /// Creates a chunk of one element, with room for more.
    ///
    /// # Errors
    ///
    /// `NoMemory` if allocation fails.
    pub fn new(alloc: Global, entry: Entry) -> Result<Chunk, NoMemory>
        ensures entries { IfOk result (λ chunk. chunk.entries ≡ entry ∷ []) }
        ensures room { IfOk result (λ chunk. 0 < chunk.room) }
    {
        let mut entries = Vec::with_capacity(alloc, MOST_IN_CHUNK)?;
        entries.push_reserved(entry);
        Ok(Chunk {
            entries,
            least: entry.stamp,
        })
    }

    /// Returns the number of elements.
    pub fn len(&self) -> usize
        ensures { result ≡ length self.now.entries }
    {
        self.entries.len()
    }

    /// Returns `true` if there is room for one more element.
    pub fn has_room(&self) -> bool
        ensures room { result ≡ nat_lt 0 self.now.room }
        ensures full { result ≡ false → 1 < length self.now.entries }
    {
        self.entries.len() < self.entries.capacity()
    }

    /// Returns the number of the element at a position.
    pub fn number(&self, position: usize) -> u32
        requires { position < length self.now.entries }
        ensures { result ≡ (entry_at self.now.entries position).number }
    {
        self.entries[position].number
    }

    /// Returns the elements.
    pub fn entries(&self) -> &[Entry]
        ensures { result.now ≡ self.now.entries }
    {
        self.entries.as_slice()
    }

    /// Returns the position directly behind the element with this number.
    ///
    /// # Complexity
    ///
    /// O(n), where `n` is the position.
    pub fn position_behind(&self, number: u32) -> usize
        requires { Contains (numbers_in self.now.entries) number }
        ensures { IsBehind self.now.entries number result }
    {
        let mut position = 0;
        while position < self.entries.len() {
            let entry = self.entries[position];
            position += 1;
            if entry.number == number {
                return position;
            }
        }
        position
    }

    /// Returns the first position, from this one on, whose element has no greater stamp, or the end.
    ///
    /// # Complexity
    ///
    /// O(n), where `n` is the number of elements skipped; O(1) if the stamp is smaller than the bound of all.
    pub fn past_greater(&self, from: usize, stamp: Stamp) -> usize
        requires { from ≤ length self.now.entries }
        ensures { IsPast self.now.entries from stamp result }
    {
        if stamp < self.least {
            return self.entries.len();
        }
        let mut position = from;
        while position < self.entries.len() {
            if self.entries[position].stamp <= stamp {
                return position;
            }
            position += 1;
        }
        position
    }

    /// Inserts an element at a position. Does not allocate.
    pub fn insert(&mut self, position: usize, entry: Entry)
        requires room { 0 < self.old.room }
        requires among { position ≤ length self.old.entries }
        ensures { self.new.entries ≡ insert self.old.entries position entry }
    {
        let _ = self.entries.insert(position, entry);
        self.least = lesser(entry.stamp, self.least);
    }

    /// Moves the elements from a position on into a new chunk.
    ///
    /// # Errors
    ///
    /// `NoMemory` if allocation fails; the chunk is unchanged.
    pub fn split_off(&mut self, position: usize) -> Result<Chunk, NoMemory>
        requires some { 0 < position }
        requires rest { position < length self.old.entries }
        ensures kept { OnOk result (self.new.entries ≡ take position self.old.entries) }
        ensures moved { IfOk result (λ chunk. chunk.entries ≡ drop position self.old.entries) }
        ensures room { OnOk result (0 < self.new.room) }
        ensures room_moved { IfOk result (λ chunk. 0 < chunk.room) }
        ensures same { OnErr result (self.new ≡ self.old) }
    {
        let mut entries = Vec::with_capacity(*self.entries.allocator(), self.entries.capacity())?;
        entries.extend_from_slice(&self.entries.as_slice()[position..])?;
        let least = least_of(entries.as_slice());
        self.entries.truncate(position);
        self.least = least_of(self.entries.as_slice());
        Ok(Chunk { entries, least })
    }
}

// Returns a lower bound of the elements' stamps.
fn least_of(entries: &[Entry]) -> Stamp
    ensures { AllAtLeast result entries.now }
{
    let mut least = HIGHEST;
    for entry in entries {
        least = lesser(entry.stamp, least);
    }
    least
}

// Returns the smaller of two stamps.
fn lesser(one: Stamp, other: Stamp) -> Stamp
    ensures { result ≡ lesser_of one other }
{
    if one < other { one } else { other }
}
