//! A chunk: a few adjacent elements of a sequence. Its contract is that of a short list with a group.
ghost use Rattle.std.specs.Prelude.{◌≡◌, ◌+◌, ◌<◌, ◌≤◌, ◌^◌, ◌++◌, nat_le, [], length, IfOk, OnOk, OnErr};
ghost use Rattle.std.specs.List.{insert};
ghost use Rattle.ra_list_order.specs.Chunks.{most_in_chunk};
ghost use Rattle.ra_labels.specs.Listing.{without};

use ra_labels::NoMemory;
use std::alloc::Global;
use std::marker::Model;

/// The number of elements from which on a chunk is split before an insertion.
pub const MOST_IN_CHUNK: usize = 128;

/// A few adjacent elements.
#[derive(Drop)]
pub struct Chunk {
    /// The group that its elements share. Its number, the group plus one, fits a `u32` as well.
    group: u32,
    /// The elements in order.
    elements: Vec<u32>,
}

impl Model for Chunk {
    ghost use Rattle.std.specs.Prelude.{◌+◌, ◌-◌, ◌<◌, ◌^◌, vec_len, vec_capacity};
    ghost use Rattle.ra_list_order.specs.Chunks.{Chunk};

    ghost Value = { Chunk };

    ghost view = { λ a. record {
      group = a.group;
      elements = a.elements.items;
      room = vec_capacity a.elements - vec_len a.elements;
    } };

    ghost invariant = { λ a. a.group + 1 < 2 ^ 32 };
}

impl Chunk {
    /// Creates a chunk without elements. Does not allocate.
    pub fn new(alloc: Global, group: u32) -> Chunk
        requires { group + 1 < 2 ^ 32 }
        ensures group { result.group ≡ group }
        ensures elements { result.elements ≡ [] }
    {
        Chunk {
            group,
            elements: Vec::new(alloc),
        }
    }

    /// Returns the group of the elements.
    pub fn group(&self) -> u32
        ensures group { result ≡ self.now.group }
        ensures fits { result + 1 < 2 ^ 32 }
    {
        self.group
    }

    /// Returns the elements in order.
    pub fn elements(&self) -> &[u32]
        ensures { result.now ≡ self.now.elements }
    {
        self.elements.as_slice()
    }

    /// Returns `true` if the chunk has to be split before an insertion.
    pub fn is_full(&self) -> bool
        ensures { result ≡ nat_le most_in_chunk (length self.now.elements) }
    {
        self.elements.len() >= MOST_IN_CHUNK
    }

    /// Reserves room for one more element.
    ///
    /// # Errors
    ///
    /// `NoMemory` if allocation fails.
    pub fn reserve(&mut self) -> Result<(), NoMemory>
        ensures group { self.new.group ≡ self.old.group }
        ensures elements { self.new.elements ≡ self.old.elements }
        ensures room { OnOk result (0 < self.new.room) }
    {
        self.elements.reserve(1)?;
        Ok(())
    }

    /// Inserts an element at the position. Does not allocate.
    ///
    /// # Complexity
    ///
    /// O(c) with `c` elements in the chunk.
    pub fn insert(&mut self, position: usize, element: u32)
        requires room { 0 < self.old.room }
        requires among { position ≤ length self.old.elements }
        ensures group { self.new.group ≡ self.old.group }
        ensures elements { self.new.elements ≡ insert self.old.elements position element }
    {
        let _ = self.elements.insert(position, element);
    }

    /// Moves the elements from the position on into a new chunk.
    ///
    /// # Errors
    ///
    /// `NoMemory` if allocation fails; nothing is changed.
    ///
    /// # Complexity
    ///
    /// O(c) with `c` elements that move.
    pub fn split_off(&mut self, position: usize, group: u32) -> Result<Chunk, NoMemory>
        requires among { position ≤ length self.old.elements }
        requires fits { group + 1 < 2 ^ 32 }
        ensures group { self.new.group ≡ self.old.group }
        ensures new_group { IfOk result (λ right. right.group ≡ group) }
        ensures elements { IfOk result (λ right. self.new.elements ++ right.elements ≡ self.old.elements) }
        ensures failed { OnErr result (self.new.elements ≡ self.old.elements) }
    {
        let mut elements = Vec::new(*self.elements.allocator());
        elements.extend_from_slice(&self.elements.as_slice()[position..])?;
        self.elements.truncate(position);
        Ok(Chunk { group, elements })
    }

    /// Removes an element, wherever it is. Does not allocate.
    ///
    /// # Complexity
    ///
    /// O(c) with `c` elements in the chunk.
    pub fn remove(&mut self, element: u32)
        ensures group { self.new.group ≡ self.old.group }
        ensures elements { self.new.elements ≡ without element self.old.elements }
    {
        self.elements.retain(|other| *other != element);
    }

    /// Replaces the elements. Does not allocate.
    pub fn replace(&mut self, elements: Vec<u32>)
        ensures group { self.new.group ≡ self.old.group }
        ensures elements { self.new.elements ≡ elements.items }
    {
        self.elements = elements;
    }

    /// Overwrites the elements with as many others. Does not allocate.
    pub fn overwrite(&mut self, elements: &[u32])
        requires { length elements.now ≡ length self.old.elements }
        ensures group { self.new.group ≡ self.old.group }
        ensures elements { self.new.elements ≡ elements.now }
    {
        self.elements.as_mut_slice().copy_from_slice(elements);
    }
}
