//! Distinct elements in an order, in chunks, with the chunk of each. Its contract is that of the chunks' concatenation.
ghost use Rattle.std.specs.BTreeMap.{get};
ghost use Rattle.std.specs.Ordering.{nat_cmp};
ghost use Rattle.std.specs.Prelude.{ℕ, IfSome, ◌≡◌, ◌<◌, ◌≤◌, ◌++◌, ◌∷◌, ◌↔◌, [], Some, None, length, take, drop, Contains, IsTrue, IfOk, OnOk, OnErr, MatchOption, slice_index};
ghost use Rattle.std.specs.List.{between};
ghost use Rattle.std.specs.List.Sorted.{IsPermutation};
ghost use Rattle.ra_labels.specs.Edges.{EachOnce, IsBefore};
ghost use Rattle.ra_list_order.specs.Gathering.{gathered, left_of, right_of, IsAt, IsIndex};
ghost use Rattle.ra_list_order.specs.ListOrder.{IsPut};
ghost use Rattle.ra_list_order.specs.Chunks.{chunk_at, joined, IsInsertedAt, IsSpan};

use crate::chunk::{Chunk, MOST_IN_CHUNK};
use crate::chunks::{SPREAD, copied, packed, refill, remove_all, split, split_at};
use crate::cut::{Spot, gathered};
use crate::groups::{group_of, has_group, move_to, move_to_chunks};
use crate::numbers::{extend_to, next_index, set_number};
use crate::parts::{is_before, position_of};
use ra_labels::NoMemory;
use std::alloc::Global;
use std::collections::BTreeMap;
use std::marker::Model;

/// A range of chunks.
#[derive(Clone, Copy)]
pub struct Span {
    /// The index of the first chunk.
    pub first: usize,
    /// The index behind the last chunk.
    pub end: usize,
}

/// Distinct elements in an order. An insertion moves only elements of its chunk.
#[derive(Drop)]
pub struct Sequence {
    /// For each element, the group that the elements of its chunk share, plus one, or 0 if it is not in the sequence.
    groups: Vec<u32>,
    /// The number of elements.
    len: usize,
    /// The chunks in order.
    chunks: Vec<Chunk>,
    /// For each group, the index of its chunk.
    places: Vec<usize>,
}

impl Model for Sequence {
    ghost use Rattle.std.specs.Prelude.{List};
    ghost use Rattle.ra_list_order.specs.Chunks.{Chunk, AreGrouped, group_in};

    ghost Value = { List Chunk };

    ghost view = { λ a. a.chunks.items };

    ghost invariant = { λ a. AreGrouped (group_in a.groups.items) a.chunks.items a.places.items };
}

impl Sequence {
    /// Creates a sequence without elements. Does not allocate.
    pub fn new(alloc: Global) -> Sequence
        ensures { result ≡ [] }
    {
        Sequence {
            groups: Vec::new(alloc),
            len: 0,
            chunks: Vec::new(alloc),
            places: Vec::new(alloc),
        }
    }

    /// Returns the number of chunks.
    pub fn chunk_count(&self) -> usize
        ensures { result ≡ length self.now }
    {
        self.chunks.len()
    }

    /// Returns the number of elements in the chunk of an element.
    pub fn chunk_len(&self, element: u32) -> usize
        requires { Contains (joined self.now) element }
        ensures { 0 < result }
    {
        self.chunks[self.place_of(element)].elements().len()
    }

    /// Returns `true` if the element is in the sequence.
    ///
    /// # Complexity
    ///
    /// O(1).
    pub fn contains(&self, element: u32) -> bool
        ensures { IsTrue result ↔ Contains (joined self.now) element }
    {
        has_group(&self.groups, element)
    }

    /// Returns the elements of a range of chunks, in order.
    ///
    /// # Errors
    ///
    /// `NoMemory` if allocation fails.
    ///
    /// # Complexity
    ///
    /// O(length of the result).
    pub fn copied(&self, alloc: Global, span: Span) -> Result<Vec<u32>, NoMemory>
        requires ordered { span.first ≤ span.end }
        requires within { span.end ≤ length self.now }
        ensures { IfOk result (λ elements. elements.items ≡ joined (between span.first span.end self.now)) }
    {
        copied(alloc, &self.chunks[span.first..span.end])
    }

    /// Returns the range from the chunk of one element to that of another, or `None` if the other one is before it.
    ///
    /// # Complexity
    ///
    /// O(c) with `c` elements in one chunk.
    pub fn span(&self, one: u32, other: u32) -> Option<Span>
        requires one { Contains (joined self.now) one }
        requires other { Contains (joined self.now) other }
        ensures { MatchOption result (IsBefore (joined self.now) other one)
            (λ span. IsSpan self.now one other span.first span.end) }
    {
        let first = self.place_of(one);
        let last = self.place_of(other);
        if last < first || last == first && is_before(self.chunks[first].elements(), other, one) {
            return None;
        }
        Some(Span {
            first,
            end: last + 1,
        })
    }

    /// Overwrites the elements of a range of chunks with the same elements in another order. Does not allocate.
    ///
    /// # Complexity
    ///
    /// O(k) with `k` elements that are overwritten.
    pub fn overwrite(&mut self, span: Span, elements: &[u32])
        requires ordered { span.first ≤ span.end }
        requires within { span.end ≤ length self.old }
        requires same { IsPermutation (joined (between span.first span.end self.old)) elements.now }
        ensures { joined self.new
            ≡ joined (take span.first self.old) ++ (elements.now ++ joined (drop span.end self.old)) }
    {
        refill(&mut self.chunks[span.first..span.end], elements);
        move_to_chunks(&mut self.groups, &self.chunks[span.first..span.end]);
    }

    /// Inserts a new element directly behind another one.
    ///
    /// # Errors
    ///
    /// `NoMemory` if allocation fails; the elements and their order are unchanged.
    ///
    /// # Complexity
    ///
    /// O(c) with `c` elements in one chunk, amortized. If that chunk is full, it is split first. An element that is
    /// greater than each earlier one by `d` takes O(d) more.
    pub fn insert_behind(&mut self, left: u32, element: u32) -> Result<(), NoMemory>
        requires left { Contains (joined self.old) left }
        requires new { ¬ Contains (joined self.old) element }
        ensures put { OnOk result (IsPut (joined self.old) (Some left) None element (joined self.new)) }
        ensures failed { OnErr result (joined self.new ≡ joined self.old) }
    {
        self.make_room(self.place_of(left))?;
        let place = self.place_of(left);
        let position = position_of(self.chunks[place].elements(), left);
        self.insert_at(place, position + 1, element)
    }

    /// Inserts a new element directly before another one.
    ///
    /// # Errors
    ///
    /// `NoMemory` if allocation fails; the elements and their order are unchanged.
    ///
    /// # Complexity
    ///
    /// That of `insert_behind`.
    pub fn insert_before(&mut self, right: u32, element: u32) -> Result<(), NoMemory>
        requires right { Contains (joined self.old) right }
        requires new { ¬ Contains (joined self.old) element }
        ensures put { OnOk result (IsPut (joined self.old) None (Some right) element (joined self.new)) }
        ensures failed { OnErr result (joined self.new ≡ joined self.old) }
    {
        self.make_room(self.place_of(right))?;
        let place = self.place_of(right);
        let position = position_of(self.chunks[place].elements(), right);
        self.insert_at(place, position, element)
    }

    /// Inserts a new element at the front.
    ///
    /// # Errors
    ///
    /// `NoMemory` if allocation fails; the elements and their order are unchanged.
    ///
    /// # Complexity
    ///
    /// That of `insert_behind`.
    pub fn insert_first(&mut self, element: u32) -> Result<(), NoMemory>
        requires new { ¬ Contains (joined self.old) element }
        ensures put { OnOk result (joined self.new ≡ element ∷ joined self.old) }
        ensures failed { OnErr result (joined self.new ≡ joined self.old) }
    {
        if self.chunks.is_empty() {
            self.push_chunk()?;
        }
        self.make_room(0)?;
        self.insert_at(0, 0, element)
    }

    /// Returns where the element is, or `None` if it is not in the sequence.
    ///
    /// # Complexity
    ///
    /// O(c) with `c` elements in one chunk.
    pub fn find(&self, element: u32) -> Option<Spot>
        ensures { IfSome result (λ spot. IsAt self.now element spot.chunk spot.index) }
    {
        if !self.contains(element) {
            return None;
        }
        let chunk = self.place_of(element);
        let index = position_of(self.chunks[chunk].elements(), element);
        Some(Spot { chunk, index })
    }

    /// Returns `true` if the sequence can be cut there.
    pub fn can_be_cut(&self, cut: Spot) -> bool
        ensures chunk { IsTrue result → cut.chunk < length self.now }
        ensures index { IsTrue result → cut.index ≤ length (chunk_at self.now cut.chunk).elements }
    {
        cut.chunk < self.chunks.len() && cut.index <= self.chunks[cut.chunk].elements().len()
    }

    /// Returns `true` if the element is before the cut.
    ///
    /// # Complexity
    ///
    /// That of `find`.
    pub fn is_in_front(&self, element: u32, cut: Spot) -> bool
        ensures { IsTrue result → Contains (left_of self.now cut.chunk cut.index) element }
    {
        let Some(spot) = self.find(element) else {
            return false;
        };
        spot.chunk < cut.chunk || spot.chunk == cut.chunk && spot.index < cut.index
    }

    /// Returns `true` if the element is behind the cut.
    ///
    /// # Complexity
    ///
    /// That of `find`.
    pub fn is_behind(&self, element: u32, cut: Spot) -> bool
        ensures { IsTrue result → Contains (right_of self.now cut.chunk cut.index) element }
    {
        let Some(spot) = self.find(element) else {
            return false;
        };
        spot.chunk > cut.chunk || spot.chunk == cut.chunk && spot.index >= cut.index
    }

    /// Moves elements to a cut.
    ///
    /// # Errors
    ///
    /// `NoMemory` if allocation fails; the elements and their order are unchanged.
    ///
    /// # Complexity
    ///
    /// O(k (log k + c)) with `n` elements, `c` of them in one chunk, and `k` that are moved. If the chunk that is cut
    /// gets too long, it is split, which takes O(n / 64) more for each 96 elements that are moved.
    pub fn gather(
        &mut self,
        alloc: Global,
        cut: Spot,
        moved: &[u32],
        index: &BTreeMap<u32, usize>,
    ) -> Result<(), NoMemory>
        requires chunk { cut.chunk < length self.old }
        requires within { cut.index ≤ length (chunk_at self.old cut.chunk).elements }
        requires known { (x : ℕ) → Contains moved.now x → Contains (joined self.old) x }
        requires once { EachOnce moved.now }
        requires index { IsIndex (get nat_cmp index.now) moved.now }
        ensures gathered { OnOk result (joined self.new ≡ gathered (left_of self.old cut.chunk cut.index) moved.now
            (right_of self.old cut.chunk cut.index)) }
        ensures failed { OnErr result (joined self.new ≡ joined self.old) }
    {
        let all = gathered(
            alloc,
            self.chunks[cut.chunk].elements(),
            cut.index,
            moved,
            index,
        )?;
        remove_all(&self.groups, &mut self.chunks, &self.places, moved);
        self.chunks[cut.chunk].replace(all);
        let group = self.chunks[cut.chunk].group();
        move_to(&mut self.groups, moved, group);
        self.spread(cut.chunk);
        if self.chunks.len() / 2 > self.len / 64 + 8 {
            self.pack(alloc);
        }
        Ok(())
    }

    // Puts the elements into as few chunks as are filled by 96 each. If allocation fails, nothing is changed.
    fn pack(&mut self, alloc: Global)
        ensures { joined self.new ≡ joined self.old }
    {
        let Ok(elements) = copied(alloc, &self.chunks) else {
            return;
        };
        let Ok((chunks, places)) = packed(alloc, &elements) else {
            return;
        };
        self.chunks = chunks;
        self.places = places;
        move_to_chunks(&mut self.groups, &self.chunks);
    }

    // Splits the chunk at the index until it is not too long. If allocation fails, it stays as it is.
    fn spread(&mut self, place: usize)
        requires { place < length self.old }
        ensures { joined self.new ≡ joined self.old }
    {
        for _turn in 0..self.chunks[place].elements().len() {
            let len = self.chunks[place].elements().len();
            if len <= MOST_IN_CHUNK {
                return;
            }
            let keep = len - SPREAD;
            if split_at(
                &mut self.groups,
                &mut self.chunks,
                &mut self.places,
                place,
                keep,
            )
            .is_err()
            {
                return;
            }
        }
    }

    // Returns the index of the chunk of the element.
    fn place_of(&self, element: u32) -> usize
        requires { Contains (joined self.now) element }
        ensures within { result < length self.now }
        ensures there { Contains (chunk_at self.now result).elements element }
    {
        self.places[group_of(&self.groups, element)]
    }

    // Splits the chunk at the index if it is full.
    fn make_room(&mut self, place: usize) -> Result<(), NoMemory>
        requires { place < length self.old }
        ensures joined { joined self.new ≡ joined self.old }
        ensures as_many { length self.old ≤ length self.new }
    {
        if self.chunks[place].is_full() {
            split(&mut self.groups, &mut self.chunks, &mut self.places, place)?;
        }
        Ok(())
    }

    // Adds a chunk without elements behind the others.
    fn push_chunk(&mut self) -> Result<(), NoMemory>
        ensures joined { joined self.new ≡ joined self.old }
        ensures some { OnOk result (0 < length self.new) }
    {
        self.places.reserve(1)?;
        self.chunks.reserve(1)?;
        let chunk = Chunk::new(*self.chunks.allocator(), next_index(self.places.len())?);
        self.places.push_reserved(self.chunks.len());
        self.chunks.push_reserved(chunk);
        Ok(())
    }

    // Inserts a new element at a position of the chunk at an index.
    fn insert_at(&mut self, place: usize, position: usize, element: u32) -> Result<(), NoMemory>
        requires place { place < length self.old }
        requires among { position ≤ length (chunk_at self.old place).elements }
        requires new { ¬ Contains (joined self.old) element }
        ensures inserted { OnOk result (IsInsertedAt self.old place position element self.new) }
        ensures failed { OnErr result (joined self.new ≡ joined self.old) }
    {
        self.chunks[place].reserve()?;
        extend_to(&mut self.groups, element)?;
        let group = self.chunks[place].group();
        set_number(&mut self.groups, element, group + 1);
        self.chunks[place].insert(position, element);
        self.len = self.len.saturating_add(1);
        Ok(())
    }
}
