//! The list of all elements of an RGA, in chunks, with an index of the elements by number.
ghost use Rattle.std.specs.Prelude.{◌≡◌, ◌↔◌, ℕ, ◌<◌, ◌≤◌, true, false, Bool, List, ◌++◌, ◌∷◌, [], length, filter, Some, None, IsTrue, IfSome, IfOk, OnOk};
ghost use Rattle.ra_labels.specs.TheoremTerms.{elements_in};
ghost use Rattle.ra_labels.specs.Late.{insert_late_after};
ghost use Rattle.ra_rga_elements.specs.ElementList.{root, arrival_at, IsBelowByStamp, is_marked, IsKeptByMark, IsSomewhereBehind, marked_count, IsBefore, IsMarkedBefore};

use crate::chunk::Chunk;
use crate::element::Element;
use crate::entry::Entry;
use crate::link::link;
use crate::room::reserve_place;
use crate::spot::{number_behind, spot_behind};
use ra_labels::{LOWEST, NoMemory, Stamp};
use std::alloc::Global;
use std::collections::HashMap;
use std::marker::Model;

/// The number of the root, the element before all others.
pub const ROOT: u32 = 0;

// The number of steps from an element back to the marked one before it, after which an element is looked up instead.
const MOST_STEPS: u32 = 16;

/// The elements of all labels, in the order of the list after the updates of all labels. Elements have numbers in the
/// order of their insertion here, and the root has number 0.
#[derive(Drop)]
pub struct ElementList {
    /// The number of each element.
    numbers: HashMap<u32, u32>,
    /// The elements by their numbers.
    elements: Vec<Element>,
    /// The chunks in the order of the list.
    chunks: Vec<Chunk>,
    /// For each group, the index of the chunk that has its elements.
    places: Vec<usize>,
    /// The index of the chunk with the newest element. No other chunk is full.
    newest: usize,
}

impl Model for ElementList {
    ghost use Rattle.std.specs.Prelude.{nat_eq, nat_lt, ◌&&◌};
    ghost use Rattle.std.specs.Vec.{vec_len, vec_capacity};
    ghost use Rattle.std.specs.HashMap.{get, spare};
    ghost use Rattle.ra_rga_elements.specs.ElementList.{ElementList};
    ghost use Rattle.ra_rga_elements.specs.Kept.{list_of, ElementListKept};

    ghost Value = { ElementList };

    ghost view = { λ a. list_of a.elements.items a.chunks.items
        (nat_lt (vec_len a.elements) (vec_capacity a.elements) && nat_lt 0 (spare a.numbers)) };

    ghost invariant = { λ a.
        ElementListKept (get nat_eq a.numbers) a.elements.items a.chunks.items a.places.items a.newest };
}

impl ElementList {
    /// Creates the list with the root alone.
    ///
    /// # Errors
    ///
    /// `NoMemory` if allocation fails.
    pub fn new(alloc: Global) -> Result<ElementList, NoMemory>
        // The list has the root alone.
        ensures elements { IfOk result (λ list. list.elements ≡ 0 ∷ []) }
        // The root has number 0, and no other element has arrived.
        ensures arrivals { IfOk result (λ list. list.arrivals ≡ root ∷ []) }
    {
        let mut numbers = HashMap::new(alloc);
        numbers.insert(ROOT, ROOT)?;
        let root = Element {
            element: ROOT,
            stamp: LOWEST,
            anchor: ROOT,
            before: ROOT,
            group: 0,
        };
        let chunk = Chunk::new(
            alloc,
            Entry {
                number: ROOT,
                stamp: LOWEST,
            },
        )?;
        Ok(ElementList {
            numbers,
            elements: vec![in alloc; root]?,
            chunks: vec![in alloc; chunk]?,
            places: vec![in alloc; 0]?,
            newest: 0,
        })
    }

    /// Returns the number of elements, with the root. It is the number of the next element.
    pub fn len(&self) -> usize
        // The result is the number of elements, the root included.
        ensures { result ≡ length self.now.arrivals }
    {
        self.elements.len()
    }

    /// Returns the element's number, or `None` if it is not in the list.
    ///
    /// # Complexity
    ///
    /// One hash map lookup.
    pub fn number_of(&self, element: u32) -> Option<u32>
        // The result is a number exactly if the element with that number is this one; otherwise it is `None`.
        ensures { (n : ℕ) → (result ≡ Some n)
            ↔ ((n < length self.now.arrivals) × ((arrival_at self.now.arrivals n).element ≡ element)) }
    {
        self.numbers.get(&element).copied()
    }

    /// Returns the element with this number.
    pub fn element(&self, number: u32) -> u32
        // An element with this number exists.
        requires { number < length self.now.arrivals }
        // The result is the element that arrived under this number.
        ensures { result ≡ (arrival_at self.now.arrivals number).element }
    {
        self.elements[number as usize].element
    }

    /// Returns the stamp of the element with this number; the root has the lowest one.
    pub fn stamp(&self, number: u32) -> Stamp
        // An element with this number exists.
        requires { number < length self.now.arrivals }
        // The result is the stamp of the element that arrived under this number.
        ensures { result ≡ (arrival_at self.now.arrivals number).stamp }
    {
        self.elements[number as usize].stamp
    }

    /// Returns the number of the anchor, behind which the element with this number stands.
    pub fn anchor(&self, number: u32) -> u32
        // An element with this number exists.
        requires { number < length self.now.arrivals }
        // The result is the number of the anchor with which the element arrived.
        ensures anchor { result ≡ (arrival_at self.now.arrivals number).anchor }
        // An element with the returned number exists.
        ensures known { result < length self.now.arrivals }
        // Every element except the root stands somewhere behind its anchor in the list.
        ensures behind { 0 < number → (all : List (ℕ × Bool)) → elements_in all ≡ self.now.elements
            → let arrival = arrival_at self.now.arrivals number in
            IsSomewhereBehind all arrival.element (arrival_at self.now.arrivals arrival.anchor).element }
    {
        self.elements[number as usize].anchor
    }

    /// Reserves room for one more element. The elements and their order do not change.
    ///
    /// # Errors
    ///
    /// `NoMemory` if allocation fails.
    ///
    /// # Complexity
    ///
    /// Amortized O(1). If the newest element filled its chunk, the chunk is split, in O(c) with `c` chunks.
    pub fn reserve(&mut self) -> Result<(), NoMemory>
        // The elements and their order are unchanged, even after a failure.
        ensures elements { self.new.elements ≡ self.old.elements }
        // The numbers, stamps and anchors of the elements are unchanged, even after a failure.
        ensures arrivals { self.new.arrivals ≡ self.old.arrivals }
        // After success there is room for one more element.
        ensures room { OnOk result (self.new.has_room ≡ true) }
    {
        self.numbers.reserve(1)?;
        self.elements.reserve(1)?;
        reserve_place(
            &mut self.chunks,
            &mut self.places,
            self.elements.as_mut_slice(),
            self.newest,
        )
    }

    /// Inserts a new element behind the anchor with this number, and past the elements directly behind it that have
    /// greater stamps. Does not allocate.
    ///
    /// # Complexity
    ///
    /// O(c + n), where `c` is the number of chunks passed and `n` the length of a chunk.
    pub fn insert(&mut self, element: u32, stamp: Stamp, anchor: u32)
        // There is room for one more element.
        requires room { self.old.has_room ≡ true }
        // The list has fewer than 2^32 elements.
        requires few { length self.old.arrivals < 4294967296 }
        // The anchor exists.
        requires anchor { anchor < length self.old.arrivals }
        // The element is not in the list.
        requires new { (n : ℕ) → n < length self.old.arrivals
            → ¬ ((arrival_at self.old.arrivals n).element ≡ element) }
        // The element arrives as the next number, with this stamp and anchor.
        ensures arrivals { self.new.arrivals
            ≡ self.old.arrivals ++ record { element = element; stamp = stamp; anchor = anchor } ∷ [] }
        // The element stands where the definitions insert a late element: after its anchor, past the elements directly
        // behind it that have a greater stamp.
        ensures elements { (below : ℕ → ℕ → Bool) (all : List (ℕ × Bool))
            → IsBelowByStamp below element stamp self.old.arrivals → elements_in all ≡ self.old.elements
            → self.new.elements
            ≡ elements_in (insert_late_after below (arrival_at self.old.arrivals anchor).element element all) }
    {
        let number = self.elements.len() as u32;
        let place = self.places[self.elements[anchor as usize].group];
        let spot = spot_behind(&self.chunks, place, anchor, stamp);
        let next = number_behind(&self.chunks, spot);
        let before = self.chunks[spot.place].number(spot.position - 1);
        let group = self.elements[before as usize].group;
        self.chunks[spot.place].insert(spot.position, Entry { number, stamp });
        self.newest = spot.place;
        let _ = self.numbers.insert(element, number);
        link(
            &mut self.elements,
            next,
            Element {
                element,
                stamp,
                anchor,
                before,
                group,
            },
        );
    }

    /// Returns `true` if the marked elements are exactly these, in the order of the list. Their number is given.
    ///
    /// # Complexity
    ///
    /// O(n), where `n` is the number of the listed elements: for each of them a few steps back in the list, or at most
    /// one lookup of its number and a search in one chunk.
    pub fn lists(&self, marks: &[bool], count: usize, listed: &[u32]) -> bool
        // If `count` is the number of the marked elements, the result is `true` exactly if the list, without the
        // elements that are not marked, is the given one.
        ensures { (keep : ℕ → Bool) → IsKeptByMark keep marks.now self.now.arrivals
            → ((n : ℕ) → length self.now.arrivals ≤ n → is_marked marks.now n ≡ false)
            → count ≡ marked_count marks.now
            → IsTrue result ↔ (listed.now ≡ filter keep self.now.elements) }
    {
        // Exposes the invariant of the list to the proof. Does nothing at run time.
        let _ = &self.elements;
        if listed.len() != count {
            return false;
        }
        let mut left = listed;
        let mut behind = None;
        while let Some((element, rest)) = left.split_last() {
            let Some(number) = self.marked_before(marks, behind, *element) else {
                return false;
            };
            behind = Some(number);
            left = rest;
        }
        true
    }

    // Returns the number of the element if it is marked and before the element with this number, if there is one.
    fn marked_before(&self, marks: &[bool], behind: Option<u32>, element: u32) -> Option<u32>
        requires { IfSome behind (λ number. number < length self.now.arrivals) }
        ensures found { IfSome result (IsMarkedBefore self.now marks.now behind element) }
        ensures none { result ≡ None → (number : ℕ) → ¬ IsMarkedBefore self.now marks.now behind element number }
    {
        if let Some(near) = self.marked_near(marks, behind, element) {
            return Some(near);
        }
        let number = self.number_of(element)?;
        if is_marked(marks, number) && self.is_before(behind, number) {
            Some(number)
        } else {
            None
        }
    }

    // Returns the number of the element if it is the nearest marked one before the element with this number, and only a
    // few others are between.
    fn marked_near(&self, marks: &[bool], behind: Option<u32>, element: u32) -> Option<u32>
        requires { IfSome behind (λ number. number < length self.now.arrivals) }
        ensures { IfSome result (IsMarkedBefore self.now marks.now behind element) }
    {
        let mut found = behind?;
        for _step in 0..MOST_STEPS {
            if found == ROOT {
                return None;
            }
            found = self.elements[found as usize].before;
            if is_marked(marks, found) {
                let is_it = self.elements[found as usize].element == element;
                return is_it.then_some(found);
            }
        }
        None
    }

    // Returns `true` if the element with the second number is before that with the first one, if there is one.
    fn is_before(&self, behind: Option<u32>, number: u32) -> bool
        requires behind { IfSome behind (λ n. n < length self.now.arrivals) }
        requires there { number < length self.now.arrivals }
        ensures { IsTrue result ↔ IsBefore self.now behind (arrival_at self.now.arrivals number).element }
    {
        let place = self.places[self.elements[number as usize].group];
        let Some(behind) = behind else {
            return true;
        };
        let place_behind = self.places[self.elements[behind as usize].group];
        if place != place_behind {
            return place < place_behind;
        }
        let chunk = &self.chunks[place];
        chunk.position_behind(number) < chunk.position_behind(behind)
    }
}

// Returns `true` if the number is marked. Numbers behind the end are not.
fn is_marked(marks: &[bool], number: u32) -> bool
    ensures { result ≡ is_marked marks.now number }
{
    match marks.get(number as usize) {
        Some(mark) => *mark,
        None => false,
    }
}
