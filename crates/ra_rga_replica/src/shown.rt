//! The elements that a replica's reads show, by their numbers, and how many they are.
ghost use Rattle.std.specs.Prelude.{◌≡◌, ◌↔◌, ◌==◌, ◌||◌, ◌&&◌, not, ◌<◌, ◌≤◌, ℕ, Bool, true, false, [], length, filter, Some, Contains, IsTrue, IfOk, OnOk};
ghost use Rattle.ra_rga_elements.specs.ElementList.{is_marked, IsKeptByMark};
ghost use Rattle.ra_rga_replica.specs.declared.edit.Edit.TheVariants.{PutsIn};
ghost use Rattle.ra_rga_replica.specs.Edits.{edit_at};
ghost use Rattle.ra_rga_replica.specs.Cascade.{shown_after};

use crate::edit::{Edit, edit_of};
use ra_labels::NoMemory;
use ra_rga_elements::ElementList;
use std::alloc::Global;
use std::marker::Model;

/// A set of element numbers that knows its size.
#[derive(Drop)]
pub struct ShownElements {
    // For each number, whether it is in the set. Numbers behind the end are not.
    marks: Vec<bool>,
    count: usize,
}

impl Model for ShownElements {
    ghost use Rattle.std.specs.Prelude.{◌≡◌, Bool, List};
    ghost use Rattle.ra_rga_elements.specs.ElementList.{marked_count};

    ghost Value = { List Bool };

    ghost view = { λ s. s.marks.items };

    ghost invariant = { λ s. s.count ≡ marked_count s.marks.items };
}

impl ShownElements {
    /// Creates the empty set. Does not allocate.
    pub fn new(alloc: Global) -> ShownElements
        ensures { result ≡ [] }
    {
        ShownElements {
            marks: Vec::new(alloc),
            count: 0,
        }
    }

    /// Returns an equal set that owns its memory.
    ///
    /// # Errors
    ///
    /// `NoMemory` if allocation fails.
    pub fn copy(&self) -> Result<ShownElements, NoMemory>
        ensures { IfOk result (λ copy. copy ≡ self.now) }
    {
        Ok(ShownElements {
            marks: self.marks.clone()?,
            count: self.count,
        })
    }

    /// Reserves room for the numbers below this one. The set does not change.
    ///
    /// # Errors
    ///
    /// `NoMemory` if allocation fails.
    pub fn reserve(&mut self, len: usize) -> Result<(), NoMemory>
        ensures room { OnOk result (len ≤ length self.new) }
        ensures same { (k : ℕ) → is_marked self.new k ≡ is_marked self.old k }
    {
        if self.marks.len() < len {
            self.marks.resize(len, false)?;
        }
        Ok(())
    }

    /// Adds the number to the set, for which room was reserved. Does not allocate.
    pub fn show(&mut self, number: u32)
        requires { number < length self.old }
        ensures shown { (k : ℕ) → is_marked self.new k ≡ (is_marked self.old k || k == number) }
        ensures room { length self.new ≡ length self.old }
    {
        let number = number as usize;
        if !self.marks[number] {
            self.marks[number] = true;
            self.count += 1;
        }
    }

    /// Removes the number from the set.
    pub fn hide(&mut self, number: u32)
        ensures shown { (k : ℕ) → is_marked self.new k ≡ (is_marked self.old k && not (k == number)) }
        ensures room { length self.new ≡ length self.old }
    {
        let number = number as usize;
        if number < self.marks.len() && self.marks[number] {
            self.marks[number] = false;
            self.count -= 1;
        }
    }

    /// Makes the edits of the labels, one after another. Room was reserved for the numbers that they insert.
    pub fn make_all(&mut self, edits: &[Option<Edit>], labels: &[u32])
        requires { (label number : ℕ) → Contains labels.now label → edit_at edits.now label ≡ Some (PutsIn number)
            → number < length self.old }
        ensures { (k : ℕ) → is_marked self.new k ≡ shown_after edits.now (λ n. is_marked self.old n) labels.now k }
    {
        for label in labels {
            match edit_of(edits, *label) {
                Some(Edit::PutsIn(number)) => self.show(number),
                Some(Edit::Removes(number)) => self.hide(number),
                None => {}
            }
        }
    }

    /// Returns `true` if a list has exactly the elements of the set, in the order of the list of all elements.
    pub fn are(&self, all: &ElementList, listed: &[u32]) -> bool
        ensures { (keep : ℕ → Bool) → IsKeptByMark keep self.now all.now.arrivals
            → ((n : ℕ) → length all.now.arrivals ≤ n → is_marked self.now n ≡ false)
            → IsTrue result ↔ (listed.now ≡ filter keep all.now.elements) }
    {
        all.lists(self.marks.as_slice(), self.count, listed)
    }
}
