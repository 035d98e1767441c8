//! The numbers of a list's elements.
ghost use Rattle.std.specs.Prelude.{◌≡◌, ◌↔◌, ℕ, ◌<◌, ◌-◌, ◌++◌, ◌∷◌, [], length, take, Contains, Some, IsTrue, OnOk, OnErr};
ghost use Rattle.std.specs.List.{slice_get};
ghost use Rattle.ra_list_replica.specs.Numbers.{HasOneNumberEach};

use ra_labels::NoMemory;
use std::alloc::Global;
use std::collections::BTreeMap;
use std::marker::Model;

/// The elements of a list, numbered from 0 in the order of their insertion. Any `u32` can be an element.
#[derive(Drop)]
pub struct ElementNumbers {
    /// The number of each element.
    numbers: BTreeMap<u32, u32>,
    /// The elements by number.
    elements: Vec<u32>,
}

impl Model for ElementNumbers {
    ghost use Rattle.std.specs.Prelude.{ℕ, List};
    ghost use Rattle.std.specs.BTreeMap.{get};
    ghost use Rattle.std.specs.Ordering.{nat_cmp};
    ghost use Rattle.ra_list_replica.specs.Numbers.{AreNumbered};

    ghost Value = { List ℕ };

    ghost view = { λ a. a.elements.items };

    ghost invariant = { λ a. AreNumbered (get nat_cmp a.numbers) a.elements.items };
}

impl ElementNumbers {
    /// Creates the numbering of no elements. Does not allocate.
    pub fn new(alloc: Global) -> ElementNumbers
        // There are no elements.
        ensures { result ≡ [] }
    {
        ElementNumbers {
            numbers: BTreeMap::new(alloc),
            elements: Vec::new(alloc),
        }
    }

    /// Does nothing. Its clause states for the proofs of callers what holds of every `ElementNumbers`.
    pub fn invariant(&self)
        // Each element has one number.
        ensures { HasOneNumberEach self.now }
    {
        let _count = self.elements.len();
    }

    /// Returns the number of elements. It is the number that the next element gets.
    pub fn len(&self) -> usize
        // The result is the number of elements.
        ensures { result ≡ length self.now }
    {
        self.elements.len()
    }

    /// Returns `true` if the element has a number.
    ///
    /// # Complexity
    ///
    /// O(log n) with `n` elements.
    pub fn contains(&self, element: u32) -> bool
        // The result is `true` exactly if the element is among the numbered ones.
        ensures { IsTrue result ↔ Contains self.now element }
    {
        self.number_of(element).is_some()
    }

    /// Returns the element's number, or `None` if the element has none.
    ///
    /// # Complexity
    ///
    /// O(log n) with `n` elements.
    pub fn number_of(&self, element: u32) -> Option<u32>
        // The result is a number exactly if the element with that number is this one; otherwise it is `None`.
        ensures { (n : ℕ) → (result ≡ Some n) ↔ (slice_get self.now n ≡ Some element) }
    {
        self.numbers.get(&element).copied()
    }

    /// Returns the element with this number, or `None` if no element has it.
    pub fn element(&self, number: u32) -> Option<u32>
        // The result is the element with the number, or `None` if there is none.
        ensures { result ≡ slice_get self.now number }
    {
        self.elements.get(number as usize).copied()
    }

    /// Gives the element the next number.
    ///
    /// # Errors
    ///
    /// `NoMemory` if allocation fails; nothing is changed.
    ///
    /// # Complexity
    ///
    /// O(log n) with `n` elements, amortized.
    pub fn add(&mut self, element: u32) -> Result<(), NoMemory>
        // The element has no number.
        requires new { ¬ Contains self.old element }
        // The next number fits 32 bits.
        requires few { length self.old < 4294967296 }
        // The element has the next number; the others keep theirs.
        ensures added { OnOk result (self.new ≡ self.old ++ element ∷ []) }
        // After a failure nothing is changed.
        ensures failed { OnErr result (self.new ≡ self.old) }
    {
        self.elements.reserve(1)?;
        self.numbers.insert(element, self.elements.len() as u32)?;
        self.elements.push_reserved(element);
        Ok(())
    }

    /// Takes back the latest element, if there is one. Does not allocate.
    ///
    /// # Complexity
    ///
    /// O(log n) with `n` elements.
    pub fn take_back(&mut self)
        // The latest element is gone; the others keep their numbers.
        ensures { self.new ≡ take (length self.old - 1) self.old }
    {
        if let Some(element) = self.elements.pop() {
            let _ = self.numbers.remove(&element);
        }
    }
}
