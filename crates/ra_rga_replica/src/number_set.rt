//! The set of elements that are in a replica's list, by their numbers.
ghost use Rattle.std.specs.Prelude.{◌≡◌, ◌==◌, ◌||◌, ◌<◌, ℕ, true, [], set, vec_len, IfOk, OnOk, OnErr};
ghost use Rattle.ra_rga_elements.specs.ElementList.{is_marked};
ghost use Rattle.ra_rga_replica.specs.NumberSet.{was_marked};

use ra_labels::NoMemory;
use std::alloc::Global;

/// A set of numbers.
#[derive(Drop)]
pub struct NumberSet {
    /// For each number, whether it is in the set. Numbers behind the end are not.
    pub marks: Vec<bool>,
}

impl NumberSet {
    /// Creates the empty set. Does not allocate.
    pub fn new(alloc: Global) -> NumberSet
        ensures { result.marks.items ≡ [] }
    {
        NumberSet {
            marks: Vec::new(alloc),
        }
    }

    /// Returns an equal set that owns its memory.
    ///
    /// # Errors
    ///
    /// `NoMemory` if allocation fails.
    ///
    /// # Complexity
    ///
    /// O(n), where `n` is the greatest number for which room was reserved.
    pub fn copy(&self) -> Result<NumberSet, NoMemory>
        ensures { IfOk result (λ copy. copy.marks.items ≡ self.now.marks.items) }
    {
        Ok(NumberSet {
            marks: self.marks.clone()?,
        })
    }

    /// Returns `true` if the number is in the set.
    pub fn has(&self, number: u32) -> bool
        ensures { result ≡ is_marked self.now.marks.items number }
    {
        match self.marks.get(number as usize) {
            Some(mark) => *mark,
            None => false,
        }
    }

    /// Reserves room for the number. The set does not change.
    ///
    /// # Errors
    ///
    /// `NoMemory` if allocation fails.
    pub fn reserve(&mut self, number: u32) -> Result<(), NoMemory>
        ensures room { OnOk result (number < vec_len self.new.marks) }
        ensures same { (k : ℕ) → is_marked self.new.marks.items k ≡ is_marked self.old.marks.items k }
        ensures err { OnErr result (self.new.marks.items ≡ self.old.marks.items) }
    {
        let number = number as usize;
        if self.marks.len() <= number {
            self.marks.resize(number + 1, false)?;
        }
        Ok(())
    }

    /// Adds the number to the set, and to the end of the list of new numbers, unless the set has it.
    ///
    /// # Errors
    ///
    /// `NoMemory` if allocation fails; without the listed numbers the set is as before.
    pub fn put_new(&mut self, number: u32, put: &mut Vec<u32>) -> Result<(), NoMemory>
        ensures marks { OnOk result ((k : ℕ) → is_marked self.new.marks.items k
            ≡ (is_marked self.old.marks.items k || k == number)) }
        ensures before { (k : ℕ) → was_marked self.new.marks.items put.new.items k
            ≡ was_marked self.old.marks.items put.old.items k }
    {
        if self.has(number) {
            return Ok(());
        }
        self.reserve(number)?;
        put.push(number)?;
        self.put(number);
        Ok(())
    }

    /// Removes the numbers from the set.
    pub fn take_out(&mut self, numbers: &[u32])
        ensures { (k : ℕ) → is_marked self.new.marks.items k ≡ was_marked self.old.marks.items numbers.now k }
    {
        for number in numbers {
            if let Some(mark) = self.marks.get_mut(*number as usize) {
                *mark = false;
            }
        }
    }

    /// Adds the number to the set, for which room was reserved. Does not allocate.
    pub fn put(&mut self, number: u32)
        requires { number < vec_len self.old.marks }
        ensures { self.new.marks.items ≡ set self.old.marks.items number true }
    {
        self.marks[number as usize] = true;
    }
}
