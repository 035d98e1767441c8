//! The numbers of an LWW set's elements.
ghost use Rattle.std.specs.Prelude.{◌≡◌, ◌<◌, ◌^◌, ℕ, None, nat_eq, OnOk};
ghost use Rattle.std.specs.HashMap.{get, hash_map_len, spare};
ghost use Rattle.ra_witness.specs.ElementNumbers.{element_of, number_in, number_with, count_with};

use ra_labels::{NoMemory, Update};
use std::alloc::Global;
use std::collections::HashMap;

/// The elements of an LWW set, numbered in the order in which updates first named them. A register's value has the
/// number 0.
#[derive(Drop)]
pub struct ElementNumbers {
    pub numbers: HashMap<u32, u32>,
}

// The number of a register's value.
const REGISTER: u32 = 0;

impl ElementNumbers {
    /// Creates the empty numbering. Does not allocate.
    pub fn new(alloc: Global) -> ElementNumbers
        ensures none { (x : ℕ) → get nat_eq result.numbers x ≡ None }
        ensures len { hash_map_len result.numbers ≡ 0 }
    {
        ElementNumbers {
            numbers: HashMap::new(alloc),
        }
    }

    /// Returns the number of the update's element, which is the next free one if the element has none.
    pub fn of(&self, update: &Update) -> u32
        requires { hash_map_len self.now.numbers < 2 ^ 32 }
        ensures { result
            ≡ number_in (get nat_eq self.now.numbers) (hash_map_len self.now.numbers) (element_of update.now) }
    {
        match element_of(update) {
            Some(element) => match self.numbers.get(&element) {
                Some(number) => *number,
                None => self.numbers.len() as u32,
            },
            None => REGISTER,
        }
    }

    /// Reserves room for one more element. The numbers do not change.
    ///
    /// # Errors
    ///
    /// `NoMemory` if allocation fails.
    pub fn reserve(&mut self) -> Result<(), NoMemory>
        ensures room { OnOk result (0 < spare self.new.numbers) }
        ensures same { (x : ℕ) → get nat_eq self.new.numbers x ≡ get nat_eq self.old.numbers x }
        ensures len { hash_map_len self.new.numbers ≡ hash_map_len self.old.numbers }
    {
        self.numbers.reserve(1)?;
        Ok(())
    }

    /// Sets the number of the update's element, within the reserved room.
    pub fn keep(&mut self, update: &Update, number: u32)
        requires { 0 < spare self.old.numbers }
        ensures kept { (x : ℕ) → get nat_eq self.new.numbers x
            ≡ number_with (get nat_eq self.old.numbers) (element_of update.now) number x }
        ensures count { hash_map_len self.new.numbers ≡ count_with (get nat_eq self.old.numbers)
            (hash_map_len self.old.numbers) (element_of update.now) }
    {
        if let Some(element) = element_of(update) {
            let _ = self.numbers.insert(element, number);
        }
    }
}

// Returns the element that an update of an LWW set concerns.
fn element_of(update: &Update) -> Option<u32>
    ensures { result ≡ element_of update.now }
{
    match update {
        Update::LwwAdd(element) | Update::LwwRemove(element) => Some(*element),
        _ => None,
    }
}
