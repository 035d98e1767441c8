//! Which conditions each label can meet.
ghost use Rattle.std.specs.Prelude.{◌≡◌, ◌≢◌, ◌<◌, ◌++◌, ◌∷◌, ℕ, [], length, get_or, Contains, IfOk, OnOk};
ghost use Rattle.ra_precedence.specs.Conditions.{NameOnlyBelow};
ghost use Rattle.ra_precedence.specs.Placing.{AreUses, AreAdded};

use crate::condition::Condition;
use ra_labels::NoMemory;
use smallvec::SmallVec;
use std::alloc::Global;
use std::marker::Model;

/// For each label, the indexes of the conditions that have it in `after`.
#[derive(Drop)]
pub struct Uses {
    // Usually a label has at most two, which need no allocation.
    lists: Vec<SmallVec<u32, 2>>,
}

impl Model for Uses {
    ghost use Rattle.std.specs.Prelude.{ℕ, List, map};

    ghost Value = { List (List ℕ) };

    ghost view = { λ a. map (λ list. list.items) a.lists.items };
}

impl Uses {
    /// Returns the uses of the labels below the count in these conditions.
    ///
    /// # Errors
    ///
    /// `NoMemory` if allocation fails, or if there are more than 2^32 conditions.
    ///
    /// # Complexity
    ///
    /// O(n), with `n` the count and the length of the conditions.
    pub fn of_conditions(
        alloc: Global,
        count: usize,
        conditions: &[Condition],
    ) -> Result<Uses, NoMemory>
        requires { NameOnlyBelow count conditions.now }
        ensures used { IfOk result (λ uses. AreUses conditions.now uses) }
        ensures len { IfOk result (λ uses. length uses ≡ count) }
    {
        let mut uses = Uses::empty(alloc, count)?;
        for (index, condition) in conditions.iter().enumerate() {
            let Ok(index) = u32::try_from(index) else {
                return Err(NoMemory);
            };
            uses.add_all(condition.after(), index)?;
        }
        Ok(uses)
    }

    // Returns an empty list for each label.
    fn empty(alloc: Global, count: usize) -> Result<Uses, NoMemory>
        ensures len { IfOk result (λ uses. length uses ≡ count) }
        ensures each { IfOk result (λ uses. (c : ℕ) → get_or uses c [] ≡ []) }
    {
        let mut lists = Vec::new(alloc);
        for _ in 0..count {
            lists.push(SmallVec::new(alloc))?;
        }
        Ok(Uses { lists })
    }

    // Adds the index to the list of each of the labels.
    fn add_all(&mut self, labels: &[u32], index: u32) -> Result<(), NoMemory>
        requires { (c : ℕ) → Contains labels.now c → c < length self.old }
        ensures len { length self.new ≡ length self.old }
        ensures added { OnOk result (AreAdded labels.now index self.old self.new) }
    {
        for label in labels {
            self.add(*label, index)?;
        }
        Ok(())
    }

    // Appends the index to the list of the label.
    fn add(&mut self, label: u32, index: u32) -> Result<(), NoMemory>
        requires { label < length self.old }
        ensures len { length self.new ≡ length self.old }
        ensures added { OnOk result (get_or self.new label [] ≡ get_or self.old label [] ++ index ∷ []) }
        ensures others { (c : ℕ) → c ≢ label → get_or self.new c [] ≡ get_or self.old c [] }
    {
        self.lists[label as usize].push(index)?;
        Ok(())
    }

    /// Returns the indexes of the conditions that have the label in `after`.
    pub fn of(&self, label: u32) -> &[u32]
        requires { label < length self.now }
        ensures { result.now ≡ get_or self.now label [] }
    {
        self.lists[label as usize].as_slice()
    }
}
