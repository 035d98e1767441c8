//! The pending labels of a replica. Each waits for an element that is not present yet.
ghost use Rattle.std.specs.Prelude.{◌≡◌, true, false, ℕ, ◌++◌, ◌∷◌, [], ◌≢◌, Contains, IfOk, OnOk, OnErr};
ghost use Rattle.ra_rga_replica.specs.PendingLabels.{labels_under};

use ra_labels::NoMemory;
use std::alloc::Global;
use std::collections::HashMap;
use std::marker::Model;

/// The pending labels of a replica, by the number of the element for which each waits.
#[derive(Drop)]
pub struct PendingLabels {
    alloc: Global,
    /// For each element for which labels wait, these labels in the order in which they were added.
    under: HashMap<u32, Vec<u32>>,
}

impl Model for PendingLabels {
    ghost use Rattle.std.specs.Prelude.{List, ℕ};

    ghost Value = { List (ℕ × List ℕ) };

    ghost use Rattle.ra_rga_replica.specs.PendingLabels.{waiting_in, NoneEmpty};

    ghost view = { λ w. waiting_in w.under.entries };

    ghost invariant = { λ w. NoneEmpty (waiting_in w.under.entries) };
}

impl PendingLabels {
    /// Creates the empty collection. Does not allocate.
    pub fn new(alloc: Global) -> PendingLabels
        ensures { result ≡ [] }
    {
        PendingLabels {
            alloc,
            under: HashMap::new(alloc),
        }
    }

    /// Returns an equal collection that owns its memory.
    ///
    /// # Errors
    ///
    /// `NoMemory` if allocation fails.
    ///
    /// # Complexity
    ///
    /// O(n), where `n` is the number of labels.
    pub fn copy(&self) -> Result<PendingLabels, NoMemory>
        ensures { IfOk result (λ copy. copy ≡ self.now) }
    {
        Ok(PendingLabels {
            alloc: self.alloc,
            under: self.under.clone()?,
        })
    }

    /// Returns `true` if no label waits.
    pub fn is_empty(&self) -> bool
        ensures none { result ≡ true → (number : ℕ) → labels_under self.now number ≡ [] }
        ensures some { result ≡ false
            → (number : ℕ) × (label : ℕ) × Contains (labels_under self.now number) label }
    {
        self.under.is_empty()
    }

    /// Returns the labels that wait for the element.
    pub fn under(&self, number: u32) -> &[u32]
        ensures { result.now ≡ labels_under self.now number }
    {
        match self.under.get(&number) {
            Some(labels) => labels.as_slice(),
            None => &[],
        }
    }

    /// Adds the label to those that wait for the element.
    ///
    /// # Errors
    ///
    /// `NoMemory` if allocation fails; the labels are unchanged.
    pub fn add(&mut self, number: u32, label: u32) -> Result<(), NoMemory>
        ensures added { OnOk result (labels_under self.new number ≡ labels_under self.old number ++ label ∷ []) }
        ensures others { (other : ℕ) → other ≢ number
            → labels_under self.new other ≡ labels_under self.old other }
        ensures err { OnErr result (labels_under self.new number ≡ labels_under self.old number) }
    {
        if let Some(labels) = self.under.get_mut(&number) {
            labels.push(label)?;
            return Ok(());
        }
        let labels = vec![in self.alloc; label]?;
        self.under.insert(number, labels)?;
        Ok(())
    }

    /// Removes all labels that wait for the element.
    pub fn free(&mut self, number: u32)
        ensures freed { labels_under self.new number ≡ [] }
        ensures others { (other : ℕ) → other ≢ number
            → labels_under self.new other ≡ labels_under self.old other }
    {
        let _ = self.under.remove(&number);
    }
}
