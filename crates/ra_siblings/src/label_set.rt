//! A set of labels, in the order of their numbers.
ghost use Rattle.std.specs.Prelude.{◌≡◌, ◌↔◌, ◌⊎◌, ℕ, ◌<◌, ◌≤◌, [], ◌∷◌, true, not, filter, length, get_or, insert, Contains, IsTrue, IfOk, OnOk, OnErr};
ghost use Rattle.ra_labels.specs.Lists.{is_among, rises};

use ra_labels::NoMemory;
use std::alloc::Global;
use std::marker::Model;

/// A set of labels, each once, by increasing number.
#[derive(Drop)]
pub struct LabelSet {
    /// The labels.
    labels: Vec<u32>,
}

impl Model for LabelSet {
    ghost use Rattle.std.specs.Prelude.{◌≡◌, ℕ, List, true};
    ghost use Rattle.ra_labels.specs.Lists.{rises};

    ghost Value = { List ℕ };

    ghost view = { λ a. a.labels.items };

    ghost invariant = { λ a. rises a.labels.items ≡ true };
}

impl LabelSet {
    /// Creates a set of no labels. Does not allocate.
    pub fn new(alloc: Global) -> LabelSet
        // The set is empty.
        ensures { result ≡ [] }
    {
        LabelSet {
            labels: Vec::new(alloc),
        }
    }

    /// Creates the set of one label.
    ///
    /// # Errors
    ///
    /// `NoMemory` if allocation fails.
    pub fn of(alloc: Global, label: u32) -> Result<LabelSet, NoMemory>
        // The set has the label alone.
        ensures { IfOk result (λ set. set ≡ label ∷ []) }
    {
        let mut labels = Vec::new(alloc);
        labels.push(label)?;
        Ok(LabelSet { labels })
    }

    /// Does nothing. Its clause states for the proofs of callers what holds of every `LabelSet`.
    pub fn invariant(&self)
        // The labels increase strictly.
        ensures { rises self.now ≡ true }
    {
        let _count = self.labels.len();
    }

    /// Returns the labels, in the order of their numbers.
    pub fn as_slice(&self) -> &[u32]
        // The result is the list of the labels.
        ensures { result.now ≡ self.now }
    {
        self.labels.as_slice()
    }

    /// Returns `true` if the label is in the set.
    ///
    /// # Complexity
    ///
    /// O(n) for `n` labels.
    pub fn contains(&self, label: u32) -> bool
        // The result is `true` exactly if the label is in the set.
        ensures { IsTrue result ↔ Contains self.now label }
    {
        self.labels.contains(&label)
    }

    /// Returns an equal set that owns its memory.
    ///
    /// # Errors
    ///
    /// `NoMemory` if allocation fails.
    ///
    /// # Complexity
    ///
    /// O(n) for `n` labels.
    pub fn copy(&self) -> Result<LabelSet, NoMemory>
        // The copy has the same labels.
        ensures { IfOk result (λ copy. copy ≡ self.now) }
    {
        Ok(LabelSet {
            labels: self.labels.clone()?,
        })
    }

    /// Returns the set without the replaced labels, and with another label.
    ///
    /// # Errors
    ///
    /// `NoMemory` if allocation fails.
    ///
    /// # Complexity
    ///
    /// O(n + m) for `n` labels and `m` replaced ones.
    pub fn replace(&self, replaced: &LabelSet, label: u32) -> Result<LabelSet, NoMemory>
        // The label is not in the set.
        requires { ¬ Contains self.now label }
        // The result has the label, and the labels of the set that are not replaced.
        ensures { IfOk result (λ set. (m : ℕ) → Contains set m
            ↔ ((label ≡ m) ⊎ (Contains self.now m × (¬ Contains replaced.now m)))) }
    {
        let alloc = *self.labels.allocator();
        Ok(LabelSet {
            labels: replace(alloc, &self.labels, &replaced.labels, label)?,
        })
    }
}

// Returns the labels that are not replaced, and another label, by increasing number.
fn replace(
    alloc: Global,
    labels: &[u32],
    replaced: &[u32],
    label: u32,
) -> Result<Vec<u32>, NoMemory>
    requires rising { rises labels.now ≡ true }
    requires others { rises replaced.now ≡ true }
    requires new { ¬ Contains labels.now label }
    ensures rising { IfOk result (λ set. rises set.items ≡ true) }
    ensures members { IfOk result (λ set. (m : ℕ) → Contains set.items m
        ↔ ((label ≡ m) ⊎ (Contains labels.now m × (¬ Contains replaced.now m)))) }
{
    let mut kept = without(alloc, labels, replaced)?;
    let index = first_at_least(&kept, 0, label);
    kept.insert(index, label)?;
    Ok(kept)
}

// Returns the labels that are not replaced.
fn without(alloc: Global, labels: &[u32], replaced: &[u32]) -> Result<Vec<u32>, NoMemory>
    requires rising { rises labels.now ≡ true }
    requires others { rises replaced.now ≡ true }
    ensures { IfOk result (λ kept. kept.items ≡ filter (λ m. not (is_among m replaced.now)) labels.now) }
{
    let mut kept = Vec::with_capacity(alloc, labels.len())?;
    // The replaced labels before this index are less than all labels that are left.
    let mut next = 0;
    for label in labels {
        next = first_at_least(replaced, next, *label);
        if !is_at(replaced, next, *label) {
            kept.push(*label)?;
        }
    }
    Ok(kept)
}

// Returns the first index from this one on whose label is not less than the given one, or the length if there is none.
fn first_at_least(labels: &[u32], from: usize, label: u32) -> usize
    requires { from ≤ length labels.now }
    ensures within { (from ≤ result) × (result ≤ length labels.now) }
    ensures below { (i : ℕ) → from ≤ i → i < result → get_or labels.now i 0 < label }
    ensures at { result < length labels.now → label ≤ get_or labels.now result 0 }
{
    let mut index = from;
    while index < labels.len() && labels[index] < label {
        index += 1;
    }
    index
}

// Returns `true` if the label is at this index.
fn is_at(labels: &[u32], index: usize, label: u32) -> bool
    ensures { IsTrue result ↔ ((index < length labels.now) × (get_or labels.now index 0 ≡ label)) }
{
    match labels.get(index) {
        Some(other) => *other == label,
        None => false,
    }
}
