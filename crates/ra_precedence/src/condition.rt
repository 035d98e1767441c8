//! A condition on an order of labels.
ghost use Rattle.std.specs.Prelude.{◌≡◌, ◌<◌, ℕ, IsTrue, IfOk, Contains};
ghost use Rattle.ra_precedence.specs.Conditions.{NameOnlyBelow};

use ra_labels::NoMemory;
use smallvec::SmallVec;
use std::alloc::Global;
use std::marker::Model;

/// A condition on an order of labels: each label of `before` stands before at least one label of `after`.
#[derive(Drop)]
pub struct Condition {
    /// The label that requires it. Contracts do not see it.
    by: u32,
    /// How many of the labels are constrained.
    split: u32,
    /// The labels that are constrained, and behind them those of which one has to come later. Usually there are at most
    /// four, which need no allocation.
    labels: SmallVec<u32, 4>,
}

impl Model for Condition {
    ghost use Rattle.std.specs.Prelude.{take, drop};
    ghost use Rattle.ra_precedence.specs.Conditions.{Condition};

    ghost Value = { Condition };

    ghost view = { λ a. record { before = take a.split a.labels.items; after = drop a.split a.labels.items } };
}

impl Condition {
    /// Creates the condition that each label of `before` stands before at least one label of `after`. `by` is the label
    /// that requires it, for explanations: it does not affect any decision, and no clause mentions it.
    ///
    /// # Errors
    ///
    /// `NoMemory` if allocation fails, or if `before` has 2^32 labels or more.
    pub fn new(alloc: Global, by: u32, before: &[u32], after: &[u32]) -> Result<Condition, NoMemory>
        // The constrained labels are those of `before`.
        ensures before { IfOk result (λ it. it.before ≡ before.now) }
        // The later labels are those of `after`.
        ensures after { IfOk result (λ it. it.after ≡ after.now) }
    {
        let Ok(split) = u32::try_from(before.len()) else {
            return Err(NoMemory);
        };
        let mut labels = SmallVec::new(alloc);
        labels.extend_from_slice(before)?;
        labels.extend_from_slice(after)?;
        Ok(Condition { by, split, labels })
    }

    /// Returns the label that requires the condition, as it was given to `new`.
    pub fn by(&self) -> u32 {
        self.by
    }

    /// Returns the labels that are constrained.
    pub fn before(&self) -> &[u32]
        // The result is the list of the constrained labels.
        ensures { result.now ≡ self.now.before }
    {
        let labels = self.labels.as_slice();
        labels.get(..self.split as usize).unwrap_or(labels)
    }

    /// Returns the labels of which one has to come later.
    pub fn after(&self) -> &[u32]
        // The result is the list of the later labels.
        ensures { result.now ≡ self.now.after }
    {
        let labels = self.labels.as_slice();
        labels.get(self.split as usize..).unwrap_or(&[])
    }
}

/// Returns `true` if the conditions name only labels below the count, as `order_of` requires.
///
/// # Complexity
///
/// O(n), with `n` the length of the conditions.
pub fn name_only_below(count: u32, conditions: &[Condition]) -> bool
    // If the result is `true`, the conditions name only labels below the count.
    ensures { IsTrue result → NameOnlyBelow count conditions.now }
{
    for condition in conditions {
        if !are_below(count, condition.before()) || !are_below(count, condition.after()) {
            return false;
        }
    }
    true
}

/// Returns `true` if each of the labels is below the count, as `Solver::last_of` requires.
///
/// # Complexity
///
/// O(n), with `n` the number of labels.
pub fn are_below(count: u32, labels: &[u32]) -> bool
    // If the result is `true`, the labels are below the count.
    ensures { IsTrue result → (b : ℕ) → Contains labels.now b → b < count }
{
    for label in labels {
        if *label >= count {
            return false;
        }
    }
    true
}
