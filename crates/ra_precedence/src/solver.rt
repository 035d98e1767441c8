//! Conditions on an order that are asked about several times.
ghost use Rattle.std.specs.Prelude.{◌≡◌, ◌<◌, ◌^◌, ◌==◌, ◌↔◌, ℕ, List, [], ◌∷◌, ◌++◌, get_or, length, Contains, IfOk};
ghost use Rattle.ra_labels.specs.Edges.{EachOnce};
ghost use Rattle.ra_precedence.specs.Conditions.{Condition, NameOnlyBelow};
ghost use Rattle.ra_precedence.specs.Placing.{AreUses};
ghost use Rattle.ra_precedence.specs.Lasts.{IsReady, count_of, AreLasts, AreOpenOnce, AreAllButHeld, holding};

use crate::condition::Condition;
use crate::open::{count_all, open_counts};
use crate::placing::place_all;
use crate::uses::Uses;
use ra_labels::NoMemory;
use std::alloc::Global;

/// Conditions on an order of the labels below a count, prepared for several questions.
#[derive(Drop)]
pub struct Solver {
    conditions: Vec<Condition>,
    // Which conditions each label can meet.
    uses: Uses,
    // In how many conditions each label is open if none is met.
    counts: Vec<u32>,
}

impl Solver {
    /// Prepares the conditions.
    ///
    /// # Errors
    ///
    /// `NoMemory` if allocation fails, if a label is in `before` of the conditions 2^32 times, or if there are more
    /// than 2^32 conditions.
    ///
    /// # Complexity
    ///
    /// O(n), with `n` the count and the length of the conditions.
    pub fn new(alloc: Global, count: u32, conditions: Vec<Condition>) -> Result<Solver, NoMemory>
        // The conditions name labels below the count.
        requires { NameOnlyBelow count conditions.items }
        // The solver is ready for questions.
        ensures ready { IfOk result IsReady }
        // They are about the labels below the count.
        ensures count { IfOk result (λ solver. count_of solver ≡ count) }
        // They are about these conditions.
        ensures conditions { IfOk result (λ solver. solver.conditions.items ≡ conditions.items) }
    {
        let counts = open_counts(alloc, count as usize, &conditions)?;
        let uses = Uses::of_conditions(alloc, count as usize, &conditions)?;
        Ok(Solver {
            conditions,
            uses,
            counts,
        })
    }

    /// Returns the labels of the set that can be the last one of the set.
    ///
    /// # Errors
    ///
    /// `NoMemory` if allocation fails, or if a label is in `before` of the conditions 2^32 times.
    ///
    /// # Complexity
    ///
    /// O(n), with `n` the count and the number of conditions; and the length of the conditions of the labels that need
    /// not come before one of the set.
    pub fn last_of(&mut self, alloc: Global, set: &[u32]) -> Result<Vec<u32>, NoMemory>
        // The solver is ready for questions.
        requires ready { IsReady self.old }
        // The set has only labels below the count.
        requires below { (b : ℕ) → Contains set.now b → b < count_of self.old }
        // The solver stays ready.
        ensures ready { IsReady self.new }
        // Its questions are about the same labels.
        ensures count { count_of self.new ≡ count_of self.old }
        // They are about the same conditions.
        ensures conditions { self.new.conditions.items ≡ self.old.conditions.items }
        // If an order of all labels meets the conditions, these are exactly the labels of the set that come after all
        // others of the set in some such order.
        ensures lasts { IfOk result (λ lasts.
            AreLasts (count_of self.old) self.old.conditions.items set.now lasts.items) }
    {
        let labels = distinct(alloc, self.counts.len(), set)?;
        let held_back = Condition::new(alloc, 0, &labels, &[])?;
        self.conditions.push(held_back)?;
        let lasts = last_among(alloc, &self.conditions, &self.uses, &self.counts, &labels);
        self.conditions.pop();
        lasts
    }
}

// Returns the labels of the set, each once.
fn distinct(alloc: Global, count: usize, set: &[u32]) -> Result<Vec<u32>, NoMemory>
    requires { (b : ℕ) → Contains set.now b → b < count }
    ensures once { IfOk result (λ labels. EachOnce labels.items) }
    ensures same { IfOk result (λ labels. (b : ℕ) → Contains labels.items b ↔ Contains set.now b) }
{
    let mut marks = Vec::new(alloc);
    marks.resize(count, false)?;
    let mut labels = Vec::new(alloc);
    for label in set {
        let at = *label as usize;
        if !marks[at] {
            marks[at] = true;
            labels.push(*label)?;
        }
    }
    Ok(labels)
}

// Returns the labels of the set that are open only in the last condition, by which none of the set is placed, once all
// others that can be placed are.
fn last_among(
    alloc: Global,
    conditions: &[Condition],
    uses: &Uses,
    counts: &Vec<u32>,
    set: &[u32],
) -> Result<Vec<u32>, NoMemory>
    requires named { NameOnlyBelow (length counts.now.items) conditions.now }
    requires used { AreUses conditions.now uses.now }
    requires lists { length uses.now ≡ length counts.now.items }
    requires counted { AreAllButHeld conditions.now counts.now.items set.now }
    requires below { (b : ℕ) → Contains set.now b → b < length counts.now.items }
    requires fits { length counts.now.items < 2 ^ 32 }
    ensures { IfOk result (λ lasts. (asked : List Condition) → conditions.now ≡ asked ++ holding set.now ∷ []
        → NameOnlyBelow (length counts.now.items) asked → EachOnce set.now
        → AreLasts (length counts.now.items) asked set.now lasts.items) }
{
    let mut numbers = counts.clone()?;
    count_all(&mut numbers, set)?;
    place_all(alloc, conditions, uses, &mut numbers)?;
    open_once(alloc, &numbers, set)
}

// Returns the labels of the set that are open in one condition.
fn open_once(alloc: Global, numbers: &[u32], set: &[u32]) -> Result<Vec<u32>, NoMemory>
    ensures { IfOk result (λ found. AreOpenOnce numbers.now set.now found.items) }
{
    let mut found = Vec::new(alloc);
    for label in set {
        if is_one(numbers, *label) {
            found.push(*label)?;
        }
    }
    Ok(found)
}

// Returns `true` if the number of the label is 1.
fn is_one(numbers: &[u32], label: u32) -> bool
    ensures { result ≡ (get_or numbers.now label 0 == 1) }
{
    match numbers.get(label as usize) {
        Some(number) => *number == 1,
        None => false,
    }
}
