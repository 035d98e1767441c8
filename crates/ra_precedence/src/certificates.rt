//! Whether a stuck set and its reasons are valid.
ghost use Rattle.std.specs.Prelude.{◌≡◌, ◌<◌, ◌⊎◌, ℕ, true, false, Some, IsTrue, IfOk, Contains, get_or, slice_get, length};
ghost use Rattle.ra_precedence.specs.declared.reasons.Held.{Held};
ghost use Rattle.ra_precedence.specs.Conditions.{IsStuck};
ghost use Rattle.ra_precedence.specs.Reasons.{AreHeld, AreReasons};
ghost use Rattle.ra_precedence.specs.Certificates.{AreAmong, AreHeldBack, IsHeldBy};

use crate::condition::Condition;
use crate::reasons::{Held, StuckSet, are_closed, is_marked};
use ra_labels::NoMemory;
use std::alloc::Global;

/// Returns `true` if none of the labels of the set can be the last one of them by these conditions, and the reasons are
/// valid. So a stuck set can be checked without knowing how it was found.
///
/// The result is also `false` if a label is not below the count, if two reasons are about one label, or if a reason
/// differs from its condition in `by` or in the order of `after`; no clause says so.
///
/// # Errors
///
/// `NoMemory` if allocation fails.
///
/// # Complexity
///
/// O(n · m), with `n` the count and the length of the conditions, the set and the reasons, and `m` that of the longest
/// condition.
pub fn is_valid_stuck_set(
    alloc: Global,
    count: u32,
    conditions: &[Condition],
    set: &StuckSet,
) -> Result<bool, NoMemory>
    // If the result is `true`, the set is stuck: for each of its labels, a condition rules out that it is the last one.
    ensures stuck { IfOk result (λ is. IsTrue is → IsStuck conditions.now set.now.labels.items) }
    // If it is `true`, each reason is that of a condition, and each label that a reason names as a later one has a
    // reason itself.
    ensures reasons { IfOk result (λ is. IsTrue is → AreReasons conditions.now set.now.reasons.items) }
    // If it is `true`, each reason is about a label of the set.
    ensures among { IfOk result (λ is. IsTrue is → (held : Held) → Contains set.now.reasons.items held
        → Contains set.now.labels.items held.label) }
{
    if !are_stuck(alloc, count, conditions, &set.labels)? {
        return Ok(false);
    }
    if !are_about(alloc, count, &set.labels, &set.reasons)? {
        return Ok(false);
    }
    if !are_valid(alloc, count, conditions, &set.reasons)? {
        return Ok(false);
    }
    let closed = are_closed(alloc, count, &set.reasons)?;
    Ok(closed)
}

// Returns `true` if a condition keeps each of the labels from being the last one of them, and there is a label.
fn are_stuck(
    alloc: Global,
    count: u32,
    conditions: &[Condition],
    labels: &[u32],
) -> Result<bool, NoMemory>
    ensures { IfOk result (λ is. IsTrue is → IsStuck conditions.now labels.now) }
{
    if labels.is_empty() {
        return Ok(false);
    }
    let mut marks = no_marks(alloc, count)?;
    mark_all(&mut marks, labels);
    let held = held_back(alloc, count, conditions, &marks)?;
    Ok(are_marked(&held, labels))
}

// Returns `true` if each reason is about one of the labels.
fn are_about(alloc: Global, count: u32, labels: &[u32], reasons: &[Held]) -> Result<bool, NoMemory>
    ensures { IfOk result (λ are. IsTrue are → (held : Held) → Contains reasons.now held
        → Contains labels.now held.label) }
{
    let mut marks = no_marks(alloc, count)?;
    mark_all(&mut marks, labels);
    for held in reasons {
        if !is_marked(&marks, held.label) {
            return Ok(false);
        }
    }
    Ok(true)
}

// Returns a mark for each label below the count, none of them set.
fn no_marks(alloc: Global, count: u32) -> Result<Vec<bool>, NoMemory>
    ensures { IfOk result (λ marks. (c : ℕ) → get_or marks.items c false ≡ false) }
{
    let mut marks = Vec::new(alloc);
    marks.resize(count as usize, false)?;
    Ok(marks)
}

// Marks the labels, but for those that have no mark.
fn mark_all(marks: &mut Vec<bool>, labels: &[u32])
    ensures { AreAmong labels.now marks.old.items marks.new.items }
{
    for label in labels {
        let at = *label as usize;
        if at < marks.len() {
            marks[at] = true;
        }
    }
}

// Returns `true` if all of the labels are marked.
fn are_marked(marks: &[bool], labels: &[u32]) -> bool
    ensures { IsTrue result → (c : ℕ) → Contains labels.now c → get_or marks.now c false ≡ true }
{
    for label in labels {
        if !is_marked(marks, *label) {
            return false;
        }
    }
    true
}

// Returns for each label below the count whether a condition says that it stands before marked labels only.
fn held_back(
    alloc: Global,
    count: u32,
    conditions: &[Condition],
    marks: &[bool],
) -> Result<Vec<bool>, NoMemory>
    ensures { IfOk result (λ held. AreHeldBack conditions.now marks.now held.items) }
{
    let mut held = no_marks(alloc, count)?;
    for condition in conditions {
        if are_marked(marks, condition.after()) {
            mark_all(&mut held, condition.before());
        }
    }
    Ok(held)
}

// Returns `true` if each reason is that of a condition.
fn are_valid(
    alloc: Global,
    count: u32,
    conditions: &[Condition],
    reasons: &[Held],
) -> Result<bool, NoMemory>
    ensures { IfOk result (λ are. IsTrue are → AreHeld conditions.now reasons.now) }
{
    let positions = reason_positions(alloc, count, reasons)?;
    let mut found = Vec::new(alloc);
    found.resize(reasons.len(), false)?;
    for condition in conditions {
        find_reasons(&mut found, condition, &positions, reasons);
    }
    Ok(are_all_set(&found))
}

// Returns `true` if all marks are set.
fn are_all_set(marks: &[bool]) -> bool
    ensures { IsTrue result → (i : ℕ) → i < length marks.now → get_or marks.now i false ≡ true }
{
    for mark in marks {
        if !*mark {
            return false;
        }
    }
    true
}

// Returns the position of each label's reason, counted from 1; 0 if it has none.
fn reason_positions(alloc: Global, count: u32, reasons: &[Held]) -> Result<Vec<usize>, NoMemory> {
    let mut positions: Vec<usize> = Vec::new(alloc);
    positions.resize(count as usize, 0)?;
    for (index, held) in reasons.iter().enumerate() {
        let at = held.label as usize;
        if at < positions.len() {
            positions[at] = index + 1;
        }
    }
    Ok(positions)
}

// Marks the reasons of the condition.
fn find_reasons(found: &mut Vec<bool>, condition: &Condition, positions: &[usize], reasons: &[Held])
    ensures len { length found.new.items ≡ length found.old.items }
    ensures held { (i : ℕ) → get_or found.new.items i false ≡ true → (get_or found.old.items i false ≡ true)
        ⊎ ((held : Held) × (slice_get reasons.now i ≡ Some held) × IsHeldBy condition.now held) }
{
    for label in condition.before() {
        let position = match positions.get(*label as usize) {
            Some(position) => *position,
            None => 0,
        };
        if position == 0 || position > reasons.len() || position > found.len() {
            continue;
        }
        if is_held_by(&reasons[position - 1], condition, *label) {
            found[position - 1] = true;
        }
    }
}

// Returns `true` if the reason is that of the condition for this label.
fn is_held_by(held: &Held, condition: &Condition, label: u32) -> bool
    requires { Contains condition.now.before label }
    ensures { IsTrue result → IsHeldBy condition.now held.now }
{
    held.label == label && held.by == condition.by() && held.after.as_slice() == condition.after()
}
