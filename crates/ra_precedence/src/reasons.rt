//! Why none of the labels of a stuck set can be the last one of them.
ghost use Rattle.std.specs.Prelude.{◌≡◌, false, IsTrue, Contains, IfOk, get_or};
ghost use Rattle.ra_precedence.specs.Reasons.{IsHeld, AreHeld, AreReasons, AreMarked, IsClosed};

use crate::condition::Condition;
use crate::subsets::{Pick, small_subset};
use ra_labels::NoMemory;
use std::alloc::Global;

/// Why a label cannot be the last one of some labels.
#[derive(Drop)]
pub struct Held {
    /// The label.
    pub label: u32,
    /// The labels before at least one of which it has to stand.
    pub after: Vec<u32>,
    /// The label that requires it. No clause speaks of it.
    pub by: u32,
}

/// A stuck set: none of its labels can be the last one of them in any order.
#[derive(Drop)]
pub struct StuckSet {
    /// The labels.
    pub labels: Vec<u32>,
    /// The reasons why none of a usually small subset can be its last label. Only tests show that there are reasons if
    /// the set is stuck, and that they form a cycle if each condition has one label in `after`: each label stands
    /// before that of the next reason, and the last one before the first.
    pub reasons: Vec<Held>,
}

/// Returns the stuck set of these labels, with the reasons why none of a small subset can be the last one of the
/// subset.
///
/// # Errors
///
/// `NoMemory` if allocation fails.
///
/// # Complexity
///
/// O(n · (log n + m)), with `n` the number of labels and the length of all conditions, and `m` that of the longest one.
pub fn stuck_set(
    alloc: Global,
    count: u32,
    conditions: &[Condition],
    labels: Vec<u32>,
) -> Result<StuckSet, NoMemory>
    // The labels are these.
    ensures labels { IfOk result (λ stuck. stuck.labels.items ≡ labels.items) }
    // Each reason is that of a condition: its label is one of `before`, and `after` is the same. Each of the labels of
    // `after` has a reason itself, so if there are any reasons, their labels are stuck.
    ensures reasons { IfOk result (λ stuck. AreReasons conditions.now stuck.reasons.items) }
{
    let picks = small_subset(alloc, count, conditions, &labels)?;
    let reasons = held_by(alloc, conditions, &picks)?;
    if are_closed(alloc, count, &reasons)? {
        return Ok(StuckSet { labels, reasons });
    }
    Ok(StuckSet {
        labels,
        reasons: Vec::new(alloc),
    })
}

// Returns the reasons of those of the labels that their conditions constrain.
fn held_by(alloc: Global, conditions: &[Condition], picks: &[Pick]) -> Result<Vec<Held>, NoMemory>
    ensures { IfOk result (λ reasons. AreHeld conditions.now reasons.items) }
{
    let mut reasons = Vec::new(alloc);
    for pick in picks {
        if pick.condition < conditions.len() {
            let condition = &conditions[pick.condition];
            if condition.before().contains(&pick.label) {
                reasons.push(held_of(alloc, condition, pick.label)?)?;
            }
        }
    }
    Ok(reasons)
}

// Returns the reason why the label is not the last one, by this condition.
fn held_of(alloc: Global, condition: &Condition, label: u32) -> Result<Held, NoMemory>
    requires { Contains condition.now.before label }
    ensures label { IfOk result (λ held. held.label ≡ label) }
    ensures after { IfOk result (λ held. held.after.items ≡ condition.now.after) }
{
    let mut after = Vec::new(alloc);
    after.extend_from_slice(condition.after())?;
    Ok(Held {
        label,
        after,
        by: condition.by(),
    })
}

/// Returns `true` if each label that a reason names as a later one has a reason itself.
///
/// # Errors
///
/// `NoMemory` if allocation fails.
///
/// # Complexity
///
/// O(n), with `n` the count and the length of the reasons.
pub fn are_closed(alloc: Global, count: u32, reasons: &[Held]) -> Result<bool, NoMemory>
    ensures { IfOk result (λ closed. IsTrue closed → IsClosed reasons.now) }
{
    let marks = marks_of(alloc, count, reasons)?;
    for held in reasons {
        for label in &held.after {
            if !is_marked(&marks, *label) {
                return Ok(false);
            }
        }
    }
    Ok(true)
}

/// Returns the label's mark, or `false` if there is none.
pub fn is_marked(marks: &[bool], label: u32) -> bool
    // The result is the label's mark, or `false` behind the last one.
    ensures { result ≡ get_or marks.now label false }
{
    match marks.get(label as usize) {
        Some(mark) => *mark,
        None => false,
    }
}

// Returns for each label below the count whether it has a reason.
fn marks_of(alloc: Global, count: u32, reasons: &[Held]) -> Result<Vec<bool>, NoMemory>
    ensures { IfOk result (λ marks. AreMarked reasons.now marks.items) }
{
    let mut marks = Vec::new(alloc);
    marks.resize(count as usize, false)?;
    for held in reasons {
        let at = held.label as usize;
        if at < marks.len() {
            marks[at] = true;
        }
    }
    Ok(marks)
}
