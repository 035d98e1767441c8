//! Which label inserts what a label needs.
ghost use Rattle.std.specs.Prelude.{IfOk};
ghost use Rattle.std.specs.Ordering.{nat_cmp};
ghost use Rattle.std.specs.BTreeMap.{get};
ghost use Rattle.ra_rga_precedence.specs.Situation.{operations_in};
ghost use Rattle.ra_rga_precedence.specs.Needing.{IsNeed, AreNeeds};

use crate::operations::element_needed;
use ra_labels::{NoMemory, Op};
use std::alloc::Global;
use std::collections::BTreeMap;

/// What one label needs.
pub enum Need {
    /// No element, or the root as the anchor.
    Nothing,
    /// An element that this label inserts.
    Inserted(u32),
    /// An element that no label inserts, or the root as what is removed.
    Absent,
}

/// What each label needs.
#[derive(Drop)]
pub enum Needs {
    /// The label that inserts what the label needs, if it needs an element, by label.
    Each(Vec<Option<u32>>),
    /// A label that needs what no label inserts.
    Absent(u32),
}

/// Returns which label inserts what each label below the count needs.
///
/// # Errors
///
/// `NoMemory` if allocation fails.
///
/// # Complexity
///
/// O(n · log n), where `n` is the count.
pub fn needed_labels(
    alloc: Global,
    operations: &[&Op],
    count: u32,
    inserters: &BTreeMap<u32, u32>,
) -> Result<Needs, NoMemory>
    ensures { IfOk result (AreNeeds (operations_in operations.now) count (get nat_cmp inserters.now)) }
{
    let mut labels = Vec::new(alloc);
    for label in 0..count {
        match need_of(operations, inserters, label) {
            Need::Nothing => labels.push(None)?,
            Need::Inserted(inserter) => labels.push(Some(inserter))?,
            Need::Absent => return Ok(Needs::Absent(label)),
        }
    }
    Ok(Needs::Each(labels))
}

/// Returns what the label needs.
pub fn need_of(operations: &[&Op], inserters: &BTreeMap<u32, u32>, label: u32) -> Need
    ensures { IsNeed (operations_in operations.now) (get nat_cmp inserters.now) label result }
{
    match element_needed(operations, label) {
        None => Need::Nothing,
        Some(element) => match inserters.get(&element) {
            Some(inserter) => Need::Inserted(*inserter),
            None => Need::Absent,
        },
    }
}
