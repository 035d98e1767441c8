//! An update that a label sees without what it depends on.
use crate::origin::operation_of;
use crate::places::Places;
use ra_journal::Entry;
use ra_labels::{Command, ListOp, NoMemory, Op, Reply};
use ra_monitor::Monitor;
use std::alloc::Global;

/// An update that depends on an element, and the label that inserts this element.
#[derive(Clone, Copy, Debug, PartialEq, Eq)]
pub struct Unmet {
    /// The update's label.
    pub label: u32,
    /// The element that it depends on.
    pub element: u32,
    /// The label that inserts the element.
    pub missing: u32,
}

/// Returns the first update in the named order that the replica has, and whose element is inserted by a label that it
/// lacks.
///
/// # Errors
///
/// `NoMemory` if an allocation fails.
///
/// # Complexity
///
/// The cost of the named sequence, and O(log n) for each part and each of the `n` missing labels.
pub fn unmet_by(
    alloc: Global,
    monitor: &Monitor,
    places: &Places,
    lacking: &[u32],
) -> Result<Option<Unmet>, NoMemory> {
    let log = monitor.log();
    let missing = insertions_among(alloc, log, places, lacking)?;
    for part in &monitor.sequence()? {
        if lacking.binary_search(&part.label).is_err() {
            let unmet = need_of(log, places, &missing, part.label);
            if unmet.is_some() {
                return Ok(unmet);
            }
        }
    }
    Ok(None)
}

// Returns the elements that these labels insert, in ascending order, each with its label.
fn insertions_among(
    alloc: Global,
    log: &[Entry<Command, Reply>],
    places: &Places,
    labels: &[u32],
) -> Result<Vec<(u32, u32)>, NoMemory> {
    let mut found = Vec::new(alloc);
    for label in labels {
        if let Some(Op::After { element, .. }) = operation_of(log, places, *label) {
            found.push((*element, *label))?;
        }
    }
    found.sort_unstable();
    Ok(found)
}

// Returns the missing element that the label depends on, if there is one.
fn need_of(
    log: &[Entry<Command, Reply>],
    places: &Places,
    missing: &[(u32, u32)],
    label: u32,
) -> Option<Unmet> {
    let needed = needed_by(operation_of(log, places, label)?)?;
    match missing.binary_search_by_key(&needed, |insertion| insertion.0) {
        Ok(place) => missing.get(place).map(|insertion| Unmet {
            label,
            element: insertion.0,
            missing: insertion.1,
        }),
        Err(_) => None,
    }
}

/// Returns the elements that an operation of a list names besides a new one: the neighbours of an insertion, or the
/// element of a removal. Where there is none, 0.
pub fn named_by(op: &Op) -> [u32; 2] {
    match op {
        Op::List(ListOp::Insert(insertion)) => [insertion.left, insertion.right],
        Op::List(ListOp::Remove(element)) => [*element, 0],
        _ => [0, 0],
    }
}

/// Returns the element that an RGA's operation depends on: the anchor of an insertion, or the element of a removal.
pub fn needed_by(op: &Op) -> Option<u32> {
    match op {
        Op::After { anchor, .. } => Some(*anchor),
        Op::RgaRemove(element) => Some(*element),
        _ => None,
    }
}
