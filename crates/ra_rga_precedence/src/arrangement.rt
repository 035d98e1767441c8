//! The list of an RGA's elements, given an order of the labels.
ghost use Rattle.std.specs.Prelude.{◌<◌, ℕ, length, Contains, IfOk, IfSome};
ghost use Rattle.ra_rga_precedence.specs.Nearest.{AreElementsOf};
ghost use Rattle.ra_rga_precedence.specs.Situation.{operations_in};

use crate::operations::element_inserted;
use crate::reported::{is_marked, label_at};
use ra_labels::{NoMemory, Op};
use ra_visibility::Seen;
use std::alloc::Global;

/// Returns the marked labels in the order of their elements, if the visible insertions take place in this order, each
/// one directly behind its anchor.
///
/// # Errors
///
/// `NoMemory` if allocation fails.
///
/// # Complexity
///
/// O(n), where `n` is the number of labels. The depth of the tree of insertions does not matter.
pub fn labels_in_order(
    alloc: Global,
    operations: &[&Op],
    needed: &[Option<u32>],
    seen: &Seen<'_>,
    shown: &[bool],
    order: &[u32],
) -> Result<Vec<u32>, NoMemory>
    ensures { IfOk result (λ labels. (m : ℕ) → Contains labels.items m → m < length shown.now) }
{
    let mut first: Option<u32> = None;
    let mut next: Vec<Option<u32>> = Vec::new(alloc);
    next.resize(shown.len(), None)?;
    for label in order {
        if seen.has(*label) && element_inserted(operations, *label).is_some() {
            match label_at(needed, *label) {
                None => {
                    set_next(&mut next, *label, first);
                    first = Some(*label);
                }
                Some(anchor) => {
                    let behind = label_at(&next, anchor);
                    set_next(&mut next, *label, behind);
                    set_next(&mut next, anchor, Some(*label));
                }
            }
        }
    }
    marked_from(alloc, first, &next, shown)
}

// Returns the marked ones of the labels from the first one on.
fn marked_from(
    alloc: Global,
    first: Option<u32>,
    next: &[Option<u32>],
    shown: &[bool],
) -> Result<Vec<u32>, NoMemory>
    ensures { IfOk result (λ labels. (m : ℕ) → Contains labels.items m → m < length shown.now) }
{
    let mut labels = Vec::new(alloc);
    let mut at = first;
    for _ in 0..next.len() {
        let Some(label) = at else {
            break;
        };
        if is_marked(shown, label) {
            labels.push(label)?;
        }
        at = label_at(next, label);
    }
    Ok(labels)
}

/// Returns the elements that the labels insert, or `None` if one of them is no insertion.
///
/// # Errors
///
/// `NoMemory` if allocation fails.
///
/// # Complexity
///
/// O(l), where `l` is the number of these labels.
pub fn elements_at(
    alloc: Global,
    operations: &[&Op],
    labels: &[u32],
) -> Result<Option<Vec<u32>>, NoMemory>
    ensures { IfOk result (λ found. IfSome found (λ elements.
        AreElementsOf (operations_in operations.now) labels.now elements.items)) }
{
    let mut elements = Vec::new(alloc);
    for label in labels {
        match element_inserted(operations, *label) {
            Some(element) => elements.push(element)?,
            None => return Ok(None),
        }
    }
    Ok(Some(elements))
}

fn set_next(next: &mut [Option<u32>], label: u32, to: Option<u32>) {
    if let Some(it) = next.get_mut(label as usize) {
        *it = to;
    }
}
