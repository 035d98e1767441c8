//! The condition of one element of a read of an LWW set.
ghost use Rattle.std.specs.Prelude.{◌≡◌, ◌++◌, ℕ, IfOk, OnOk, not, filter};
ghost use Rattle.std.specs.BTreeSet.{contains};
ghost use Rattle.std.specs.Ordering.{nat_cmp};
ghost use Rattle.ra_labels.specs.Lists.{is_among};
ghost use Rattle.ra_any_order.specs.Changes.{list_of};
ghost use Rattle.ra_any_order.specs.Elements.{leads, narrow_element, is_possible_element, AreNewestOf};
ghost use Rattle.ra_any_order.specs.Reading.{passes_at};
ghost use Rattle.ra_any_order.specs.Situation.{operations_in};
ghost use Rattle.ra_any_order.specs.Standings.{some_leads};

use crate::operations::operation_at;
use ra_labels::{NoMemory, Op};
use ra_precedence::Condition;
use std::alloc::Global;
use std::collections::{BTreeMap, BTreeSet};

/// Returns the newest update of the element by each replica.
///
/// # Errors
///
/// `NoMemory` if allocation fails.
///
/// # Complexity
///
/// O(r · log n), where `r` is the number of replicas and `n` that of updates.
pub fn newest_of(
    alloc: Global,
    newest: &BTreeMap<(u32, u8), u32>,
    replicas: u8,
    element: u32,
) -> Result<Vec<u32>, NoMemory>
    ensures { IfOk result (λ found. AreNewestOf newest.now element replicas found.items) }
{
    let mut found = Vec::new(alloc);
    for replica in 0..replicas {
        if let Some(update) = newest.get(&(element, replica)) {
            found.push(*update)?;
        }
    }
    Ok(found)
}

/// Returns the condition of a read that the last one of these updates is an addition of the element, if it is listed,
/// or a removal, if not.
///
/// # Errors
///
/// `NoMemory` if allocation fails.
pub fn element_condition(
    alloc: Global,
    operations: &[&Op],
    labels: &[u32],
    listed: bool,
    element: u32,
    read: u32,
) -> Result<Condition, NoMemory>
    ensures { IfOk result (λ condition. condition
        ≡ narrow_element (operations_in operations.now) labels.now listed element) }
{
    let mut before = Vec::new(alloc);
    let mut after = Vec::new(alloc);
    for label in labels {
        if leads_at(operations, listed, element, *label) {
            after.push(*label)?;
        }
        if leads_at(operations, !listed, element, *label) {
            before.push(*label)?;
        }
    }
    Condition::new(alloc, read, &before, &after)
}

/// Returns `true` if one of the labels adds the element, if it is listed, or removes it, if not.
pub fn some_leads(operations: &[&Op], labels: &[u32], listed: bool, element: u32) -> bool
    ensures { result ≡ some_leads (operations_in operations.now) listed element labels.now }
{
    labels
        .iter()
        .any(|label| leads_at(operations, listed, element, *label))
}

// Returns `true` if the label adds the element, if it is listed, or removes it, if not.
fn leads_at(operations: &[&Op], listed: bool, element: u32, label: u32) -> bool
    ensures { result ≡ passes_at (operations_in operations.now) (leads listed element) label }
{
    match operation_at(operations, label) {
        Some(Op::LwwAdd(added)) => listed && element == *added,
        Some(Op::LwwRemove(removed)) => !listed && element == *removed,
        _ => false,
    }
}

/// Returns `true` if one of the updates leads to the element's being listed or not, or if there is none and it is not.
pub fn is_possible_element(condition: &Condition, listed: bool) -> bool
    ensures { result ≡ is_possible_element condition.now listed }
{
    !condition.after().is_empty() || (!listed && condition.before().is_empty())
}

/// Returns the set of these elements.
///
/// # Errors
///
/// `NoMemory` if allocation fails.
///
/// # Complexity
///
/// O(l · log l), where `l` is the number of elements.
pub fn set_of(alloc: Global, elements: &[u32]) -> Result<BTreeSet<u32>, NoMemory>
    ensures { IfOk result (λ set. (x : ℕ) → contains nat_cmp set x ≡ is_among x elements.now) }
{
    let mut set = BTreeSet::new(alloc);
    for element in elements {
        set.insert(*element)?;
    }
    Ok(set)
}

/// Appends those of the elements that are not in the set.
///
/// # Errors
///
/// `NoMemory` if allocation fails.
pub fn push_others(
    found: &mut Vec<u32>,
    elements: &[u32],
    set: &BTreeSet<u32>,
) -> Result<(), NoMemory>
    ensures { OnOk result (found.new.items ≡ found.old.items
        ++ filter (λ x. not (contains nat_cmp set.now x)) elements.now) }
{
    for element in elements {
        if !set.contains(element) {
            found.push(*element)?;
        }
    }
    Ok(())
}

/// Returns the elements that the read of the label returned; none if there is no label.
pub fn list_of<'a>(operations: &[&'a Op], label: Option<u32>) -> &'a [u32]
    ensures { result.now ≡ list_of (operations_in operations.now) label }
{
    let Some(read) = label else {
        return &[];
    };
    match operation_at(operations, read) {
        Some(Op::LwwRead(list)) => list.as_slice(),
        _ => &[],
    }
}
