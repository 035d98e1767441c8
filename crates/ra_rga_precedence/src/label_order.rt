//! An order of all labels, with each read in a valid position.
ghost use Rattle.std.specs.Prelude.{◌≡◌, IfOk, map};
ghost use Rattle.ra_labels.specs.HistorySoFar.{History};
ghost use Rattle.ra_visibility.specs.Tracked.{labels_in};
ghost use Rattle.ra_precedence.specs.Conditions.{HasEachBelow};
ghost use Rattle.ra_some_order.specs.Covering.{ExtendsVisibility};
ghost use Rattle.ra_some_order.specs.LabelOrders.{IsOrderOfLabels};
ghost use Rattle.ra_rga_precedence.specs.Situation.{operations_in, IsHistoryOf};
ghost use Rattle.ra_rga_precedence.specs.LabelSlots.{AreSlots, KeepsOrderOfUpdates};

use crate::operations::is_update;
use crate::ranks::ranks_of;
use ra_labels::{NoMemory, Op};
use ra_visibility::Tracker;
use std::alloc::Global;

/// Returns all labels: the updates as in `order`, and each read directly before the next update of its replica, or
/// behind all updates if there is none. Reads between the same two updates are in ascending order. The clause says only
/// that a read comes after what it sees and after the earlier labels of its replica.
///
/// # Errors
///
/// `NoMemory` if allocation fails.
///
/// # Complexity
///
/// O(n · log n + r) for `n` labels of `r` replicas.
pub fn place_reads(
    alloc: Global,
    tracker: &Tracker,
    operations: &[&Op],
    order: &[u32],
) -> Result<Vec<u32>, NoMemory>
    // The order has each label once.
    requires { HasEachBelow (labels_in tracker.now.now) order.now }
    // Of each history that the tracker and the operations represent, if each update of the order comes after those that
    // it sees: the result has each label once, after the updates that it sees and the earlier labels of its replica,
    // and has the updates in the order of `order`.
    ensures { IfOk result (λ labels. (past : History)
        → IsHistoryOf tracker.now.now (operations_in operations.now) past → ExtendsVisibility past.records order.now
        → IsOrderOfLabels past.records labels.items × KeepsOrderOfUpdates past.records order.now labels.items) }
{
    let mut slots = slots_of(alloc, tracker, operations, order)?;
    slots.sort_unstable();
    labels_at(alloc, &slots)
}

// Returns the label of each slot.
fn labels_at(alloc: Global, slots: &[(usize, u32)]) -> Result<Vec<u32>, NoMemory>
    ensures { IfOk result (λ labels. labels.items ≡ map (λ slot. slot.1) slots.now) }
{
    let mut labels = Vec::new(alloc);
    for slot in slots {
        labels.push(slot.1)?;
    }
    Ok(labels)
}

// Returns each label with its slot: the rank of the first update of its replica that is no earlier label, or one behind
// all ranks if there is none.
fn slots_of(
    alloc: Global,
    tracker: &Tracker,
    operations: &[&Op],
    order: &[u32],
) -> Result<Vec<(usize, u32)>, NoMemory>
    requires { HasEachBelow (labels_in tracker.now.now) order.now }
    ensures each { IfOk result (λ slots. HasEachBelow (labels_in tracker.now.now) (map (λ slot. slot.1) slots.items)) }
    ensures slots { IfOk result (λ slots. (past : History)
        → IsHistoryOf tracker.now.now (operations_in operations.now) past → ExtendsVisibility past.records order.now
        → AreSlots past.records order.now slots.items) }
{
    let count = tracker.labels();
    let ranks = ranks_of(alloc, count, order)?;
    let mut next: Vec<usize> = Vec::new(alloc);
    next.resize(tracker.replicas() as usize, order.len() + 1)?;
    let mut slots = Vec::new(alloc);
    for done in 0..count {
        let label = count - done - 1;
        let replica = tracker.issuer(label) as usize;
        if is_update(operations, label) {
            next[replica] = ranks[label as usize];
        }
        slots.push((next[replica], label))?;
    }
    Ok(slots)
}
