//! The newest update of each element of an LWW set by each replica, as a read finds them.
ghost use Rattle.std.specs.Prelude.{◌≡◌, ◌<◌, ◌+◌, ℕ, true, Some, OnOk, IfOk, IfSome};
ghost use Rattle.ra_labels.specs.HistorySoFar.{History};
ghost use Rattle.ra_labels.specs.Places.{issuer_of};
ghost use Rattle.ra_visibility.specs.Tracked.{labels_in, IsVisibilityOf};
ghost use Rattle.ra_any_order.specs.Changes.{is_seen_by, element_at, newer_than, IsViewBelow, IsTaken, IsPut, AreEarlier, ArePrevious, IsViewOf, AreChangesOf};
ghost use Rattle.ra_any_order.specs.Finding.{IsFinding, IsOfReplicaBelow, AreFound};
ghost use Rattle.ra_any_order.specs.Situation.{operations_in};

use crate::operations::operation_at;
use crate::views::View;
use ra_labels::{NoMemory, Op};
use ra_visibility::Tracker;
use std::alloc::Global;
use std::collections::BTreeMap;

/// Finds the newest updates that the read sees, where the view has those that the last read of its replica sees.
/// Returns the elements of those that the last read does not see, once for each replica that updated them.
///
/// # Errors
///
/// `NoMemory` if allocation fails.
///
/// # Complexity
///
/// O(r + k · log n), where `r` is the number of replicas, `n` that of labels, and `k` that of labels between an update
/// that the last read sees and one of the same replica that this read sees.
pub fn find_changes(
    alloc: Global,
    tracker: &Tracker,
    operations: &[&Op],
    previous: &[Option<u32>],
    view: &mut View,
    label: u32,
) -> Result<Vec<u32>, NoMemory>
    requires label { label < labels_in tracker.now.now }
    requires view { IsViewBelow (labels_in tracker.now.now) view.old }
    requires earlier { AreEarlier (labels_in tracker.now.now) previous.now }
    ensures below { OnOk result (IsViewBelow (labels_in tracker.now.now) view.new) }
    ensures last { OnOk result (view.new.last ≡ Some label) }
    ensures found { IfOk result (λ changed. (past : History)
        → AreChangesOf tracker.now.now (operations_in operations.now) past
        → ArePrevious past.records (labels_in tracker.now.now) previous.now
        → IsViewOf past.records (operations_in operations.now) (issuer_of past.records label) label view.old
        → AreFound past.records (operations_in operations.now) view.old.last label view.new.newest changed.items) }
{
    let mut changed = Vec::new(alloc);
    for replica in 0..tracker.replicas() {
        find_of_replica(
            tracker,
            operations,
            previous,
            view,
            &mut changed,
            label,
            replica,
        )?;
    }
    view.last = Some(label);
    Ok(changed)
}

// Finds the newest updates of one replica that the label sees. The later labels of this replica come first.
fn find_of_replica(
    tracker: &Tracker,
    operations: &[&Op],
    previous: &[Option<u32>],
    view: &mut View,
    changed: &mut Vec<u32>,
    label: u32,
    replica: u8,
) -> Result<(), NoMemory>
    requires label { label < labels_in tracker.now.now }
    requires view { IsViewBelow (labels_in tracker.now.now) view.old }
    requires earlier { AreEarlier (labels_in tracker.now.now) previous.now }
    ensures below { OnOk result (IsViewBelow (labels_in tracker.now.now) view.new) }
    ensures last { OnOk result (view.new.last ≡ view.old.last) }
    ensures found { OnOk result ((past : History)
        → AreChangesOf tracker.now.now (operations_in operations.now) past
        → ArePrevious past.records (labels_in tracker.now.now) previous.now
        → IsFinding past.records (operations_in operations.now) view.old.last label
        (IsOfReplicaBelow past.records view.old.last replica) view.old.newest changed.old.items
        → IsFinding past.records (operations_in operations.now) view.old.last label
        (IsOfReplicaBelow past.records view.old.last (replica + 1)) view.new.newest changed.new.items) }
{
    let known = newest_known(tracker, view.last, replica);
    let mut next = newer_than(known, tracker.newest_seen(label, replica));
    while let Some(update) = next {
        take(operations, &mut view.newest, changed, update, replica)?;
        next = newer_than(known, previous[update as usize]);
    }
    Ok(())
}

// Returns the newest update of the replica that the last read sees.
fn newest_known(tracker: &Tracker, last: Option<u32>, replica: u8) -> Option<u32>
    requires { IfSome last (λ q. q < labels_in tracker.now.now) }
    ensures { (past : History) → IsVisibilityOf tracker.now.now past → IfSome result (λ known.
        (is_seen_by past.records last known ≡ true) × (issuer_of past.records known ≡ replica)) }
{
    match last {
        Some(read) => tracker.newest_seen(read, replica),
        None => None,
    }
}

// Returns the update if it is newer than the one that is known.
fn newer_than(known: Option<u32>, update: Option<u32>) -> Option<u32>
    ensures { result ≡ newer_than known update }
{
    match (known, update) {
        (Some(old), Some(new)) if new <= old => None,
        _ => update,
    }
}

// Takes the update, if it is one, as the newest one of its element by its replica, unless a newer one was taken.
fn take(
    operations: &[&Op],
    newest: &mut BTreeMap<(u32, u8), u32>,
    changed: &mut Vec<u32>,
    update: u32,
    replica: u8,
) -> Result<(), NoMemory>
    ensures { OnOk result (IsTaken (operations_in operations.now) replica update newest.old newest.new
        changed.old.items changed.new.items) }
{
    match element_at(operations, update) {
        Some(element) => put(newest, changed, element, update, replica),
        None => Ok(()),
    }
}

// Returns the element that the label adds or removes; `None` if it is no such update.
fn element_at(operations: &[&Op], label: u32) -> Option<u32>
    ensures { result ≡ element_at (operations_in operations.now) label }
{
    match operation_at(operations, label) {
        Some(Op::LwwAdd(element) | Op::LwwRemove(element)) => Some(*element),
        _ => None,
    }
}

// Puts the update in as the newest one of the element by the replica, unless there is a newer one.
fn put(
    newest: &mut BTreeMap<(u32, u8), u32>,
    changed: &mut Vec<u32>,
    element: u32,
    update: u32,
    replica: u8,
) -> Result<(), NoMemory>
    ensures { OnOk result (IsPut element replica update newest.old newest.new changed.old.items changed.new.items) }
{
    let key = (element, replica);
    if newest.get(&key).is_some_and(|taken| update <= *taken) {
        return Ok(());
    }
    newest.insert(key, update)?;
    changed.push(element)?;
    Ok(())
}
