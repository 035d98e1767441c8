//! Whether each label comes after what it sees and after the earlier labels of its replica.
ghost use Rattle.std.specs.Prelude.{◌≡◌, ◌<◌, ◌↔◌, ℕ, List, true, IsTrue, IfOk};
ghost use Rattle.ra_labels.specs.Edges.{IsBefore};
ghost use Rattle.ra_labels.specs.HistorySoFar.{History};
ghost use Rattle.ra_labels.specs.Visibility.{sees};
ghost use Rattle.ra_precedence.specs.Positions.{ArePositions};
ghost use Rattle.ra_some_order.specs.LabelOrders.{IsOrderOfLabels};
ghost use Rattle.ra_visibility.specs.Tracked.{labels_in, IsVisibilityOf};
ghost use Rattle.ra_any_order.specs.Requirements.{IsFollowedBy};
ghost use Rattle.ra_any_order.specs.LabelOrder.{comes_after};

use crate::previous::previous_labels;
use ra_labels::NoMemory;
use ra_precedence::{is_before_by_position, positions_of};
use ra_visibility::Tracker;
use std::alloc::Global;

/// Returns `true` if the list has each label once, after the updates that it sees and the earlier labels of its
/// replica. The tracker represents the visibility of a history of any kind.
///
/// # Errors
///
/// `NoMemory` if allocation fails.
///
/// # Complexity
///
/// O(n · r + l) for `n` labels of `r` replicas, with `l` the length of the list.
pub fn is_order_of_labels(alloc: Global, tracker: &Tracker, order: &[u32]) -> Result<bool, NoMemory>
    // Of each history whose visibility the tracker represents: the result is `true` exactly if the list has each label
    // once, after the updates that it sees and the earlier labels of its replica.
    ensures { IfOk result (λ is. (past : History) → IsVisibilityOf tracker.now.now past
        → (is ≡ true) ↔ IsOrderOfLabels past.records order.now) }
{
    let previous = previous_labels(alloc, tracker)?;
    let Some(positions) = positions_of(alloc, tracker.labels(), order)? else {
        return Ok(false);
    };
    for label in 0..tracker.labels() {
        if !comes_after(&positions, previous[label as usize], label) {
            return Ok(false);
        }
        if !comes_after_seen(tracker, &positions, label) {
            return Ok(false);
        }
    }
    Ok(true)
}

// Returns `true` if the label comes after the other one, or if there is no other one.
fn comes_after(positions: &[usize], before: Option<u32>, label: u32) -> bool
    ensures { result ≡ comes_after positions.now before label }
{
    match before {
        Some(earlier) => is_before_by_position(positions, earlier, label),
        None => true,
    }
}

// Returns `true` if the label comes after the newest update that it sees of each replica.
fn comes_after_seen(tracker: &Tracker, positions: &[usize], label: u32) -> bool
    requires { label < labels_in tracker.now.now }
    ensures behind { (past : History) (order : List ℕ) → IsVisibilityOf tracker.now.now past
        → ArePositions order positions.now → IsTrue result
        → (k : ℕ) → sees past.records label k ≡ true → IsFollowedBy past.records order k label }
    ensures others { (past : History) (order : List ℕ) → IsVisibilityOf tracker.now.now past
        → ArePositions order positions.now
        → ((k : ℕ) → sees past.records label k ≡ true → IsBefore order k label) → IsTrue result }
{
    for replica in 0..tracker.replicas() {
        if !comes_after(positions, tracker.newest_seen(label, replica), label) {
            return false;
        }
    }
    true
}
