//! The previous label of each label's replica.
ghost use Rattle.std.specs.Prelude.{◌≡◌, ◌<◌, ℕ, None, IfOk, length, get_or};
ghost use Rattle.ra_labels.specs.HistorySoFar.{History};
ghost use Rattle.ra_labels.specs.Places.{issuer_of};
ghost use Rattle.ra_visibility.specs.Tracked.{labels_in, IsVisibilityOf};
ghost use Rattle.ra_any_order.specs.Previous.{IsLastBelow, AreBelow};
ghost use Rattle.ra_any_order.specs.Changes.{AreEarlier, ArePrevious};

use ra_labels::NoMemory;
use ra_visibility::Tracker;
use std::alloc::Global;

/// Returns for each label the previous label of its replica, if there is one.
///
/// # Errors
///
/// `NoMemory` if allocation fails.
///
/// # Complexity
///
/// O(n), where `n` is the number of labels and replicas.
pub fn previous_labels(alloc: Global, tracker: &Tracker) -> Result<Vec<Option<u32>>, NoMemory>
    ensures len { IfOk result (λ previous. length previous.items ≡ labels_in tracker.now.now) }
    ensures below { IfOk result (λ previous. AreBelow (labels_in tracker.now.now) previous.items) }
    ensures earlier { IfOk result (λ previous. AreEarlier (labels_in tracker.now.now) previous.items) }
    ensures each { IfOk result (λ previous. (past : History) → IsVisibilityOf tracker.now.now past
        → (n : ℕ) → n < labels_in tracker.now.now
        → IsLastBelow past.records n (issuer_of past.records n) (get_or previous.items n None)) }
{
    let mut last: Vec<Option<u32>> = Vec::new(alloc);
    last.resize(tracker.replicas() as usize, None)?;
    let mut previous = Vec::new(alloc);
    for label in 0..tracker.labels() {
        let replica = tracker.issuer(label) as usize;
        previous.push(last[replica])?;
        last[replica] = Some(label);
    }
    Ok(previous)
}
