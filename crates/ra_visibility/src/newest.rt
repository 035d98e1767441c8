//! The newest updates that a label sees: at most one of each replica.
ghost use Rattle.std.specs.Prelude.{◌<◌, ℕ, Contains, IfOk};
ghost use Rattle.ra_labels.specs.HistorySoFar.{History};
ghost use Rattle.ra_visibility.specs.Tracked.{labels_in, IsVisibilityOf};
ghost use Rattle.ra_visibility.specs.Newest.{AreNewest};

use crate::tracker::Tracker;
use ra_labels::NoMemory;
use std::alloc::Global;

/// Returns, for each replica, the newest of its updates that the label sees, if there is one.
///
/// # Errors
///
/// `NoMemory` if allocation fails.
///
/// # Complexity
///
/// O(r), where `r` is the number of replicas.
pub fn newest_updates(alloc: Global, tracker: &Tracker, label: u32) -> Result<Vec<u32>, NoMemory>
    // The label exists.
    requires { label < labels_in tracker.now.now }
    // They are labels that exist.
    ensures below { IfOk result (λ newest. (m : ℕ) → Contains newest.items m → m < labels_in tracker.now.now) }
    // The label sees them, and whatever it sees of a replica is one of them or older than one of them.
    ensures newest { IfOk result (λ newest. (past : History) → IsVisibilityOf tracker.now.now past
        → AreNewest past.records label newest.items) }
{
    let mut newest = Vec::new(alloc);
    for replica in 0..tracker.replicas() {
        if let Some(update) = tracker.newest_seen(label, replica) {
            newest.push(update)?;
        }
    }
    Ok(newest)
}
