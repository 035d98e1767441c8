//! The conditions that updates place on an order by what they see and what they need.
ghost use Rattle.std.specs.Prelude.{◌≡◌, ℕ, IfOk, length};
ghost use Rattle.ra_labels.specs.HistorySoFar.{History};
ghost use Rattle.ra_visibility.specs.Tracked.{labels_in};
ghost use Rattle.ra_rga_precedence.specs.Situation.{operations_in, IsHistoryOf};
ghost use Rattle.ra_rga_precedence.specs.UpdateConditions.{update_condition, HoldNeeds, AreUpdateConditions, AreBelow, NameBelow};

use crate::operations::is_update;
use ra_labels::{NoMemory, Op};
use ra_precedence::Condition;
use ra_visibility::{Tracker, newest_updates};
use std::alloc::Global;

/// Returns the conditions of the updates, given which label inserts what each label needs.
///
/// # Errors
///
/// `NoMemory` if allocation fails.
///
/// # Complexity
///
/// O(n · r), where `n` is the number of labels and `r` that of replicas.
pub fn update_conditions(
    alloc: Global,
    tracker: &Tracker,
    operations: &[&Op],
    needed: &[Option<u32>],
) -> Result<Vec<Condition>, NoMemory>
    requires len { length needed.now ≡ labels_in tracker.now.now }
    requires below { AreBelow (labels_in tracker.now.now) needed.now }
    ensures named { IfOk result (λ conditions. NameBelow (labels_in tracker.now.now) conditions.items) }
    ensures needs { IfOk result (λ conditions.
        HoldNeeds (operations_in operations.now) needed.now (labels_in tracker.now.now) conditions.items) }
    ensures are { IfOk result (λ conditions. (past : History)
        → IsHistoryOf tracker.now.now (operations_in operations.now) past
        → AreUpdateConditions past.records needed.now (labels_in tracker.now.now) conditions.items) }
{
    let mut conditions = Vec::new(alloc);
    for label in 0..tracker.labels() {
        if is_update(operations, label) {
            let newest = newest_updates(alloc, tracker, label)?;
            let condition = update_condition(alloc, newest, needed[label as usize], label)?;
            conditions.push(condition)?;
        }
    }
    Ok(conditions)
}

// Returns the condition that these labels stand before the label.
fn update_condition(
    alloc: Global,
    newest: Vec<u32>,
    needed: Option<u32>,
    label: u32,
) -> Result<Condition, NoMemory>
    ensures { IfOk result (λ condition. condition ≡ update_condition newest.items needed label) }
{
    let mut before = newest;
    if let Some(earlier) = needed {
        before.push(earlier)?;
    }
    Condition::new(alloc, label, &before, &[label])
}
