//! Whether an order explains the records, and whether a reason shows that none does.
ghost use Rattle.std.specs.Prelude.{◌≡◌, ◌↔◌, true, IsTrue, IfOk};
ghost use Rattle.ra_labels.specs.HistorySoFar.{History};
ghost use Rattle.ra_theorems.specs.AnyOrder.{NoneLinearizes};
ghost use Rattle.ra_some_order.specs.LabelOrders.{OrderExplains};
ghost use Rattle.ra_any_order.specs.Answers.{IsReason};
ghost use Rattle.ra_any_order.specs.Situation.{operations_in, IsHistoryOf};

use crate::answer::Refutation;
use crate::conditions::{Found, conditions_of};
use ra_labels::{NoMemory, Op};
use ra_precedence::{is_order, is_valid_stuck_set};
use ra_visibility::Tracker;
use std::alloc::Global;

/// Returns `true` if the order explains the records of a register or an LWW set, so an order can be checked without
/// knowing how it was found. The tracker represents their visibility, and the operations are those of the labels, by
/// number.
///
/// # Errors
///
/// `NoMemory` if allocation fails.
///
/// # Complexity
///
/// That of `some_order`, and O(l) for the length `l` of the order.
pub fn linearizes(
    alloc: Global,
    tracker: &Tracker,
    operations: &[&Op],
    order: &[u32],
) -> Result<bool, NoMemory>
    // Of each history that the tracker and the operations represent: the result is `true` exactly if the order has each
    // label once, and the parts of the labels in this order are an RA-linearization.
    ensures { IfOk result (λ is. (past : History)
        → IsHistoryOf tracker.now.now (operations_in operations.now) past
        → (is ≡ true) ↔ OrderExplains past.kind past.records order.now) }
{
    match conditions_of(alloc, tracker, operations)? {
        Found::Conditions(conditions) => {
            let meets = is_order(alloc, tracker.labels(), &conditions, order)?;
            Ok(meets)
        }
        Found::Impossible { .. } => Ok(false),
    }
}

/// Returns `true` if the reason shows that no sequence explains the records of a register or an LWW set, so a reason
/// can be checked without knowing how it was found.
///
/// No clause says which reasons are accepted. If a read is impossible, only the one that `some_order` returns is
/// accepted, with its element, and no stuck set.
///
/// # Errors
///
/// `NoMemory` if allocation fails.
///
/// # Complexity
///
/// That of `some_order`, and O(l) for the length `l` of the reason.
pub fn refutes(
    alloc: Global,
    tracker: &Tracker,
    operations: &[&Op],
    reason: &Refutation,
) -> Result<bool, NoMemory>
    // Of each history that the tracker and the operations represent: if the result is `true`, the reason is valid, and
    // no sequence at all is an RA-linearization, not even by visibility alone.
    ensures { IfOk result (λ is. (past : History)
        → IsHistoryOf tracker.now.now (operations_in operations.now) past
        → IsTrue is → IsReason past.records reason.now × NoneLinearizes past.kind past.records) }
{
    match (conditions_of(alloc, tracker, operations)?, reason) {
        (Found::Conditions(conditions), Refutation::Stuck(set)) => {
            let stuck = is_valid_stuck_set(alloc, tracker.labels(), &conditions, set)?;
            Ok(stuck)
        }
        (
            Found::Impossible { label, element },
            Refutation::Read {
                label: read,
                element: of,
            },
        ) => { Ok(label == *read && element == *of) }
        _ => Ok(false),
    }
}
