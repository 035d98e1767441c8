//! Whether an order explains the records of an RGA, and whether a reason shows that none does.
ghost use Rattle.std.specs.Prelude.{◌≡◌, ◌↔◌, true, IsTrue, IfOk};
ghost use Rattle.ra_labels.specs.declared.kind.Kind.TheVariants.{Rga};
ghost use Rattle.ra_labels.specs.HistorySoFar.{History};
ghost use Rattle.ra_theorems.specs.AnyOrder.{NoneLinearizes};
ghost use Rattle.ra_some_order.specs.LabelOrders.{IsOrderOfLabels, OrderExplains};
ghost use Rattle.ra_rga_precedence.specs.Answers.{AreDemanded, IsReason};
ghost use Rattle.ra_rga_precedence.specs.Situation.{operations_in, IsHistoryOf};

use crate::answer::Refutation;
use crate::inserters::{Inserted, inserters_of};
use crate::needs::{Needs, needed_labels};
use crate::ordering::{Demands, demands_of};
use crate::update_conditions::update_conditions;
use ra_labels::{NoMemory, Op};
use ra_precedence::{Condition, is_order, is_valid_stuck_set};
use ra_visibility::Tracker;
use std::alloc::Global;

/// Returns `true` if the list meets what the records of an RGA demand of an order. It does not check where reads stand:
/// for a list that `ra_any_order::is_order_of_labels` accepts, the result is `true` exactly if the order explains the
/// records, so an order can be checked without knowing how it was found. For other lists no clause says anything.
///
/// # Errors
///
/// `NoMemory` if allocation fails.
///
/// # Complexity
///
/// That of `demands_of`, and O(l) for the length `l` of the order.
pub fn meets_demands(
    alloc: Global,
    tracker: &Tracker,
    operations: &[&Op],
    order: &[u32],
) -> Result<bool, NoMemory>
    // Of each history that the tracker and the operations represent, if the order has each label once, after the
    // updates that it sees and the earlier labels of its replica: the result is `true` exactly if the parts of the
    // labels in this order are an RA-linearization.
    ensures { IfOk result (λ is. (past : History)
        → IsHistoryOf tracker.now.now (operations_in operations.now) past → IsOrderOfLabels past.records order.now
        → (is ≡ true) ↔ OrderExplains Rga past.records order.now) }
{
    match demands_of(alloc, tracker, operations)? {
        Demands::Conditions(conditions) => {
            let meets = is_order(alloc, tracker.labels(), &conditions, order)?;
            Ok(meets)
        }
        Demands::Refuted(_) => Ok(false),
    }
}

/// Returns `true` if the reason shows that no sequence explains the records of an RGA, so a reason can be checked
/// without knowing how it was found.
///
/// No clause says which reasons are accepted. If labels rule out every order without a stuck set, only the reason that
/// `some_order` returns is accepted, and no stuck set.
///
/// # Errors
///
/// `NoMemory` if allocation fails.
///
/// # Complexity
///
/// That of `demands_of`, and O(l) for the length `l` of the reason.
pub fn refutes(
    alloc: Global,
    tracker: &Tracker,
    operations: &[&Op],
    reason: &Refutation,
) -> Result<bool, NoMemory>
    // Of each history that the tracker and the operations represent: if the result is `true`, the reason is valid, and
    // no sequence at all is an RA-linearization, not even by visibility alone.
    ensures { IfOk result (λ is. (past : History)
        → IsHistoryOf tracker.now.now (operations_in operations.now) past
        → IsTrue is → IsReason past.records reason.now × NoneLinearizes Rga past.records) }
{
    match (demands_of(alloc, tracker, operations)?, reason) {
        (Demands::Conditions(conditions), Refutation::Stuck(set)) => {
            let stuck = is_valid_stuck_set(alloc, tracker.labels(), &conditions, set)?;
            Ok(stuck)
        }
        (Demands::Refuted(_), Refutation::Stuck(set)) => {
            let conditions = conditions_of_updates(alloc, tracker, operations)?;
            let stuck = is_valid_stuck_set(alloc, tracker.labels(), &conditions, set)?;
            Ok(stuck)
        }
        (Demands::Refuted(found), _) => Ok(is_same(reason, &found)),
        _ => Ok(false),
    }
}

// Returns the conditions of the updates, or none if an element is inserted twice, one that is needed is never inserted,
// or the root is inserted.
fn conditions_of_updates(
    alloc: Global,
    tracker: &Tracker,
    operations: &[&Op],
) -> Result<Vec<Condition>, NoMemory>
    ensures { IfOk result (λ conditions. (past : History)
        → IsHistoryOf tracker.now.now (operations_in operations.now) past
        → AreDemanded past.records conditions.items) }
{
    let count = tracker.labels();
    let Inserted::Each(inserters) = inserters_of(alloc, operations, count)? else {
        return Ok(Vec::new(alloc));
    };
    let Needs::Each(needed) = needed_labels(alloc, operations, count, &inserters)? else {
        return Ok(Vec::new(alloc));
    };
    let conditions = update_conditions(alloc, tracker, operations, needed.as_slice())?;
    Ok(conditions)
}

// Returns `true` if both reasons are the same one, and no stuck set.
fn is_same(reason: &Refutation, other: &Refutation) -> bool
    ensures { IsTrue result → reason.now ≡ other.now }
{
    match (reason, other) {
        (Refutation::Twice(m, n), Refutation::Twice(k, l)) => *m == *k && *n == *l,
        (Refutation::Root(n), Refutation::Root(m)) => *n == *m,
        (Refutation::Absent(n), Refutation::Absent(m)) => *n == *m,
        (
            Refutation::Open { read, label },
            Refutation::Open {
                read: other_read,
                label: other_label,
            },
        ) => *read == *other_read && *label == *other_label,
        (
            Refutation::Wrong { read, element },
            Refutation::Wrong {
                read: other_read,
                element: other_element,
            },
        ) => *read == *other_read && *element == *other_element,
        (
            Refutation::Unlisted { read, label },
            Refutation::Unlisted {
                read: other_read,
                label: other_label,
            },
        ) => *read == *other_read && *label == *other_label,
        (
            Refutation::Below {
                read,
                first,
                second,
            },
            Refutation::Below {
                read: other_read,
                first: other_first,
                second: other_second,
            },
        ) => *read == *other_read && *first == *other_first && *second == *other_second,
        _ => false,
    }
}
