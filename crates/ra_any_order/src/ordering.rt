//! An order of all labels that explains the records, or the reason why there is none.
ghost use Rattle.std.specs.Prelude.{IfOk};
ghost use Rattle.ra_labels.specs.HistorySoFar.{History};
ghost use Rattle.ra_any_order.specs.Answers.{IsAnswer};
ghost use Rattle.ra_any_order.specs.Situation.{operations_in, IsHistoryOf};

use crate::answer::{AnyOrder, Refutation};
use crate::conditions::{Found, conditions_of};
use ra_labels::{NoMemory, Op};
use ra_precedence::{Solution, order_of, stuck_set};
use ra_visibility::Tracker;
use std::alloc::Global;

/// Returns an order of the labels that explains the records of a register or an LWW set, or the reason why no sequence
/// does. The tracker represents their visibility, and the operations are those of the labels, by number.
///
/// # Errors
///
/// `NoMemory` if allocation fails.
///
/// # Complexity
///
/// O(n · r) for a register with `n` labels of `r` replicas. O((n + e) · r · log n + l · log l) for an LWW set, where
/// `l` is the total length of the reads and `e` the number of elements that they check: at most n · r + 2 · l.
///
/// If there is no order, the reasons of a stuck set take O(n · r · (log n + r)) more for a register, and the same for
/// each checked element of an LWW set.
///
/// A read checks the elements that a new update changed, once for each replica of such updates, and those that only one
/// of this read and the last one of its replica returned.
pub fn some_order(
    alloc: Global,
    tracker: &Tracker,
    operations: &[&Op],
) -> Result<AnyOrder, NoMemory>
    // Of each history that the tracker and the operations represent: the parts of the labels in the order are an
    // RA-linearization; or no sequence at all is one, not even by visibility alone, and the reason is a stuck set or
    // an impossible read, of an LWW set for the element that it names.
    ensures { IfOk result (λ answer. (past : History)
        → IsHistoryOf tracker.now.now (operations_in operations.now) past
        → IsAnswer past.kind past.records answer) }
{
    let conditions = match conditions_of(alloc, tracker, operations)? {
        Found::Conditions(conditions) => conditions,
        Found::Impossible { label, element } => {
            return Ok(AnyOrder::NoneExists(Refutation::Read { label, element }));
        }
    };
    match order_of(alloc, tracker.labels(), &conditions)? {
        Solution::Order(order) => Ok(AnyOrder::Exists(order)),
        Solution::Stuck(set) => {
            let stuck = stuck_set(alloc, tracker.labels(), &conditions, set)?;
            Ok(AnyOrder::NoneExists(Refutation::Stuck(stuck)))
        }
    }
}
