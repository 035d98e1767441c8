//! What the records demand of an order, and an order that explains them, or the reason why there is none.
ghost use Rattle.std.specs.Prelude.{◌≡◌, IfOk, length};
ghost use Rattle.ra_labels.specs.HistorySoFar.{History};
ghost use Rattle.ra_visibility.specs.Tracked.{labels_in};
ghost use Rattle.ra_rga_precedence.specs.Answers.{AreDemands, DemandsName, IsAnswer};
ghost use Rattle.ra_rga_precedence.specs.Foundations.{IsFoundation, FoundationNames, demands_in};
ghost use Rattle.ra_rga_precedence.specs.Situation.{operations_in, IsHistoryOf};

use crate::answer::{AnyOrder, Refutation};
use crate::demands::add_reads;
use crate::inserters::{Inserted, inserters_of};
use crate::insertions::Insertions;
use crate::label_order::place_reads;
use crate::needs::{Needs, needed_labels};
use crate::ranks::ranks_of;
use crate::update_conditions::update_conditions;
use ra_labels::{NoMemory, Op};
use ra_precedence::{Condition, Solution, order_of, stuck_set};
use ra_visibility::Tracker;
use std::alloc::Global;

/// What the records of an RGA demand of an order of the labels.
#[derive(Drop)]
pub enum Demands {
    /// These conditions.
    Conditions(Vec<Condition>),
    /// No order does, for this reason.
    Refuted(Refutation),
}

/// What is known of the insertions, and conditions.
#[derive(Drop)]
pub enum Foundation {
    /// The insertions and the conditions.
    Sound(Insertions, Vec<Condition>),
    /// No order explains the records, for this reason.
    Refuted(Refutation),
}

/// Returns an order of the labels that explains the records of an RGA, or the reason why no sequence does. The tracker
/// represents their visibility, and the operations are those of the labels, by number.
///
/// # Errors
///
/// `NoMemory` if allocation fails.
///
/// # Complexity
///
/// That of `demands_of`. If a set is stuck, its reasons take the length of the conditions times O(log n + r) more.
pub fn some_order(
    alloc: Global,
    tracker: &Tracker,
    operations: &[&Op],
) -> Result<AnyOrder, NoMemory>
    // Of each history that the tracker and the operations represent: the parts of the labels in the order are an
    // RA-linearization; or no sequence at all is one, not even by visibility alone, and the reason is one.
    ensures { IfOk result (λ answer. (past : History)
        → IsHistoryOf tracker.now.now (operations_in operations.now) past → IsAnswer past.records answer) }
{
    let conditions = match demands_of(alloc, tracker, operations)? {
        Demands::Conditions(conditions) => conditions,
        Demands::Refuted(reason) => return Ok(AnyOrder::NoneExists(reason)),
    };
    match order_of(alloc, tracker.labels(), &conditions)? {
        Solution::Order(order) => {
            let labels = place_reads(alloc, tracker, operations, &order)?;
            Ok(AnyOrder::Exists(labels))
        }
        Solution::Stuck(set) => {
            let stuck = stuck_set(alloc, tracker.labels(), &conditions, set)?;
            Ok(AnyOrder::NoneExists(Refutation::Stuck(stuck)))
        }
    }
}

/// Returns the conditions that the records of an RGA place on an order of the labels, or a reason why no order explains
/// them. The conditions of updates and those of reads are edges: each has one label in `after`.
///
/// # Errors
///
/// `NoMemory` if allocation fails.
///
/// # Complexity
///
/// O(n · (r + log n) + r² + l · (d + log n)) for `n` labels of `r` replicas. `l` is the length of all lists that were
/// read, and `d` the depth of the tree of insertions.
pub fn demands_of(alloc: Global, tracker: &Tracker, operations: &[&Op]) -> Result<Demands, NoMemory>
    // The conditions name existing labels.
    ensures named { IfOk result (DemandsName (labels_in tracker.now.now)) }
    // Of each history that the tracker and the operations represent: the plain conditions hold, and an order of the
    // labels meets the conditions exactly if it keeps the precedence; or no sequence at all is an RA-linearization, not
    // even by visibility alone, and the reason is one.
    ensures demands { IfOk result (λ demands. (past : History)
        → IsHistoryOf tracker.now.now (operations_in operations.now) past → AreDemands past.records demands) }
{
    match demands_with_insertions(alloc, tracker, operations)? {
        Foundation::Sound(_, conditions) => Ok(Demands::Conditions(conditions)),
        Foundation::Refuted(reason) => Ok(Demands::Refuted(reason)),
    }
}

/// Returns the conditions of `demands_of`, and what is known of the insertions.
///
/// # Errors
///
/// `NoMemory` if allocation fails.
///
/// # Complexity
///
/// That of `demands_of`.
pub fn demands_with_insertions(
    alloc: Global,
    tracker: &Tracker,
    operations: &[&Op],
) -> Result<Foundation, NoMemory>
    ensures named { IfOk result (FoundationNames (operations_in operations.now) (labels_in tracker.now.now)) }
    ensures demands { IfOk result (λ foundation. (past : History)
        → IsHistoryOf tracker.now.now (operations_in operations.now) past
        → AreDemands past.records (demands_in foundation)) }
{
    let (insertions, mut conditions) = match foundation_of(alloc, tracker, operations)? {
        Foundation::Sound(insertions, conditions) => (insertions, conditions),
        Foundation::Refuted(reason) => return Ok(Foundation::Refuted(reason)),
    };
    match add_reads(&mut conditions, alloc, &insertions, tracker, operations)? {
        Some(reason) => Ok(Foundation::Refuted(reason)),
        None => Ok(Foundation::Sound(insertions, conditions)),
    }
}

// Returns what is known of the insertions, and the conditions of the updates.
fn foundation_of(
    alloc: Global,
    tracker: &Tracker,
    operations: &[&Op],
) -> Result<Foundation, NoMemory>
    ensures named { IfOk result (FoundationNames (operations_in operations.now) (labels_in tracker.now.now)) }
    ensures foundation { IfOk result (λ foundation. (past : History)
        → IsHistoryOf tracker.now.now (operations_in operations.now) past → IsFoundation past.records foundation) }
{
    let count = tracker.labels();
    let inserters = match inserters_of(alloc, operations, count)? {
        Inserted::Each(inserters) => inserters,
        Inserted::Twice(m, n) => return Ok(Foundation::Refuted(Refutation::Twice(m, n))),
        Inserted::Root(label) => return Ok(Foundation::Refuted(Refutation::Root(label))),
    };
    let needed = match needed_labels(alloc, operations, count, &inserters)? {
        Needs::Each(labels) => labels,
        Needs::Absent(label) => return Ok(Foundation::Refuted(Refutation::Absent(label))),
    };
    let conditions = update_conditions(alloc, tracker, operations, needed.as_slice())?;
    let ranks = match order_of(alloc, count, &conditions)? {
        Solution::Order(order) => ranks_of(alloc, count, order.as_slice())?,
        Solution::Stuck(set) => {
            let stuck = stuck_set(alloc, count, &conditions, set)?;
            return Ok(Foundation::Refuted(Refutation::Stuck(stuck)));
        }
    };
    let insertions = Insertions {
        inserters,
        needed,
        ranks,
    };
    Ok(Foundation::Sound(insertions, conditions))
}
