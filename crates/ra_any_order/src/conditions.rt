//! The conditions that the labels place on an order of all labels.
ghost use Rattle.std.specs.Prelude.{◌≡◌, ◌<◌, ◌+◌, ◌++◌, ◌∷◌, [], ℕ, List, Contains, Some, IfSome, IfOk, OnOk, slice_get};
ghost use Rattle.ra_labels.specs.declared.operation.Op.{Op};
ghost use Rattle.ra_labels.specs.HistorySoFar.{History};
ghost use Rattle.ra_labels.specs.Places.{issuer_of};
ghost use Rattle.ra_visibility.specs.Tracked.{labels_in, IsVisibilityOf};
ghost use Rattle.ra_visibility.specs.Newest.{AreNewest};
ghost use Rattle.ra_any_order.specs.Previous.{IsLastBelow};
ghost use Rattle.ra_any_order.specs.Reading.{narrow_value, is_possible_value, order_condition};
ghost use Rattle.ra_any_order.specs.Changes.{IsViewBelow, AreEarlier, ArePrevious, IsViewOf};
ghost use Rattle.ra_any_order.specs.Outcomes.{IsOutcome, IfPossible, IsLabelOutcome, IsValueOutcome};
ghost use Rattle.ra_any_order.specs.Requirements.{AreConditionsBelow, NameBelow};
ghost use Rattle.ra_any_order.specs.Situation.{operations_in, IsHistoryOf};
ghost use Rattle.ra_any_order.specs.Found.{IsFound, NamesBelow};

use crate::operations::operation_at;
use crate::outcome::Outcome;
use crate::previous::previous_labels;
use crate::reads::add_elements;
use crate::values::value_condition;
use crate::views::{View, new_views};
use ra_labels::{NoMemory, Op};
use ra_precedence::Condition;
use ra_visibility::{Tracker, newest_updates};
use std::alloc::Global;

/// What was found of the labels.
#[derive(Drop)]
pub enum Found {
    /// The conditions that they place on an order.
    Conditions(Vec<Condition>),
    /// A read that no visible update can lead to.
    Impossible {
        /// The label of the read.
        label: u32,
        /// The element of an LWW set that is listed or not; `None` for a register.
        element: Option<u32>,
    },
}

/// Returns the conditions that the labels place on an order, or a read that no visible update can lead to.
///
/// # Errors
///
/// `NoMemory` if allocation fails.
///
/// # Complexity
///
/// O(n · r) for a register with `n` labels of `r` replicas. O((n + e) · r · log n + l · log l) for an LWW set, where
/// `l` is the total length of the reads and `e` the number of elements that they check: at most n · r + 2 · l.
///
/// A read checks the elements that a new update changed, once for each replica of such updates, and those that only one
/// of this read and the last one of its replica returned. It adds a condition of at most r labels for each.
pub fn conditions_of(
    alloc: Global,
    tracker: &Tracker,
    operations: &[&Op],
) -> Result<Found, NoMemory>
    ensures named { IfOk result (NamesBelow (labels_in tracker.now.now)) }
    ensures found { IfOk result (λ found. (past : History)
        → IsHistoryOf tracker.now.now (operations_in operations.now) past → IsFound past.records found) }
{
    let previous = previous_labels(alloc, tracker)?;
    let mut views = new_views(alloc, tracker.replicas())?;
    let mut conditions = Vec::new(alloc);
    for label in 0..tracker.labels() {
        let view = &mut views[tracker.issuer(label) as usize];
        let outcome = add_label(
            &mut conditions,
            alloc,
            tracker,
            operations,
            &previous,
            view,
            label,
        )?;
        if let Outcome::Impossible(element) = outcome {
            return Ok(Found::Impossible { label, element });
        }
    }
    Ok(Found::Conditions(conditions))
}

// Adds the conditions of the label, unless it is a read that no visible update can lead to.
fn add_label(
    conditions: &mut Vec<Condition>,
    alloc: Global,
    tracker: &Tracker,
    operations: &[&Op],
    previous: &[Option<u32>],
    view: &mut View,
    label: u32,
) -> Result<Outcome, NoMemory>
    requires label { label < labels_in tracker.now.now }
    requires view { IsViewBelow (labels_in tracker.now.now) view.old }
    requires earlier { AreEarlier (labels_in tracker.now.now) previous.now }
    ensures below { OnOk result (IsViewBelow (labels_in tracker.now.now) view.new) }
    ensures named { IfOk result (λ outcome. NameBelow (labels_in tracker.now.now) conditions.old.items
        → IfPossible outcome (NameBelow (labels_in tracker.now.now) conditions.new.items)) }
    ensures view { OnOk result ((past : History)
        → IsHistoryOf tracker.now.now (operations_in operations.now) past
        → ArePrevious past.records (labels_in tracker.now.now) previous.now
        → IsViewOf past.records (operations_in operations.now) (issuer_of past.records label) label view.old
        → IsViewOf past.records (operations_in operations.now) (issuer_of past.records label) (label + 1) view.new) }
    ensures outcome { IfOk result (λ outcome. (past : History)
        → IsHistoryOf tracker.now.now (operations_in operations.now) past
        → ArePrevious past.records (labels_in tracker.now.now) previous.now
        → IsViewOf past.records (operations_in operations.now) (issuer_of past.records label) label view.old
        → AreConditionsBelow past.records label conditions.old.items
        → IsLabelOutcome past.records label conditions.new.items outcome) }
{
    let newest = newest_updates(alloc, tracker, label)?;
    let outcome = add_read(
        conditions, alloc, tracker, operations, previous, view, &newest, label,
    )?;
    let before = previous[label as usize];
    conditions.push(order_condition(alloc, newest, before, label)?)?;
    Ok(outcome)
}

// Adds the conditions of the label's answer, if it is a read.
fn add_read(
    conditions: &mut Vec<Condition>,
    alloc: Global,
    tracker: &Tracker,
    operations: &[&Op],
    previous: &[Option<u32>],
    view: &mut View,
    newest: &[u32],
    label: u32,
) -> Result<Outcome, NoMemory>
    requires label { label < labels_in tracker.now.now }
    requires view { IsViewBelow (labels_in tracker.now.now) view.old }
    requires earlier { AreEarlier (labels_in tracker.now.now) previous.now }
    ensures below { OnOk result (IsViewBelow (labels_in tracker.now.now) view.new) }
    ensures named { IfOk result (λ outcome. NameBelow (labels_in tracker.now.now) conditions.old.items
        → ((m : ℕ) → Contains newest.now m → m < labels_in tracker.now.now)
        → IfPossible outcome (NameBelow (labels_in tracker.now.now) conditions.new.items)) }
    ensures view { OnOk result ((past : History)
        → IsHistoryOf tracker.now.now (operations_in operations.now) past
        → ArePrevious past.records (labels_in tracker.now.now) previous.now
        → IsViewOf past.records (operations_in operations.now) (issuer_of past.records label) label view.old
        → IsViewOf past.records (operations_in operations.now) (issuer_of past.records label) (label + 1) view.new) }
    ensures outcome { IfOk result (λ outcome. (past : History)
        → IsHistoryOf tracker.now.now (operations_in operations.now) past
        → ArePrevious past.records (labels_in tracker.now.now) previous.now
        → IsViewOf past.records (operations_in operations.now) (issuer_of past.records label) label view.old
        → AreConditionsBelow past.records label conditions.old.items → AreNewest past.records label newest.now
        → (operation : Op) → slice_get (operations_in operations.now) label ≡ Some operation
        → IsOutcome past.records label operation conditions.old.items conditions.new.items outcome) }
{
    let Some(operation) = operation_at(operations, label) else {
        return Ok(Outcome::Possible);
    };
    match operation {
        Op::Last(value) => add_value(conditions, alloc, operations, newest, *value, label),
        Op::LwwRead(_) => add_elements(
            conditions, alloc, tracker, operations, previous, view, label,
        ),
        _ => Ok(Outcome::Possible),
    }
}

// Adds the condition of a register's read.
fn add_value(
    conditions: &mut Vec<Condition>,
    alloc: Global,
    operations: &[&Op],
    newest: &[u32],
    value: Option<u32>,
    read: u32,
) -> Result<Outcome, NoMemory>
    ensures { IfOk result (IsValueOutcome (narrow_value (operations_in operations.now) newest.now value) value
        conditions.old.items conditions.new.items) }
{
    let condition = value_condition(alloc, operations, newest, value, read)?;
    let possible = is_possible_value(&condition, value);
    conditions.push(condition)?;
    if possible {
        Ok(Outcome::Possible)
    } else {
        Ok(Outcome::Impossible(None))
    }
}

// Returns `true` if one of the writes is of the value, or if there is none and no value was read.
fn is_possible_value(condition: &Condition, value: Option<u32>) -> bool
    ensures { result ≡ is_possible_value condition.now value }
{
    !condition.after().is_empty() || (value.is_none() && condition.before().is_empty())
}

/// Returns the condition that the newest updates and the previous label stand before the label.
///
/// # Errors
///
/// `NoMemory` if allocation fails.
pub fn order_condition(
    alloc: Global,
    newest: Vec<u32>,
    previous: Option<u32>,
    label: u32,
) -> Result<Condition, NoMemory>
    ensures { IfOk result (λ condition. condition ≡ order_condition newest.items previous label) }
{
    let mut before = newest;
    if let Some(earlier) = previous {
        before.push(earlier)?;
    }
    Condition::new(alloc, label, &before, &[label])
}
