//! The values that the next read of a register can return.
ghost use Rattle.std.specs.Prelude.{◌≡◌, ◌<◌, ◌↔◌, ◌++◌, ◌∷◌, [], ℕ, Option, Contains, IfOk, IfSome};
ghost use Rattle.ra_labels.specs.HistorySoFar.{History};
ghost use Rattle.ra_labels.specs.Places.{issuer_of};
ghost use Rattle.ra_labels.specs.Records.{label_count};
ghost use Rattle.ra_labels.specs.declared.kind.Kind.TheVariants.{Register};
ghost use Rattle.ra_precedence.specs.Lasts.{AreLasts};
ghost use Rattle.ra_some_order.specs.SomeOrder.{SomeOrderExplains, EachLabelIsOfKind};
ghost use Rattle.ra_visibility.specs.Tracked.{labels_in, replicas_in, IsVisibilityOf};
ghost use Rattle.ra_any_order.specs.NextRead.{IsReadNext, AreListedIn};
ghost use Rattle.ra_any_order.specs.PossibleValues.{IsPossibleValue, IsValueAmong, written_at};
ghost use Rattle.ra_any_order.specs.Previous.{IsLastBelow};
ghost use Rattle.ra_any_order.specs.Reading.{order_condition};
ghost use Rattle.ra_any_order.specs.Requirements.{AreConditionsBelow, NameBelow};
ghost use Rattle.ra_any_order.specs.Situation.{operations_in, IsHistoryOf};

use crate::conditions::{Found, conditions_of, order_condition};
use crate::operations::operation_at;
use crate::previous::previous_labels;
use ra_labels::{NoMemory, Op};
use ra_precedence::{Condition, Solver};
use ra_visibility::{MOST_LABELS, Tracker, newest_updates};
use std::alloc::Global;

/// Returns the values that the next read of a register's replica can return: those with which some order explains the
/// records and the read. A value that several writes wrote can be listed several times. The tracker represents the
/// visibility of the records, and the operations are those of the labels, by number.
///
/// # Errors
///
/// `NoMemory` if allocation fails, or if there are `MOST_LABELS` labels.
///
/// # Complexity
///
/// O(n · r) for `n` labels of `r` replicas.
pub fn possible_values(
    alloc: Global,
    tracker: Tracker,
    operations: &[&Op],
    replica: u8,
) -> Result<Vec<Option<u32>>, NoMemory>
    // The replica exists.
    requires { replica < replicas_in tracker.now }
    // Of each history of a register that the tracker and the operations represent: if some order explains it, the
    // values are exactly those with which some order explains the history and a read of the replica.
    ensures { IfOk result (λ values. (past : History)
        → IsHistoryOf tracker.now (operations_in operations.now) past → past.kind ≡ Register
        → SomeOrderExplains Register past.records
        → (v : Option ℕ) → Contains values.items v ↔ IsPossibleValue past.records replica v) }
{
    let mut tracker = tracker;
    if tracker.labels() >= MOST_LABELS {
        return Err(NoMemory);
    }
    let Found::Conditions(conditions) = conditions_of(alloc, &tracker, operations)? else {
        return Ok(Vec::new(alloc));
    };
    let read = tracker.issue(replica, false)?;
    let values = values_at(alloc, &tracker, operations, conditions, read)?;
    Ok(values)
}

// Returns the values that the last label, a read, can return. The conditions are those of the labels before it.
fn values_at(
    alloc: Global,
    tracker: &Tracker,
    operations: &[&Op],
    conditions: Vec<Condition>,
    read: u32,
) -> Result<Vec<Option<u32>>, NoMemory>
    requires read { read < labels_in tracker.now.now }
    requires named { NameBelow read conditions.items }
    ensures { IfOk result (λ values. (past : History) (replica : ℕ) → label_count past.records ≡ read
        → EachLabelIsOfKind Register past.records → IsReadNext tracker.now.now past replica
        → AreListedIn (operations_in operations.now) past.records
        → AreConditionsBelow past.records read conditions.items → SomeOrderExplains Register past.records
        → (v : Option ℕ) → Contains values.items v ↔ IsPossibleValue past.records replica v) }
{
    let newest = newest_updates(alloc, tracker, read)?;
    let previous = label_before(alloc, tracker, read)?;
    let asked = with_order(alloc, conditions, &newest, previous, read)?;
    let lasts = lasts_among(alloc, tracker.labels(), asked, &newest)?;
    let values = values_of(alloc, operations, &newest, &lasts)?;
    Ok(values)
}

/// Returns the previous label of the label's replica, if there is one.
///
/// # Errors
///
/// `NoMemory` if allocation fails.
///
/// # Complexity
///
/// O(n), where `n` is the number of labels and replicas.
pub fn label_before(alloc: Global, tracker: &Tracker, label: u32) -> Result<Option<u32>, NoMemory>
    requires { label < labels_in tracker.now.now }
    ensures earlier { IfOk result (λ previous. IfSome previous (λ it. it < label)) }
    ensures last { IfOk result (λ previous. (past : History) → IsVisibilityOf tracker.now.now past
        → IsLastBelow past.records label (issuer_of past.records label) previous) }
{
    let previous = previous_labels(alloc, tracker)?;
    Ok(previous[label as usize])
}

/// Adds the condition that the read comes after these labels.
///
/// # Errors
///
/// `NoMemory` if allocation fails.
pub fn with_order(
    alloc: Global,
    conditions: Vec<Condition>,
    newest: &[u32],
    previous: Option<u32>,
    read: u32,
) -> Result<Vec<Condition>, NoMemory>
    ensures { IfOk result (λ asked.
        asked.items ≡ conditions.items ++ order_condition newest.now previous read ∷ []) }
{
    let mut asked = conditions;
    let mut before = Vec::new(alloc);
    before.extend_from_slice(newest)?;
    asked.push(order_condition(alloc, before, previous, read)?)?;
    Ok(asked)
}

// Returns those of the labels that can be the last one of them.
fn lasts_among(
    alloc: Global,
    count: u32,
    conditions: Vec<Condition>,
    labels: &[u32],
) -> Result<Vec<u32>, NoMemory>
    requires named { NameBelow count conditions.items }
    requires below { (b : ℕ) → Contains labels.now b → b < count }
    ensures { IfOk result (λ lasts. AreLasts count conditions.items labels.now lasts.items) }
{
    let mut solver = Solver::new(alloc, count, conditions)?;
    let lasts = solver.last_of(alloc, labels)?;
    Ok(lasts)
}

// Returns the values that the last writes wrote, and `None` if there are no newest ones.
fn values_of(
    alloc: Global,
    operations: &[&Op],
    newest: &[u32],
    lasts: &[u32],
) -> Result<Vec<Option<u32>>, NoMemory>
    ensures { IfOk result (λ values. (v : Option ℕ) → Contains values.items v
        ↔ IsValueAmong (operations_in operations.now) newest.now lasts.now v) }
{
    let mut values = Vec::new(alloc);
    if newest.is_empty() {
        values.push(None)?;
    }
    for label in lasts {
        if let Some(value) = written_value(operations, *label) {
            values.push(Some(value))?;
        }
    }
    Ok(values)
}

// Returns the value that the label wrote; `None` if it is no write.
fn written_value(operations: &[&Op], label: u32) -> Option<u32>
    ensures { result ≡ written_at (operations_in operations.now) label }
{
    match operation_at(operations, label) {
        Some(Op::Write(value)) => Some(*value),
        _ => None,
    }
}
