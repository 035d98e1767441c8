//! The conditions that a read of an LWW set adds.
ghost use Rattle.std.specs.Prelude.{◌≡◌, ◌<◌, ◌++◌, ◌∷◌, [], ◌⊎◌, ◌+◌, ℕ, List, Some, Contains, IfOk, OnOk, slice_get};
ghost use Rattle.std.specs.BTreeSet.{contains};
ghost use Rattle.std.specs.Ordering.{nat_cmp};
ghost use Rattle.ra_labels.specs.declared.operation.Op.TheVariants as op;
ghost use Rattle.ra_labels.specs.HistorySoFar.{History};
ghost use Rattle.ra_labels.specs.Lists.{is_among};
ghost use Rattle.ra_labels.specs.Places.{issuer_of};
ghost use Rattle.ra_visibility.specs.Tracked.{labels_in};
ghost use Rattle.ra_any_order.specs.Changes.{list_of, IsViewBelow, AreEarlier, ArePrevious, IsViewOf};
ghost use Rattle.ra_any_order.specs.Elements.{narrow_element, is_possible_element, IsElementsOutcome};
ghost use Rattle.ra_any_order.specs.Finding.{AreFound};
ghost use Rattle.ra_any_order.specs.Outcomes.{IsOutcome, IfPossible};
ghost use Rattle.ra_any_order.specs.Requirements.{AreConditionsBelow, NameBelow};
ghost use Rattle.ra_any_order.specs.Situation.{operations_in, IsHistoryOf};

use crate::changes::find_changes;
use crate::elements::{
    element_condition, is_possible_element, list_of, newest_of, push_others, set_of,
};
use crate::outcome::Outcome;
use crate::views::View;
use ra_labels::{NoMemory, Op};
use ra_precedence::Condition;
use ra_visibility::Tracker;
use std::alloc::Global;
use std::collections::{BTreeMap, BTreeSet};

/// Adds the conditions of the elements that a new update changed, or that only one of this read and the last one of its
/// replica returned. Those of the other elements are among the conditions of the last read.
///
/// # Errors
///
/// `NoMemory` if allocation fails.
///
/// # Complexity
///
/// O((e · r + l) · log n), where `e` is the number of these elements, `r` that of replicas, `l` that of elements that
/// both reads returned, and `n` that of labels. The search for new updates takes more (`find_changes`).
pub fn add_elements(
    conditions: &mut Vec<Condition>,
    alloc: Global,
    tracker: &Tracker,
    operations: &[&Op],
    previous: &[Option<u32>],
    view: &mut View,
    label: u32,
) -> Result<Outcome, NoMemory>
    requires label { label < labels_in tracker.now.now }
    requires view { IsViewBelow (labels_in tracker.now.now) view.old }
    requires earlier { AreEarlier (labels_in tracker.now.now) previous.now }
    ensures below { OnOk result (IsViewBelow (labels_in tracker.now.now) view.new) }
    ensures named { IfOk result (λ outcome. NameBelow (labels_in tracker.now.now) conditions.old.items
        → IfPossible outcome (NameBelow (labels_in tracker.now.now) conditions.new.items)) }
    ensures view { OnOk result ((past : History)
        → IsHistoryOf tracker.now.now (operations_in operations.now) past
        → ArePrevious past.records (labels_in tracker.now.now) previous.now
        → IsViewOf past.records (operations_in operations.now) (issuer_of past.records label) label view.old
        → (list : List ℕ) → slice_get (operations_in operations.now) label ≡ Some (op.LwwRead list)
        → IsViewOf past.records (operations_in operations.now) (issuer_of past.records label) (label + 1) view.new) }
    ensures outcome { IfOk result (λ outcome. (past : History)
        → IsHistoryOf tracker.now.now (operations_in operations.now) past
        → ArePrevious past.records (labels_in tracker.now.now) previous.now
        → IsViewOf past.records (operations_in operations.now) (issuer_of past.records label) label view.old
        → AreConditionsBelow past.records label conditions.old.items
        → (list : List ℕ) → slice_get (operations_in operations.now) label ≡ Some (op.LwwRead list)
        → IsOutcome past.records label (op.LwwRead list) conditions.old.items conditions.new.items outcome) }
{
    let listed = set_of(alloc, list_of(operations, Some(label)))?;
    let elements = elements_of(alloc, tracker, operations, previous, view, label, &listed)?;
    let replicas = tracker.replicas();
    add_each(
        conditions,
        alloc,
        operations,
        &view.newest,
        replicas,
        &elements,
        &listed,
        label,
    )
}

// Returns the elements that a new update changed, or that only one of this read and the last one returned. Some of them
// are in the result more than once.
fn elements_of(
    alloc: Global,
    tracker: &Tracker,
    operations: &[&Op],
    previous: &[Option<u32>],
    view: &mut View,
    label: u32,
    listed: &BTreeSet<u32>,
) -> Result<Vec<u32>, NoMemory>
    requires label { label < labels_in tracker.now.now }
    requires view { IsViewBelow (labels_in tracker.now.now) view.old }
    requires earlier { AreEarlier (labels_in tracker.now.now) previous.now }
    requires listed { (x : ℕ) → contains nat_cmp listed.now x
        ≡ is_among x (list_of (operations_in operations.now) (Some label)) }
    ensures below { OnOk result (IsViewBelow (labels_in tracker.now.now) view.new) }
    ensures last { OnOk result (view.new.last ≡ Some label) }
    ensures found { IfOk result (λ elements. (past : History)
        → IsHistoryOf tracker.now.now (operations_in operations.now) past
        → ArePrevious past.records (labels_in tracker.now.now) previous.now
        → IsViewOf past.records (operations_in operations.now) (issuer_of past.records label) label view.old
        → AreFound past.records (operations_in operations.now) view.old.last label view.new.newest elements.items) }
    ensures listed { IfOk result (λ elements. (x : ℕ) → Contains elements.items x
        ⊎ (contains nat_cmp listed.now x ≡ is_among x (list_of (operations_in operations.now) view.old.last))) }
{
    let last = list_of(operations, view.last);
    let mut elements = find_changes(alloc, tracker, operations, previous, view, label)?;
    push_others(
        &mut elements,
        list_of(operations, Some(label)),
        &set_of(alloc, last)?,
    )?;
    push_others(&mut elements, last, listed)?;
    Ok(elements)
}

// Adds the condition of each element, up to one for which no update can lead to the answer.
fn add_each(
    conditions: &mut Vec<Condition>,
    alloc: Global,
    operations: &[&Op],
    newest: &BTreeMap<(u32, u8), u32>,
    replicas: u8,
    elements: &[u32],
    listed: &BTreeSet<u32>,
    read: u32,
) -> Result<Outcome, NoMemory>
    ensures { IfOk result (IsElementsOutcome (operations_in operations.now) newest.now replicas
        (contains nat_cmp listed.now) elements.now conditions.old.items conditions.new.items) }
{
    for element in elements {
        let is_listed = listed.contains(element);
        let newest = newest_of(alloc, newest, replicas, *element)?;
        if !add_one(
            conditions, alloc, operations, &newest, is_listed, *element, read,
        )? {
            return Ok(Outcome::Impossible(Some(*element)));
        }
    }
    Ok(Outcome::Possible)
}

// Adds the condition of an element, of which these are the newest updates. Returns `false` if none of them can lead to
// the answer.
fn add_one(
    conditions: &mut Vec<Condition>,
    alloc: Global,
    operations: &[&Op],
    newest: &[u32],
    is_listed: bool,
    element: u32,
    read: u32,
) -> Result<bool, NoMemory>
    ensures added { OnOk result (conditions.new.items ≡ conditions.old.items
        ++ narrow_element (operations_in operations.now) newest.now is_listed element ∷ []) }
    ensures possible { IfOk result (λ possible. possible
        ≡ is_possible_element (narrow_element (operations_in operations.now) newest.now is_listed element) is_listed) }
{
    let condition = element_condition(alloc, operations, newest, is_listed, element, read)?;
    let possible = is_possible_element(&condition, is_listed);
    conditions.push(condition)?;
    Ok(possible)
}
