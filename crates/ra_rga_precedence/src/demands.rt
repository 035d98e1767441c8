//! What all reads demand of an order, or why no order explains one of them.
ghost use Rattle.std.specs.Prelude.{◌≡◌, ◌<◌, ℕ, None, length, get_or, IfOk};
ghost use Rattle.std.specs.Ordering.{nat_cmp};
ghost use Rattle.std.specs.BTreeMap.{get};
ghost use Rattle.ra_labels.specs.HistorySoFar.{History};
ghost use Rattle.ra_visibility.specs.Tracked.{labels_in, replicas_in};
ghost use Rattle.ra_rga_precedence.specs.declared.view.View.{View};
ghost use Rattle.ra_rga_precedence.specs.Views.{IsNewView, IsView};
ghost use Rattle.ra_rga_precedence.specs.Situation.{operations_in, IsHistoryOf};
ghost use Rattle.ra_rga_precedence.specs.UpdateConditions.{NameBelow};
ghost use Rattle.ra_rga_precedence.specs.Reads.{AreInsertions};
ghost use Rattle.ra_rga_precedence.specs.Answers.{refutation_of, IsStep, AreReads};

use crate::answer::Refutation;
use crate::insertions::Insertions;
use crate::operations::list_read;
use crate::reads::{ReadFault, add_read};
use crate::view::View;
use ra_labels::{NoMemory, Op};
use ra_precedence::Condition;
use ra_visibility::Tracker;
use std::alloc::Global;

/// Adds the conditions of all reads. Returns why no order explains one of them, if so.
///
/// # Errors
///
/// `NoMemory` if allocation fails.
///
/// # Complexity
///
/// O(r · (n + r) + l · (d + log n)), where `n` is the number of labels, `r` that of replicas, `l` the length of all
/// lists, and `d` the depth of the tree of insertions. The views of the replicas take O(n · r) words.
pub fn add_reads(
    conditions: &mut Vec<Condition>,
    alloc: Global,
    insertions: &Insertions,
    tracker: &Tracker,
    operations: &[&Op],
) -> Result<Option<Refutation>, NoMemory>
    requires { AreInsertions (operations_in operations.now) (labels_in tracker.now.now)
        (get nat_cmp insertions.now.inserters) insertions.now.needed.items insertions.now.ranks.items }
    ensures named { IfOk result (λ reason. reason ≡ None
        → NameBelow (labels_in tracker.now.now) conditions.old.items
        → NameBelow (labels_in tracker.now.now) conditions.new.items) }
    ensures reads { IfOk result (λ reason. (past : History)
        → IsHistoryOf tracker.now.now (operations_in operations.now) past
        → AreReads past.records (labels_in tracker.now.now) conditions.old.items conditions.new.items reason) }
{
    let mut views = new_views(alloc, tracker)?;
    for label in 0..tracker.labels() {
        let view = &mut views[tracker.issuer(label) as usize];
        if let Some(reason) = add_label(
            conditions, alloc, insertions, tracker, operations, view, label,
        )? {
            return Ok(Some(reason));
        }
    }
    Ok(None)
}

// Returns a view for each replica, each without reads.
fn new_views(alloc: Global, tracker: &Tracker) -> Result<Vec<View>, NoMemory>
    ensures len { IfOk result (λ views. length views.items ≡ replicas_in tracker.now.now) }
    ensures each { IfOk result (λ views. (i : ℕ) (none : View) → i < length views.items
        → IsNewView (replicas_in tracker.now.now) (labels_in tracker.now.now) (get_or views.items i none)) }
{
    let mut views = Vec::new(alloc);
    for _ in 0..tracker.replicas() {
        views.push(View::new(alloc, tracker.replicas(), tracker.labels())?)?;
    }
    Ok(views)
}

// Adds the conditions of the label if it is a read, where the view is that of its replica's last read. Returns why no
// order explains it, if so.
fn add_label(
    conditions: &mut Vec<Condition>,
    alloc: Global,
    insertions: &Insertions,
    tracker: &Tracker,
    operations: &[&Op],
    view: &mut View,
    label: u32,
) -> Result<Option<Refutation>, NoMemory>
    requires are { AreInsertions (operations_in operations.now) (labels_in tracker.now.now)
        (get nat_cmp insertions.now.inserters) insertions.now.needed.items insertions.now.ranks.items }
    requires label { label < labels_in tracker.now.now }
    requires view { IsView tracker.now.now (operations_in operations.now) insertions.now.needed.items view.old }
    ensures view { IfOk result (λ reason. reason ≡ None
        → IsView tracker.now.now (operations_in operations.now) insertions.now.needed.items view.new) }
    ensures named { IfOk result (λ reason. reason ≡ None
        → NameBelow (labels_in tracker.now.now) conditions.old.items
        → NameBelow (labels_in tracker.now.now) conditions.new.items) }
    ensures step { IfOk result (λ reason. (past : History)
        → IsHistoryOf tracker.now.now (operations_in operations.now) past
        → IsStep past.records label conditions.old.items conditions.new.items reason) }
{
    match list_read(operations, label) {
        Some(list) => {
            let seen = tracker.vis(label);
            match add_read(
                conditions, alloc, insertions, tracker, operations, view, &seen, list, label,
            )? {
                Some(fault) => Ok(Some(refutation_of(label, fault))),
                None => Ok(None),
            }
        }
        None => Ok(None),
    }
}

// Returns the reason why no sequence explains the records, from the fault of a read.
fn refutation_of(read: u32, fault: ReadFault) -> Refutation
    ensures { result ≡ refutation_of read fault }
{
    match fault {
        ReadFault::Open(label) => Refutation::Open { read, label },
        ReadFault::Wrong(element) => Refutation::Wrong { read, element },
        ReadFault::Unlisted(label) => Refutation::Unlisted { read, label },
        ReadFault::Below(first, second) => Refutation::Below {
            read,
            first,
            second,
        },
    }
}
