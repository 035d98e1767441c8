//! What a read demands of an order, or why no order explains it.
ghost use Rattle.std.specs.Prelude.{◌≡◌, ◌≤◌, ℕ, None, IfOk};
ghost use Rattle.std.specs.Ordering.{nat_cmp};
ghost use Rattle.std.specs.BTreeMap.{get};
ghost use Rattle.ra_visibility.specs.Seen.{count_in};
ghost use Rattle.ra_visibility.specs.Tracked.{labels_in};
ghost use Rattle.ra_visibility.specs.Kept.{issued_count};
ghost use Rattle.ra_rga_precedence.specs.Situation.{operations_in};
ghost use Rattle.ra_rga_precedence.specs.Views.{IsView, IsViewOfRead};
ghost use Rattle.ra_rga_precedence.specs.Reads.{AreInsertions, IsChecked};

use crate::insertions::Insertions;
use crate::marks::{Listing, listed_labels, unmark, unmarked_label};
use crate::neighbors::add_neighbors;
use crate::view::View;
use ra_labels::{NoMemory, Op};
use ra_precedence::Condition;
use ra_visibility::{Seen, Tracker};
use std::alloc::Global;

/// Why no order explains a read.
pub enum ReadFault {
    /// This label is visible, and the insertion of what it needs is not.
    Open(u32),
    /// This element is listed, and is not inserted, is removed, or is listed before.
    Wrong(u32),
    /// The element that this label inserts is not listed, and is not removed.
    Unlisted(u32),
    /// The first element is listed directly before the second one, under which it stands.
    Below(u32, u32),
}

/// Adds the conditions of the read of this label, a read of the list that sees these updates, where the view is that of
/// the replica's last read. Returns the reason if no order explains the read. Otherwise the view becomes that of this
/// read.
///
/// # Errors
///
/// `NoMemory` if allocation fails.
///
/// # Complexity
///
/// O(r + k + l · (d + log n)) for `r` replicas, `n` labels, and `k` updates that the last read does not see. `l` is the
/// length of this list and the last one, and `d` the depth of the tree of insertions.
pub fn add_read(
    conditions: &mut Vec<Condition>,
    alloc: Global,
    insertions: &Insertions,
    tracker: &Tracker,
    operations: &[&Op],
    view: &mut View,
    seen: &Seen<'_>,
    list: &[u32],
    read: u32,
) -> Result<Option<ReadFault>, NoMemory>
    requires insertions { AreInsertions (operations_in operations.now) (labels_in tracker.now.now)
        (get nat_cmp insertions.now.inserters) insertions.now.needed.items insertions.now.ranks.items }
    requires rows { seen.now.rows ≡ tracker.now.now.rows }
    requires counts { (k : ℕ) → count_in seen.now k ≤ issued_count tracker.now.now k }
    requires view { IsView tracker.now.now (operations_in operations.now) insertions.now.needed.items view.old }
    ensures checked { IfOk result (IsChecked (operations_in operations.now) (labels_in tracker.now.now)
        (get nat_cmp insertions.now.inserters) insertions.now.needed.items seen.now list.now conditions.old.items
        conditions.new.items) }
    ensures view { IfOk result (λ fault. fault ≡ None → IsViewOfRead tracker.now.now (operations_in operations.now)
        insertions.now.needed.items seen.now list.now view.new) }
{
    let needed = insertions.needed.as_slice();
    if let Some(label) = view.bring_up(alloc, tracker, operations, needed, seen)? {
        return Ok(Some(ReadFault::Open(label)));
    }
    let inserters = &insertions.inserters;
    let labels = match listed_labels(alloc, inserters, seen, &mut view.removed, list)? {
        Listing::Labels(labels) => labels,
        Listing::Wrong(element) => return Ok(Some(ReadFault::Wrong(element))),
    };
    if let Some(label) = unmarked_label(&view.removed, &view.present) {
        return Ok(Some(ReadFault::Unlisted(label)));
    }
    let ranks = insertions.ranks.as_slice();
    if let Some(place) = add_neighbors(conditions, alloc, needed, ranks, &labels, read)? {
        return Ok(Some(ReadFault::Below(list[place], list[place + 1])));
    }
    unmark(&mut view.removed, &labels);
    view.present = labels;
    Ok(None)
}
