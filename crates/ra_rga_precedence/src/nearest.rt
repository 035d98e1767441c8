//! The answer nearest to a reported one that some order explains.
ghost use Rattle.std.specs.Prelude.{◌<◌, ℕ, Contains, IfOk, IfSome};
ghost use Rattle.std.specs.Ordering.{nat_cmp};
ghost use Rattle.std.specs.BTreeMap.{get};
ghost use Rattle.ra_labels.specs.HistorySoFar.{History};
ghost use Rattle.ra_visibility.specs.Tracked.{labels_in, replicas_in};
ghost use Rattle.ra_rga_precedence.specs.Nearest.{IsPossibleList, IsPastOfRead, IsUndecided};
ghost use Rattle.ra_rga_precedence.specs.Reads.{AreInsertions};
ghost use Rattle.ra_rga_precedence.specs.UpdateConditions.{NameBelow};
ghost use Rattle.ra_rga_precedence.specs.Situation.{operations_in, IsHistoryOf};

use crate::arrangement::{elements_at, labels_in_order};
use crate::beginning::{Beginning, longest_beginning};
use crate::insertions::Insertions;
use crate::next_read::is_possible_list;
use crate::ordering::{Foundation, demands_with_insertions};
use crate::pairs::add_pairs;
use crate::reported::{reported_labels, shown_labels};
use crate::turned::{Reading, turned_places};
use crate::undecided::free_pairs;
use ra_labels::{NoMemory, Op};
use ra_precedence::Condition;
use ra_visibility::{MOST_LABELS, Seen, Tracker};
use std::alloc::Global;

/// The answer nearest to a reported one that some order explains.
#[derive(Drop)]
pub struct NearestList {
    /// The answer.
    pub list: Vec<u32>,
    /// How many of the reported elements that the read can list (inserted, visible, not removed; each at its first
    /// place) come in their reported order in `list`, counted from the beginning. No explained answer has more of them
    /// in this order: only tests show this.
    pub kept: usize,
    /// Places in `list`, in ascending order: in another explained answer the element at the place and the next one come
    /// the other way round. At most `MOST_ASKED` neighbours are asked about.
    pub undecided: Vec<u32>,
}

/// Returns the answer of a read of an RGA's replica that some order explains together with the records, and that keeps
/// the longest possible beginning of the reported answer. Returns `None` if no order explains the records, or if the
/// replica received an update without the insertion that it needs. The tracker represents the visibility of the
/// records, and the operations are those of the labels, by number.
///
/// # Errors
///
/// `NoMemory` if allocation fails, or if there are `MOST_LABELS` labels.
///
/// # Complexity
///
/// O(log l) times that of `some_order`, where `l` is the length of the reported answer, which counts as one of the
/// lists. Usually about four times.
pub fn nearest_list(
    alloc: Global,
    tracker: Tracker,
    operations: &[&Op],
    replica: u8,
    reported: &[u32],
) -> Result<Option<NearestList>, NoMemory>
    // The replica exists.
    requires { replica < replicas_in tracker.now }
    // Of each history that the tracker and the operations represent: some order explains it and a read of the replica
    // that returned this answer.
    ensures explained { IfOk result (λ nearest. IfSome nearest (λ it. (past : History)
        → IsHistoryOf tracker.now (operations_in operations.now) past
        → IsPossibleList past.records replica it.list.items)) }
    // Of each such history and each of the undecided places: some order explains it and a read that returned another
    // answer, in which the next element comes before the one at the place.
    ensures undecided { IfOk result (λ nearest. IfSome nearest (λ it. (past : History) (place : ℕ)
        → IsHistoryOf tracker.now (operations_in operations.now) past → Contains it.undecided.items place
        → IsUndecided past.records replica it.list.items place)) }
{
    let mut tracker = tracker;
    if tracker.labels() >= MOST_LABELS {
        return Err(NoMemory);
    }
    let Foundation::Sound(insertions, conditions) = demands_with_insertions(
        alloc, &tracker, operations,
    )?
    else {
        return Ok(None);
    };
    let read = tracker.issue(replica, false)?;
    let nearest = nearest_at(
        alloc,
        &tracker,
        operations,
        &insertions,
        conditions,
        reported,
        read,
    )?;
    Ok(nearest)
}

// Returns the answer of the last label, a read. The insertions and conditions are those of the labels before it.
fn nearest_at(
    alloc: Global,
    tracker: &Tracker,
    operations: &[&Op],
    insertions: &Insertions,
    conditions: Vec<Condition>,
    reported: &[u32],
    read: u32,
) -> Result<Option<NearestList>, NoMemory>
    requires read { read < labels_in tracker.now.now }
    requires insertions { AreInsertions (operations_in operations.now) read (get nat_cmp insertions.now.inserters)
        insertions.now.needed.items insertions.now.ranks.items }
    requires named { NameBelow read conditions.items }
    ensures explained { IfOk result (λ nearest. IfSome nearest (λ it. (past : History) (replica : ℕ)
        → IsPastOfRead tracker.now.now (operations_in operations.now) past replica
        → IsPossibleList past.records replica it.list.items)) }
    ensures undecided { IfOk result (λ nearest. IfSome nearest (λ it. (past : History) (replica place : ℕ)
        → IsPastOfRead tracker.now.now (operations_in operations.now) past replica
        → Contains it.undecided.items place → IsUndecided past.records replica it.list.items place)) }
{
    let seen = tracker.vis(read);
    let Some(candidate) = candidate_of(
        alloc, &seen, operations, insertions, conditions, reported, read,
    )?
    else {
        return Ok(None);
    };
    let Candidate {
        list,
        labels,
        kept,
        mut reading,
    } = candidate;
    if !is_possible_list(alloc, tracker, operations, &list)? {
        return Ok(None);
    }
    let needed = insertions.needed.as_slice();
    let ranks = insertions.ranks.as_slice();
    let start = first_change(&list, reported).saturating_sub(1);
    let free = free_pairs(
        &mut reading.conditions,
        alloc,
        tracker,
        needed,
        ranks,
        &labels,
        start,
        read,
    )?;
    let undecided = turned_places(
        alloc,
        tracker,
        operations,
        needed,
        &mut reading,
        &list,
        free,
        read,
    )?;
    Ok(Some(NearestList {
        list,
        kept,
        undecided,
    }))
}

// An answer of which it is not yet known whether some order explains it.
#[derive(Drop)]
struct Candidate {
    // The answer.
    list: Vec<u32>,
    // The labels that insert its elements.
    labels: Vec<u32>,
    // How many of the reported elements come in their order.
    kept: usize,
    // What the read lists, and what the records demand.
    reading: Reading,
}

// Returns the nearest answer, before it is checked that an order explains it.
fn candidate_of(
    alloc: Global,
    seen: &Seen<'_>,
    operations: &[&Op],
    insertions: &Insertions,
    conditions: Vec<Condition>,
    reported: &[u32],
    read: u32,
) -> Result<Option<Candidate>, NoMemory>
    requires insertions { AreInsertions (operations_in operations.now) read (get nat_cmp insertions.now.inserters)
        insertions.now.needed.items insertions.now.ranks.items }
    requires named { NameBelow read conditions.items }
    ensures { IfOk result (λ found. IfSome found (λ it. (m : ℕ) → Contains it.labels.items m → m < read)) }
{
    let mut conditions = conditions;
    let base = conditions.len();
    let needed = insertions.needed.as_slice();
    let Some(shown) = shown_labels(alloc, operations, needed, seen, read)? else {
        return Ok(None);
    };
    let told = reported_labels(alloc, &insertions.inserters, &shown, reported)?;
    add_pairs(
        &mut conditions,
        alloc,
        needed,
        &insertions.ranks,
        &told,
        read,
    )?;
    let found = longest_beginning(alloc, read, &conditions, base)?;
    conditions.truncate(base);
    let Some(Beginning { pairs, order }) = found else {
        return Ok(None);
    };
    let labels = labels_in_order(alloc, operations, needed, seen, &shown, &order)?;
    let Some(list) = elements_at(alloc, operations, &labels)? else {
        return Ok(None);
    };
    let kept = told.len().min(pairs.saturating_add(1));
    let reading = Reading { shown, conditions };
    Ok(Some(Candidate {
        list,
        labels,
        kept,
        reading,
    }))
}

// Returns the first place at which the lists differ.
fn first_change(list: &[u32], other: &[u32]) -> usize {
    let mut place: usize = 0;
    for (element, expected) in list.iter().zip(other.iter()) {
        if *element != *expected {
            break;
        }
        place = place.saturating_add(1);
    }
    place
}
