//! The search for the last beginning of a log that some order explains.
ghost use Rattle.std.specs.Prelude.{◌≡◌, ◌<◌, ◌≤◌, ◌+◌, false, not, IfOk, is_some, length};
ghost use Rattle.ra_theorems.specs.AnyOrder.{is_of_any_order};
ghost use Rattle.ra_another_order.specs.Extent.{records_at, AreBounds, AreWithin, IsExplained, IsLastExplained};

use crate::answer::Answer;
use crate::question::another_order;
use crate::reasons::last_label;
use ra_journal::Entry;
use ra_labels::{Command, Kind, NoMemory, Reply};
use std::alloc::Global;

/// The indices of two ends: some order explains the labels up to the first one, and none those up to the second one.
#[derive(Clone, Copy)]
pub struct Bounds {
    /// The index of an end that is explained.
    pub explained: usize,
    /// The index of an end that is not, or the number of ends.
    pub unexplained: usize,
}

/// Returns the index of an end: some order explains the labels that the entries up to it report, and none those up to
/// the next one, if there is one. `places` are those of the labels in the log.
///
/// The question is asked first of the end before the second bound. If no order explains its labels, the reason names
/// labels, and the next question is about those before the last of them. Usually some order explains these, and none
/// does with the next label, so three questions are enough. Every fourth one is about the middle, whatever the reasons
/// are.
///
/// # Errors
///
/// `NoMemory` if allocation fails, or if there are more than 1,048,576 labels.
///
/// # Complexity
///
/// O(log n) times that of `another_order`, where `n` is the number of ends between the bounds.
pub fn last_explained(
    alloc: Global,
    kind: Kind,
    replicas: u8,
    log: &[Entry<Command, Reply>],
    ends: &[usize],
    places: &[u32],
    bounds: Bounds,
) -> Result<usize, NoMemory>
    // The kind is a register, an LWW set or an RGA.
    requires asked { is_of_any_order kind ≡ false }
    // The ends are in the log.
    requires ends { AreWithin log.now ends.now }
    // Some order explains the labels up to the first bound, and none those up to the second one.
    requires bounds { AreBounds kind replicas log.now ends.now bounds }
    // Some order explains the labels up to this end, and none those up to the next one.
    ensures { IfOk result (IsLastExplained kind replicas log.now ends.now) }
{
    let Bounds {
        mut explained,
        mut unexplained,
    } = bounds;
    let mut likely = unexplained;
    let mut turn = 0u8;
    while explained + 1 < unexplained {
        let next = next_end(explained, unexplained, likely, turn);
        let reason = reason_up_to(alloc, kind, replicas, log, ends[next])?;
        if reason.is_none() {
            explained = next;
        } else {
            unexplained = next;
        }
        likely = match reason {
            Some(label) => last_end_before(ends, places, label),
            None => next + 1,
        };
        turn = turn.wrapping_add(1) % 4;
    }
    Ok(explained)
}

// Returns the index between the bounds about which the question is asked next: the likely one or the next to it, and at
// every fourth turn that in the middle.
fn next_end(explained: usize, unexplained: usize, likely: usize, turn: u8) -> usize
    requires { explained + 1 < unexplained }
    ensures above { explained < result }
    ensures below { result < unexplained }
{
    if turn == 3 {
        explained + (unexplained - explained) / 2
    } else if likely <= explained {
        explained + 1
    } else if likely < unexplained {
        likely
    } else {
        unexplained - 1
    }
}

// Returns the index of the last end up to which the entries do not report the label; 0 if there is none. The search
// depends on it only for its cost.
fn last_end_before(ends: &[usize], places: &[u32], label: u32) -> usize {
    match places.get(label as usize) {
        Some(place) => ends
            .partition_point(|end| *end <= *place as usize)
            .saturating_sub(1),
        None => 0,
    }
}

// Returns `None` if some order explains the labels that the entries up to the end report, and otherwise the last label
// that the reason names.
fn reason_up_to(
    alloc: Global,
    kind: Kind,
    replicas: u8,
    log: &[Entry<Command, Reply>],
    end: usize,
) -> Result<Option<u32>, NoMemory>
    requires asked { is_of_any_order kind ≡ false }
    requires within { end ≤ length log.now }
    ensures { IfOk result (λ reason.
        IsExplained kind (records_at kind replicas log.now end) (not (is_some reason))) }
{
    match another_order(alloc, kind, replicas, &log[..end])? {
        Some(Answer::Exists(_)) => Ok(None),
        Some(Answer::NoneExists(reason)) => Ok(Some(last_label(&reason))),
        None => Ok(Some(0)),
    }
}
