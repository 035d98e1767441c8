//! What the next read can return so that some order explains it with the labels before it.
ghost use Rattle.std.specs.Prelude.{◌≡◌, ◌<◌, true, IfOk, IfSome, is_some};
ghost use Rattle.ra_labels.specs.HistorySoFar.{History, replicas_of};
ghost use Rattle.ra_reported.specs.Reported.{reported_in};
ghost use Rattle.ra_visibility.specs.Tracked.{replicas_in};
ghost use Rattle.ra_any_order.specs.Situation.{operations_in};
ghost use Rattle.ra_another_order.specs.Operations.{AreLabelsOf};
ghost use Rattle.ra_another_order.specs.PossibleAnswers.{ArePossible, is_decided_read};

use crate::labels::Labels;
use crate::values::{PossibleValues, in_order};
use ra_any_order::{PossibleElements, possible_elements, possible_values};
use ra_journal::Entry;
use ra_labels::{Command, Kind, NoMemory, Op, Reply};
use ra_rga_precedence::{NearestList, nearest_list};
use ra_visibility::Tracker;
use std::alloc::Global;

/// What the next read can return.
#[derive(Drop)]
pub enum PossibleAnswers {
    /// The values of a register's read.
    Values(PossibleValues),
    /// The elements of an LWW set's read.
    Elements(PossibleElements),
    /// Of an RGA's read the possible list that is nearest to the given one.
    List(NearestList),
}

/// Returns what this read can return as the replica's next operation, in a history of this kind with this number of
/// initial replicas: that with which some order explains the read and the labels that the log reports. The monitor's
/// replies are ignored. Of an LWW set the solver is asked about at most 16 elements, those of `first` before others.
///
/// `None` if the operation is no read of a register, an LWW set or an RGA, if there is no such replica, or if no list
/// is possible for an RGA's read.
///
/// # Errors
///
/// `NoMemory` if allocation fails, or if there are 1,048,576 labels.
///
/// # Complexity
///
/// That of `Reported::of`, and of `possible_values`, `possible_elements` or `nearest_list`.
pub fn possible_answers(
    alloc: Global,
    kind: Kind,
    replicas: u8,
    log: &[Entry<Command, Reply>],
    replica: u8,
    read: &Op,
    first: &[u32],
) -> Result<Option<PossibleAnswers>, NoMemory>
    // There is an answer for each read of a register or an LWW set, if the replica exists.
    ensures asked { IfOk result (λ found. is_decided_read kind read.now ≡ true
        → replica < replicas_of (reported_in kind replicas log.now) → is_some found ≡ true) }
    // If some order explains the reported labels, call an answer possible if some order explains them and a read of
    // the replica that returns it. The values are exactly the possible ones. Each possible list of an LWW set has the
    // listed elements, some have an undecided element and some have not, and none has an element of none of the three
    // lists. The list of an RGA is possible, and another possible list has the element at an undecided place and the
    // next one the other way round.
    ensures possible { IfOk result (λ found. IfSome found
        (ArePossible kind (reported_in kind replicas log.now).records replica)) }
{
    let labels = Labels::of(alloc, kind, replicas, log)?;
    if replica >= labels.tracker.replicas() {
        return Ok(None);
    }
    let Labels {
        tracker,
        operations,
        ..
    } = labels;
    let found = possible_by_kind(
        alloc,
        kind,
        tracker,
        operations.as_slice(),
        replica,
        read,
        first,
    )?;
    Ok(found)
}

// Returns what this read can return, after the labels with these operations, whose visibility the tracker represents.
fn possible_by_kind(
    alloc: Global,
    kind: Kind,
    tracker: Tracker,
    operations: &[&Op],
    replica: u8,
    read: &Op,
    first: &[u32],
) -> Result<Option<PossibleAnswers>, NoMemory>
    requires { replica < replicas_in tracker.now }
    ensures asked { IfOk result (λ found. is_decided_read kind read.now ≡ true → is_some found ≡ true) }
    ensures possible { IfOk result (λ found. (past : History) → past.kind ≡ kind
        → AreLabelsOf tracker.now (operations_in operations.now) past
        → IfSome found (ArePossible kind past.records replica)) }
{
    match (kind, read) {
        (Kind::Register, Op::Last(_)) => {
            let values = possible_values(alloc, tracker, operations, replica)?;
            let values = in_order(alloc, values.as_slice())?;
            Ok(Some(PossibleAnswers::Values(values)))
        }
        (Kind::LwwSet, Op::LwwRead(_)) => {
            let found = possible_elements(alloc, tracker, operations, replica, first)?;
            Ok(Some(PossibleAnswers::Elements(found)))
        }
        (Kind::Rga, Op::RgaRead(list)) => {
            match nearest_list(alloc, tracker, operations, replica, list.as_slice())? {
                Some(nearest) => Ok(Some(PossibleAnswers::List(nearest))),
                None => Ok(None),
            }
        }
        _ => Ok(None),
    }
}
