//! The question whether another order explains the labels that a log reports.
ghost use Rattle.std.specs.Prelude.{◌≡◌, IfOk, IfSome, is_none};
ghost use Rattle.ra_labels.specs.HistorySoFar.{History};
ghost use Rattle.ra_theorems.specs.AnyOrder.{is_of_any_order};
ghost use Rattle.ra_reported.specs.Reported.{reported_in};
ghost use Rattle.ra_another_order.specs.Answers.{IsAnswer, of_lww, of_rga};
ghost use Rattle.ra_any_order.specs.Situation.{operations_in};
ghost use Rattle.ra_another_order.specs.Operations.{AreLabelsOf};

use crate::answer::{Answer, Reason};
use crate::labels::Labels;
use ra_journal::Entry;
use ra_labels::{Command, Kind, NoMemory, Op, Reply};
use ra_visibility::Tracker;
use std::alloc::Global;

/// Returns an order that explains the labels that the log reports in a history of this kind with this number of initial
/// replicas, or the reason why no sequence does. `None` if the kind is not a register, an LWW set or an RGA. The
/// monitor's replies are ignored.
///
/// # Errors
///
/// `NoMemory` if allocation fails, or if there are more than 1,048,576 labels.
///
/// # Complexity
///
/// That of `Reported::of` and of `some_order` for the kind.
pub fn another_order(
    alloc: Global,
    kind: Kind,
    replicas: u8,
    log: &[Entry<Command, Reply>],
) -> Result<Option<Answer>, NoMemory>
    // The result is `None` exactly for the kinds whose violations are final.
    ensures asked { IfOk result (λ answer. is_none answer ≡ is_of_any_order kind) }
    // In the order, the parts of the reported labels are an RA-linearization. Or no sequence is one, not even one that
    // only has to extend visibility, and the reason shows it.
    ensures answer { IfOk result (λ answer. IfSome answer
        (IsAnswer kind (reported_in kind replicas log.now).records)) }
{
    let labels = Labels::of(alloc, kind, replicas, log)?;
    answer_by_kind(alloc, kind, &labels.tracker, labels.operations.as_slice())
}

/// Returns the answer for the labels with these operations, whose visibility the tracker represents.
///
/// # Errors
///
/// `NoMemory` if allocation fails.
///
/// # Complexity
///
/// That of `some_order` for the kind.
pub fn answer_by_kind(
    alloc: Global,
    kind: Kind,
    tracker: &Tracker,
    operations: &[&Op],
) -> Result<Option<Answer>, NoMemory>
    // The result is `None` exactly for the kinds whose violations are final.
    ensures asked { IfOk result (λ answer. is_none answer ≡ is_of_any_order kind) }
    // The answer holds of each history of the kind with these labels.
    ensures answer { IfOk result (λ answer. (past : History) → past.kind ≡ kind
        → AreLabelsOf tracker.now.now (operations_in operations.now) past
        → IfSome answer (IsAnswer kind past.records)) }
{
    let answer = match kind {
        Kind::Register | Kind::LwwSet => {
            of_lww(ra_any_order::some_order(alloc, tracker, operations)?)
        }
        Kind::Rga => of_rga(ra_rga_precedence::some_order(alloc, tracker, operations)?),
        Kind::Counter | Kind::OrSet | Kind::List | Kind::Any | Kind::MvRegister => return Ok(None),
    };
    Ok(Some(answer))
}

// Returns the answer of a register or an LWW set.
fn of_lww(answer: ra_any_order::AnyOrder) -> Answer
    ensures { result ≡ of_lww answer }
{
    match answer {
        ra_any_order::AnyOrder::Exists(order) => Answer::Exists(order),
        ra_any_order::AnyOrder::NoneExists(reason) => Answer::NoneExists(Reason::Lww(reason)),
    }
}

// Returns the answer of an RGA.
fn of_rga(answer: ra_rga_precedence::AnyOrder) -> Answer
    ensures { result ≡ of_rga answer }
{
    match answer {
        ra_rga_precedence::AnyOrder::Exists(order) => Answer::Exists(order),
        ra_rga_precedence::AnyOrder::NoneExists(reason) => Answer::NoneExists(Reason::Rga(reason)),
    }
}
