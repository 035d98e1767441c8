//! Whether an order explains the labels that a log reports, and whether a reason shows that none does.
ghost use Rattle.std.specs.Prelude.{◌≡◌, ◌↔◌, true, IsTrue, IfOk, IfSome, is_none};
ghost use Rattle.ra_labels.specs.declared.kind.Kind.TheVariants.{Rga};
ghost use Rattle.ra_labels.specs.HistorySoFar.{History};
ghost use Rattle.ra_theorems.specs.AnyOrder.{is_of_any_order, NoneLinearizes};
ghost use Rattle.ra_reported.specs.Reported.{reported_in};
ghost use Rattle.ra_some_order.specs.LabelOrders.{OrderExplains};
ghost use Rattle.ra_any_order.specs.Situation.{operations_in};
ghost use Rattle.ra_another_order.specs.Answers.{IsReason};
ghost use Rattle.ra_another_order.specs.Operations.{AreLabelsOf};

use crate::answer::Reason;
use crate::labels::Labels;
use ra_any_order::is_order_of_labels;
use ra_journal::Entry;
use ra_labels::{Command, Kind, NoMemory, Op, Reply};
use ra_rga_precedence::meets_demands;
use ra_visibility::Tracker;
use std::alloc::Global;

/// Returns whether the order explains the labels that the log reports in a history of this kind with this number of
/// initial replicas. So the order of an `Answer` can be checked without knowing how it was found. `None` if the kind is
/// not a register, an LWW set or an RGA. The monitor's replies are ignored.
///
/// # Errors
///
/// `NoMemory` if allocation fails, or if there are more than 1,048,576 labels.
///
/// # Complexity
///
/// That of `another_order`, and O(l) for the length `l` of the order.
pub fn linearizes(
    alloc: Global,
    kind: Kind,
    replicas: u8,
    log: &[Entry<Command, Reply>],
    order: &[u32],
) -> Result<Option<bool>, NoMemory>
    // The result is `None` exactly for the kinds whose violations are final.
    ensures asked { IfOk result (λ is. is_none is ≡ is_of_any_order kind) }
    // The result is `true` exactly if the order has each reported label once, and the parts of the labels in this order
    // are an RA-linearization.
    ensures order { IfOk result (λ it. IfSome it (λ is. (is ≡ true)
        ↔ OrderExplains kind (reported_in kind replicas log.now).records order.now)) }
{
    let labels = Labels::of(alloc, kind, replicas, log)?;
    linearizes_by_kind(
        alloc,
        kind,
        &labels.tracker,
        labels.operations.as_slice(),
        order,
    )
}

/// Returns `true` if the reason shows that no order explains the labels that the log reports in a history of this kind
/// with this number of initial replicas. So the reason of an `Answer` can be checked without knowing how it was found.
/// The monitor's replies are ignored.
///
/// No clause says which reasons are accepted. If labels rule out every order without a stuck set, only the reason that
/// `another_order` returns is accepted, and no stuck set. For the answer of `second_opinion`, pass the log up to its
/// `end`. The result is `false` for kinds that `another_order` does not answer.
///
/// # Errors
///
/// `NoMemory` if allocation fails, or if there are more than 1,048,576 labels.
///
/// # Complexity
///
/// That of `another_order`, and O(l) for the length `l` of the reason.
pub fn refutes(
    alloc: Global,
    kind: Kind,
    replicas: u8,
    log: &[Entry<Command, Reply>],
    reason: &Reason,
) -> Result<bool, NoMemory>
    // If the result is `true`, the reason is valid, and no sequence at all is an RA-linearization of what the log
    // reports, not even one that only has to extend visibility.
    ensures { IfOk result (λ is. IsTrue is → IsReason (reported_in kind replicas log.now).records reason.now
        × NoneLinearizes kind (reported_in kind replicas log.now).records) }
{
    let labels = Labels::of(alloc, kind, replicas, log)?;
    refutes_by_kind(
        alloc,
        kind,
        &labels.tracker,
        labels.operations.as_slice(),
        reason,
    )
}

// Returns whether the order explains the labels with these operations, whose visibility the tracker represents.
fn linearizes_by_kind(
    alloc: Global,
    kind: Kind,
    tracker: &Tracker,
    operations: &[&Op],
    order: &[u32],
) -> Result<Option<bool>, NoMemory>
    ensures asked { IfOk result (λ is. is_none is ≡ is_of_any_order kind) }
    ensures order { IfOk result (λ it. (past : History) → past.kind ≡ kind
        → AreLabelsOf tracker.now.now (operations_in operations.now) past
        → IfSome it (λ is. (is ≡ true) ↔ OrderExplains kind past.records order.now)) }
{
    let is = match kind {
        Kind::Register | Kind::LwwSet => {
            ra_any_order::linearizes(alloc, tracker, operations, order)?
        }
        Kind::Rga => linearizes_rga(alloc, tracker, operations, order)?,
        Kind::Counter | Kind::OrSet | Kind::List | Kind::Any | Kind::MvRegister => return Ok(None),
    };
    Ok(Some(is))
}

// Returns whether the order explains the labels of an RGA.
fn linearizes_rga(
    alloc: Global,
    tracker: &Tracker,
    operations: &[&Op],
    order: &[u32],
) -> Result<bool, NoMemory>
    ensures { IfOk result (λ is. (past : History) → past.kind ≡ Rga
        → AreLabelsOf tracker.now.now (operations_in operations.now) past
        → (is ≡ true) ↔ OrderExplains Rga past.records order.now) }
{
    if !is_order_of_labels(alloc, tracker, order)? {
        return Ok(false);
    }
    let keeps = meets_demands(alloc, tracker, operations, order)?;
    Ok(keeps)
}

// Returns whether the reason shows that no order explains the labels with these operations.
fn refutes_by_kind(
    alloc: Global,
    kind: Kind,
    tracker: &Tracker,
    operations: &[&Op],
    reason: &Reason,
) -> Result<bool, NoMemory>
    ensures { IfOk result (λ is. (past : History) → past.kind ≡ kind
        → AreLabelsOf tracker.now.now (operations_in operations.now) past
        → IsTrue is → IsReason past.records reason.now × NoneLinearizes kind past.records) }
{
    match (kind, reason) {
        (Kind::Register | Kind::LwwSet, Reason::Lww(its)) => {
            let shown = ra_any_order::refutes(alloc, tracker, operations, its)?;
            Ok(shown)
        }
        (Kind::Rga, Reason::Rga(its)) => {
            let shown = ra_rga_precedence::refutes(alloc, tracker, operations, its)?;
            Ok(shown)
        }
        _ => Ok(false),
    }
}
