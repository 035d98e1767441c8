//! What another order explains of a log with a violation.
ghost use Rattle.std.specs.Prelude.{◌≡◌, IfOk, IfSome, is_none};
ghost use Rattle.ra_theorems.specs.AnyOrder.{is_of_any_order};
ghost use Rattle.ra_monitor.specs.Monitor.{IsLegalLog};
ghost use Rattle.ra_another_order.specs.Answers.{IsAnswer};
ghost use Rattle.ra_another_order.specs.Extent.{records_at};
ghost use Rattle.ra_another_order.specs.Operations.{AreReported};
ghost use Rattle.ra_another_order.specs.Opinions.{IsOpinion};

use crate::answer::Answer;
use crate::extent::{Extent, extent_of};
use crate::labels::Labels;
use crate::question::{another_order, answer_by_kind};
use ra_journal::Entry;
use ra_labels::{Command, Kind, NoMemory, Reply};
use ra_monitor::Setup;
use std::alloc::Global;

/// What another order explains of a log.
#[derive(Drop)]
pub struct SecondOpinion {
    /// An order that explains the labels that the entries up to the end report, or the reason why none does.
    pub answer: Answer,
    /// The longest prefix of all reported labels that some order explains.
    pub extent: Extent,
}

/// Returns whether some order explains the labels that the entries up to `end` report, and the longest prefix of all
/// reported labels that some order explains. `None` if the kind is not a register, an LWW set or an RGA.
///
/// Usually the entry before `end` is the violation. If the log has fewer entries, the answer is about all of them. The
/// `answer` does not depend on the monitor's replies; the `extent` is found with their help.
///
/// # Errors
///
/// `NoMemory` if allocation fails, or if there are more than 1,048,576 labels.
///
/// # Complexity
///
/// That of `another_order` if `end` is the log's length and the last entry is the violation. Otherwise O(log n) times
/// that, where `n` is the number of labels. No clause states how often the question is asked.
pub fn second_opinion(
    alloc: Global,
    setup: &Setup,
    log: &[Entry<Command, Reply>],
    end: usize,
) -> Result<Option<SecondOpinion>, NoMemory>
    // A monitor of this setup recorded the log.
    requires { IsLegalLog setup.now log.now }
    // The result is `None` exactly for the kinds whose violations are final.
    ensures asked { IfOk result (λ it. is_none it ≡ is_of_any_order setup.now.kind) }
    // In the order, the parts of the labels up to the end are an RA-linearization. Or no sequence is one, not even by
    // visibility alone, and the reason shows it. Some order explains the longest prefix, and no sequence linearizes a
    // longer one, not even by visibility alone. The next label's operation is at the place `stop`, if there is one.
    ensures opinion { IfOk result (λ it.
        IfSome it (IsOpinion setup.now.kind setup.now.replicas log.now end)) }
{
    if is_of_any_order(setup.kind) {
        return Ok(None);
    }
    let labels = Labels::of(alloc, setup.kind, setup.replicas, log)?;
    let Some(answer) = answer_up_to(alloc, setup, log, &labels, end)? else {
        return Ok(None);
    };
    let extent = extent_of(alloc, setup, log, &labels, end, answer.exists())?;
    Ok(Some(SecondOpinion { answer, extent }))
}

// Returns `true` if the kind is not a register, an LWW set or an RGA.
fn is_of_any_order(kind: Kind) -> bool
    ensures { result ≡ is_of_any_order kind }
{
    match kind {
        Kind::Register | Kind::LwwSet | Kind::Rga => false,
        Kind::Counter | Kind::OrSet | Kind::List | Kind::Any | Kind::MvRegister => true,
    }
}

// Returns whether some order explains the labels up to the end. `labels` are those that all entries report.
fn answer_up_to(
    alloc: Global,
    setup: &Setup,
    log: &[Entry<Command, Reply>],
    labels: &Labels<'_>,
    end: usize,
) -> Result<Option<Answer>, NoMemory>
    requires { AreReported setup.now.kind setup.now.replicas log.now labels.now }
    ensures asked { IfOk result (λ answer. is_none answer ≡ is_of_any_order setup.now.kind) }
    ensures answer { IfOk result (λ answer. IfSome answer (IsAnswer setup.now.kind
        (records_at setup.now.kind setup.now.replicas log.now end))) }
{
    if end < log.len() {
        another_order(alloc, setup.kind, setup.replicas, &log[..end])
    } else {
        answer_by_kind(
            alloc,
            setup.kind,
            &labels.tracker,
            labels.operations.as_slice(),
        )
    }
}
