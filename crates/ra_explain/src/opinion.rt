//! The question whether another order explains a violation.
ghost use Rattle.std.specs.Prelude.{◌≡◌, IfOk};
ghost use Rattle.ra_monitor.specs.Monitor.{IsLegalLog};
ghost use Rattle.ra_explain.specs.Opinions.{HasOpinion, KnowsList, can_be_one_list};

use crate::one_list::is_one_list;
use ra_another_order::{Answer, Reason, SecondOpinion, second_opinion};
use ra_journal::Entry;
use ra_labels::{Command, Kind, NoMemory, Reply};
use ra_monitor::Setup;
use ra_rga_precedence::Refutation;
use std::alloc::Global;

/// Returns what another order explains, for a log with a violation at this index. `None` if no other order can explain
/// a violation of the kind. The question is about the labels up to the violation, and about all that the log reports.
///
/// # Errors
///
/// Those of `second_opinion`.
///
/// # Complexity
///
/// That of `ra_another_order::second_opinion`.
pub fn opinion_on(
    alloc: Global,
    setup: &Setup,
    log: &[Entry<Command, Reply>],
    place: u32,
) -> Result<Option<SecondOpinion>, NoMemory>
    // A monitor of this setup recorded the log.
    requires { IsLegalLog setup.now log.now }
    // An opinion is present exactly if the kind is a register, an LWW set or an RGA. It is about the labels up to the
    // violation, and about all reported labels.
    ensures { IfOk result (HasOpinion setup.now log.now place) }
{
    second_opinion(alloc, setup, log, place as usize + 1)
}

/// Returns whether the labels up to the violation at this index hold as those of a list. `None` if the kind is not an
/// RGA, or if some order of the updates explains them or none was sought, by this opinion.
///
/// # Errors
///
/// Those of `is_one_list`.
///
/// # Complexity
///
/// That of `is_one_list`.
pub fn list_answer(
    alloc: Global,
    setup: &Setup,
    log: &[Entry<Command, Reply>],
    place: u32,
    opinion: &Option<SecondOpinion>,
) -> Result<Option<bool>, NoMemory>
    // The answer is `Some` exactly if the kind is an RGA and, by this opinion, no order explains the violation. `true`
    // means that the labels hold as those of a list; `false`, that they do not, or that a read lists wrong elements.
    ensures { IfOk result (KnowsList setup.now log.now place opinion.now) }
{
    match (setup.kind, opinion) {
        (Kind::Rga, Some(opinion)) if !opinion.answer.exists() => {
            let one = can_be_one_list(&opinion.answer) && is_one_list(alloc, setup, log, place)?;
            Ok(Some(one))
        }
        _ => Ok(None),
    }
}

// Returns `false` if a read lists wrong elements. No list allows such a read either, so no trial is needed. No clause
// says so: the model compares.
fn can_be_one_list(answer: &Answer) -> bool
    ensures { result ≡ can_be_one_list answer.now }
{
    match answer {
        Answer::NoneExists(Reason::Rga(Refutation::Wrong { .. } | Refutation::Unlisted { .. })) =>
            false,
        _ => true,
    }
}
