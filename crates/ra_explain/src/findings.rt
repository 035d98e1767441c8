//! What was found about a violation, besides the violation itself.
ghost use Rattle.std.specs.Prelude.{◌≡◌, IfOk, MatchOption};
ghost use Rattle.ra_monitor.specs.Monitor.{IsLegalLog};
ghost use Rattle.ra_explain.specs.Conflicts.{HasConflict, is_by_order};
ghost use Rattle.ra_explain.specs.Findings.{AreFindings, AreNoFindings};
ghost use Rattle.ra_explain.specs.Places.{places_in};

use crate::certificate::{Claim, claims_of};
use crate::conflict::Conflict;
use crate::opinion::{list_answer, opinion_on};
use crate::places::Places;
use crate::possible::possible_at;
use crate::remedies::Remedies;
use crate::violation::Violation;
use ra_another_order::{PossibleAnswers, SecondOpinion};
use ra_journal::Entry;
use ra_labels::{Cause, Command, Kind, NoMemory, Reply};
use ra_monitor::Setup;
use std::alloc::Global;

/// What was found about a violation, besides the violation itself. The fields are those of `Explanation`.
#[derive(Drop)]
pub struct Findings {
    /// The conflict of the elements' orders.
    pub conflict: Option<Conflict>,
    /// What another order explains.
    pub second_opinion: Option<SecondOpinion>,
    /// What the violating read can return so that some order explains it.
    pub possible: Option<PossibleAnswers>,
    /// Why no order explains the labels up to the violation.
    pub certificate: Vec<Claim>,
    /// Whether the labels up to the violation hold as those of a list.
    pub one_list: Option<bool>,
    /// The changes that were tried, and those that help.
    pub remedies: Remedies,
}

impl Findings {
    /// Returns the findings on the log's violation, or empty ones if there is none.
    ///
    /// # Errors
    ///
    /// `NoMemory` if an allocation fails, or those of `opinion_on` and `list_answer`.
    ///
    /// # Complexity
    ///
    /// That of the parts: `Conflict::of`, `opinion_on`, `claims_of`, `list_answer`, `possible_at` and `Remedies::of`.
    pub fn of(
        alloc: Global,
        setup: &Setup,
        log: &[Entry<Command, Reply>],
        places: &Places,
        violation: &Option<Violation>,
    ) -> Result<Findings, NoMemory>
        // A monitor of this setup recorded the log.
        requires legal { IsLegalLog setup.now log.now }
        // The places are the indices of the labels in the log.
        requires places { places.now ≡ places_in log.now }
        // They are the findings on the violation, or none without a violation. The claims are in no clause.
        ensures { IfOk result (λ it. MatchOption violation.now (AreNoFindings it)
            (λ violation. AreFindings setup.now log.now violation it)) }
    {
        match violation {
            Some(violation) => { Findings::of_violation(alloc, setup, log, places, violation) }
            None => Ok(Findings::none(alloc)),
        }
    }

    fn none(alloc: Global) -> Findings
        ensures { AreNoFindings result }
    {
        Findings {
            conflict: None,
            second_opinion: None,
            possible: None,
            certificate: Vec::new(alloc),
            one_list: None,
            remedies: Remedies::new(alloc),
        }
    }

    fn of_violation(
        alloc: Global,
        setup: &Setup,
        log: &[Entry<Command, Reply>],
        places: &Places,
        violation: &Violation,
    ) -> Result<Findings, NoMemory>
        requires legal { IsLegalLog setup.now log.now }
        requires places { places.now ≡ places_in log.now }
        ensures { IfOk result (AreFindings setup.now log.now violation.now) }
    {
        let place = violation.place;
        let second_opinion = opinion_on(alloc, setup, log, place)?;
        Ok(Findings {
            conflict: conflict_of(alloc, setup, log, places, violation)?,
            certificate: claims_of(alloc, log, places, &second_opinion)?,
            one_list: list_answer(alloc, setup, log, place, &second_opinion)?,
            second_opinion,
            possible: possible_at(alloc, setup, log, violation)?,
            remedies: Remedies::of(alloc, setup, log, places, violation)?,
        })
    }
}

// Returns the conflict of the elements' orders, if the violation is one by the order of a list.
fn conflict_of(
    alloc: Global,
    setup: &Setup,
    log: &[Entry<Command, Reply>],
    places: &Places,
    violation: &Violation,
) -> Result<Option<Conflict>, NoMemory>
    requires { places.now ≡ places_in log.now }
    ensures { IfOk result (HasConflict setup.now log.now violation.now) }
{
    if is_by_order(setup.kind, violation.fault.cause) {
        Ok(Some(Conflict::of(alloc, setup, log, places, violation)?))
    } else {
        Ok(None)
    }
}

// Returns `true` if a violation of this kind and cause is one by the order of a list.
fn is_by_order(kind: Kind, cause: Cause) -> bool
    ensures { result ≡ is_by_order kind cause }
{
    match (kind, cause) {
        (Kind::List, Cause::Order) => true,
        _ => false,
    }
}
