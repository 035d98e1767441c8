//! The explanation of a monitor's history, as plain data.
ghost use Rattle.std.specs.Prelude.{◌≡◌, IfOk, IfSome, MatchOption, None, Some, option_map, slice_get};
ghost use Rattle.ra_labels.specs.Records.{replica_count};
ghost use Rattle.ra_monitor.specs.Monitor.{IsLegalLog, fault_in, records_of};
ghost use Rattle.ra_explain.specs.Conflicts.{HasConflict};
ghost use Rattle.ra_explain.specs.Explanation.{AreNone, IsFound, IsReport, HoldWith, delivers, delivery_of, undelivered_for};
ghost use Rattle.ra_explain.specs.Opinions.{HasOpinion, KnowsList};
ghost use Rattle.ra_explain.specs.Origin.{operation_of, origin_of};
ghost use Rattle.ra_explain.specs.Places.{places_in};
ghost use Rattle.ra_explain.specs.PossibleAnswers.{HasPossible};
ghost use Rattle.ra_explain.specs.Rejected.{first_rejected};

use crate::certificate::Claim;
use crate::conflict::Conflict;
use crate::findings::Findings;
use crate::origin::{Origin, operation_of, origin_of};
use crate::places::{Places, entry_at};
use crate::rejected::first_rejected;
use crate::remedies::Remedies;
use crate::undelivered::{Undelivered, undelivered_at_end};
use crate::violation::Violation;
use ra_another_order::{PossibleAnswers, SecondOpinion};
use ra_journal::Entry;
use ra_labels::{Command, NoMemory, Op, Reply};
use ra_monitor::{Monitor, Report, Setup};
use std::alloc::Global;

/// The purpose of an explanation. It decides what is computed.
#[derive(Clone, Copy, Debug, PartialEq, Eq)]
pub enum Purpose {
    /// Text, which shows for a pass what replicas lack, and for a violation all reasons.
    Text,
    /// An object, which shows in any case what replicas lack, and for a violation the expected answer.
    Object,
    /// A drawing, which shows for a violation which labels rule out every order.
    Drawing,
}

/// The explanation of a monitor's history: its log, what was not delivered, and the first violation with its reasons
/// and remedies. Renderers need nothing else of the monitor.
#[derive(Drop)]
pub struct Explanation {
    /// The monitor's setup.
    pub setup: Setup,
    /// The monitor's log.
    pub log: Vec<Entry<Command, Reply>>,
    /// The indices of the labels in the log.
    pub places: Places,
    /// The summary of the log.
    pub report: Report,
    /// The number of replicas.
    pub replicas: u8,
    /// What was not delivered to each replica at the end, by its number. Empty if the purpose does not need it.
    pub undelivered: Vec<Undelivered>,
    /// The indices of the first ten rejected entries of the log.
    pub rejected: Vec<u32>,
    /// The first violation, if there is one.
    pub violation: Option<Violation>,
    /// The conflict of the elements' orders, if the violation is one by the order of a list.
    pub conflict: Option<Conflict>,
    /// What another order explains, if the violation is one of a register, an LWW set or an RGA.
    pub second_opinion: Option<SecondOpinion>,
    /// What the violating read can return so that some order explains it with the labels before it, if the violation is
    /// a read of a register, an LWW set or an RGA, and the query is its cause.
    pub possible: Option<PossibleAnswers>,
    /// Why no order explains the labels up to the violation, by the second opinion. Empty if one does, or if there is
    /// no opinion. No clause states it.
    pub certificate: Vec<Claim>,
    /// Whether the labels up to the violation hold as those of a list. Known of a violation of an RGA that no order of
    /// the updates explains, by the second opinion.
    pub one_list: Option<bool>,
    /// The changes of deliveries that were tried, and those with which the violating label would hold. Empty if there
    /// is no violation.
    pub remedies: Remedies,
}

impl Explanation {
    /// Returns the explanation of the monitor's history. The monitor is reduced to its log before changed histories are
    /// tried, so that its memory is available for them.
    ///
    /// # Errors
    ///
    /// `NoMemory` if an allocation fails.
    ///
    /// # Complexity
    ///
    /// One step for each entry of the log and one lookup for each label; if the purpose needs what was not delivered,
    /// one lookup for each label and replica. For a violation also the cost of the named sequence, of `Remedies::of`,
    /// of `second_opinion` and `possible_answers` of `ra_another_order`, and if no order explains it of its claims; of
    /// an RGA then once more the monitor's steps, as those of a list.
    pub fn of(alloc: Global, monitor: Monitor, purpose: Purpose) -> Result<Explanation, NoMemory>
        // The explanation has the setup of the given monitor.
        ensures setup { IfOk result (λ it. it.setup ≡ monitor.setup) }
        // The explanation has the log of the given monitor.
        ensures log { IfOk result (λ it. it.log.items ≡ monitor.log) }
        // The log is legal: each reply is the single-threaded monitor's answer after the entries before it.
        ensures legal { IfOk result (λ it. IsLegalLog monitor.setup it.log.items) }
        // The report states the kind, the number of calls, labels and rejections, and the fault of the log.
        ensures report { IfOk result (λ it. IsReport monitor.setup monitor.log it.report) }
        // The places are the indices of the labels in the log, by their numbers.
        ensures places { IfOk result (λ it. it.places ≡ places_in monitor.log) }
        // The number of replicas is that of the monitor, those that joined included.
        ensures replicas { IfOk result (λ it.
            it.replicas ≡ replica_count monitor.setup.replicas (records_of monitor.setup monitor.log)) }
        // If the purpose needs it, the list has for each replica the number of the updates that were not delivered to
        // it, and the oldest of them; otherwise it is empty.
        ensures undelivered { IfOk result (λ it. it.undelivered.items
            ≡ undelivered_for monitor.setup monitor.log purpose (fault_in monitor.setup monitor.log)) }
        // The rejected entries are the first ten of the log whose reply is a rejection.
        ensures rejected { IfOk result (λ it. it.rejected.items ≡ first_rejected monitor.log) }
        // There is a violation exactly if the log has a fault. It has that label, its index, its replica and its
        // command, the expected answer, the missing updates, and the labels with greater stamps.
        ensures violation { IfOk result (λ it. MatchOption it.violation (fault_in monitor.setup monitor.log ≡ None)
            (λ violation. IsFound monitor.setup monitor.log purpose violation)) }
        // There is a conflict exactly if the violation is one by the order of a list. Its cycle is one of edges that
        // labels require and passes each of its elements once, and its other command would hold. It has two elements
        // that a label shows the other way round than the violating one exactly if there are any.
        ensures conflict { IfOk result (λ it. MatchOption it.violation (it.conflict ≡ None) (λ violation.
            HasConflict monitor.setup monitor.log violation it.conflict)) }
        // A second opinion is present exactly if the violation is one of a register, an LWW set or an RGA. It says
        // whether any order explains the labels up to the violation, and how many of all reported labels some order
        // explains.
        ensures second_opinion { IfOk result (λ it. MatchOption it.violation (it.second_opinion ≡ None) (λ violation.
            HasOpinion monitor.setup monitor.log violation.place it.second_opinion)) }
        // The possible answers are what the violating read can return, if some order explains the labels before it.
        ensures possible { IfOk result (λ it. MatchOption it.violation (it.possible ≡ None) (λ violation.
            HasPossible monitor.setup monitor.log violation it.possible)) }
        // `one_list` is `Some` exactly if the violation is one of an RGA and, by the second opinion, no order of the
        // updates explains it. It is `false` if a read lists wrong elements; otherwise it is the answer of a list's
        // monitor.
        ensures one_list { IfOk result (λ it. MatchOption it.violation (it.one_list ≡ None) (λ violation.
            KnowsList monitor.setup monitor.log violation.place it.second_opinion it.one_list)) }
        // The remedies are exactly those of the tried changes with which the violating label would hold; without a
        // violation no change is tried.
        ensures remedies { IfOk result (λ it. MatchOption it.violation (AreNone it.remedies) (λ violation.
            HoldWith monitor.setup monitor.log violation.place it.remedies)) }
    {
        let places = Places::of(alloc, &monitor)?;
        let undelivered = undelivered_for(alloc, &monitor, &places, purpose)?;
        let rejected = first_rejected(alloc, &monitor)?;
        let violation = match monitor.report().fault {
            Some(fault) => Some(Violation::of(alloc, &monitor, &places, fault, purpose)?),
            None => None,
        };
        let setup = monitor.setup();
        let report = monitor.report();
        let replicas = monitor.replicas();
        let log = monitor.into_log();
        let Findings {
            conflict,
            second_opinion,
            possible,
            certificate,
            one_list,
            remedies,
        } = Findings::of(alloc, &setup, &log, &places, &violation)?;
        Ok(Explanation {
            conflict,
            second_opinion,
            possible,
            certificate,
            one_list,
            remedies,
            setup,
            log,
            places,
            report,
            replicas,
            undelivered,
            rejected,
            violation,
        })
    }

    /// Returns the entry at this index of the log, or `None` if there is none.
    pub fn entry(&self, place: u32) -> Option<&Entry<Command, Reply>>
        // The result is the entry at this index of the log, or `None` exactly if there is none.
        ensures { MatchOption result (slice_get self.now.log.items place ≡ None)
            (λ entry. slice_get self.now.log.items place ≡ Some entry.now) }
    {
        entry_at(&self.log, place)
    }

    /// Returns the operation of the label, or `None` if there is no such label.
    pub fn operation(&self, label: u32) -> Option<&Op>
        // The result is the operation of the label in the log, or `None` exactly if there is no such label.
        ensures { MatchOption result
            (operation_of self.now.log.items self.now.places label ≡ None)
            (λ op. operation_of self.now.log.items self.now.places label ≡ Some op.now) }
    {
        operation_of(&self.log, &self.places, label)
    }

    /// Returns the origin of the label, or `None` if there is no such label.
    pub fn origin(&self, label: u32) -> Option<Origin>
        // The result has the replica, the clock and the sort of the label's operation in the log, or is `None` exactly
        // if there is no such label.
        ensures { result ≡ origin_of self.now.log.items self.now.places label }
    {
        origin_of(&self.log, &self.places, label)
    }

    /// Returns the replica that issued the label, or `None` if there is no such label.
    pub fn issuer(&self, label: u32) -> Option<u8>
        // The result is the replica of the label's operation in the log, or `None` exactly if there is no such label.
        ensures { result ≡ option_map (λ it. it.replica)
            (origin_of self.now.log.items self.now.places label) }
    {
        self.origin(label).map(|origin| origin.replica)
    }

    /// Returns the index of the first entry that delivered the label to the replica, or `None` if there is none: the
    /// replica issued the label, joined with it, or lacks it.
    ///
    /// # Complexity
    ///
    /// O(number of entries).
    pub fn delivery(&self, replica: u8, label: u32) -> Option<u32>
        // The result is the index of the first accepted delivery of the label to the replica, or `None` exactly if
        // there is none.
        ensures { result ≡ delivery_of self.now.log.items replica label }
    {
        let mut place: usize = 0;
        for entry in &self.log {
            if delivers(entry, replica, label) {
                return u32::try_from(place).ok();
            }
            place += 1;
        }
        None
    }
}

// Returns `true` if the entry is an accepted delivery of the label to the replica.
fn delivers(entry: &Entry<Command, Reply>, replica: u8, label: u32) -> bool
    ensures { result ≡ delivers entry.now replica label }
{
    match (&entry.command, entry.reply) {
        (
            Command::Deliver {
                replica: to,
                label: it,
            },
            Reply::Got(_),
        ) => *to == replica && *it == label,
        _ => false,
    }
}

// Returns what was not delivered to each replica, if the purpose needs it.
fn undelivered_for(
    alloc: Global,
    monitor: &Monitor,
    places: &Places,
    purpose: Purpose,
) -> Result<Vec<Undelivered>, NoMemory>
    requires { places.now ≡ places_in monitor.now.log }
    ensures { IfOk result (λ all. all.items ≡ undelivered_for monitor.now.setup monitor.now.log purpose
        (fault_in monitor.now.setup monitor.now.log)) }
{
    match (purpose, monitor.report().fault) {
        (Purpose::Object, _) | (Purpose::Text, None) => undelivered_at_end(alloc, monitor, places),
        (Purpose::Text, Some(_)) | (Purpose::Drawing, _) => Ok(Vec::new(alloc)),
    }
}
