//! The first violation of a history, with its reasons.
ghost use Rattle.std.specs.Prelude.{◌≡◌, IfOk, Some};
ghost use Rattle.ra_monitor.specs.Monitor.{fault_in};
ghost use Rattle.ra_explain.specs.Explanation.{IsFound, IsReported, above_for, expected_command_in};
ghost use Rattle.ra_explain.specs.Places.{places_in};

use crate::changes::copy;
use crate::difference::Difference;
use crate::expected::expected_answer;
use crate::explanation::Purpose;
use crate::label_filter::{LabelFilter, find_labels};
use crate::origin::operation_in;
use crate::places::{Places, entry_at};
use crate::undelivered::{Share, shares_of};
use crate::unmet::{Unmet, unmet_by};
use ra_labels::{Cause, Command, Fault, NoMemory, Stamp};
use ra_monitor::Monitor;
use std::alloc::Global;

/// The first violation of a history, with its reasons.
#[derive(Drop)]
pub struct Violation {
    /// The violating label and the cause.
    pub fault: Fault,
    /// The label's index in the log, from 0.
    pub place: u32,
    /// The replica that issued the label.
    pub replica: u8,
    /// The label's command, as it was reported.
    pub reported: Command,
    /// The command with the expected answer. `None` if the cause is not the query, or if no answer is possible, since
    /// the updates that the label sees are not admitted.
    pub expected: Option<Command>,
    /// The difference between the two answers, if there is an expected one.
    pub difference: Option<Difference>,
    /// The updates that the replica lacks, in ascending order.
    pub lacking: Vec<u32>,
    /// Of each replica by its number, how many updates it issued before the label, and how many of them the label's
    /// replica lacks. Empty unless the purpose is text.
    pub shares: Vec<Share>,
    /// The labels that it sees with stamps above its own, in ascending order. Empty unless the cause is the order and
    /// the purpose is text.
    pub above: Vec<u32>,
    /// The first update that it sees without what that update depends on, if no answer is possible and the purpose is
    /// text.
    pub unmet: Option<Unmet>,
}

impl Violation {
    /// Returns the violation with its reasons.
    ///
    /// # Errors
    ///
    /// `NoMemory` if an allocation fails.
    pub fn of(
        alloc: Global,
        monitor: &Monitor,
        places: &Places,
        fault: Fault,
        purpose: Purpose,
    ) -> Result<Violation, NoMemory>
        // The places are those of the labels in the monitor's log.
        requires places { places.now ≡ places_in monitor.now.log }
        // The fault is that of the monitor's log.
        requires fault { fault_in monitor.now.setup monitor.now.log ≡ Some fault }
        // The violation has that fault, its label's index, replica and command, the expected answer, the missing
        // updates, and the labels with greater stamps.
        ensures found { IfOk result (λ violation. IsFound monitor.now.setup monitor.now.log purpose violation) }
    {
        let (place, replica, reported) = reported_at(monitor, places, fault)?;
        let expected = expected_command(alloc, monitor, places, fault, replica)?;
        let lacking = find_labels(alloc, monitor, places, LabelFilter::MissingAt(replica))?;
        Ok(Violation {
            fault,
            place,
            replica,
            difference: difference_of(alloc, &reported, &expected)?,
            shares: shares_for(alloc, monitor, places, fault, &lacking, purpose)?,
            above: above_for(alloc, monitor, places, fault, &reported, purpose)?,
            unmet: unmet_for(alloc, monitor, places, fault, &expected, &lacking, purpose)?,
            reported,
            expected,
            lacking,
        })
    }
}

// Returns the index of the violating label, its replica, and its command.
fn reported_at(
    monitor: &Monitor,
    places: &Places,
    fault: Fault,
) -> Result<(u32, u8, Command), NoMemory>
    requires places { places.now ≡ places_in monitor.now.log }
    requires fault { fault_in monitor.now.setup monitor.now.log ≡ Some fault }
    ensures { IfOk result (λ it. IsReported monitor.now.log fault.label it.0 it.1 it.2) }
{
    let log = monitor.log();
    let Some(place) = places.at(fault.label) else {
        unreachable!()
    };
    let Some(entry) = entry_at(log, place) else {
        unreachable!()
    };
    let Command::Operate { replica, .. } = &entry.command else {
        unreachable!()
    };
    Ok((place, *replica, copy(&entry.command)?))
}

// Returns the command with the expected answer, at this replica.
fn expected_command(
    alloc: Global,
    monitor: &Monitor,
    places: &Places,
    fault: Fault,
    replica: u8,
) -> Result<Option<Command>, NoMemory>
    requires places { places.now ≡ places_in monitor.now.log }
    requires fault { fault_in monitor.now.setup monitor.now.log ≡ Some fault }
    ensures { IfOk result (λ command. command ≡ expected_command_in monitor.now.setup monitor.now.log replica) }
{
    let answer = expected_answer(alloc, monitor, places, fault)?;
    Ok(answer.map(|op| Command::Operate {
        replica,
        op,
        stamp: None,
    }))
}

fn difference_of(
    alloc: Global,
    reported: &Command,
    expected: &Option<Command>,
) -> Result<Option<Difference>, NoMemory> {
    let Some(expected) = expected else {
        return Ok(None);
    };
    match (operation_in(reported), operation_in(expected)) {
        (Some(reported), Some(expected)) => Ok(Some(Difference::of(alloc, reported, expected)?)),
        _ => Ok(None),
    }
}

fn shares_for(
    alloc: Global,
    monitor: &Monitor,
    places: &Places,
    fault: Fault,
    lacking: &[u32],
    purpose: Purpose,
) -> Result<Vec<Share>, NoMemory> {
    match purpose {
        Purpose::Text => shares_of(
            alloc,
            monitor.log(),
            places,
            monitor.replicas(),
            fault.label,
            lacking,
        ),
        Purpose::Object | Purpose::Drawing => Ok(Vec::new(alloc)),
    }
}

// Returns the labels with stamps above the violating one's, if the purpose needs them.
fn above_for(
    alloc: Global,
    monitor: &Monitor,
    places: &Places,
    fault: Fault,
    reported: &Command,
    purpose: Purpose,
) -> Result<Vec<u32>, NoMemory>
    requires { places.now ≡ places_in monitor.now.log }
    ensures { IfOk result (λ labels. labels.items
        ≡ above_for monitor.now.setup monitor.now.log purpose fault.cause reported.now) }
{
    match (purpose, fault.cause, reported) {
        (
            Purpose::Text,
            Cause::Order,
            Command::Operate {
                replica,
                stamp: Some(clock),
                ..
            },
        ) => {
            let own = Stamp {
                clock: *clock,
                replica: *replica,
            };
            find_labels(
                alloc,
                monitor,
                places,
                LabelFilter::StandAbove(*replica, own),
            )
        }
        _ => Ok(Vec::new(alloc)),
    }
}

// Returns the first update that is seen without what it depends on, if the purpose needs it.
fn unmet_for(
    alloc: Global,
    monitor: &Monitor,
    places: &Places,
    fault: Fault,
    expected: &Option<Command>,
    lacking: &[u32],
    purpose: Purpose,
) -> Result<Option<Unmet>, NoMemory> {
    match (purpose, fault.cause, expected) {
        (Purpose::Text, Cause::Query, None) => unmet_by(alloc, monitor, places, lacking),
        _ => Ok(None),
    }
}
