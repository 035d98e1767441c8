//! The labels of one sort: by what was delivered to a replica, which a monitor knows, or by their arguments, which the
//! log contains.
ghost use Rattle.std.specs.Prelude.{◌≡◌, IfOk};
ghost use Rattle.ra_explain.specs.LabelFilter as labels;
ghost use Rattle.ra_explain.specs.LabelFilter.{find_labels, labels_with, is_such, is_such_at};
ghost use Rattle.ra_explain.specs.Places.{places_in};

use crate::places::Places;
use ra_journal::Entry;
use ra_labels::{Command, ListOp, NoMemory, Op, Reply, Stamp};
use ra_monitor::Monitor;
use std::alloc::Global;

/// A sort of labels, by what was delivered to a replica.
#[derive(Clone, Copy, Debug, PartialEq, Eq)]
pub enum LabelFilter {
    /// The updates that have not been delivered to this replica.
    MissingAt(u8),
    /// The updates that were delivered to this replica, with an own stamp above this one.
    StandAbove(u8, Stamp),
}

/// A sort of labels, by their arguments.
#[derive(Clone, Copy, Debug, PartialEq, Eq)]
pub enum LabelsWith {
    /// The insertions of this element into a list.
    Element(u32),
    /// The labels with this stamp.
    Stamp(Stamp),
    /// The additions with this identifier.
    Identifier(u32),
}

/// Returns the labels of this sort, in ascending order.
///
/// # Errors
///
/// `NoMemory` if an allocation fails.
///
/// # Complexity
///
/// One lookup for each label.
pub fn find_labels(
    alloc: Global,
    monitor: &Monitor,
    places: &Places,
    sort: LabelFilter,
) -> Result<Vec<u32>, NoMemory>
    // The places are those of the labels in the monitor's log.
    requires { places.now ≡ places_in monitor.now.log }
    // The result has exactly the labels that pass the filter, in ascending order: updates that a replica lacks, or
    // labels delivered to it with a greater stamp.
    ensures { IfOk result (λ labels. labels.items ≡ find_labels monitor.now.setup monitor.now.log sort) }
{
    let log = monitor.log();
    let mut found = Vec::new(alloc);
    for label in 0..monitor.report().labels {
        if is_such_at(monitor, log, places, sort, label) {
            found.push(label)?;
        }
    }
    Ok(found)
}

// Returns `true` if there is such a label and it is of this sort.
fn is_such_at(
    monitor: &Monitor,
    log: &[Entry<Command, Reply>],
    places: &Places,
    sort: LabelFilter,
    label: u32,
) -> bool
    requires { log.now ≡ monitor.now.log }
    ensures { result ≡ is_such_at monitor.now.setup monitor.now.log places.now sort label }
{
    match places.entry(log, label) {
        Some(entry) => is_such(monitor, sort, label, &entry.command),
        None => false,
    }
}

fn is_such(monitor: &Monitor, sort: LabelFilter, label: u32, command: &Command) -> bool
    ensures { result ≡ is_such monitor.now.setup monitor.now.log sort label command.now }
{
    let Command::Operate { replica, op, stamp } = command else {
        return false;
    };
    match sort {
        LabelFilter::MissingAt(by) => op.is_update() && !monitor.has_delivered(by, label),
        LabelFilter::StandAbove(by, least) => {
            is_above(least, *replica, *stamp) && monitor.has_delivered(by, label)
        }
    }
}

/// Returns the labels of this sort, in ascending order, among the labels with these indices in the log.
///
/// # Errors
///
/// `NoMemory` if an allocation fails.
///
/// # Complexity
///
/// One lookup for each label.
pub fn labels_with(
    alloc: Global,
    log: &[Entry<Command, Reply>],
    places: &Places,
    sort: LabelsWith,
) -> Result<Vec<u32>, NoMemory>
    // The result has exactly the labels at the given places that insert the element, carry the stamp or give the
    // identifier, in ascending order.
    ensures { IfOk result (λ labels. labels.items ≡ labels_with log.now places.now sort) }
{
    let mut found = Vec::new(alloc);
    for label in 0..places.count() {
        if is_with_at(log, places, sort, label) {
            found.push(label)?;
        }
    }
    Ok(found)
}

// Returns `true` if there is such a label and it is of this sort.
fn is_with_at(log: &[Entry<Command, Reply>], places: &Places, sort: LabelsWith, label: u32) -> bool
    ensures { result ≡ labels.is_with_at log.now places.now sort label }
{
    match places.entry(log, label) {
        Some(entry) => is_with(sort, &entry.command),
        None => false,
    }
}

fn is_with(sort: LabelsWith, command: &Command) -> bool
    ensures { result ≡ labels.is_with sort command.now }
{
    let Command::Operate { replica, op, stamp } = command else {
        return false;
    };
    match sort {
        LabelsWith::Element(element) => puts_in(element, op),
        LabelsWith::Stamp(own) => *replica == own.replica && *stamp == Some(own.clock),
        LabelsWith::Identifier(identifier) => gives(identifier, op),
    }
}

// Returns `true` if there is a clock whose stamp, made by this replica, is above the other stamp.
fn is_above(stamp: Stamp, replica: u8, clock: Option<u32>) -> bool
    ensures { result ≡ labels.is_above stamp replica clock }
{
    match clock {
        Some(clock) => stamp < Stamp { clock, replica },
        None => false,
    }
}

// Returns `true` if the operation inserts the element into a list.
fn puts_in(element: u32, op: &Op) -> bool
    ensures { result ≡ labels.puts_in element op.now }
{
    match op {
        Op::After { element: other, .. } => *other == element,
        Op::List(ListOp::Insert(insertion)) => insertion.element == element,
        _ => false,
    }
}

// Returns `true` if the operation adds an element under the identifier.
fn gives(identifier: u32, op: &Op) -> bool
    ensures { result ≡ labels.gives identifier op.now }
{
    match op {
        Op::OrAdd { id, .. } => *id == identifier,
        _ => false,
    }
}
