//! The sequence that linearizes the history, or an order that explains more of it.
use crate::layout::put;
use crate::quotes::put_line_number;
use ra_another_order::{Answer, SecondOpinion, another_order, second_opinion};
use ra_explain::Places;
use ra_history_lines::number::put_number;
use ra_history_writer::spelling::put_numbers;
use ra_journal::Entry;
use ra_labels::{Command, NoMemory, Reply};
use ra_monitor::{Half, Monitor, Setup};
use ra_reported::Reported;
use std::alloc::Global;

/// Appends a line for each part of the named sequence: the label, `whole`, `query` or `update`, and the number of the
/// line with the label. For a list, a last line has the elements in one order that explains the labels.
///
/// If another order explains a violation, the lines are those of the labels of the longest explained prefix of the
/// reported labels, in an order that explains it.
///
/// # Errors
///
/// `NoMemory` if an allocation fails.
pub fn put_sequence(out: &mut Vec<u8>, monitor: &Monitor) -> Result<(), NoMemory> {
    match explaining_order(*out.allocator(), monitor)? {
        Some(order) => put_labels(out, monitor, &order),
        None => put_named_sequence(out, monitor),
    }
}

fn put_named_sequence(out: &mut Vec<u8>, monitor: &Monitor) -> Result<(), NoMemory> {
    let places = Places::of(*out.allocator(), monitor)?;
    let parts = monitor.sequence()?;
    for part in &parts {
        put_part(out, part.label, word(part.half), places.at(part.label))?;
    }
    if let Some(order) = monitor.list_order()? {
        put(out, "order ")?;
        put_numbers(out, &order)?;
        put(out, "\n")?;
    }
    Ok(())
}

fn put_part(out: &mut Vec<u8>, label: u32, part: &str, place: Option<u32>) -> Result<(), NoMemory> {
    put_number(out, label)?;
    put(out, part)?;
    if let Some(place) = place {
        put_line_number(out, place)?;
    }
    put(out, "\n")
}

fn word(half: Half) -> &'static str {
    match half {
        Half::Whole => " whole ",
        Half::QueryHalf => " query ",
        Half::UpdateHalf => " update ",
    }
}

// Returns an order that explains the longest prefix of the reported labels, if one explains the violation.
fn explaining_order(alloc: Global, monitor: &Monitor) -> Result<Option<Vec<u32>>, NoMemory> {
    let (setup, log) = (monitor.setup(), monitor.log());
    let Some(fault) = monitor.report().fault else {
        return Ok(None);
    };
    let Some(place) = Places::of(alloc, monitor)?.at(fault.label) else {
        return Ok(None);
    };
    let end = place as usize + 1;
    match second_opinion(alloc, &setup, log, end)? {
        // The log ends with the violation, so this order is one of all labels.
        Some(
            SecondOpinion {
                answer: Answer::Exists(order),
                ..
            },
        ) if end >= log.len() => Ok(Some(order)),
        Some(
            SecondOpinion {
                answer: Answer::Exists(_),
                extent,
            },
        ) => order_of(alloc, &setup, first_entries(log, extent.stop)),
        _ => Ok(None),
    }
}

// Returns the entries before this place of the log, or all if there is none.
fn first_entries(log: &[Entry<Command, Reply>], stop: Option<u32>) -> &[Entry<Command, Reply>] {
    match stop {
        Some(place) => log.get(..place as usize).unwrap_or(log),
        None => log,
    }
}

fn order_of(
    alloc: Global,
    setup: &Setup,
    log: &[Entry<Command, Reply>],
) -> Result<Option<Vec<u32>>, NoMemory> {
    match another_order(alloc, setup.kind, setup.replicas, log)? {
        Some(Answer::Exists(order)) => Ok(Some(order)),
        // Some order explains this prefix, so neither is the answer.
        Some(Answer::NoneExists(_)) | None => Ok(None),
    }
}

// Appends a line for each label of the order.
fn put_labels(out: &mut Vec<u8>, monitor: &Monitor, order: &[u32]) -> Result<(), NoMemory> {
    let (setup, log) = (monitor.setup(), monitor.log());
    let reported = Reported::of(*out.allocator(), setup.kind, setup.replicas, log)?;
    for label in order {
        // The order has reported labels alone, so there is a place.
        let place = reported.places.get(*label as usize).copied();
        put_part(out, *label, word(Half::Whole), place)?;
    }
    Ok(())
}
