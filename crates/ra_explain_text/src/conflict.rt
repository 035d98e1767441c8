//! A conflict of the order of a list's elements: a cycle of edges that labels require.
use crate::layout::{put, put_count, small};
use crate::list_elements::removes;
use crate::notes::{Head, Note, add_note};
use crate::quotes::{put_act, put_label, put_line, put_name};
use crate::view::View;
use ra_explain::{Conflict, Disagreement, Violation};
use ra_history_lines::number::{put_number, put_numbered};
use ra_labels::{Edge, NoMemory};

/// The largest number of edges that are shown.
const MOST_EDGES: usize = 12;

/// Adds the edges of the cycle, each with the label that requires it, and what would follow from them. Then an
/// operation that would hold, the elements of the cycle that are removed, two elements that two lines show both ways,
/// if there are any, and the rule that is broken.
pub fn add_conflict(
    notes: &mut Vec<Note>,
    view: &View<'_>,
    violation: &Violation,
    conflict: &Conflict,
) -> Result<(), NoMemory> {
    let mut shown: usize = 0;
    for edge in conflict.cycle.iter().take(MOST_EDGES) {
        let head = if shown == 0 { Head::Cycle } else { Head::More };
        add_edge(notes, view, head, *edge)?;
        shown = shown.saturating_add(1);
    }
    add_others(notes, conflict.cycle.len().saturating_sub(shown))?;
    add_consequence(notes, &conflict.cycle)?;
    add_holding(notes, view, conflict)?;
    add_removed(notes, view, violation, &conflict.cycle)?;
    match conflict.pairs {
        Some(pairs) => add_disagreement(notes, view, violation, pairs)?,
        None => add_agreement(notes)?,
    }
    add_note(
        notes,
        Head::Rule,
        "one order of all elements explains every read and every insertion",
    )
}

// Adds an edge and the label that requires it.
fn add_edge(
    notes: &mut Vec<Note>,
    view: &View<'_>,
    head: Head,
    edge: Edge,
) -> Result<(), NoMemory> {
    let mut text = Vec::new(*notes.allocator());
    put_number(&mut text, edge.before)?;
    put_numbered(&mut text, b" before ", edge.after)?;
    put(&mut text, ": ")?;
    put_label(&mut text, view, edge.label)?;
    Ok(notes.push(Note { head, text })?)
}

fn add_others(notes: &mut Vec<Note>, others: usize) -> Result<(), NoMemory> {
    if others == 0 {
        return Ok(());
    }
    let mut text = Vec::new(*notes.allocator());
    put(&mut text, "and ")?;
    put_count(&mut text, small(others), " more step", " more steps")?;
    put(&mut text, " back to the first element")?;
    Ok(notes.push(Note {
        head: Head::More,
        text,
    })?)
}

fn add_consequence(notes: &mut Vec<Note>, cycle: &[Edge]) -> Result<(), NoMemory> {
    let Some(first) = cycle.first() else {
        return Ok(());
    };
    let mut text = Vec::new(*notes.allocator());
    put_number(&mut text, first.before)?;
    put(&mut text, " would be before itself")?;
    Ok(notes.push(Note {
        head: Head::So,
        text,
    })?)
}

// Adds the operation with its elements in an order with which it would hold, if one was found.
fn add_holding(
    notes: &mut Vec<Note>,
    view: &View<'_>,
    conflict: &Conflict,
) -> Result<(), NoMemory> {
    let Some(command) = &conflict.holding else {
        return Ok(());
    };
    let mut text = Vec::new(*notes.allocator());
    put_act(&mut text, view.names, command)?;
    Ok(notes.push(Note {
        head: Head::Holds,
        text,
    })?)
}

// Adds each element of the shown edges that a label before the violation removes, with the first such label.
fn add_removed(
    notes: &mut Vec<Note>,
    view: &View<'_>,
    violation: &Violation,
    cycle: &[Edge],
) -> Result<(), NoMemory> {
    for edge in cycle.iter().take(MOST_EDGES) {
        if let Some(label) = removal_of(view, violation, edge.before) {
            add_removal(notes, view, edge.before, label)?;
        }
    }
    Ok(())
}

// Returns the first label before the violation that removes the element, if there is one.
fn removal_of(view: &View<'_>, violation: &Violation, element: u32) -> Option<u32> {
    for label in 0..violation.fault.label {
        if removes(view, label, element) {
            return Some(label);
        }
    }
    None
}

// Adds the element, which replica removes it and in which line.
fn add_removal(
    notes: &mut Vec<Note>,
    view: &View<'_>,
    element: u32,
    label: u32,
) -> Result<(), NoMemory> {
    let mut text = Vec::new(*notes.allocator());
    put_number(&mut text, element)?;
    if let Some(replica) = view.explanation.issuer(label) {
        put(&mut text, ", by ")?;
        put_name(&mut text, view.names, replica)?;
    }
    put(&mut text, " in ")?;
    put_line_of(&mut text, view, label)?;
    put(&mut text, "; its place still counts")?;
    Ok(notes.push(Note {
        head: Head::Removed,
        text,
    })?)
}

// Appends the line of the label.
fn put_line_of(text: &mut Vec<u8>, view: &View<'_>, label: u32) -> Result<(), NoMemory> {
    match view.explanation.places.at(label) {
        Some(place) => put_line(text, place),
        None => Ok(()),
    }
}

// Adds two elements that another line shows the other way round than the violating one, or the violating one itself.
fn add_disagreement(
    notes: &mut Vec<Note>,
    view: &View<'_>,
    violation: &Violation,
    pairs: Disagreement,
) -> Result<(), NoMemory> {
    let mut text = Vec::new(*notes.allocator());
    put_line_of(&mut text, view, pairs.label)?;
    put_numbered(&mut text, b" shows ", pairs.first)?;
    put_numbered(&mut text, b" before ", pairs.second)?;
    if pairs.label != violation.fault.label {
        put(&mut text, ", ")?;
        put_line(&mut text, violation.place)?;
    } else {
        put(&mut text, " and")?;
    }
    put_numbered(&mut text, b" ", pairs.second)?;
    put_numbered(&mut text, b" before ", pairs.first)?;
    Ok(notes.push(Note {
        head: Head::Pairs,
        text,
    })?)
}

// Adds that the lines meet the weak list specification, and which programs do not have to meet more than that.
fn add_agreement(notes: &mut Vec<Note>) -> Result<(), NoMemory> {
    add_note(
        notes,
        Head::Pairs,
        "no two lines show two elements both ways; programs that transform operations",
    )?;
    add_note(
        notes,
        Head::More,
        "(OT) may do this by the weak list specification, a CRDT may not",
    )
}
