//! What a read of any type or of a multi-value register is compared with.
use crate::layout::put;
use crate::notes::{Head, Note};
use crate::quotes::{put_label, put_label_and};
use crate::view::View;
use ra_explain::{Violation, earlier_read, siblings_before};
use ra_history_lines::number::put_number;
use ra_labels::{NoMemory, Op};

/// The largest number of values that have a line each.
const MOST_VALUES: usize = 3;

/// Adds the earlier read that sees the same updates.
pub fn add_earlier_read(
    notes: &mut Vec<Note>,
    view: &View<'_>,
    violation: &Violation,
) -> Result<(), NoMemory> {
    let alloc = *notes.allocator();
    let explanation = view.explanation;
    let replicas = explanation.setup.replicas;
    let found = earlier_read(
        alloc,
        replicas,
        &explanation.log,
        &explanation.places,
        violation,
    )?;
    let Some(label) = found else {
        return Ok(());
    };
    let mut text = Vec::new(alloc);
    put_label_and(&mut text, view, label, b" sees the same updates")?;
    Ok(notes.push(Note {
        head: Head::Differs,
        text,
    })?)
}

/// Adds the writes whose values a read leaves out, and the values that it must not return.
pub fn add_values(
    notes: &mut Vec<Note>,
    view: &View<'_>,
    violation: &Violation,
    values: &[u32],
) -> Result<(), NoMemory> {
    let alloc = *notes.allocator();
    let explanation = view.explanation;
    let siblings = siblings_before(
        alloc,
        explanation.setup.replicas,
        &explanation.log,
        violation,
    )?;
    let mut shown = 0;
    for label in &siblings {
        if shown < MOST_VALUES && !is_listed(view, values, *label) {
            let mut text = Vec::new(alloc);
            put_label(&mut text, view, *label)?;
            notes.push(Note {
                head: Head::LeftOut,
                text,
            })?;
            shown += 1;
        }
    }
    let mut wrong = 0;
    for value in values {
        if wrong < MOST_VALUES && !is_written(view, &siblings, *value) {
            add_wrong_value(notes, view, violation, *value)?;
            wrong += 1;
        }
    }
    Ok(())
}

// Returns `true` if the value that the label wrote is listed.
fn is_listed(view: &View<'_>, values: &[u32], label: u32) -> bool {
    match view.explanation.operation(label) {
        Some(Op::MvWrite(value)) => values.contains(value),
        _ => true,
    }
}

// Returns `true` if one of the labels wrote the value.
fn is_written(view: &View<'_>, labels: &[u32], value: u32) -> bool {
    for label in labels {
        if writes(view, *label, value) {
            return true;
        }
    }
    false
}

fn writes(view: &View<'_>, label: u32, value: u32) -> bool {
    match view.explanation.operation(label) {
        Some(Op::MvWrite(written)) => *written == value,
        _ => false,
    }
}

// Adds a value that the read must not return, with the last write of it and the reason.
fn add_wrong_value(
    notes: &mut Vec<Note>,
    view: &View<'_>,
    violation: &Violation,
    value: u32,
) -> Result<(), NoMemory> {
    let mut text = Vec::new(*notes.allocator());
    put_number(&mut text, value)?;
    match last_write(view, violation, value) {
        Some(label) => {
            put(&mut text, ", written by ")?;
            let words: &[u8] = if violation.lacking.contains(&label) {
                b", which was not delivered"
            } else {
                b", which a write that it sees replaced"
            };
            put_label_and(&mut text, view, label, words)?;
        }
        None => put(&mut text, ", which nobody wrote")?,
    }
    Ok(notes.push(Note {
        head: Head::Shows,
        text,
    })?)
}

// Returns the last label before the violation that wrote the value.
fn last_write(view: &View<'_>, violation: &Violation, value: u32) -> Option<u32> {
    let mut found = None;
    for label in 0..violation.fault.label {
        if writes(view, label, value) {
            found = Some(label);
        }
    }
    found
}
