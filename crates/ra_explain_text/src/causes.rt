//! The causes other than a query: a clock below one that is seen, and an update that is not admitted.
use crate::layout::{put, put_count, small};
use crate::list_elements::add_obstacle;
use crate::notes::{Head, Note, add_note};
use crate::quotes::{put_arrival, put_label, put_label_and};
use crate::view::View;
use ra_explain::{LabelsWith, Violation, operation_in};
use ra_history_lines::number::put_numbered;
use ra_labels::{NoMemory, Op};

/// The largest number of labels with greater stamps that are shown.
const MOST_ABOVE: usize = 3;

/// Adds the latest labels that this one sees with a stamp above its own, how its replica came to see them, and the rule
/// that is broken.
pub fn add_order(
    notes: &mut Vec<Note>,
    view: &View<'_>,
    violation: &Violation,
) -> Result<(), NoMemory> {
    let mut shown: usize = 0;
    for other in violation.above.iter().rev() {
        if shown == MOST_ABOVE {
            break;
        }
        add_above(notes, view, violation.replica, *other)?;
        shown = shown.saturating_add(1);
    }
    add_others(notes, violation.above.len().saturating_sub(shown))?;
    add_note(
        notes,
        Head::Rule,
        "a clock, and on a tie its replica, is above all that its label sees",
    )
}

fn add_above(
    notes: &mut Vec<Note>,
    view: &View<'_>,
    replica: u8,
    other: u32,
) -> Result<(), NoMemory> {
    let mut words = Vec::new(*notes.allocator());
    put_arrival(&mut words, view, replica, other)?;
    let mut text = Vec::new(*notes.allocator());
    put_label_and(&mut text, view, other, &words)?;
    Ok(notes.push(Note {
        head: Head::ButSees,
        text,
    })?)
}

fn add_others(notes: &mut Vec<Note>, others: usize) -> Result<(), NoMemory> {
    if others == 0 {
        return Ok(());
    }
    let mut text = Vec::new(*notes.allocator());
    put(&mut text, "and ")?;
    put_count(&mut text, small(others), " label", " labels")?;
    put(&mut text, " before them")?;
    Ok(notes.push(Note {
        head: Head::More,
        text,
    })?)
}

/// Adds the obstacle to the update: another insertion of its element, or an anchor or element that no label inserts
/// before it.
pub fn add_update(
    notes: &mut Vec<Note>,
    view: &View<'_>,
    violation: &Violation,
) -> Result<(), NoMemory> {
    let label = violation.fault.label;
    match operation_in(&violation.reported) {
        Some(Op::After { element: 0, .. } | Op::RgaRemove(0)) => add_note(
            notes,
            Head::NotPossible,
            "0 is the start of the list: it is never inserted and never removed",
        ),
        Some(Op::After { anchor, element }) => {
            let words = ", also inserted by ";
            if add_insertions(notes, view, label, *element, Head::Duplicate, words)? {
                return Ok(());
            }
            add_needed(notes, view, label, *anchor)
        }
        Some(Op::RgaRemove(element)) => add_needed(notes, view, label, *element),
        Some(Op::List(op)) => add_obstacle(notes, view, violation, op),
        _ => Ok(()),
    }
}

fn add_needed(
    notes: &mut Vec<Note>,
    view: &View<'_>,
    label: u32,
    element: u32,
) -> Result<(), NoMemory> {
    let words = ", which comes later in the order, by ";
    if add_insertions(notes, view, label, element, Head::Missing, words)? {
        return Ok(());
    }
    let mut text = Vec::new(*notes.allocator());
    put_numbered(&mut text, b"element ", element)?;
    match view.explanation.operation(label) {
        Some(Op::After { element: own, .. }) if *own == element => {
            put(&mut text, ", which no other label inserts")?;
        }
        _ => put(&mut text, ", which no label inserts")?,
    }
    Ok(notes.push(Note {
        head: Head::Missing,
        text,
    })?)
}

// Adds the other labels that insert the element, each as a note with this head, and with these words before the label.
// Returns `true` if there are any.
fn add_insertions(
    notes: &mut Vec<Note>,
    view: &View<'_>,
    label: u32,
    element: u32,
    head: Head,
    words: &str,
) -> Result<bool, NoMemory> {
    let found = view.labels(*notes.allocator(), LabelsWith::Element(element))?;
    let mut any = false;
    for other in found {
        if other != label {
            let mut text = Vec::new(*notes.allocator());
            put_numbered(&mut text, b"element ", element)?;
            put(&mut text, words)?;
            put_label(&mut text, view, other)?;
            notes.push(Note { head, text })?;
            any = true;
        }
    }
    Ok(any)
}
