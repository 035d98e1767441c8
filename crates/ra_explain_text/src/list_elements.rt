//! The elements of a list that an operation gets wrong: what a read leaves out, shows or repeats, and what an insertion
//! or a removal names.
use crate::elements::put_elements;
use crate::layout::{put, put_count, small};
use crate::notes::{Head, Note, add_note};
use crate::quotes::{put_arrival, put_label, put_label_and, put_name};
use crate::view::View;
use ra_explain::{LabelsWith, Violation, named_by, operation_in};
use ra_history_lines::number::{put_number, put_numbered};
use ra_labels::{ListOp, NoMemory, Op};

/// The largest number of elements of one sort that have a line each.
const MOST_ELEMENTS: usize = 3;

/// Adds the elements that a read leaves out, each with its insertion.
pub fn add_left_out(
    notes: &mut Vec<Note>,
    view: &View<'_>,
    violation: &Violation,
    elements: &[u32],
) -> Result<(), NoMemory> {
    for element in elements.iter().take(MOST_ELEMENTS) {
        let mut text = Vec::new(*notes.allocator());
        put_number(&mut text, *element)?;
        if let Some(label) = insertion_of(view, notes, violation, *element)? {
            put(&mut text, ", inserted by ")?;
            put_with_arrival(&mut text, view, violation, label)?;
        }
        notes.push(Note {
            head: Head::LeftOut,
            text,
        })?;
    }
    add_others(notes, elements.len())
}

/// Adds the elements that a read shows and must not show, each with the reason.
pub fn add_shown(
    notes: &mut Vec<Note>,
    view: &View<'_>,
    violation: &Violation,
    elements: &[u32],
) -> Result<(), NoMemory> {
    for element in elements.iter().take(MOST_ELEMENTS) {
        let mut text = Vec::new(*notes.allocator());
        put_number(&mut text, *element)?;
        match removal_of(view, violation, *element) {
            Some(label) => {
                put(&mut text, ", removed by ")?;
                put_with_arrival(&mut text, view, violation, label)?;
            }
            None => put_absent(&mut text, view, violation, *element)?,
        }
        notes.push(Note {
            head: Head::Shows,
            text,
        })?;
    }
    add_others(notes, elements.len())
}

/// Adds the elements that a read shows more than once.
pub fn add_repeated(notes: &mut Vec<Note>, elements: &[u32]) -> Result<(), NoMemory> {
    if elements.is_empty() {
        return Ok(());
    }
    let mut text = Vec::new(*notes.allocator());
    put_elements(&mut text, elements)?;
    put(&mut text, ": each element may be shown once")?;
    Ok(notes.push(Note {
        head: Head::Repeats,
        text,
    })?)
}

/// Adds the elements that an insertion or a removal names and its replica has not received.
pub fn add_not_received(
    notes: &mut Vec<Note>,
    view: &View<'_>,
    violation: &Violation,
    op: &Op,
) -> Result<(), NoMemory> {
    let mut place: usize = 0;
    for element in named_by(op) {
        let insertion = insertion_of(view, notes, violation, element)?;
        if element != 0 && insertion.is_none_or(|label| lacks(violation, label)) {
            let mut text = Vec::new(*notes.allocator());
            put_number(&mut text, element)?;
            put(&mut text, role(op, place))?;
            put_absent(&mut text, view, violation, element)?;
            notes.push(Note {
                head: Head::Names,
                text,
            })?;
        }
        place = place.saturating_add(1);
    }
    Ok(())
}

// Returns what the operation names the element as, if it may name two.
fn role(op: &Op, place: usize) -> &'static str {
    match op {
        Op::List(ListOp::Insert(_)) if place == 0 => " as its left neighbour",
        Op::List(ListOp::Insert(_)) => " as its right neighbour",
        _ => "",
    }
}

/// Adds the obstacle to an update of a list: the element 0, another insertion of its element, or elements that no label
/// inserts before it.
pub fn add_obstacle(
    notes: &mut Vec<Note>,
    view: &View<'_>,
    violation: &Violation,
    op: &ListOp,
) -> Result<(), NoMemory> {
    match op {
        ListOp::Insert(insertion) if insertion.element == 0 => add_no_element(notes),
        ListOp::Remove(0) => add_no_element(notes),
        ListOp::Insert(insertion) => {
            add_duplicate(notes, view, violation, insertion.element)?;
            add_unknown(notes, view, violation, insertion.left, insertion.element)?;
            if insertion.right == insertion.left {
                return Ok(());
            }
            add_unknown(notes, view, violation, insertion.right, insertion.element)
        }
        ListOp::Remove(element) => add_unknown(notes, view, violation, *element, 0),
        ListOp::Read(_) | ListOp::Part(_) => Ok(()),
    }
}

fn add_no_element(notes: &mut Vec<Note>) -> Result<(), NoMemory> {
    add_note(
        notes,
        Head::NotPossible,
        "0 is no element: it is never inserted and never removed",
    )
}

// Adds the earlier insertion of the element that this operation inserts, if there is one.
fn add_duplicate(
    notes: &mut Vec<Note>,
    view: &View<'_>,
    violation: &Violation,
    element: u32,
) -> Result<(), NoMemory> {
    let Some(label) = insertion_of(view, notes, violation, element)? else {
        return Ok(());
    };
    let mut text = Vec::new(*notes.allocator());
    put_numbered(&mut text, b"element ", element)?;
    put(&mut text, ", also inserted by ")?;
    put_label(&mut text, view, label)?;
    Ok(notes.push(Note {
        head: Head::Duplicate,
        text,
    })?)
}

// Adds the element if no earlier label inserts it, given the element that this operation inserts.
fn add_unknown(
    notes: &mut Vec<Note>,
    view: &View<'_>,
    violation: &Violation,
    element: u32,
    own: u32,
) -> Result<(), NoMemory> {
    if element == 0 || insertion_of(view, notes, violation, element)?.is_some() {
        return Ok(());
    }
    let mut text = Vec::new(*notes.allocator());
    put_numbered(&mut text, b"element ", element)?;
    put(&mut text, unknown_words(element == own))?;
    Ok(notes.push(Note {
        head: Head::Missing,
        text,
    })?)
}

fn unknown_words(is_own: bool) -> &'static str {
    if is_own {
        ", which no other label inserts"
    } else {
        ", which no label inserts"
    }
}

// Appends why the element is not in the replica's list: the insertion that it lacks, or that there is none.
fn put_absent(
    text: &mut Vec<u8>,
    view: &View<'_>,
    violation: &Violation,
    element: u32,
) -> Result<(), NoMemory> {
    let labels = view.labels(*text.allocator(), LabelsWith::Element(element))?;
    match labels.first() {
        Some(label) if *label != violation.fault.label => {
            put(text, ", inserted by ")?;
            put_with_arrival(text, view, violation, *label)
        }
        _ => put(text, ", which no label inserts"),
    }
}

// Appends the label, and how the replica of the violating label came to see it or that it does not see it.
fn put_with_arrival(
    text: &mut Vec<u8>,
    view: &View<'_>,
    violation: &Violation,
    label: u32,
) -> Result<(), NoMemory> {
    let mut words = Vec::new(*text.allocator());
    if lacks(violation, label) {
        put(&mut words, ", which was not delivered to ")?;
        put_name(&mut words, view.names, violation.replica)?;
    } else {
        put_arrival(&mut words, view, violation.replica, label)?;
    }
    put_label_and(text, view, label, &words)
}

// Returns `true` if the update was not delivered to the violating label's replica.
fn lacks(violation: &Violation, label: u32) -> bool {
    violation.lacking.binary_search(&label).is_ok()
}

// Returns the earlier label that inserts the element, if there is one.
fn insertion_of(
    view: &View<'_>,
    notes: &Vec<Note>,
    violation: &Violation,
    element: u32,
) -> Result<Option<u32>, NoMemory> {
    let labels = view.labels(*notes.allocator(), LabelsWith::Element(element))?;
    match labels.first() {
        Some(label) if *label != violation.fault.label => Ok(Some(*label)),
        _ => Ok(None),
    }
}

// Returns the first label that removes the element and that the violating label sees, if there is one.
fn removal_of(view: &View<'_>, violation: &Violation, element: u32) -> Option<u32> {
    for label in 0..violation.fault.label {
        if removes(view, label, element) && !lacks(violation, label) {
            return Some(label);
        }
    }
    None
}

/// Returns `true` if the label removes the element.
pub fn removes(view: &View<'_>, label: u32, element: u32) -> bool {
    match view.explanation.operation(label) {
        Some(Op::List(ListOp::Remove(removed))) => *removed == element,
        _ => false,
    }
}

fn add_others(notes: &mut Vec<Note>, all: usize) -> Result<(), NoMemory> {
    let others = all.saturating_sub(MOST_ELEMENTS);
    if others == 0 {
        return Ok(());
    }
    let mut text = Vec::new(*notes.allocator());
    put(&mut text, "and ")?;
    put_count(&mut text, small(others), " more element", " more elements")?;
    Ok(notes.push(Note {
        head: Head::More,
        text,
    })?)
}
