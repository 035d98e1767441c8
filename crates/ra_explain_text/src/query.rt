//! The difference of the reported result from the expected one.
use crate::elements::put_elements;
use crate::layout::{put, put_size};
use crate::list_elements::{add_left_out, add_not_received, add_repeated, add_shown};
use crate::notes::{Head, Note};
use crate::unmet::add_unmet;
use crate::unordered::{add_earlier_read, add_values};
use crate::view::View;
use ra_explain::{Difference, Violation, operation_in};
use ra_history_lines::number::put_number;
use ra_labels::{Command, NoMemory, Op};

/// The index from which only the neighbours of an element are shown.
pub const FAR: usize = 8;

/// The number of neighbours that are shown before it.
pub const BEFORE: usize = 3;

/// Adds the first difference between the reported and the expected result; or, if no result is possible, the obstacle.
pub fn add_query(
    notes: &mut Vec<Note>,
    view: &View<'_>,
    violation: &Violation,
) -> Result<(), NoMemory> {
    match &violation.expected {
        Some(_) => add_difference(notes, view, violation),
        None => add_impossible(notes, view, violation),
    }
}

// Adds the elements that an operation of a list names and its replica has not received, or what a read of any type or
// of a multi-value register is compared with, or, of another kind, what makes each answer impossible.
fn add_impossible(
    notes: &mut Vec<Note>,
    view: &View<'_>,
    violation: &Violation,
) -> Result<(), NoMemory> {
    match operation_in(&violation.reported) {
        Some(op) if is_of_list(op) => add_not_received(notes, view, violation, op),
        Some(Op::AnyRead(_)) => add_earlier_read(notes, view, violation),
        Some(Op::MvRead(values)) => add_values(notes, view, violation, values.as_slice()),
        _ => add_unmet(notes, view, violation),
    }
}

fn is_of_list(op: &Op) -> bool {
    matches!(op, Op::List(_))
}

// Two list reads are compared by their first difference, and two sets by the missing and the unexpected elements.
fn add_difference(
    notes: &mut Vec<Note>,
    view: &View<'_>,
    violation: &Violation,
) -> Result<(), NoMemory> {
    match &violation.difference {
        Some(Difference::At(place)) => add_first(
            notes,
            list_in(Some(&violation.reported)),
            list_in(violation.expected.as_ref()),
            *place,
        ),
        Some(
            Difference::Sets {
                missing,
                unexpected,
            },
        ) => {
            add_list(notes, Head::Missing, missing)?;
            add_list(notes, Head::Unexpected, unexpected)
        }
        Some(
            Difference::Shown {
                missing,
                unexpected,
                repeated,
            },
        ) => {
            add_left_out(notes, view, violation, missing)?;
            add_shown(notes, view, violation, unexpected)?;
            add_repeated(notes, repeated)
        }
        None => Ok(()),
    }
}

// Returns the list that the command reads, or an empty one.
fn list_in(command: Option<&Command>) -> &[u32] {
    let Some(
        Command::Operate {
            op: Op::RgaRead(list),
            ..
        },
    ) = command
    else {
        return &[];
    };
    list.as_slice()
}

// Adds the first difference of two lists, counted from 1.
fn add_first(
    notes: &mut Vec<Note>,
    reported: &[u32],
    expected: &[u32],
    place: usize,
) -> Result<(), NoMemory> {
    let mut text = Vec::new(*notes.allocator());
    put(&mut text, "at position ")?;
    put_size(&mut text, place.saturating_add(1))?;
    put(&mut text, ": ")?;
    put_at(&mut text, "got ", reported.get(place).copied())?;
    put_at(&mut text, ", expected ", expected.get(place).copied())?;
    notes.push(Note {
        head: Head::Differs,
        text,
    })?;
    if place < FAR {
        return Ok(());
    }
    add_round(notes, Head::GotThere, reported, place)?;
    add_round(notes, Head::ExpectedThere, expected, place)
}

// Adds the elements of a long list around this index.
fn add_round(
    notes: &mut Vec<Note>,
    head: Head,
    list: &[u32],
    place: usize,
) -> Result<(), NoMemory> {
    let mut text = Vec::new(*notes.allocator());
    put(&mut text, ".. ")?;
    match list.get(place.saturating_sub(BEFORE)..) {
        Some(part) => put_elements(&mut text, part)?,
        None => {}
    }
    Ok(notes.push(Note { head, text })?)
}

fn put_at(text: &mut Vec<u8>, words: &str, element: Option<u32>) -> Result<(), NoMemory> {
    put(text, words)?;
    match element {
        Some(element) => put_number(text, element),
        None => put(text, "the end of the list"),
    }
}

fn add_list(notes: &mut Vec<Note>, head: Head, elements: &[u32]) -> Result<(), NoMemory> {
    if elements.is_empty() {
        return Ok(());
    }
    let mut text = Vec::new(*notes.allocator());
    put_elements(&mut text, elements)?;
    Ok(notes.push(Note { head, text })?)
}
