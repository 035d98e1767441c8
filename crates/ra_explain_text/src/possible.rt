//! What a read can return so that some order explains it, in words.
use crate::elements::{put_elements, put_marked};
use crate::layout::{put, put_size};
use crate::notes::{Head, Note};
use crate::query::{BEFORE, FAR};
use crate::view::View;
use ra_another_order::{PossibleAnswers, PossibleValues};
use ra_any_order::PossibleElements;
use ra_explain::{Violation, operation_in};
use ra_history_lines::number::put_number;
use ra_labels::{NoMemory, Op};
use ra_rga_precedence::NearestList;

/// The largest number of values that are shown.
const MOST_VALUES: usize = 8;

/// Adds what the violating read can return so that some order explains it, if that is known.
///
/// # Errors
///
/// `NoMemory` if an allocation fails.
pub fn add_possible(
    notes: &mut Vec<Note>,
    view: &View<'_>,
    violation: &Violation,
) -> Result<(), NoMemory> {
    let mut text = Vec::new(*notes.allocator());
    match &view.explanation.possible {
        Some(PossibleAnswers::Values(values)) => put_values(&mut text, values)?,
        Some(PossibleAnswers::Elements(elements)) => put_sorts(&mut text, elements)?,
        Some(PossibleAnswers::List(nearest)) => {
            put_nearest(
                &mut text,
                nearest,
                first_difference(violation, &nearest.list),
            )?;
        }
        None => return Ok(()),
    }
    Ok(notes.push(Note {
        head: Head::Possible,
        text,
    })?)
}

// Appends the values that a register's read can return.
fn put_values(text: &mut Vec<u8>, it: &PossibleValues) -> Result<(), NoMemory> {
    let mut count: usize = 0;
    if it.none {
        put(text, "none")?;
        count = 1;
    }
    for value in it.written.iter().take(MOST_VALUES) {
        if count > 0 {
            put(text, " or ")?;
        }
        put_number(text, *value)?;
        count = count.saturating_add(1);
    }
    let others = it.written.len().saturating_sub(MOST_VALUES);
    if others > 0 {
        put(text, " or one of ")?;
        put_size(text, others)?;
        put(text, " more")?;
    }
    put(text, manner(count))
}

// Returns the words behind this number of possible values.
fn manner(count: usize) -> &'static str {
    match count {
        0 => "nothing: no order explains the labels before",
        1 => ", whatever the order of the writes",
        _ => ", depending on the order of the writes",
    }
}

// Appends which elements an LWW set's read lists.
fn put_sorts(text: &mut Vec<u8>, it: &PossibleElements) -> Result<(), NoMemory> {
    put_sort(text, &it.listed, " in each order")?;
    put_sort(text, &it.undecided, " in some orders")?;
    put_sort(text, &it.unasked, " not tried")?;
    if text.is_empty() {
        put(text, "no element, whatever the order of the updates")?;
    }
    Ok(())
}

fn put_sort(text: &mut Vec<u8>, elements: &[u32], words: &str) -> Result<(), NoMemory> {
    if elements.is_empty() {
        return Ok(());
    }
    if !text.is_empty() {
        put(text, "; ")?;
    }
    put_elements(text, elements)?;
    put(text, words)
}

// Returns the first index at which the reported list and this one differ.
fn first_difference(violation: &Violation, list: &[u32]) -> usize {
    let Some(Op::RgaRead(reported)) = operation_in(&violation.reported) else {
        return 0;
    };
    let mut place: usize = 0;
    for (one, other) in reported.as_slice().iter().zip(list) {
        if one != other {
            break;
        }
        place = place.saturating_add(1);
    }
    place
}

// Appends the nearest list, a long one from shortly before this index on. A bar is between two elements that can come
// the other way round.
fn put_nearest(text: &mut Vec<u8>, it: &NearestList, place: usize) -> Result<(), NoMemory> {
    let start = if place < FAR {
        0
    } else {
        place.saturating_sub(BEFORE)
    };
    put(text, "nearest list: ")?;
    if start > 0 {
        put(text, ".. ")?;
    }
    let elements = it.list.get(start..).unwrap_or(&[]);
    if elements.is_empty() {
        return put(text, "-");
    }
    if put_marked(text, elements, &it.undecided, start)? {
        put(text, " (| either way round)")?;
    }
    Ok(())
}
