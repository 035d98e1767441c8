//! The elements of an answer.
use crate::layout::{put, put_size, small};
use ra_history_lines::number::put_number;
use ra_labels::NoMemory;

/// The largest number of a list's elements that a page shows.
const MOST_ELEMENTS: usize = 8;

/// Appends the elements, separated by commas: the first eight, and the number of the others.
pub fn put_elements(out: &mut Vec<u8>, elements: &[u32]) -> Result<(), NoMemory> {
    put_marked(out, elements, &[], 0)?;
    Ok(())
}

/// Appends the elements like `put_elements`, with a bar in place of the comma behind each one whose index is marked.
/// The first element has the index `start`. Returns `true` if there is a bar.
pub fn put_marked(
    out: &mut Vec<u8>,
    elements: &[u32],
    marks: &[u32],
    start: usize,
) -> Result<bool, NoMemory> {
    let mut place: usize = 0;
    let mut is_marked = false;
    let mut has_bar = false;
    for element in elements {
        if place == MOST_ELEMENTS {
            break;
        }
        if place > 0 {
            put(out, if is_marked { "|" } else { "," })?;
            has_bar = has_bar || is_marked;
        }
        put_number(out, *element)?;
        is_marked = marks.contains(&small(start.saturating_add(place)));
        place = place.saturating_add(1);
    }
    let others = elements.len().saturating_sub(place);
    if others > 0 {
        put(out, " and ")?;
        put_size(out, others)?;
        put(out, " more")?;
    }
    Ok(has_bar)
}
