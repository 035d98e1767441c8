//! An update that a label sees without what it depends on.
use crate::notes::{Head, Note};
use crate::quotes::{put_label, put_label_and};
use crate::view::View;
use ra_explain::Violation;
use ra_history_lines::number::put_numbered;
use ra_labels::NoMemory;

/// Adds the update that is seen without what it depends on, if there is one.
pub fn add_unmet(
    notes: &mut Vec<Note>,
    view: &View<'_>,
    violation: &Violation,
) -> Result<(), NoMemory> {
    let Some(unmet) = &violation.unmet else {
        return Ok(());
    };
    let alloc = *notes.allocator();
    let mut text = Vec::new(alloc);
    put_label(&mut text, view, unmet.label)?;
    notes.push(Note {
        head: Head::ItSees,
        text,
    })?;
    let mut words = Vec::new(alloc);
    put_numbered(&mut words, b", which inserts ", unmet.element)?;
    let mut text = Vec::new(alloc);
    put_label_and(&mut text, view, unmet.missing, &words)?;
    Ok(notes.push(Note {
        head: Head::ButNot,
        text,
    })?)
}
