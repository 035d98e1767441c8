//! The updates that a label sees, and those that its replica lacks.
use crate::layout::{put, put_size};
use crate::notes::{Head, Note};
use crate::quotes::{put_label_and, put_name};
use crate::view::View;
use ra_explain::{Share, Violation};
use ra_history_lines::number::{put_number, put_numbered};
use ra_labels::NoMemory;

/// The largest number of replicas that have a line each.
const MOST_LINES: u32 = 8;

/// Adds, for each replica, how many of its updates the label sees.
pub fn add_shares(
    notes: &mut Vec<Note>,
    view: &View<'_>,
    violation: &Violation,
) -> Result<(), NoMemory> {
    let mut lines: u32 = 0;
    let mut others: u32 = 0;
    let mut from: u8 = 0;
    for share in &violation.shares {
        if share.all > 0 && lines < MOST_LINES {
            add_share(notes, view, from, *share)?;
            lines = lines.saturating_add(1);
        } else if share.all > 0 {
            others = others.saturating_add(1);
        }
        from = from.saturating_add(1);
    }
    add_others(notes, others)?;
    add_latest_lacking(notes, view, &violation.lacking)
}

fn add_share(
    notes: &mut Vec<Note>,
    view: &View<'_>,
    from: u8,
    share: Share,
) -> Result<(), NoMemory> {
    let mut text = Vec::new(*notes.allocator());
    put_number(&mut text, share.all.saturating_sub(share.lacking))?;
    put_numbered(&mut text, b" of ", share.all)?;
    put(
        &mut text,
        if share.all == 1 {
            " update of "
        } else {
            " updates of "
        },
    )?;
    put_name(&mut text, view.names, from)?;
    Ok(notes.push(Note {
        head: Head::Sees,
        text,
    })?)
}

fn add_others(notes: &mut Vec<Note>, others: u32) -> Result<(), NoMemory> {
    if others == 0 {
        return Ok(());
    }
    let mut text = Vec::new(*notes.allocator());
    put_numbered(&mut text, b"and some of ", others)?;
    put(&mut text, " more replicas, which are not listed here")?;
    Ok(notes.push(Note {
        head: Head::More,
        text,
    })?)
}

// Adds the latest missing update.
fn add_latest_lacking(
    notes: &mut Vec<Note>,
    view: &View<'_>,
    lacking: &[u32],
) -> Result<(), NoMemory> {
    let Some(latest) = lacking.last() else {
        return Ok(());
    };
    let mut words = Vec::new(*notes.allocator());
    if lacking.len() > 1 {
        put(&mut words, ", and ")?;
        put_size(&mut words, lacking.len() - 1)?;
        put(&mut words, " before it")?;
    }
    let mut text = Vec::new(*notes.allocator());
    put_label_and(&mut text, view, *latest, &words)?;
    Ok(notes.push(Note {
        head: Head::NotDelivered,
        text,
    })?)
}
