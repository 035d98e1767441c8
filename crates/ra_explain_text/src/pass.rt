//! What a pass leaves open: updates that did not reach every replica.
ghost use Rattle.std.specs.Prelude.{◌≡◌, ◌++◌, OnOk, codes, drop, filter, length, take};
ghost use Rattle.ra_history_writer.specs.Spelling.{name_of};
ghost use Rattle.ra_explain_text.specs.Lacks.{lack_front, lack_rows, lack_words, lacks_some, oldest_words, others_lacking, undelivered_rows, updates_words};
ghost use Rattle.ra_explain_text.specs.Rows.{row};

use crate::layout::{put, put_count, put_row, small};
use crate::quotes::{put_label, put_name};
use crate::view::View;
use ra_explain::Undelivered;
use ra_history_lines::Names;
use ra_labels::NoMemory;

/// The largest number of replicas that have a line each.
const MOST_LINES: usize = 10;

/// Appends which replicas lack which updates at the end.
///
/// # Errors
///
/// `NoMemory` if an allocation fails.
pub fn put_undelivered(out: &mut Vec<u8>, view: &View<'_>) -> Result<(), NoMemory>
    // After success, a line for each of the first ten replicas is appended, and the number of the others that lack
    // updates.
    ensures { OnOk result (out.new.items
        ≡ out.old.items ++ undelivered_rows view.now.names.now view.now.explanation.now) }
{
    let all = view.explanation.undelivered.as_slice();
    put_lacks(out, view, first_of(all))?;
    put_others(out, small(number_lacking(others_of(all))))
}

fn first_of(all: &[Undelivered]) -> &[Undelivered]
    ensures { result.now ≡ take 10 all.now }
{
    all.get(..MOST_LINES).unwrap_or(all)
}

fn others_of(all: &[Undelivered]) -> &[Undelivered]
    ensures { result.now ≡ drop 10 all.now }
{
    all.get(MOST_LINES..).unwrap_or(&[])
}

// Returns the number of those that lack updates.
fn number_lacking(lacks: &[Undelivered]) -> usize
    ensures { result ≡ length (filter lacks_some lacks.now) }
{
    lacks.iter().filter(|lack| lack.oldest.is_some()).count()
}

fn put_lacks(out: &mut Vec<u8>, view: &View<'_>, lacks: &[Undelivered]) -> Result<(), NoMemory>
    ensures { OnOk result (out.new.items
        ≡ out.old.items ++ lack_rows view.now.names.now view.now.explanation.now lacks.now) }
{
    for lack in lacks {
        put_lack(out, view, *lack)?;
    }
    Ok(())
}

// Appends the number of updates that the replica lacks, and the oldest of them.
fn put_lack(out: &mut Vec<u8>, view: &View<'_>, lack: Undelivered) -> Result<(), NoMemory>
    ensures { OnOk result (out.new.items ≡ out.old.items
        ++ row (codes "at the end") (lack_words view.now.names.now view.now.explanation.now lack)) }
{
    match lack.oldest {
        None => put_lacks_nothing(out, view.names, lack.replica),
        Some(oldest) => put_oldest(out, view, lack, oldest),
    }
}

fn put_lacks_nothing(out: &mut Vec<u8>, names: &Names, replica: u8) -> Result<(), NoMemory>
    ensures { OnOk result (out.new.items ≡ out.old.items
        ++ row (codes "at the end") (name_of names.now replica ++ codes ": every update was delivered")) }
{
    let mut text = Vec::new(*out.allocator());
    put_name(&mut text, names, replica)?;
    put(&mut text, ": every update was delivered")?;
    put_row(out, "at the end", &text)
}

fn put_oldest(
    out: &mut Vec<u8>,
    view: &View<'_>,
    lack: Undelivered,
    oldest: u32,
) -> Result<(), NoMemory>
    ensures { OnOk result (out.new.items ≡ out.old.items
        ++ row (codes "at the end") (oldest_words view.now.names.now view.now.explanation.now lack oldest)) }
{
    let mut text = Vec::new(*out.allocator());
    put_front(&mut text, view.names, lack)?;
    put_label(&mut text, view, oldest)?;
    put_row(out, "at the end", &text)
}

fn put_front(text: &mut Vec<u8>, names: &Names, lack: Undelivered) -> Result<(), NoMemory>
    ensures { OnOk result (text.new.items ≡ text.old.items ++ lack_front names.now lack) }
{
    put_name(text, names, lack.replica)?;
    put(text, ": ")?;
    put_updates(text, small(lack.updates))
}

fn put_updates(text: &mut Vec<u8>, count: u32) -> Result<(), NoMemory>
    ensures { OnOk result (text.new.items ≡ text.old.items ++ updates_words count) }
{
    put_count(
        text,
        count,
        " update was not delivered, ",
        " updates were not delivered, the oldest ",
    )
}

fn put_others(out: &mut Vec<u8>, others: u32) -> Result<(), NoMemory>
    ensures { OnOk result (out.new.items ≡ out.old.items ++ others_lacking others) }
{
    if others == 0 {
        return Ok(());
    }
    let mut text = Vec::new(*out.allocator());
    put_count(
        &mut text,
        others,
        " more replica misses updates",
        " more replicas miss updates",
    )?;
    put_row(out, "", &text)
}
