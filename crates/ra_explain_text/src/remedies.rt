//! The remedies of a violation: changes of deliveries with which its label would hold.
ghost use Rattle.std.specs.Prelude.{◌≡◌, ◌-◌, ◌++◌, OnOk, length};
ghost use Rattle.std.specs.List.{list_any};
ghost use Rattle.ra_explain_text.specs.Rows.{row};
ghost use Rattle.ra_explain_text.specs.Words as words;
ghost use Rattle.ra_explain_text.specs.Words.{missing_words};

use crate::layout::{put, put_count, put_row, small};
use crate::quotes::{put_label_and, put_line, put_name};
use crate::view::View;
use ra_explain::{Change, Remedies, Violation};
use ra_history_lines::Names;
use ra_history_lines::number::put_numbered;
use ra_labels::{Command, NoMemory};

/// The largest number of remedies that are shown.
const MOST_SHOWN: usize = 5;

/// Returns the remedies that are shown: the first five.
pub fn shown(remedies: &Remedies) -> &[Change]
    // The result is the first five remedies.
    ensures { result.now ≡ words.shown remedies.now }
{
    match remedies.found.as_slice().get(..MOST_SHOWN) {
        Some(first) => first,
        None => remedies.found.as_slice(),
    }
}

/// Appends the changes with which the label would have held, the latest first.
///
/// # Errors
///
/// `NoMemory` if an allocation fails.
pub fn put_remedies(
    out: &mut Vec<u8>,
    view: &View<'_>,
    violation: &Violation,
) -> Result<(), NoMemory>
    // After success, a line for each of the first five remedies is appended, and the number of the others or, if none
    // was found, of the changes that were tried.
    ensures { OnOk result (out.new.items ≡ out.old.items
        ++ words.remedy_rows view.now.names.now view.now.explanation.now violation.now) }
{
    let remedies = &view.explanation.remedies;
    put_listed(out, view, violation, shown(remedies))?;
    put_rest(out, remedies)
}

// Appends what follows the remedies that are shown.
fn put_rest(out: &mut Vec<u8>, remedies: &Remedies) -> Result<(), NoMemory>
    ensures { OnOk result (out.new.items ≡ out.old.items ++ words.rest_rows remedies.now) }
{
    put_others(out, others_of(remedies))?;
    put_depending(out, shown(remedies))?;
    put_tried(out, remedies)
}

// Returns the number of the remedies that are not shown.
fn others_of(remedies: &Remedies) -> usize
    ensures { result ≡ length remedies.now.found.items - 5 }
{
    remedies.found.len().saturating_sub(MOST_SHOWN)
}

fn put_listed(
    out: &mut Vec<u8>,
    view: &View<'_>,
    violation: &Violation,
    changes: &[Change],
) -> Result<(), NoMemory>
    ensures { OnOk result (out.new.items ≡ out.old.items
        ++ words.listed_remedies view.now.names.now view.now.explanation.now violation.now changes.now) }
{
    match changes.split_first() {
        None => Ok(()),
        Some((first, more)) => {
            put_listed_as(out, view, violation, "explained if", *first)?;
            put_more(out, view, violation, more)
        }
    }
}

fn put_more(
    out: &mut Vec<u8>,
    view: &View<'_>,
    violation: &Violation,
    changes: &[Change],
) -> Result<(), NoMemory>
    ensures { OnOk result (out.new.items ≡ out.old.items
        ++ words.more_remedies view.now.names.now view.now.explanation.now violation.now changes.now) }
{
    for change in changes {
        put_listed_as(out, view, violation, "or", *change)?;
    }
    Ok(())
}

fn put_listed_as(
    out: &mut Vec<u8>,
    view: &View<'_>,
    violation: &Violation,
    word: &str,
    change: Change,
) -> Result<(), NoMemory>
    ensures { OnOk result (out.new.items ≡ out.old.items
        ++ row word.now (words.change_words view.now.names.now view.now.explanation.now violation.now change)) }
{
    let mut text = Vec::new(*out.allocator());
    put_change(&mut text, view, violation, change)?;
    put_row(out, word, &text)
}

fn put_others(out: &mut Vec<u8>, count: usize) -> Result<(), NoMemory>
    ensures { OnOk result (out.new.items ≡ out.old.items ++ words.others_row count) }
{
    if count == 0 {
        return Ok(());
    }
    let mut text = Vec::new(*out.allocator());
    put_others_words(&mut text, small(count))?;
    put_row(out, "or", &text)
}

fn put_others_words(text: &mut Vec<u8>, others: u32) -> Result<(), NoMemory>
    ensures { OnOk result (text.new.items ≡ text.old.items ++ words.others_words others) }
{
    put(text, with_word(others))?;
    put_count(text, others, " other change", " other changes")?;
    put(text, " of this kind")
}

fn with_word(others: u32) -> &'static str
    ensures { result.now ≡ words.with_word others }
{
    if others == 1 { "with " } else { "with one of " }
}

fn put_depending(out: &mut Vec<u8>, changes: &[Change]) -> Result<(), NoMemory>
    ensures { OnOk result (out.new.items ≡ out.old.items ++ words.depending_row changes.now) }
{
    if any_missing(changes) {
        let text = b"updates that depend on a label are then not delivered either";
        put_row(out, "", text)
    } else {
        Ok(())
    }
}

fn any_missing(changes: &[Change]) -> bool
    ensures { result ≡ list_any words.is_missing changes.now }
{
    changes.iter().any(is_missing)
}

fn is_missing(change: &Change) -> bool
    ensures { result ≡ words.is_missing change.now }
{
    match change {
        Change::Misses(_) => true,
        Change::Gets(_) | Change::ComesBefore(_) => false,
    }
}

// Appends the number of the changes that were tried, if none was found.
fn put_tried(out: &mut Vec<u8>, remedies: &Remedies) -> Result<(), NoMemory>
    ensures { OnOk result (out.new.items ≡ out.old.items
        ++ words.tried_row (length remedies.now.found.items) (length remedies.now.tried.items)) }
{
    let (found, tried) = (remedies.found.len(), remedies.tried.len());
    if found > 0 || tried == 0 {
        return Ok(());
    }
    let mut text = Vec::new(*out.allocator());
    put_tried_words(&mut text, small(tried))?;
    put_row(out, "tried", &text)
}

fn put_tried_words(text: &mut Vec<u8>, tried: u32) -> Result<(), NoMemory>
    ensures { OnOk result (text.new.items ≡ text.old.items ++ words.tried_words tried) }
{
    if tried == 1 {
        put(text, "the one change that was tried does not explain it")
    } else {
        put_several_tried(text, tried)
    }
}

fn put_several_tried(text: &mut Vec<u8>, tried: u32) -> Result<(), NoMemory>
    ensures { OnOk result (text.new.items ≡ text.old.items ++ words.several_tried tried) }
{
    put_numbered(text, b"none of the ", tried)?;
    put(text, " changes that were tried explains it")
}

fn put_change(
    text: &mut Vec<u8>,
    view: &View<'_>,
    violation: &Violation,
    change: Change,
) -> Result<(), NoMemory>
    ensures { OnOk result (text.new.items ≡ words.with_change view.now.names.now view.now.explanation.now
        violation.now text.old.items change) }
{
    match change {
        Change::Gets(label) => put_delivered(text, view, violation.replica, label),
        Change::Misses(at) => put_missed(text, view, violation.replica, at),
        Change::ComesBefore(at) => put_before(text, violation.place, at),
    }
}

// Appends the label with the delivery to the replica, with which the violating label would hold.
fn put_delivered(
    text: &mut Vec<u8>,
    view: &View<'_>,
    replica: u8,
    label: u32,
) -> Result<(), NoMemory>
    ensures { OnOk result (text.new.items ≡ words.delivered_words view.now.names.now view.now.explanation.now
        replica text.old.items label) }
{
    let mut words = Vec::new(*text.allocator());
    put(&mut words, " had been delivered to ")?;
    put_name(&mut words, view.names, replica)?;
    put_label_and(text, view, label, &words)
}

// Appends the delivery to the replica at this index, without which the label would hold.
fn put_missed(text: &mut Vec<u8>, view: &View<'_>, replica: u8, at: u32) -> Result<(), NoMemory>
    ensures { OnOk result (text.new.items ≡ words.missed_words view.now.names.now view.now.explanation.now
        replica at text.old.items) }
{
    match view.explanation.entry(at) {
        Some(entry) => put_missed_command(text, view, replica, at, &entry.command),
        None => Ok(()),
    }
}

fn put_missed_command(
    text: &mut Vec<u8>,
    view: &View<'_>,
    replica: u8,
    at: u32,
    command: &Command,
) -> Result<(), NoMemory>
    ensures { OnOk result (text.new.items ≡ words.missed_command view.now.names.now view.now.explanation.now
        replica at text.old.items command.now) }
{
    match command {
        Command::Deliver { label, .. } => put_missed_label(text, view, replica, at, *label),
        Command::Operate { .. } | Command::Join { .. } | Command::Verdict => Ok(()),
    }
}

fn put_missed_label(
    text: &mut Vec<u8>,
    view: &View<'_>,
    replica: u8,
    at: u32,
    label: u32,
) -> Result<(), NoMemory>
    ensures { OnOk result (text.new.items ≡ words.missed_label view.now.names.now view.now.explanation.now
        replica at text.old.items label) }
{
    let mut words = Vec::new(*text.allocator());
    put_missing(&mut words, view.names, replica, at)?;
    put_label_and(text, view, label, &words)
}

fn put_missing(words: &mut Vec<u8>, names: &Names, replica: u8, at: u32) -> Result<(), NoMemory>
    ensures { OnOk result (words.new.items ≡ words.old.items ++ missing_words names.now replica at) }
{
    put(words, " had not been delivered to ")?;
    put_name(words, names, replica)?;
    put(words, " in ")?;
    put_line(words, at)
}

fn put_before(text: &mut Vec<u8>, place: u32, at: u32) -> Result<(), NoMemory>
    ensures { OnOk result (text.new.items ≡ text.old.items ++ words.before_words place at) }
{
    put_line(text, place)?;
    put(text, " had come before ")?;
    put_line(text, at)
}
