//! The pieces of a page: names, line numbers, and quoted lines.
ghost use Rattle.std.specs.Prelude.{◌≡◌, ◌++◌, [], OnOk, decimal};
ghost use Rattle.ra_history_writer.specs.Spelling.{line_of, name_of};
ghost use Rattle.ra_explain_text.specs.Numbers.{line_number};
ghost use Rattle.ra_explain_text.specs.Quotes as quotes;
ghost use Rattle.ra_explain_text.specs.Quotes.{act_words, beginning, line_words, quote_in, shortened, with_label, with_place, with_quote};

use crate::layout::{front_of, put};
use crate::view::View;
use ra_history_lines::Names;
use ra_history_lines::limits::LINES_BEFORE_COMMANDS;
use ra_history_lines::number::{put_number, put_numbered};
use ra_history_writer::spelling::put_command;
use ra_labels::{Command, NoMemory};

/// The largest number of bytes of a command's line that a page shows.
const WIDTH: usize = 72;

/// The width of a row's text, and the least number of bytes of a label's line that are shown where room is short.
const PAGE: usize = 84;

const LEAST: usize = 8;

/// Appends the name of the replica, if it has one.
///
/// # Errors
///
/// `NoMemory` if an allocation fails.
pub fn put_name(out: &mut Vec<u8>, names: &Names, replica: u8) -> Result<(), NoMemory>
    // After success, the name of the replica is appended, or nothing if it has none.
    ensures { OnOk result (out.new.items ≡ out.old.items ++ name_of names.now replica) }
{
    match names.name(replica) {
        Some(name) => Ok(out.extend_from_slice(name)?),
        None => Ok(()),
    }
}

/// Appends `line K`, the line of the text with the entry at this index of the log.
///
/// # Errors
///
/// `NoMemory` if an allocation fails.
pub fn put_line(out: &mut Vec<u8>, place: u32) -> Result<(), NoMemory>
    // After success, the word `line` and the number of that line are appended.
    ensures { OnOk result (out.new.items ≡ out.old.items ++ line_words place) }
{
    put_numbered(out, b"line ", number_of(place))
}

/// Appends the number of the line with the entry at this index of the log.
///
/// # Errors
///
/// `NoMemory` if an allocation fails.
pub fn put_line_number(out: &mut Vec<u8>, place: u32) -> Result<(), NoMemory>
    // After success, the decimal digits of the number of that line are appended.
    ensures { OnOk result (out.new.items ≡ out.old.items ++ decimal (line_number place)) }
{
    put_number(out, number_of(place))
}

// Lines count from 1, and indices of the log from 0.
fn number_of(place: u32) -> u32
    ensures { result ≡ line_number place }
{
    place.saturating_add(LINES_BEFORE_COMMANDS + 1)
}

/// Appends the line of the command, or the beginning of a long one.
///
/// # Errors
///
/// `NoMemory` if an allocation fails.
pub fn put_act(out: &mut Vec<u8>, names: &Names, command: &Command) -> Result<(), NoMemory>
    // After success, the line of the command is appended, or its first 72 bytes and two dots.
    ensures { OnOk result (out.new.items ≡ out.old.items ++ act_words names.now command.now) }
{
    let mut line = Vec::new(*out.allocator());
    put_command(&mut line, names, command)?;
    put_shortened(out, &line)
}

fn put_shortened(out: &mut Vec<u8>, line: &[u8]) -> Result<(), NoMemory>
    ensures { OnOk result (out.new.items ≡ out.old.items ++ shortened line.now) }
{
    if line.len() > WIDTH {
        out.extend_from_slice(front_of(line, WIDTH))?;
        put(out, " ..")
    } else {
        Ok(out.extend_from_slice(line)?)
    }
}

/// Appends `label N (line K: what the line says)` to the text of a row.
///
/// # Errors
///
/// `NoMemory` if an allocation fails.
pub fn put_label(text: &mut Vec<u8>, view: &View<'_>, label: u32) -> Result<(), NoMemory>
    // After success, the label and its line in the text are appended.
    ensures { OnOk result (text.new.items ≡ with_label view.now.names.now view.now.explanation.now.log.items
        view.now.explanation.now.places text.old.items label []) }
{
    put_label_and(text, view, label, b"")
}

/// Appends `label N (line K: what the line says)` to the text of a row, and the words after it. Of the label's line
/// only as much is shown as leaves room for these words on the page's line.
///
/// # Errors
///
/// `NoMemory` if an allocation fails.
pub fn put_label_and(
    text: &mut Vec<u8>,
    view: &View<'_>,
    label: u32,
    words: &[u8],
) -> Result<(), NoMemory>
    // After success, the label, its line in the text and the words are appended.
    ensures { OnOk result (text.new.items ≡ with_label view.now.names.now view.now.explanation.now.log.items
        view.now.explanation.now.places text.old.items label words.now) }
{
    put_numbered(text, b"label ", label)?;
    if let Some(place) = view.explanation.places.at(label) {
        put_place(text, view, place, words.len())?;
    }
    Ok(text.extend_from_slice(words)?)
}

/// Appends how the replica came to see the label of another operation.
///
/// # Errors
///
/// `NoMemory` if an allocation fails.
pub fn put_arrival(
    words: &mut Vec<u8>,
    view: &View<'_>,
    replica: u8,
    label: u32,
) -> Result<(), NoMemory> {
    match view.explanation.delivery(replica, label) {
        Some(place) => {
            put(words, ", which was delivered to ")?;
            put_name(words, view.names, replica)?;
            put(words, " in ")?;
            put_line(words, place)
        }
        None if view.explanation.issuer(label) == Some(replica) => {
            put(words, ", which its own replica issued")
        }
        None => put(words, ", which its replica joined with"),
    }
}

// Appends the line of the entry at this index and what it says, in parentheses, with room for the further bytes.
fn put_place(
    text: &mut Vec<u8>,
    view: &View<'_>,
    place: u32,
    further: usize,
) -> Result<(), NoMemory>
    ensures { OnOk result (text.new.items ≡ with_place view.now.names.now view.now.explanation.now.log.items
        place further text.old.items) }
{
    put(text, " (")?;
    put_line(text, place)?;
    put_entry(text, view, place, further)?;
    put(text, ")")
}

// Appends what the entry at this index says, as far as there is room before the further bytes.
fn put_entry(
    text: &mut Vec<u8>,
    view: &View<'_>,
    place: u32,
    further: usize,
) -> Result<(), NoMemory>
    ensures { OnOk result (text.new.items ≡ with_quote view.now.names.now view.now.explanation.now.log.items
        place further text.old.items) }
{
    match view.explanation.entry(place) {
        Some(entry) => {
            let room = PAGE.saturating_sub(text.len()).saturating_sub(further);
            put_quote(text, view.names, &entry.command, room)
        }
        None => Ok(()),
    }
}

// Appends a colon and the line of the command, in this room, in which a parenthesis has to fit too.
fn put_quote(
    text: &mut Vec<u8>,
    names: &Names,
    command: &Command,
    room: usize,
) -> Result<(), NoMemory>
    ensures { OnOk result (text.new.items ≡ text.old.items ++ quote_in room (line_of names.now command.now)) }
{
    let mut line = Vec::new(*text.allocator());
    put_command(&mut line, names, command)?;
    put_quoted(text, &line, room)
}

fn put_quoted(text: &mut Vec<u8>, line: &[u8], room: usize) -> Result<(), NoMemory>
    ensures { OnOk result (text.new.items ≡ text.old.items ++ quote_in room line.now) }
{
    let room = room.saturating_sub(3);
    if line.len() <= room.min(WIDTH) {
        put(text, ": ")?;
        Ok(text.extend_from_slice(line)?)
    } else {
        put_beginning(text, line, room.saturating_sub(3).min(WIDTH))
    }
}

// Appends the beginning of a line that is longer than this number of bytes, if there is room for it.
fn put_beginning(text: &mut Vec<u8>, line: &[u8], most: usize) -> Result<(), NoMemory>
    ensures { OnOk result (text.new.items ≡ text.old.items ++ beginning most line.now) }
{
    if most < LEAST {
        return Ok(());
    }
    put(text, ": ")?;
    text.extend_from_slice(trimmed(front_of(line, most)))?;
    put(text, " ..")
}

/// Returns the bytes without the spaces and line feeds at their end.
pub fn trimmed(bytes: &[u8]) -> &[u8]
    // The result is the bytes before the whitespace at their end.
    ensures { result.now ≡ quotes.trimmed bytes.now }
{
    bytes.trim_ascii_end()
}
