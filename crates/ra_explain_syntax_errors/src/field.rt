//! The first field of a line that cannot be parsed, and what is valid there.
use crate::expected::Expected;
use ra_history_lines::fields::Fields;
use ra_history_lines::kind_line::kind_of_word;
use ra_history_lines::number::{number, signed_number};
use ra_history_lines::{Format, LineFault, Names};
use std::alloc::Global;

/// A field that cannot be parsed.
#[derive(Clone, Copy)]
pub struct Trouble {
    /// The number of the field in its line, from 1.
    pub field: u32,
    /// What is valid there.
    pub expected: Expected,
}

// A line with the fields not yet taken, and the number of the last one taken.
#[derive(Drop)]
struct Cursor<'a> {
    fields: Fields<'a>,
    number: u32,
}

impl<'a> Cursor<'a> {
    fn of(line: &'a [u8]) -> Cursor<'a> {
        Cursor {
            fields: Fields::of(line),
            number: 0,
        }
    }

    fn take(&mut self) -> Option<&'a [u8]> {
        self.number = self.number.saturating_add(1);
        self.fields.take()
    }

    fn take_marked(&mut self) -> Option<&'a [u8]> {
        let word = self.fields.take_marked()?;
        self.number = self.number.saturating_add(1);
        Some(word)
    }

    // Reports that the last taken field cannot be parsed.
    fn trouble(&self, expected: Expected) -> Option<Trouble> {
        Some(Trouble {
            field: self.number,
            expected,
        })
    }

    // Takes a field that has to be a number with this meaning.
    fn number(&mut self, expected: Expected) -> Option<Trouble> {
        match self.take() {
            Some(field) if number(field).is_some() => None,
            _ => self.trouble(expected),
        }
    }

    // Takes the end of the line.
    fn end(&mut self) -> Option<Trouble> {
        match self.take() {
            None => None,
            Some(_) => self.trouble(Expected::End),
        }
    }

    // Takes an optional clock, and the end of the line.
    fn clock(&mut self, expected: Expected) -> Option<Trouble> {
        match self.take() {
            None => None,
            Some([b'@', digits @ ..]) => match number(digits) {
                Some(_) => self.end(),
                None => self.trouble(Expected::Clock),
            },
            Some(_) => self.trouble(expected),
        }
    }
}

/// Returns the field of a first line that cannot be parsed, or `None` if every field can.
pub fn in_first_line(line: &[u8]) -> Option<Trouble> {
    let mut cursor = Cursor::of(line);
    match cursor.take() {
        Some(b"RAH") => {}
        _ => return cursor.trouble(Expected::FirstWord),
    }
    match cursor.take() {
        Some(b"1") | Some(b"2") => {}
        _ => return cursor.trouble(Expected::FormatNumber),
    }
    match cursor.take() {
        Some(word) if kind_of_word(word).is_some() => cursor.end(),
        _ => cursor.trouble(Expected::KindWord),
    }
}

/// Returns the field of a line of names in this format that cannot be parsed. It is meant for a line that has one: of a
/// correct line it returns the field after the last name.
pub fn in_names(alloc: Global, format: Format, line: &[u8]) -> Result<Option<Trouble>, NoMemory> {
    let mut cursor = Cursor::of(line);
    let mut end: usize = 0;
    match cursor.take() {
        Some(word) if word == b"replicas".as_slice() => {
            end = end.saturating_add(word.len());
        }
        _ => {
            return Ok(cursor.trouble(Expected::SecondWord));
        }
    }
    // One name above the largest number is read, so that it can be reported.
    for _ in 0..format.most_names().saturating_add(1) {
        let Some(name) = cursor.take() else {
            break;
        };
        end = end.saturating_add(1).saturating_add(name.len());
        match line
            .get(..end)
            .map(|front| Names::read(alloc, format, front))
        {
            Some(Ok(_)) => {}
            Some(Err(LineFault::NoMemory)) => return Err(NoMemory),
            Some(Err(LineFault::Syntax)) | None => break,
        }
    }
    Ok(cursor.trouble(if count_of(&cursor) > format.most_names() {
        Expected::End
    } else {
        Expected::NewName
    }))
}

// Returns the number of names that were taken.
fn count_of(cursor: &Cursor<'_>) -> usize {
    cursor.number.saturating_sub(1) as usize
}

/// Returns the field of a command line that cannot be parsed, in a history of this kind with these names, or `None` if
/// every field can.
pub fn in_command(format: Format, kind: Kind, names: &Names, line: &[u8]) -> Option<Trouble> {
    let mut cursor = Cursor::of(line);
    match cursor.take() {
        Some(b"verdict") => cursor.end(),
        Some(b"join") if format == Format::Rah2 => in_join(names, cursor),
        Some(name) if names.replica(name).is_some() => in_act(kind, cursor),
        _ => cursor.trouble(Expected::CommandWord(format)),
    }
}

fn in_join(names: &Names, mut cursor: Cursor<'_>) -> Option<Trouble> {
    for _ in 0..2 {
        match cursor.take() {
            Some(name) if names.replica(name).is_some() => {}
            _ => return cursor.trouble(Expected::Name),
        }
    }
    cursor.end()
}

// Reads the fields after a replica's name. A word that is valid in each kind is explained as this kind uses it.
fn in_act(kind: Kind, mut cursor: Cursor<'_>) -> Option<Trouble> {
    match cursor.take() {
        Some(b"inc") | Some(b"dec") => cursor.clock(Expected::End),
        Some(b"read") => in_read(kind, cursor),
        Some(b"after") => in_numbers(cursor, 2, Expected::Clock),
        Some(b"insert") if kind == Kind::List => in_numbers(cursor, 3, Expected::End),
        Some(b"part") if kind == Kind::List => in_part(cursor),
        Some(b"update") if kind == Kind::Any => cursor.clock(Expected::End),
        Some(word) if has_number(word) => match cursor.number(meaning_behind(word)) {
            None => behind_number(kind, word, cursor),
            trouble => trouble,
        },
        _ => cursor.trouble(Expected::Act(kind)),
    }
}

// Returns `true` if a number follows the word.
fn has_number(word: &[u8]) -> bool {
    match word {
        b"got" | b"write" | b"add" | b"remove" => true,
        _ => false,
    }
}

// Returns the meaning of the number after the word.
fn meaning_behind(word: &[u8]) -> Expected {
    match word {
        b"got" => Expected::Label,
        _ => Expected::Number,
    }
}

fn behind_number(kind: Kind, word: &[u8], mut cursor: Cursor<'_>) -> Option<Trouble> {
    match word {
        b"got" => cursor.end(),
        b"add" => in_addition(kind, cursor),
        b"remove" => in_removal(kind, cursor),
        b"write" if kind == Kind::MvRegister => cursor.clock(Expected::End),
        _ => cursor.clock(Expected::Clock),
    }
}

fn in_read(kind: Kind, mut cursor: Cursor<'_>) -> Option<Trouble> {
    let field = cursor.take();
    match kind {
        Kind::Counter if field.and_then(signed_number).is_none() => cursor.trouble(
            Expected::Signed,
        ),
        Kind::Register if !field.is_some_and(is_value) => cursor.trouble(Expected::Value),
        Kind::LwwSet | Kind::OrSet | Kind::Rga | Kind::List | Kind::MvRegister
            if !field.is_some_and(is_list) => { cursor.trouble(Expected::List) }
        Kind::Any if field.and_then(number).is_none() => cursor.trouble(Expected::Number),
        _ => cursor.clock(Expected::End),
    }
}

fn in_addition(kind: Kind, mut cursor: Cursor<'_>) -> Option<Trouble> {
    let expected = match kind {
        Kind::OrSet => Expected::Identifier,
        Kind::List | Kind::Any | Kind::MvRegister => Expected::End,
        Kind::Counter | Kind::Register | Kind::LwwSet | Kind::Rga => Expected::Clock,
    };
    match cursor.take_marked() {
        None => cursor.clock(expected),
        Some(word) if number(word).is_some() => cursor.clock(Expected::End),
        Some(_) => cursor.trouble(Expected::Identifier),
    }
}

fn in_removal(kind: Kind, mut cursor: Cursor<'_>) -> Option<Trouble> {
    let expected = match kind {
        Kind::OrSet => Expected::Identifiers,
        Kind::Rga | Kind::List | Kind::Any | Kind::MvRegister => Expected::End,
        Kind::Counter | Kind::Register | Kind::LwwSet => Expected::Clock,
    };
    match cursor.take_marked() {
        None => cursor.clock(expected),
        Some(word) if is_list(word) => cursor.clock(Expected::End),
        Some(_) => cursor.trouble(Expected::Identifiers),
    }
}

// Reads this many numbers of an insertion, and what may follow them.
fn in_numbers(mut cursor: Cursor<'_>, count: u32, behind: Expected) -> Option<Trouble> {
    for _ in 0..count {
        let trouble = cursor.number(Expected::Number);
        if trouble.is_some() {
            return trouble;
        }
    }
    cursor.clock(behind)
}

// Reads the elements of a read of a part of a list.
fn in_part(mut cursor: Cursor<'_>) -> Option<Trouble> {
    match cursor.take() {
        Some(field) if is_list(field) => cursor.clock(Expected::End),
        _ => cursor.trouble(Expected::List),
    }
}

fn is_value(field: &[u8]) -> bool {
    field == b"none".as_slice() || number(field).is_some()
}

fn is_list(field: &[u8]) -> bool {
    if field == b"-".as_slice() {
        return true;
    }
    let mut start: usize = 0;
    let mut at: usize = 0;
    for byte in field {
        if *byte == b',' {
            if !field.get(start..at).is_some_and(is_number) {
                return false;
            }
            start = at.saturating_add(1);
        }
        at = at.saturating_add(1);
    }
    field.get(start..).is_some_and(is_number)
}

fn is_number(field: &[u8]) -> bool {
    number(field).is_some()
}

use ra_labels::{Kind, NoMemory};
