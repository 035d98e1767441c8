//! The likely causes of a line that cannot be parsed: what editors, other systems and beginners put into a text.
use crate::expected::Expected;
use crate::field::Trouble;
use crate::rule::{put_name_hint, put_number_hint};
use ra_explain_text::{put, put_head};
use ra_history_lines::Format;
use ra_history_lines::number::number;
use ra_labels::NoMemory;

/// The position of a line in its text.
#[derive(Clone, Copy)]
pub enum Place {
    /// The first line: format and kind.
    First,
    /// The second line: the names, in a text of this format.
    Names(Format),
    /// A command.
    Command,
}

/// A line that cannot be parsed, with the field at fault and the bytes of that field.
#[derive(Clone, Copy)]
pub struct Line<'a> {
    /// The position of the line.
    pub place: Place,
    /// The bytes of the line.
    pub text: &'a [u8],
    /// The field at fault.
    pub trouble: Option<Trouble>,
    /// The bytes of the field.
    pub field: Option<&'a [u8]>,
}

/// Appends a note for each likely cause.
pub fn put_hints(out: &mut Vec<u8>, line: Line<'_>) -> Result<(), NoMemory> {
    put_byte_hints(out, line.text)?;
    match line.place {
        Place::First => put_first_line_hint(out, line)?,
        Place::Names(format) if is_too_many(format, line.trouble) => {
            put_note(out, too_many_names(format))?
        }
        Place::Names(_) | Place::Command => {}
    }
    put_spelling_hint(out, line)?;
    match (line.trouble, line.field) {
        (Some(trouble), Some(field)) => put_rule_hint(out, line.text, trouble, field),
        _ => Ok(()),
    }
}

// Appends a note on the rule that the field breaks, if a number or a name is expected.
fn put_rule_hint(
    out: &mut Vec<u8>,
    text: &[u8],
    trouble: Trouble,
    field: &[u8],
) -> Result<(), NoMemory> {
    match (trouble.expected, field) {
        (Expected::NewName | Expected::Name, _) => put_name_hint(out, text, trouble.field),
        (Expected::CommandWord(_), _) if !is_comment(text) => {
            put_name_hint(out, text, trouble.field)
        }
        (Expected::Clock, [b'@', digits @ ..]) => put_number_hint(out, digits, false),
        (Expected::Identifier | Expected::Identifiers, [b'#', numbers @ ..]) => {
            put_number_hint(out, numbers, false)
        }
        (Expected::Label | Expected::Number | Expected::Value | Expected::List, _) => {
            put_number_hint(out, field, false)
        }
        (Expected::Signed, _) => put_number_hint(out, field, true),
        _ => Ok(()),
    }
}

// Appends a note for each kind of byte that no line has.
fn put_byte_hints(out: &mut Vec<u8>, text: &[u8]) -> Result<(), NoMemory> {
    if text.starts_with(b"\xef\xbb\xbf") {
        put_note(
            out,
            "\\xef\\xbb\\xbf is a byte order mark: save the text as UTF-8 without one",
        )?;
    }
    put_binary_hint(out, text)?;
    if text.ends_with(b"\r") {
        put_note(
            out,
            "\\x0d is a carriage return (CRLF): save the text with LF line endings",
        )?;
    }
    if text.contains(&b'\t') {
        put_note(out, "\\x09 is a tab: fields are separated by one space")?;
    }
    if text.ends_with(b" ") {
        put_note(out, "the line ends with a space: remove it")?;
    }
    if text.is_empty() {
        put_note(out, "a history has no empty lines: remove this line")?;
    }
    if is_comment(text) {
        put_note(out, "a history has no comments: remove the line")?;
    }
    Ok(())
}

fn is_comment(text: &[u8]) -> bool {
    text.starts_with(b"#") || text.starts_with(b"//")
}

/// Appends a note on a line that is no text in UTF-8.
pub fn put_binary_hint(out: &mut Vec<u8>, text: &[u8]) -> Result<(), NoMemory> {
    if text.starts_with(b"\xff\xfe") || text.starts_with(b"\xfe\xff") {
        put_note(out, "the text is UTF-16: save it as UTF-8")
    } else if text.contains(&0) {
        put_note(out, "the text has NUL bytes: it may be UTF-16 or binary")
    } else {
        Ok(())
    }
}

fn put_first_line_hint(out: &mut Vec<u8>, line: Line<'_>) -> Result<(), NoMemory> {
    let (Some(trouble), Some(field)) = (line.trouble, line.field) else {
        return Ok(());
    };
    match trouble.field {
        1 if field.eq_ignore_ascii_case(b"RAH") => put_note(out, "RAH is upper case"),
        2 if number(field).is_some_and(is_newer) => put_note(
            out,
            "this program reads the formats 1 and 2: a newer format needs a newer program",
        ),
        3 if !field.is_empty() && field.iter().all(is_of_a_kind) => {
            put_note(
                out,
                "docs/howto/choose_a_kind.md says which kind fits which data type",
            )
        }
        _ => Ok(()),
    }
}

// Returns `true` if the byte may be part of a data type's name.
fn is_of_a_kind(byte: &u8) -> bool {
    byte.is_ascii_lowercase() || *byte == b'-' || *byte == b'_'
}

fn is_newer(format: u32) -> bool {
    format > 2
}

fn is_too_many(format: Format, trouble: Option<Trouble>) -> bool {
    trouble.is_some_and(|trouble| trouble.field as usize > format.most_names().saturating_add(1))
}

fn too_many_names(format: Format) -> &'static str {
    match format {
        Format::Rah1 => "RAH 1 has at most 16 replicas: with RAH 2 in line 1 there may be 64",
        Format::Rah2 => "a history has at most 64 replicas",
    }
}

// Appends a note on a field with capital letters, unless it is the first field of a text.
fn put_spelling_hint(out: &mut Vec<u8>, line: Line<'_>) -> Result<(), NoMemory> {
    let Some(field) = line.field else {
        return Ok(());
    };
    match (line.place, line.trouble) {
        (Place::First, Some(Trouble { field: 1, .. })) => Ok(()),
        _ if field.iter().any(|byte| byte.is_ascii_uppercase()) => {
            put_note(out, "words and names must be lower case")
        }
        _ => Ok(()),
    }
}

/// Appends a line with this note.
pub fn put_note(out: &mut Vec<u8>, note: &str) -> Result<(), NoMemory> {
    put_head(out, "note")?;
    put(out, note)?;
    put(out, "\n")
}
