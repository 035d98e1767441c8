//! The rules of numbers and names, and the one that a field breaks.
use crate::hint::put_note;
use crate::shown::{field_of, put_shown};
use ra_explain_text::{put, put_head, put_size};
use ra_history_lines::number::{number, put_numbered, signed_number};
use ra_labels::NoMemory;

/// The largest number of characters of a name.
const LONGEST_NAME: usize = 16;

/// Appends a note on the first number of the list that breaks a rule, if it consists of digits and a sign.
pub fn put_number_hint(out: &mut Vec<u8>, list: &[u8], is_signed: bool) -> Result<(), NoMemory> {
    let mut start: usize = 0;
    for (at, byte) in list.iter().enumerate() {
        if *byte == b',' {
            let part = list.get(start..at).unwrap_or(b"");
            if !is_valid(part, is_signed) {
                return put_broken(out, part, is_signed);
            }
            start = at.saturating_add(1);
        }
    }
    let part = list.get(start..).unwrap_or(b"");
    if is_valid(part, is_signed) {
        Ok(())
    } else {
        put_broken(out, part, is_signed)
    }
}

fn is_valid(part: &[u8], is_signed: bool) -> bool {
    if is_signed {
        signed_number(part).is_some()
    } else {
        number(part).is_some()
    }
}

fn put_broken(out: &mut Vec<u8>, part: &[u8], is_signed: bool) -> Result<(), NoMemory> {
    let (sign, digits) = match part {
        [b'+', digits @ ..] => (Some(b'+'), digits),
        [b'-', digits @ ..] => (Some(b'-'), digits),
        digits => (None, digits),
    };
    if digits.is_empty() || !digits.iter().all(|byte| byte.is_ascii_digit()) {
        return Ok(());
    }
    match (sign, digits) {
        (Some(b'+'), _) => put_note(out, "a number has no plus sign"),
        (Some(_), _) if !is_signed => put_note(out, "this number may not have a sign"),
        (Some(_), [b'0']) => put_note(out, "0 has no sign"),
        (_, [b'0', ..]) => put_note(out, "a number has no leading zero"),
        (Some(_), _) => put_note(out, "the number is less than -2147483648"),
        (None, _) if is_signed => put_note(out, "the number is greater than 2147483647"),
        (None, _) => put_note(out, "the number is greater than 4294967295"),
    }
}

/// Appends a note on the rule that a name breaks: the field of this number in its line.
pub fn put_name_hint(out: &mut Vec<u8>, text: &[u8], place: u32) -> Result<(), NoMemory> {
    let Some(name) = field_of(text, place) else {
        return Ok(());
    };
    if let Some(byte) = first_odd(name) {
        put_head(out, "note")?;
        put(out, "a name has only the letters a to z and digits, not ")?;
        put_shown(out, &[byte], "\\x")?;
        return put(out, "\n");
    }
    match name {
        [b'0'..=b'9', ..] => put_note(out, "a name begins with a letter"),
        _ if name.len() > LONGEST_NAME => {
            put_head(out, "note")?;
            put(out, "a name has at most 16 characters, this one ")?;
            put_size(out, name.len())?;
            put(out, "\n")
        }
        _ => put_repeated_hint(out, text, name, place),
    }
}

// Returns the first byte that no name has, and on which there is no other note.
fn first_odd(name: &[u8]) -> Option<u8> {
    for byte in name {
        if !byte.is_ascii_alphanumeric() && *byte >= b' ' {
            return Some(*byte);
        }
    }
    None
}

// Appends a note on a name that is an earlier field of the line too.
fn put_repeated_hint(
    out: &mut Vec<u8>,
    text: &[u8],
    name: &[u8],
    place: u32,
) -> Result<(), NoMemory> {
    for earlier in 2..place {
        if field_of(text, earlier) == Some(name) {
            put_head(out, "note")?;
            out.extend_from_slice(name)?;
            put_numbered(out, b" is already field ", earlier)?;
            put(out, ": names must be different\n")?;
        }
    }
    Ok(())
}
