//! The bytes of a line, as a page or an object shows them.
use ra_explain_text::put;
use ra_history_lines::fields::Fields;
use ra_labels::NoMemory;

/// The largest number of characters of a line that are shown.
const MOST_SHOWN: usize = 60;

/// The mark before the digits of a byte in an object.
pub const IN_OBJECT: &str = "\\u00";

/// Returns the field of this number, from 1, if the line has one.
pub fn field_of(text: &[u8], number: u32) -> Option<&[u8]> {
    let mut fields = Fields::of(text);
    for _ in 1..number {
        fields.take();
    }
    fields.take()
}

/// Appends the first characters. Backslashes and bytes outside printable ASCII are written as this mark and two
/// hexadecimal digits, and in an object quotation marks too. Two dots follow if there are more.
pub fn put_shown(out: &mut Vec<u8>, text: &[u8], mark: &str) -> Result<(), NoMemory> {
    for byte in text.iter().take(MOST_SHOWN) {
        match *byte {
            b'\\' => put_hex(out, mark, *byte)?,
            b'"' if mark == IN_OBJECT => put_hex(out, mark, *byte)?,
            b' '..=b'~' => out.push(*byte)?,
            other => put_hex(out, mark, other)?,
        }
    }
    put(out, if text.len() > MOST_SHOWN { " .." } else { "" })
}

fn put_hex(out: &mut Vec<u8>, mark: &str, byte: u8) -> Result<(), NoMemory> {
    put(out, mark)?;
    out.push(digit(byte / 16))?;
    Ok(out.push(digit(byte % 16))?)
}

fn digit(value: u8) -> u8 {
    match value {
        0..=9 => b'0' + value,
        10..=15 => b'a' + (value - 10),
        _ => b'?',
    }
}
