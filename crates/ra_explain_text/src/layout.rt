//! Words, numbers and lines.
ghost use Rattle.std.specs.Prelude.{◌≡◌, ◌==◌, ◌++◌, min, OnOk, decimal, drop, take, if◌then◌else◌};
ghost use Rattle.ra_explain_text.specs.Numbers.{size_word};
ghost use Rattle.ra_explain_text.specs.Rows.{cut_line, padded, row};

use ra_history_lines::number::put_number;
use ra_labels::NoMemory;

/// The largest length of a line, and the number of bytes that are kept of a longer one, before two dots.
const WIDEST: usize = 100;

const CUT: usize = 98;

/// As many spaces as there are bytes before the column at which the facts of a page begin.
const SPACES: &[u8] = b"                ";

/// Appends the words.
///
/// # Errors
///
/// `NoMemory` if an allocation fails.
pub fn put(out: &mut Vec<u8>, words: &str) -> Result<(), NoMemory>
    // After success, the words are appended.
    ensures { OnOk result (out.new.items ≡ out.old.items ++ words.now) }
{
    Ok(out.extend_from_slice(words.as_bytes())?)
}

/// Appends the word, and spaces up to the column at which the facts of a page begin.
///
/// # Errors
///
/// `NoMemory` if an allocation fails.
pub fn put_head(out: &mut Vec<u8>, word: &str) -> Result<(), NoMemory>
    // After success, the word is appended, filled with spaces to 16 bytes.
    ensures { OnOk result (out.new.items ≡ out.old.items ++ padded word.now) }
{
    put_padded(out, word.as_bytes())
}

/// Appends the bytes, and spaces up to the column at which the facts of a page begin.
///
/// # Errors
///
/// `NoMemory` if an allocation fails.
pub fn put_padded(out: &mut Vec<u8>, word: &[u8]) -> Result<(), NoMemory>
    // After success, the bytes are appended, filled with spaces to 16 bytes.
    ensures { OnOk result (out.new.items ≡ out.old.items ++ padded word.now) }
{
    out.extend_from_slice(word)?;
    Ok(out.extend_from_slice(behind(SPACES, word.len()))?)
}

/// Appends a line with this word at its head. Of a line longer than 100 bytes the first 98 are appended, and two dots.
///
/// # Errors
///
/// `NoMemory` if an allocation fails.
pub fn put_row(out: &mut Vec<u8>, word: &str, text: &[u8]) -> Result<(), NoMemory>
    // After success, the line with this head and this text is appended.
    ensures { OnOk result (out.new.items ≡ out.old.items ++ row word.now text.now) }
{
    let mut line = Vec::new(*out.allocator());
    put_head(&mut line, word)?;
    line.extend_from_slice(text)?;
    put_cut_line(out, &line)?;
    Ok(out.push(b'\n')?)
}

/// Appends the number, and then the word for one or for several.
pub fn put_count(out: &mut Vec<u8>, count: u32, one: &str, several: &str) -> Result<(), NoMemory>
    // After success, the decimal digits and the word are appended.
    ensures { OnOk result (out.new.items
        ≡ out.old.items ++ (decimal count ++ (if count == 1 then one.now else several.now))) }
{
    put_number(out, count)?;
    put(out, if count == 1 { one } else { several })
}

/// Appends the length of a list.
///
/// # Errors
///
/// `NoMemory` if an allocation fails.
pub fn put_size(out: &mut Vec<u8>, size: usize) -> Result<(), NoMemory>
    // After success, the decimal digits of the length are appended, or those of the largest number in 32 bits.
    ensures { OnOk result (out.new.items ≡ out.old.items ++ size_word size) }
{
    put_number(out, small(size))
}

/// Returns the number in 32 bits, or the largest of these.
pub fn small(number: usize) -> u32
    // The result is the number, or the largest one in 32 bits if the number is greater.
    ensures { result ≡ min number 4294967295 }
{
    if number > u32::MAX as usize {
        u32::MAX
    } else {
        number as u32
    }
}

/// Appends the lines, and cuts those longer than 100 bytes.
pub fn put_cut(out: &mut Vec<u8>, lines: &[u8]) -> Result<(), NoMemory> {
    let mut start: usize = 0;
    for (at, byte) in lines.iter().enumerate() {
        if *byte == b'\n' {
            put_cut_line(out, lines.get(start..at).unwrap_or(b""))?;
            out.push(b'\n')?;
            start = at.saturating_add(1);
        }
    }
    put_cut_line(out, lines.get(start..).unwrap_or(b""))
}

/// Appends the line. Of a line longer than 100 bytes the first 98 are appended, and two dots.
///
/// # Errors
///
/// `NoMemory` if an allocation fails.
pub fn put_cut_line(out: &mut Vec<u8>, line: &[u8]) -> Result<(), NoMemory>
    // After success, the line is appended, or its first 98 bytes and two dots if it is longer than 100 bytes.
    ensures { OnOk result (out.new.items ≡ out.old.items ++ cut_line line.now) }
{
    if line.len() > WIDEST {
        out.extend_from_slice(front_of(line, CUT))?;
        put(out, "..")
    } else {
        Ok(out.extend_from_slice(line)?)
    }
}

/// Returns the first bytes of the line, at most the given number.
pub fn front_of(line: &[u8], most: usize) -> &[u8]
    // The result is the first bytes of the line, at most the given number.
    ensures { result.now ≡ take most line.now }
{
    line.get(..most).unwrap_or(line)
}

/// Returns the bytes behind the first ones of the line, of which there are the given number.
pub fn behind(line: &[u8], count: usize) -> &[u8]
    // The result is the bytes behind the first ones, of which there are the given number.
    ensures { result.now ≡ drop count line.now }
{
    line.get(count..).unwrap_or(b"")
}
