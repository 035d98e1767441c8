//! The parser of lists.
ghost use Rattle.std.specs.Prelude.{◌≡◌, ◌<◌, ◌≤◌, ◌+◌, length, None, Some, IfOk, IfSome, MatchOption};
ghost use Rattle.ra_history_lines.specs.ListBytes.{numbers_with, numbers_behind, EndsNumber};
ghost use Rattle.ra_history_lines.specs.FieldBytes.{number_in_field, field_behind};
ghost use Rattle.ra_history_lines.specs.Reading.{list_read};

use crate::word::is_word;
use ra_labels::{Elements, NoMemory};
use std::alloc::Global;

// The smallest number of ten digits: one more digit does not fit in 32 bits.
const TEN_DIGITS: u64 = 1_000_000_000;

// The largest number of bytes whose commas are counted in a byte, which the compiler does for many bytes at once.
const CHUNK: usize = 255;

/// Returns the list that the field encodes: a minus for the empty one, otherwise numbers joined by single commas.
/// Returns `None` if the field encodes no list.
///
/// # Errors
///
/// `NoMemory` if the allocation of the list fails. It is the only allocation.
///
/// # Complexity
///
/// O(length of the field): the commas are counted, and then each byte is read once.
pub fn list(alloc: Global, field: &[u8]) -> Result<Option<Elements>, NoMemory>
    ensures { IfOk result (λ list. list ≡ list_read field.now) }
{
    if is_word(field, "-") {
        return Ok(Some(Elements::new(Vec::new(alloc))));
    }
    let mut items = Vec::with_capacity(alloc, commas(field).saturating_add(1))?;
    let mut rest = field;
    while let Some((item, behind)) = first_number(rest) {
        items.push(item)?;
        let [next, more @ ..] = behind else {
            return Ok(Some(Elements::new(items)));
        };
        if *next != b',' {
            return Ok(None);
        }
        rest = more;
    }
    Ok(None)
}

// Returns the number of commas, for the list's capacity alone.
fn commas(field: &[u8]) -> usize {
    let mut count: usize = 0;
    for chunk in field.chunks(CHUNK) {
        count = count.saturating_add(commas_of_chunk(chunk) as usize);
    }
    count
}

#[inline(always)]
fn commas_of_chunk(chunk: &[u8]) -> u8 {
    let mut count: u8 = 0;
    for byte in chunk {
        count = count.wrapping_add((*byte == b',') as u8);
    }
    count
}

/// Returns the number that the first bytes encode, as many as belong to it, and what follows them. Returns `None` if no
/// number begins these bytes.
///
/// # Complexity
///
/// O(number of the digits).
#[inline(always)]
pub fn first_number(bytes: &[u8]) -> Option<(u32, &[u8])>
    ensures read { MatchOption result (numbers_with None bytes.now ≡ None)
        (λ found. numbers_with None bytes.now ≡ numbers_with (Some found.0) found.1.now) }
    ensures field { MatchOption result (number_in_field None bytes.now ≡ None)
        (λ found. number_in_field None bytes.now ≡ number_in_field (Some found.0) found.1.now) }
    ensures ends { IfSome result (λ found. EndsNumber found.0 found.1.now) }
    ensures shorter { IfSome result (λ found. length found.1.now + 1 ≤ length bytes.now) }
{
    let [first, more @ ..] = bytes else {
        return None;
    };
    if !first.is_ascii_digit() {
        return None;
    }
    let (value, behind) = with_digits((*first - b'0') as u64, more);
    if value <= u32::MAX as u64 {
        Some((value as u32, behind))
    } else {
        None
    }
}

// Appends the digits that follow the first one, as many as may belong to a number below 2^32, and returns the number
// with what follows it. Appends nothing to a zero.
#[inline(always)]
fn with_digits(first: u64, more: &[u8]) -> (u64, &[u8])
    requires { first < 10 }
    ensures read { numbers_behind first more.now ≡ numbers_behind result.0 result.1.now }
    ensures field { field_behind first more.now ≡ field_behind result.0 result.1.now }
    ensures ends { EndsNumber result.0 result.1.now }
    ensures shorter { length result.1.now ≤ length more.now }
{
    if first == 0 {
        return (first, more);
    }
    let mut value = first;
    let mut at = 0;
    while at < more.len() && value < TEN_DIGITS && more[at].is_ascii_digit() {
        value = value * 10 + (more[at] - b'0') as u64;
        at += 1;
    }
    (value, &more[at..])
}
