//! Decimal numbers of a line, without leading zeros.
ghost use Rattle.std.specs.Prelude.{◌≡◌, ◌++◌, decimal, OnErr, OnOk};
ghost use Rattle.ra_history_lines.specs.Fields.{BeginsWith};
ghost use Rattle.ra_history_lines.specs.Reading.{begins_as_number, digit_read, digits_read, number_read, signed_read, above_zero, below_zero};

use itoa::Buffer;
use ra_labels::NoMemory;

/// Returns the number that the field encodes, at most 4,294,967,295, or `None` if it encodes none.
///
/// # Complexity
///
/// O(length of the field).
#[tactic(auto, unfolding(crate::specs::Reading::number_read))]
pub fn number(field: &[u8]) -> Option<u32>
    // The result is the number below 2^32 that the field encodes, or `None` if it encodes none.
    ensures { result ≡ number_read field.now }
{
    if begins_as_number(field) {
        digits(field)
    } else {
        None
    }
}

/// Returns the signed number that the field encodes, from -2,147,483,648 to 2,147,483,647, or `None` if it encodes
/// none.
pub fn signed_number(field: &[u8]) -> Option<i32>
    // The result is the number from -2^31 to 2^31 - 1 that the field encodes, or `None` if it encodes none.
    ensures { result ≡ signed_read field.now }
{
    match field {
        [] => None,
        [b'-', digits @ ..] => match number(digits) {
            Some(size) => below_zero(size),
            None => None,
        },
        _ => match number(field) {
            Some(size) => above_zero(size),
            None => None,
        },
    }
}

fn begins_as_number(field: &[u8]) -> bool
    ensures { result ≡ begins_as_number field.now }
{
    match field {
        [] => false,
        [b'0', more @ ..] => more.is_empty(),
        [first, ..] => first.is_ascii_digit(),
    }
}

fn digits(field: &[u8]) -> Option<u32>
    ensures { result ≡ digits_read 0 field.now }
{
    let mut value: u32 = 0;
    for byte in field {
        let Some(next) = with_digit(value, *byte) else {
            return None;
        };
        value = next;
    }
    Some(value)
}

// Appends the digit to `value`, if the result fits in 32 bits.
fn with_digit(value: u32, byte: u8) -> Option<u32>
    ensures { result ≡ digit_read value byte }
{
    if !byte.is_ascii_digit() {
        return None;
    }
    let next = value as u64 * 10 + (byte - b'0') as u64;
    if next <= u32::MAX as u64 {
        Some(next as u32)
    } else {
        None
    }
}

fn above_zero(size: u32) -> Option<i32>
    ensures { result ≡ above_zero size }
{
    0i32.checked_add_unsigned(size)
}

fn below_zero(size: u32) -> Option<i32>
    ensures { result ≡ below_zero size }
{
    if size == 0 {
        None
    } else {
        0i32.checked_sub_unsigned(size)
    }
}

/// Appends the words and the number to the buffer.
///
/// # Errors
///
/// `NoMemory` if an allocation fails; the buffer then begins with its former contents, and a part may follow.
#[inline(always)]
pub fn put_numbered(out: &mut Vec<u8>, words: &[u8], number: u32) -> Result<(), NoMemory>
    // After success, the words and the number's decimal digits are appended, and nothing else changed.
    ensures put { OnOk result (out.new.items ≡ out.old.items ++ (words.now ++ decimal number)) }
    // If allocation fails, the buffer begins with its former contents.
    ensures part { OnErr result (BeginsWith out.old.items out.new.items) }
{
    out.extend_from_slice(words)?;
    put_number(out, number)
}

/// Appends the decimal digits of the number to the buffer.
///
/// # Errors
///
/// `NoMemory` if an allocation fails; the buffer then begins with its former contents.
#[inline(always)]
pub fn put_number(out: &mut Vec<u8>, number: u32) -> Result<(), NoMemory>
    // After success, the number's decimal digits are appended, and nothing else changed.
    ensures put { OnOk result (out.new.items ≡ out.old.items ++ decimal number) }
    // If allocation fails, the buffer begins with its former contents.
    ensures part { OnErr result (BeginsWith out.old.items out.new.items) }
{
    let mut buffer = Buffer::new();
    Ok(out.extend_from_slice(buffer.format(number).as_bytes())?)
}
