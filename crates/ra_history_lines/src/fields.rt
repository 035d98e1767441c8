//! A splitter of byte strings.
ghost use Rattle.std.specs.Prelude.{◌≡◌, ◌≢◌, ◌∷◌, ◌++◌, [], All, IfSome, MatchOption};
ghost use Rattle.memchr.specs.Find.{IsFirstByte, is_byte};
ghost use Rattle.ra_history_lines.specs.Fields.{IsCutAt};
ghost use Rattle.ra_history_lines.specs.FieldBytes.{only_number};
ghost use Rattle.ra_history_lines.specs.Reading.{Reads, mark_first, clock_last, number_first};
ghost use Rattle.ra_history_lines.specs.Grammar.{fields_of, marked};

use crate::list::first_number;
use memchr::{memchr, memchr_iter};
use std::marker::Model;

/// Splits the bytes at the first occurrence of this byte: returns what precedes it and what follows it, or `None` if
/// the byte does not occur.
///
/// # Complexity
///
/// O(length of what precedes the byte).
#[inline(always)]
pub fn cut_at(byte: u8, bytes: &[u8]) -> Option<(&[u8], &[u8])>
    // The result is what stands before and after the first occurrence of the byte, or `None` exactly if it does not
    // occur.
    ensures { MatchOption result (All (λ b. b ≢ byte) bytes.now) (λ cut. IsCutAt byte bytes.now cut.0.now cut.1.now) }
{
    match memchr(byte, bytes) {
        Some(at) => Some((&bytes[..at], &bytes[at + 1..])),
        None => None,
    }
}

/// Splits the bytes as `cut_at` does, which takes longer if the byte is among the next 32.
///
/// # Complexity
///
/// O(length of what precedes the byte).
#[inline(always)]
pub fn cut_near(byte: u8, bytes: &[u8]) -> Option<(&[u8], &[u8])>
    // The result is what stands before and after the first occurrence of the byte, or `None` exactly if it does not
    // occur.
    ensures { MatchOption result (All (λ b. b ≢ byte) bytes.now) (λ cut. IsCutAt byte bytes.now cut.0.now cut.1.now) }
{
    match first_near(byte, bytes) {
        Some(at) => Some((&bytes[..at], &bytes[at + 1..])),
        None => None,
    }
}

// Returns the position of the first such byte. The iterator compares the next 32 bytes before it compares more.
#[inline(always)]
fn first_near(byte: u8, bytes: &[u8]) -> Option<usize>
    ensures { IsFirstByte (is_byte byte) bytes.now result }
{
    memchr_iter(byte, bytes).next()
}

/// The fields of a line that have not been taken yet.
#[derive(Drop)]
pub struct Fields<'a> {
    rest: Option<&'a [u8]>,
}

impl<'a> Model for Fields<'a> {
    ghost use Rattle.std.specs.Prelude.{List, ℕ, option_copied};

    ghost Value = { List (List ℕ) };

    ghost use Rattle.ra_history_lines.specs.Fields.{pieces_left};

    ghost view = { λ fields. pieces_left 32 (option_copied fields.rest) };
}

impl<'a> Fields<'a> {
    /// Returns all fields of the line.
    pub fn of(line: &'a [u8]) -> Fields<'a>
        // The fields are those into which the grammar splits the line.
        ensures { result ≡ fields_of line.now }
    {
        Fields { rest: Some(line) }
    }

    /// Returns the fields of which none is left.
    #[inline(always)]
    pub fn none() -> Fields<'a>
        // No field is left.
        ensures { result ≡ [] }
    {
        Fields { rest: None }
    }

    /// Takes the next field, or returns `None` if none is left.
    ///
    /// # Complexity
    ///
    /// O(length of the field).
    pub fn take(&mut self) -> Option<&'a [u8]>
        // The result is the first of the fields, and the others are left. It is `None` exactly if none is left.
        ensures { MatchOption result ((self.old ≡ []) × (self.new ≡ [])) (λ field. self.old ≡ field.now ∷ self.new) }
    {
        let Some(rest) = self.rest else {
            return None;
        };
        match cut_at(b' ', rest) {
            Some((field, more)) => {
                self.rest = Some(more);
                Some(field)
            }
            None => {
                self.rest = None;
                Some(rest)
            }
        }
    }

    /// Takes the next field if it begins with a number sign, and returns what follows the sign. Otherwise takes nothing
    /// and returns `None`.
    ///
    /// # Complexity
    ///
    /// O(length of the field).
    pub fn take_marked(&mut self) -> Option<&'a [u8]>
        // The result is what follows the number sign of the first field, and the other fields are left. It is `None`
        // exactly if the first field has no number sign or is missing, and then nothing is taken.
        ensures { MatchOption result ((mark_first self.old ≡ None) × (self.new ≡ self.old))
            (λ word. self.old ≡ marked word.now ∷ self.new) }
    {
        match self.rest {
            Some([b'#', behind @ ..]) => {
                self.rest = Some(behind);
                self.take()
            }
            _ => None,
        }
    }

    /// Takes the number that the next field encodes. Returns `None` if the field encodes none or is missing; which
    /// fields are left is then not specified.
    ///
    /// # Complexity
    ///
    /// O(1): at most 11 bytes are read, each once.
    #[inline(always)]
    pub fn take_number(&mut self) -> Option<u32>
        // The result is the number that the first field encodes, and the other fields are left. It is `None` exactly if
        // the first field encodes no number or is missing.
        ensures { Reads (number_first self.old) result self.new }
    {
        let Some(bytes) = self.rest else {
            return None;
        };
        let Some((value, behind)) = first_number(bytes) else {
            return None;
        };
        let [next, more @ ..] = behind else {
            self.rest = None;
            return Some(value);
        };
        if *next != b' ' {
            return None;
        }
        self.rest = Some(more);
        Some(value)
    }

    /// Returns the number that the only field encodes, or `None` if it encodes none or is not the only one.
    ///
    /// # Complexity
    ///
    /// O(1): at most 11 bytes are read, each once.
    #[inline(always)]
    pub fn only_number(self) -> Option<u32>
        // The result is the number that the only field encodes, or `None` if it encodes none or is not the only one.
        ensures { result ≡ only_number self.entry }
    {
        let Some(bytes) = self.rest else {
            return None;
        };
        let Some((value, behind)) = first_number(bytes) else {
            return None;
        };
        if behind.is_empty() { Some(value) } else { None }
    }

    /// Returns the clock that the only field encodes, `None` in it if there is no field, and `None` if anything else is
    /// left.
    #[inline(always)]
    pub fn only_clock(self) -> Option<Option<u32>>
        // The result is the clock that the fields encode, if they encode one or are none.
        ensures { result ≡ clock_last self.entry }
    {
        let Some(bytes) = self.rest else {
            return Some(None);
        };
        let [sign, digits @ ..] = bytes else {
            return None;
        };
        if *sign != b'@' {
            return None;
        }
        match Fields::of(digits).only_number() {
            Some(clock) => Some(Some(clock)),
            None => None,
        }
    }
}

/// Returns what follows the word and a space at the beginning of the bytes, or `None` if they do not begin so.
///
/// # Complexity
///
/// O(length of the word).
#[inline(always)]
pub fn behind_word<'a>(bytes: &'a [u8], word: &[u8]) -> Option<&'a [u8]>
    // The bytes are the word, a space and the result.
    ensures { IfSome result (λ behind. bytes.now ≡ word.now ++ 32 ∷ behind.now) }
{
    if bytes.len() <= word.len() {
        return None;
    }
    let mut at = 0;
    while at < word.len() {
        if bytes[at] != word[at] {
            return None;
        }
        at += 1;
    }
    if bytes[at] == b' ' {
        Some(&bytes[at + 1..])
    } else {
        None
    }
}
