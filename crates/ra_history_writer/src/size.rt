//! The lengths of the lines of commands, computed without allocating. Sums have 128 bits, so none of them overflows.
ghost use Rattle.std.specs.Prelude.{◌≡◌, ◌+◌, ◌*◌, ◌<◌, ◌≤◌, decimal, length};
ghost use Rattle.std.specs.Fmt.{signed_decimal};
ghost use Rattle.ra_history_lines.specs.Grammar.{operation_fields, list_operation_fields, clock_fields, list_word, value_word};
ghost use Rattle.ra_history_writer.specs.Spelling.{spaced, commas, line_of, name_of};

use ra_history_lines::Names;
use ra_labels::{Command, ListOp, Op};

/// Returns the length in bytes of the command's line, excluding the line feed. Does not allocate.
///
/// # Complexity
///
/// O(length of a list in the command).
pub fn line_size(names: &Names, command: &Command) -> u128
    // The result is the length of the command's line, without its line feed.
    ensures { result ≡ length (line_of names.now command.now) }
{
    match command {
        Command::Verdict => 7,
        // ` got ` and the label
        Command::Deliver { replica, label } => {
            name_size(names, *replica) + 5 + number_size(*label)
        }
        Command::Operate { replica, op, stamp } => {
            name_size(names, *replica) + operation_size(op) + clock_size(*stamp)
        }
        // `join` and a space before each name
        Command::Join { replica, from } => {
            6 + name_size(names, *replica) + name_size(names, *from)
        }
    }
}

fn name_size(names: &Names, replica: u8) -> u128
    ensures exact { result ≡ length (name_of names.now replica) }
    ensures small { result < 18_446_744_073_709_551_616 }
{
    match names.name(replica) {
        Some(name) => name.len() as u128,
        None => 0,
    }
}

fn clock_size(clock: Option<u32>) -> u128
    ensures exact { result ≡ length (spaced (clock_fields clock)) }
    ensures small { result ≤ 12 }
{
    match clock {
        // ` @` and the clock
        Some(clock) => 2 + number_size(clock),
        None => 0,
    }
}

// Counts the operation's word with a space before and after it, and its numbers.
fn operation_size(op: &Op) -> u128
    ensures exact { result ≡ length (spaced (operation_fields op.now)) }
    ensures small { result < 340_282_366_920_938_463_463 }
{
    match op {
        Op::Inc | Op::Dec => 4,
        Op::Count(value) => 6 + signed_size(*value),
        Op::Last(value) => 6 + value_size(*value),
        Op::LwwRead(list) | Op::OrRead(list) | Op::RgaRead(list) | Op::MvRead(list) => {
            6 + list_size(list.as_slice())
        }
        Op::AnyUpdate => 7,
        Op::AnyRead(value) => 6 + number_size(*value),
        Op::Write(value) | Op::MvWrite(value) => 7 + number_size(*value),
        Op::LwwAdd(element) => 5 + number_size(*element),
        Op::OrAdd { element, id } => 7 + number_size(*element) + number_size(*id),
        Op::LwwRemove(element) | Op::RgaRemove(element) => 8 + number_size(*element),
        Op::OrRemove { element, ids } => 10 + number_size(*element) + list_size(ids.as_slice()),
        Op::After { anchor, element } => 8 + number_size(*anchor) + number_size(*element),
        Op::List(op) => list_operation_size(op),
    }
}

fn list_operation_size(op: &ListOp) -> u128
    ensures exact { result ≡ length (spaced (list_operation_fields op.now)) }
    ensures small { result < 340_282_366_920_938_463_463 }
{
    match op {
        ListOp::Insert(at) => {
            10 + number_size(at.left) + number_size(at.element) + number_size(at.right)
        }
        ListOp::Remove(element) => 8 + number_size(*element),
        ListOp::Read(list) | ListOp::Part(list) => 6 + list_size(list.as_slice()),
    }
}

fn value_size(value: Option<u32>) -> u128
    ensures exact { result ≡ length (value_word value) }
    ensures small { result ≤ 10 }
{
    match value {
        Some(value) => number_size(value),
        None => 4,
    }
}

fn list_size(numbers: &[u32]) -> u128
    ensures exact { result ≡ length (list_word numbers.now) }
    ensures small { result ≤ 11 * length numbers.now + 1 }
{
    match numbers.split_first() {
        None => 1,
        Some((first, more)) => number_size(*first) + more_size(more),
    }
}

fn more_size(numbers: &[u32]) -> u128
    ensures exact { result ≡ length (commas numbers.now) }
    ensures small { result ≤ 11 * length numbers.now }
{
    let mut size = 0;
    for number in numbers {
        size += 1 + number_size(*number);
    }
    size
}

fn signed_size(value: i32) -> u128
    ensures exact { result ≡ length (signed_decimal value) }
    ensures small { result ≤ 11 }
{
    let sign = if value < 0 { 1 } else { 0 };
    sign + number_size(value.unsigned_abs())
}

// Returns the number of decimal digits.
fn number_size(number: u32) -> u128
    ensures exact { result ≡ length (decimal number) }
    ensures small { result ≤ 10 }
{
    if number >= 10 {
        number_size(number / 10) + 1
    } else {
        1
    }
}
