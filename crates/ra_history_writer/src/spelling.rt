//! The encoder of commands as lines.
ghost use Rattle.std.specs.Prelude.{◌≡◌, ◌≤◌, ◌++◌, length, take, OnOk, IfSome};
ghost use Rattle.std.specs.List.{AllByRecursion};
ghost use Rattle.std.specs.Fmt.{signed_decimal};
ghost use Rattle.ra_labels.specs.declared.command.Command.TheVariants.{Join};
ghost use Rattle.ra_labels.specs.declared.list_operation.ListOp.TheVariants as list_op;
ghost use Rattle.ra_history_lines.specs.Grammar.{operation_fields, list_operation_fields, clock_fields, list_word, value_word, HasSmallNumbers, HasSmallElements, IsSmall};
ghost use Rattle.ra_history_writer.specs.Spelling.{spaced, commas, line_of, name_of, AreSmall};

use ra_history_lines::Names;
use ra_history_lines::number::{put_number, put_numbered};
use ra_labels::{Command, Elements, Insertion, ListOp, NoMemory, Op};

/// Appends the line of the command to the buffer, without a line feed. A replica without a name is written as an empty
/// name.
///
/// # Errors
///
/// `NoMemory` if an allocation fails.
///
/// # Complexity
///
/// O(length of the line).
pub fn put_command(out: &mut Vec<u8>, names: &Names, command: &Command) -> Result<(), NoMemory>
    // After success, the line of the command is appended, without a line feed.
    ensures put { OnOk result (out.new.items ≡ out.old.items ++ line_of names.now command.now) }
    // After success, the numbers on the line fit in 32 bits.
    ensures small { OnOk result (AreSmall command.now) }
{
    match command {
        Command::Verdict => Ok(out.extend_from_slice(b"verdict")?),
        Command::Deliver { replica, label } => {
            put_name(out, names, *replica)?;
            put_numbered(out, b" got ", *label)
        }
        Command::Operate { replica, op, stamp } => {
            put_name(out, names, *replica)?;
            put_operation(out, op)?;
            put_clock(out, *stamp)
        }
        Command::Join { replica, from } => put_join(out, names, *replica, *from),
    }
}

/// Appends the first `count` names to the buffer, each preceded by a space.
///
/// # Errors
///
/// `NoMemory` if an allocation fails.
///
/// # Complexity
///
/// O(total length of these names).
pub fn put_names(out: &mut Vec<u8>, names: &Names, count: u8) -> Result<(), NoMemory>
    // There are at least `count` names.
    requires { count ≤ length names.now }
    // After success, the first `count` names are appended, each preceded by a space.
    ensures { OnOk result (out.new.items ≡ out.old.items ++ spaced (take count names.now)) }
{
    for replica in 0..count {
        out.push(b' ')?;
        put_name(out, names, replica)?;
    }
    Ok(())
}

fn put_join(out: &mut Vec<u8>, names: &Names, replica: u8, from: u8) -> Result<(), NoMemory>
    ensures { OnOk result (out.new.items ≡ out.old.items ++ line_of names.now (Join replica from)) }
{
    out.extend_from_slice(b"join ")?;
    put_name(out, names, replica)?;
    out.push(b' ')?;
    put_name(out, names, from)
}

fn put_name(out: &mut Vec<u8>, names: &Names, replica: u8) -> Result<(), NoMemory>
    ensures { OnOk result (out.new.items ≡ out.old.items ++ name_of names.now replica) }
{
    match names.name(replica) {
        Some(name) => Ok(out.extend_from_slice(name)?),
        None => Ok(()),
    }
}

fn put_clock(out: &mut Vec<u8>, clock: Option<u32>) -> Result<(), NoMemory>
    ensures put { OnOk result (out.new.items ≡ out.old.items ++ spaced (clock_fields clock)) }
    ensures small { IfSome clock IsSmall }
{
    match clock {
        None => Ok(()),
        Some(clock) => put_numbered(out, b" @", clock),
    }
}

fn put_operation(out: &mut Vec<u8>, op: &Op) -> Result<(), NoMemory>
    ensures put { OnOk result (out.new.items ≡ out.old.items ++ spaced (operation_fields op.now)) }
    ensures small { OnOk result (HasSmallNumbers op.now) }
{
    match op {
        Op::Inc => Ok(out.extend_from_slice(b" inc")?),
        Op::Dec => Ok(out.extend_from_slice(b" dec")?),
        Op::Count(value) => {
            out.extend_from_slice(b" read ")?;
            put_signed(out, *value)
        }
        Op::Last(value) => {
            out.extend_from_slice(b" read ")?;
            put_value(out, *value)
        }
        Op::LwwRead(list) | Op::OrRead(list) | Op::RgaRead(list) | Op::MvRead(list) => {
            out.extend_from_slice(b" read ")?;
            put_list(out, list)
        }
        Op::AnyUpdate => Ok(out.extend_from_slice(b" update")?),
        Op::AnyRead(value) => put_numbered(out, b" read ", *value),
        Op::Write(value) | Op::MvWrite(value) => put_numbered(out, b" write ", *value),
        Op::LwwAdd(element) => put_numbered(out, b" add ", *element),
        Op::OrAdd { element, id } => {
            put_numbered(out, b" add ", *element)?;
            put_numbered(out, b" #", *id)
        }
        Op::LwwRemove(element) | Op::RgaRemove(element) => put_numbered(out, b" remove ", *element),
        Op::OrRemove { element, ids } => {
            put_numbered(out, b" remove ", *element)?;
            out.extend_from_slice(b" #")?;
            put_list(out, ids)
        }
        Op::After { anchor, element } => {
            put_numbered(out, b" after ", *anchor)?;
            put_numbered(out, b" ", *element)
        }
        Op::List(op) => put_list_operation(out, op),
    }
}

fn put_list_operation(out: &mut Vec<u8>, op: &ListOp) -> Result<(), NoMemory>
    ensures put { OnOk result (out.new.items ≡ out.old.items ++ spaced (list_operation_fields op.now)) }
    ensures small { OnOk result (HasSmallElements op.now) }
{
    match op {
        ListOp::Insert(insertion) => put_insertion(out, *insertion),
        ListOp::Remove(element) => put_numbered(out, b" remove ", *element),
        ListOp::Read(list) => {
            out.extend_from_slice(b" read ")?;
            put_list(out, list)
        }
        ListOp::Part(list) => {
            out.extend_from_slice(b" part ")?;
            put_list(out, list)
        }
    }
}

fn put_insertion(out: &mut Vec<u8>, insertion: Insertion) -> Result<(), NoMemory>
    ensures put { OnOk result (out.new.items
        ≡ out.old.items ++ spaced (list_operation_fields (list_op.Insert insertion))) }
    ensures small { OnOk result (HasSmallElements (list_op.Insert insertion)) }
{
    put_numbered(out, b" insert ", insertion.left)?;
    put_numbered(out, b" ", insertion.element)?;
    put_numbered(out, b" ", insertion.right)
}

fn put_value(out: &mut Vec<u8>, value: Option<u32>) -> Result<(), NoMemory>
    ensures put { OnOk result (out.new.items ≡ out.old.items ++ value_word value) }
    ensures small { IfSome value IsSmall }
{
    match value {
        None => Ok(out.extend_from_slice(b"none")?),
        Some(value) => put_number(out, value),
    }
}

fn put_list(out: &mut Vec<u8>, list: &Elements) -> Result<(), NoMemory>
    ensures put { OnOk result (out.new.items ≡ out.old.items ++ list_word list.now) }
    ensures small { AllByRecursion IsSmall list.now }
{
    put_numbers(out, list.as_slice())
}

/// Appends the numbers, separated by commas, or `-` if there are none.
///
/// # Errors
///
/// `NoMemory` if allocation fails. Part of them may be appended.
///
/// # Complexity
///
/// O(n) for `n` numbers.
pub fn put_numbers(out: &mut Vec<u8>, numbers: &[u32]) -> Result<(), NoMemory>
    // If the call succeeds, the word of the list is appended.
    ensures put { OnOk result (out.new.items ≡ out.old.items ++ list_word numbers.now) }
    // Each number fits 32 bits.
    ensures small { AllByRecursion IsSmall numbers.now }
{
    match numbers.split_first() {
        None => Ok(out.push(b'-')?),
        Some((first, more)) => {
            put_number(out, *first)?;
            put_more(out, more)
        }
    }
}

fn put_more(out: &mut Vec<u8>, numbers: &[u32]) -> Result<(), NoMemory>
    ensures { OnOk result (out.new.items ≡ out.old.items ++ commas numbers.now) }
{
    for number in numbers {
        out.push(b',')?;
        put_number(out, *number)?;
    }
    Ok(())
}

fn put_signed(out: &mut Vec<u8>, value: i32) -> Result<(), NoMemory>
    ensures { OnOk result (out.new.items ≡ out.old.items ++ signed_decimal value) }
{
    if value < 0 {
        out.push(b'-')?;
    }
    put_number(out, value.unsigned_abs())
}
