//! The parser of command lines.
ghost use Rattle.std.specs.Prelude.{◌≡◌, ◌∷◌, [], true, IfOk, IfSome, OnErr, Option, Some};
ghost use Rattle.ra_labels.specs.declared.command.Command.{Command};
ghost use Rattle.ra_labels.specs.declared.command.Command.TheVariants.{Deliver};
ghost use Rattle.ra_labels.specs.declared.kind.Kind.{Kind};
ghost use Rattle.ra_labels.specs.declared.operation.Op.{Op};
ghost use Rattle.ra_history_lines.specs.declared.format.Format.{Format};
ghost use Rattle.ra_history_lines.specs.FieldBytes.{behind_name_read, with_clock_read};
ghost use Rattle.ra_history_lines.specs.Grammar.{Spells, fields_of, new_name};
ghost use Rattle.ra_history_lines.specs.Reading.{Reads, Rest, command_read, replica_command_read, operation_read, delivery_read, join_read, is_join_word, lone_read, asks_for_list, may_have_list};

use crate::fields::{Fields, behind_word};
use crate::format::Format;
use crate::name::Names;
use crate::operation::{add, after, operation, read, remove, write};
use crate::word::is_word;
use ra_labels::{Command, Kind, NoMemory, Op};
use std::alloc::Global;

/// Returns the command that the line encodes in a history of this kind whose replicas have these names, or `None` if it
/// encodes none.
///
/// # Errors
///
/// `NoMemory` if the allocation of a list fails. Only a line that may have a list allocates.
///
/// # Complexity
///
/// O(length of the line).
pub fn command(
    alloc: Global,
    format: Format,
    kind: Kind,
    names: &Names,
    line: &[u8],
) -> Result<Option<Command>, NoMemory>
    // The result is what the line's fields encode, as the definition of reading computes it.
    ensures read { IfOk result (λ found. found ≡ command_read format kind names.now (fields_of line.now)) }
    // A command in the result is one that the line encodes by the grammar.
    ensures found { IfOk result (λ found. IfSome found (λ command. Spells format kind names.now line.now command)) }
    // If the line encodes a command by the grammar, the result is that command.
    ensures only { IfOk result (λ found. (command : Command) → Spells format kind names.now line.now command →
        found ≡ Some command) }
    // Allocation can fail only for a line that may have a list.
    ensures memory { OnErr result (may_have_list kind (fields_of line.now) ≡ true) }
{
    line_command(alloc, format, kind, names, line)
}

/// Returns the replica and the label of the delivery that the line encodes. Returns `None` if the line encodes none, or
/// if only a hash finds its name.
///
/// # Complexity
///
/// O(length of the name).
#[inline(always)]
pub fn delivery_in(names: &Names, line: &[u8]) -> Option<(u8, u32)>
    // The line encodes the delivery of the label to the replica in the result, in a history of any kind and format.
    ensures read { IfSome result (λ found. (format : Format) (kind : Kind) →
        command_read format kind names.now (fields_of line.now) ≡ Some (Deliver found.0 found.1)) }
    // By the grammar, the line encodes this delivery.
    ensures spells { IfSome result (λ found. (format : Format) (kind : Kind) →
        Spells format kind names.now line.now (Deliver found.0 found.1)) }
{
    let Some((replica, bytes)) = names.lead(line) else {
        return None;
    };
    let Some(behind) = behind_word(bytes, b"got") else {
        return None;
    };
    match Fields::of(behind).only_number() {
        Some(label) => Some((replica, label)),
        None => None,
    }
}

/// Returns the second field of the line: the new name, if the line encodes a join. Returns an empty slice if there is
/// no second field.
pub fn new_name(line: &[u8]) -> &[u8]
    // The result is the second field of the line, or empty if there is none.
    ensures { result.now ≡ new_name line.now }
{
    let mut fields = Fields::of(line);
    fields.take();
    match fields.take() {
        Some(name) => name,
        None => &[],
    }
}

// Parses a line. The name of most lines is found without a hash, and what follows it is read in one pass.
#[inline(always)]
fn line_command(
    alloc: Global,
    format: Format,
    kind: Kind,
    names: &Names,
    line: &[u8],
) -> Result<Option<Command>, NoMemory>
    ensures read { IfOk result (λ found. found ≡ command_read format kind names.now (fields_of line.now)) }
    ensures memory { OnErr result (may_have_list kind (fields_of line.now) ≡ true) }
{
    match names.lead(line) {
        Some((replica, bytes)) => replica_line(alloc, kind, replica, bytes),
        None => command_in(alloc, format, kind, names, Fields::of(line)),
    }
}

// Parses a replica's command from the bytes after its name and the space.
#[inline(always)]
fn replica_line(
    alloc: Global,
    kind: Kind,
    replica: u8,
    bytes: &[u8],
) -> Result<Option<Command>, NoMemory>
    ensures read { IfOk result (λ found. found ≡ behind_name_read kind replica (fields_of bytes.now)) }
    ensures memory { OnErr result (may_have_list kind ([] ∷ fields_of bytes.now) ≡ true) }
{
    match behind_word(bytes, b"got") {
        Some(behind) => Ok(delivery(replica, Fields::of(behind))),
        None => operation_line(alloc, kind, replica, bytes),
    }
}

// Parses an operation from the bytes after the replica's name and the space. The words of most lines are compared with
// their first bytes, and all others are split.
fn operation_line(
    alloc: Global,
    kind: Kind,
    replica: u8,
    bytes: &[u8],
) -> Result<Option<Command>, NoMemory>
    ensures read { IfOk result (λ found. found ≡ behind_name_read kind replica (fields_of bytes.now)) }
    ensures memory { OnErr result (may_have_list kind ([] ∷ fields_of bytes.now) ≡ true) }
{
    if is_word(bytes, "inc") {
        return Ok(with_clock(replica, Some(Op::Inc), Fields::none()));
    }
    if is_word(bytes, "dec") {
        return Ok(with_clock(replica, Some(Op::Dec), Fields::none()));
    }
    if let Some(behind) = behind_word(bytes, b"read") {
        let mut fields = Fields::of(behind);
        let op = read(alloc, kind, &mut fields)?;
        return Ok(with_clock(replica, op, fields));
    }
    if let Some(behind) = behind_word(bytes, b"write") {
        let mut fields = Fields::of(behind);
        let op = write(kind, &mut fields);
        return Ok(with_clock(replica, op, fields));
    }
    if let Some(behind) = behind_word(bytes, b"add") {
        let mut fields = Fields::of(behind);
        let op = add(&mut fields);
        return Ok(with_clock(replica, op, fields));
    }
    if let Some(behind) = behind_word(bytes, b"remove") {
        let mut fields = Fields::of(behind);
        let op = remove(alloc, kind, &mut fields)?;
        return Ok(with_clock(replica, op, fields));
    }
    if let Some(behind) = behind_word(bytes, b"after") {
        let mut fields = Fields::of(behind);
        let op = after(&mut fields);
        return Ok(with_clock(replica, op, fields));
    }
    split_line(alloc, kind, replica, bytes)
}

// Adds the clock that the remaining fields encode to the operation. Returns `None` if they encode anything else.
#[inline(always)]
fn with_clock(replica: u8, op: Option<Op>, fields: Fields<'_>) -> Option<Command>
    ensures { (read : Option (Rest Op)) → Reads read op fields.entry → result ≡ with_clock_read replica read }
{
    match (op, fields.only_clock()) {
        (Some(op), Some(stamp)) => Some(Command::Operate { replica, op, stamp }),
        _ => None,
    }
}

// Parses a replica's command from the fields of the bytes after its name and the space.
#[inline(never)]
fn split_line(
    alloc: Global,
    kind: Kind,
    replica: u8,
    bytes: &[u8],
) -> Result<Option<Command>, NoMemory>
    ensures read { IfOk result (λ found. found ≡ behind_name_read kind replica (fields_of bytes.now)) }
    ensures memory { OnErr result (may_have_list kind ([] ∷ fields_of bytes.now) ≡ true) }
{
    let mut fields = Fields::of(bytes);
    match fields.take() {
        Some(word) => replica_command(alloc, kind, replica, word, fields),
        None => Ok(None),
    }
}

#[inline(never)]
fn command_in(
    alloc: Global,
    format: Format,
    kind: Kind,
    names: &Names,
    mut fields: Fields<'_>,
) -> Result<Option<Command>, NoMemory>
    ensures read { IfOk result (λ command. command ≡ command_read format kind names.now fields.entry) }
    ensures memory { OnErr result (may_have_list kind fields.entry ≡ true) }
{
    let Some(first) = fields.take() else {
        return Ok(None);
    };
    let Some(word) = fields.take() else {
        return Ok(lone(first));
    };
    match names.replica(first) {
        Some(replica) => replica_command(alloc, kind, replica, word, fields),
        None if is_join_word(format, first) => Ok(join(names, word, fields)),
        None => Ok(None),
    }
}

// Returns `true` if a line with this first word is a join.
fn is_join_word(format: Format, word: &[u8]) -> bool
    ensures { result ≡ is_join_word format word.now }
{
    format == Format::Rah2 && is_word(word, "join")
}

// Parses a join from the new name and the remaining fields.
fn join(names: &Names, name: &[u8], mut fields: Fields<'_>) -> Option<Command>
    ensures { result ≡ join_read names.now name.now fields.entry }
{
    let (Some(source), None) = (fields.take(), fields.take()) else {
        return None;
    };
    match (names.replica(name), names.replica(source)) {
        (Some(replica), Some(from)) => Some(Command::Join { replica, from }),
        _ => None,
    }
}

// Parses a line that has one field.
fn lone(word: &[u8]) -> Option<Command>
    ensures { result ≡ lone_read word.now }
{
    if is_word(word, "verdict") {
        Some(Command::Verdict)
    } else {
        None
    }
}

// Parses a replica's command from the word after its name and the remaining fields.
fn replica_command(
    alloc: Global,
    kind: Kind,
    replica: u8,
    word: &[u8],
    fields: Fields<'_>,
) -> Result<Option<Command>, NoMemory>
    ensures read { IfOk result (λ command. command ≡ replica_command_read kind replica word.now fields.entry) }
    ensures memory { OnErr result (asks_for_list kind word.now ≡ true) }
{
    if is_word(word, "got") {
        Ok(delivery(replica, fields))
    } else {
        operation_at(alloc, kind, replica, word, fields)
    }
}

#[inline(always)]
fn delivery(replica: u8, fields: Fields<'_>) -> Option<Command>
    ensures { result ≡ delivery_read replica fields.entry }
{
    match fields.only_number() {
        Some(label) => Some(Command::Deliver { replica, label }),
        None => None,
    }
}

// Parses an operation with its optional clock.
fn operation_at(
    alloc: Global,
    kind: Kind,
    replica: u8,
    word: &[u8],
    mut fields: Fields<'_>,
) -> Result<Option<Command>, NoMemory>
    ensures read { IfOk result (λ command. command ≡ operation_read kind replica word.now fields.entry) }
    ensures memory { OnErr result (asks_for_list kind word.now ≡ true) }
{
    let op = operation(alloc, kind, word, &mut fields)?;
    Ok(with_clock(replica, op, fields))
}
