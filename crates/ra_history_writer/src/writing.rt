//! The writer of a monitor's history as a text.
ghost use Rattle.std.specs.Prelude.{◌≡◌, ◌+◌, ◌-◌, ◌++◌, ◌∷◌, [], ◌<◌, ◌≤◌, false, length, map, take, OnOk, IfOk, IfErr};
ghost use Rattle.std.specs.List.{AllByRecursion};
ghost use Rattle.ra_accepted_commands.specs.Accepted.{accepted_in, accepted_one};
ghost use Rattle.ra_history_lines.specs.Grammar.{bytes_of, first_line};
ghost use Rattle.ra_history_writer.specs.Spelling.{line_of, names_line, AreSmall, AreShort};
ghost use Rattle.ra_history_writer.specs.Writing.{ReturnsFirstTooLong, AreAsMany, records_in_order, format_of, WritesHistory, StopsWriting, SaysHistory};

use crate::fault::WriteFault;
use crate::size::line_size;
use crate::spelling::{put_command, put_names};
use ra_accepted_commands::{is_accepting_reply, is_no};
use ra_history_lines::kind_line::kind_word;
use ra_history_lines::limits::{LONGEST_LINE, MOST_NAMES_IN_RAH_1};
use ra_history_lines::{Format, Names};
use ra_history_text::write_out;
use ra_journal::Entry;
use ra_labels::{Command, Kind, NoMemory, Reply};
use ra_monitor::Monitor;
use std::alloc::Global;
use std::io::Write;

/// Writes the line of the kind, the line of the initial names, and a line for each accepted operation, delivery and
/// join, in order. The names are those of all replicas, the joined ones last. The format is `RAH 2` only if a replica
/// joined, or if more than 16 are initial.
///
/// # Errors
///
/// `BadNames` if and only if the number of names differs from the monitor's number of replicas; otherwise `LineTooLong`
/// if and only if a command's line is too long, with the index of the first one. Neither allocates. `NoMemory` if an
/// allocation fails. In these cases nothing is written. `Write` if the writer fails: a proper prefix was written.
///
/// # Complexity
///
/// O(length of the log and of the text), which is encoded in memory first.
pub fn write_history<W: Write>(
    alloc: Global,
    monitor: &Monitor,
    names: &Names,
    writer: &mut W,
) -> Result<(), WriteFault>
    // After success, exactly one text was written. It has a regular end and states these names, the monitor's kind and
    // its accepted operations, deliveries and joins, in order.
    ensures written { OnOk result
        (WritesHistory monitor.now names.now (W.contents writer.old) (W.contents writer.new)) }
    // After success, there are as many names as replicas.
    ensures as_many { OnOk result (AreAsMany monitor.now names.now) }
    // After success, no command's line is too long.
    ensures short { OnOk result (AreShort names.now (records_in_order monitor.now)) }
    // `BadNames` is returned exactly if the number of names differs from that of the replicas, and otherwise
    // `LineTooLong` with the index of the first command whose line is too long. After these and `NoMemory` nothing was
    // written, and after `Write` a proper prefix of such a text.
    ensures stopped { IfErr result
        (StopsWriting monitor.now names.now (W.contents writer.old) (W.contents writer.new)) }
{
    if names.count() != monitor.replicas() {
        return Err(WriteFault::BadNames);
    }
    if let Some(place) = first_long(names, monitor) {
        return Err(WriteFault::LineTooLong(place));
    }
    let text = spelled(alloc, monitor, names)?;
    write_out(writer, text.as_slice())?;
    Ok(())
}

// Returns the index of the first accepted command whose line is too long. Does not allocate.
fn first_long(names: &Names, monitor: &Monitor) -> Option<u32>
    ensures { ReturnsFirstTooLong names.now (records_in_order monitor.now) result }
{
    let log = monitor.log();
    let mut failed = false;
    let mut place = 0;
    for entry in log {
        if is_accepting_reply(failed, entry.reply) {
            if line_size(names, &entry.command) > LONGEST_LINE as u128 {
                return Some(place);
            }
            place += 1;
        }
        failed = failed || is_no(entry.reply);
    }
    None
}

// Returns the whole text.
fn spelled(alloc: Global, monitor: &Monitor, names: &Names) -> Result<Vec<u8>, NoMemory>
    requires as_many { AreAsMany monitor.now names.now }
    requires some { 0 < length names.now }
    requires short { AreShort names.now (records_in_order monitor.now) }
    ensures says { IfOk result (λ text. SaysHistory monitor.now names.now text.items) }
{
    names.are_names();
    let first = monitor.setup().replicas;
    let format = format_of(monitor, first);
    let mut text = Vec::new(alloc);
    put_heads(&mut text, format, monitor.report().kind, names, first)?;
    put_entries(&mut text, names, monitor.log())?;
    Ok(text)
}

fn format_of(monitor: &Monitor, first: u8) -> Format
    requires { first ≡ monitor.now.setup.replicas }
    ensures { result ≡ format_of monitor.now }
{
    if first < monitor.replicas() || first as usize > MOST_NAMES_IN_RAH_1 {
        Format::Rah2
    } else {
        Format::Rah1
    }
}

// Appends the two lines before the commands.
fn put_heads(
    text: &mut Vec<u8>,
    format: Format,
    kind: Kind,
    names: &Names,
    first: u8,
) -> Result<(), NoMemory>
    requires { first ≤ length names.now }
    ensures { OnOk result (text.new.items
        ≡ text.old.items ++ bytes_of (first_line format kind ∷ names_line (take first names.now) ∷ [])) }
{
    text.extend_from_slice(format.word().as_bytes())?;
    text.extend_from_slice(kind_word(kind).as_bytes())?;
    text.extend_from_slice(b"\nreplicas")?;
    put_names(text, names, first)?;
    Ok(text.push(b'\n')?)
}

// Appends the lines of a log's accepted commands.
fn put_entries(
    text: &mut Vec<u8>,
    names: &Names,
    log: &[Entry<Command, Reply>],
) -> Result<(), NoMemory>
    ensures put { OnOk result (text.new.items
        ≡ text.old.items ++ bytes_of (map (line_of names.now) (accepted_in false log.now))) }
    ensures small { OnOk result (AllByRecursion AreSmall (accepted_in false log.now)) }
{
    let mut failed = false;
    for entry in log {
        put_entry(text, names, failed, entry)?;
        failed = failed || is_no(entry.reply);
    }
    Ok(())
}

// Appends the line of the entry's command, if it was accepted.
fn put_entry(
    text: &mut Vec<u8>,
    names: &Names,
    failed: bool,
    entry: &Entry<Command, Reply>,
) -> Result<(), NoMemory>
    ensures put { OnOk result (text.new.items
        ≡ text.old.items ++ bytes_of (map (line_of names.now) (accepted_one failed entry.now))) }
    ensures small { OnOk result (AllByRecursion AreSmall (accepted_one failed entry.now)) }
{
    if !is_accepting_reply(failed, entry.reply) {
        return Ok(());
    }
    put_command(text, names, &entry.command)?;
    Ok(text.push(b'\n')?)
}
