//! The explanation as one JSON object. Names and command lines consist of letters, digits, spaces and signs that need
//! no escape.
ghost use Rattle.std.specs.Prelude.{◌≡◌, ◌++◌, true, OnOk};
ghost use Rattle.ra_explain_text.specs.Json as json;
ghost use Rattle.ra_explain_text.specs.Certificates.{certificate_text};
ghost use Rattle.ra_explain_text.specs.Json.{object_of};
ghost use Rattle.ra_explain_text.specs.Opinions.{opinion_text, list_text};
ghost use Rattle.ra_explain_text.specs.Possible.{possible_text};

use crate::json_certificate::put_certificate;
use crate::json_conflict::put_conflict;
use crate::json_possible::put_possible;
use crate::layout::{put, put_size};
use crate::opinion::put_opinion_members;
use crate::quotes::{put_line_number, put_name};
use crate::view::View;
use ra_explain::{Change, Remedies, Undelivered, Violation};
use ra_history_lines::Names;
use ra_history_lines::number::{put_number, put_numbered};
use ra_history_lines::reply::cause_word;
use ra_history_writer::spelling::put_command;
use ra_labels::{Command, NoMemory};

/// Appends the explanation as one JSON object, and a line feed.
///
/// # Errors
///
/// `NoMemory` if an allocation fails.
///
/// # Complexity
///
/// O(length of the object).
pub fn put_json(out: &mut Vec<u8>, view: &View<'_>) -> Result<(), NoMemory>
    // After success, exactly the object of the explanation is appended, with a line feed. Its lines are those that the
    // writer of histories spells.
    ensures { OnOk result (out.new.items
        ≡ out.old.items ++ object_of view.now.names.now view.now.explanation.now) }
{
    let it = view.explanation;
    put_answer(out, view)?;
    put_numbered(out, b",\"refused\":", it.report.refused)?;
    put(out, ",\"refused_lines\":[")?;
    put_lines(out, &it.rejected)?;
    put(out, "],\"lacks\":{")?;
    put_lacks(out, view.names, &it.undelivered)?;
    put(out, "}}\n")
}

fn put_answer(out: &mut Vec<u8>, view: &View<'_>) -> Result<(), NoMemory>
    ensures { OnOk result (out.new.items ≡ out.old.items
        ++ json.answer_members view.now.names.now view.now.explanation.now view.now.explanation.now.violation) }
{
    match &view.explanation.violation {
        Some(violation) => put_no(out, view, violation),
        None => put_pass(out, view.explanation.report.labels),
    }
}

fn put_pass(out: &mut Vec<u8>, labels: u32) -> Result<(), NoMemory>
    ensures { OnOk result (out.new.items ≡ out.old.items ++ json.pass_members labels) }
{
    put_numbered(out, b"{\"answer\":\"yes\",\"labels\":", labels)
}

// Appends the violation, the conflict if it is one by the order of a list, whether another order explains it, and what
// the read can return.
fn put_no(out: &mut Vec<u8>, view: &View<'_>, violation: &Violation) -> Result<(), NoMemory>
    ensures { OnOk result (out.new.items ≡ out.old.items
        ++ (json.violation_members view.now.names.now violation.now view.now.explanation.now.remedies
        ++ (json.conflict_text view.now.names.now view.now.explanation.now.places view.now.explanation.now.conflict
        ++ (opinion_text view.now.explanation.now.second_opinion
        ++ (possible_text view.now.explanation.now.possible
        ++ (certificate_text view.now.explanation.now.second_opinion view.now.explanation.now.places
        view.now.explanation.now.certificate.items ++ list_text view.now.explanation.now.one_list)))))) }
{
    let it = view.explanation;
    put_violation(out, view, violation)?;
    put_conflict(out, view.names, &it.places, &it.conflict)?;
    put_opinion_members(out, &it.second_opinion)?;
    put_possible(out, &it.possible)?;
    put_certificate(out, &it.second_opinion, &it.places, &it.certificate)?;
    put(out, list_member(it.one_list))
}

// Returns the member that says whether one order of the elements explains the labels, if that is known.
fn list_member(one_list: Option<bool>) -> &'static str
    ensures { result.now ≡ list_text one_list }
{
    match one_list {
        Some(true) => ",\"one_list\":true",
        Some(false) => ",\"one_list\":false",
        None => "",
    }
}

fn put_violation(out: &mut Vec<u8>, view: &View<'_>, violation: &Violation) -> Result<(), NoMemory>
    ensures { OnOk result (out.new.items ≡ out.old.items
        ++ json.violation_members view.now.names.now violation.now view.now.explanation.now.remedies) }
{
    put_fault(out, violation)?;
    put_commands(out, view.names, violation)?;
    put_remedies(out, &view.explanation.remedies)
}

fn put_fault(out: &mut Vec<u8>, violation: &Violation) -> Result<(), NoMemory>
    ensures { OnOk result (out.new.items ≡ out.old.items ++ json.fault_members violation.now) }
{
    put_numbered(out, b"{\"answer\":\"no\",\"label\":", violation.fault.label)?;
    put(out, ",\"cause\":\"")?;
    put(out, cause_word(violation.fault.cause))?;
    put(out, "\",\"line\":")?;
    put_line_number(out, violation.place)
}

// Appends the replica, the reported command and the expected one.
fn put_commands(out: &mut Vec<u8>, names: &Names, violation: &Violation) -> Result<(), NoMemory>
    ensures { OnOk result (out.new.items ≡ out.old.items ++ json.command_members names.now violation.now) }
{
    put(out, ",\"replica\":\"")?;
    put_name(out, names, violation.replica)?;
    put(out, "\",\"told\":\"")?;
    put_command(out, names, &violation.reported)?;
    put(out, "\",\"right\":")?;
    put_expected(out, names, &violation.expected)
}

fn put_remedies(out: &mut Vec<u8>, remedies: &Remedies) -> Result<(), NoMemory>
    ensures { OnOk result (out.new.items ≡ out.old.items ++ json.remedies_members remedies.now) }
{
    put(out, ",\"would_be_right\":[")?;
    put_changes(out, &remedies.found)?;
    put(out, "],\"tried\":")?;
    put_size(out, remedies.tried.len())
}

fn put_expected(
    out: &mut Vec<u8>,
    names: &Names,
    expected: &Option<Command>,
) -> Result<(), NoMemory>
    ensures { OnOk result (out.new.items ≡ out.old.items ++ json.expected_value names.now expected.now) }
{
    match expected {
        Some(command) => {
            put(out, "\"")?;
            put_command(out, names, command)?;
            put(out, "\"")
        }
        None => put(out, "null"),
    }
}

fn put_changes(out: &mut Vec<u8>, changes: &[Change]) -> Result<(), NoMemory>
    ensures { OnOk result (out.new.items ≡ out.old.items ++ json.changes_value changes.now) }
{
    match changes.split_first() {
        None => Ok(()),
        Some((first, more)) => {
            put_change(out, *first)?;
            put_more_changes(out, more)
        }
    }
}

fn put_more_changes(out: &mut Vec<u8>, changes: &[Change]) -> Result<(), NoMemory>
    ensures { OnOk result (out.new.items ≡ out.old.items ++ json.more_changes changes.now) }
{
    for change in changes {
        out.push(b',')?;
        put_change(out, *change)?;
    }
    Ok(())
}

fn put_change(out: &mut Vec<u8>, change: Change) -> Result<(), NoMemory>
    ensures { OnOk result (out.new.items ≡ out.old.items ++ json.change_value change) }
{
    put_change_member(out, change)?;
    put(out, "}")
}

fn put_change_member(out: &mut Vec<u8>, change: Change) -> Result<(), NoMemory>
    ensures { OnOk result (out.new.items ≡ out.old.items ++ json.change_member change) }
{
    match change {
        Change::Gets(label) => put_numbered(out, b"{\"gets\":", label),
        Change::Misses(at) => {
            put(out, "{\"misses_line\":")?;
            put_line_number(out, at)
        }
        Change::ComesBefore(at) => {
            put(out, "{\"comes_before_line\":")?;
            put_line_number(out, at)
        }
    }
}

// Appends the numbers of the lines with these indices in the log.
fn put_lines(out: &mut Vec<u8>, places: &[u32]) -> Result<(), NoMemory>
    ensures { OnOk result (out.new.items ≡ out.old.items ++ json.lines_value places.now) }
{
    match places.split_first() {
        None => Ok(()),
        Some((first, more)) => {
            put_line_number(out, *first)?;
            put_more_lines(out, more)
        }
    }
}

fn put_more_lines(out: &mut Vec<u8>, places: &[u32]) -> Result<(), NoMemory>
    ensures { OnOk result (out.new.items ≡ out.old.items ++ json.more_lines places.now) }
{
    for place in places {
        out.push(b',')?;
        put_line_number(out, *place)?;
    }
    Ok(())
}

// Appends, for each replica that lacks updates, their number and the oldest of their labels.
fn put_lacks(out: &mut Vec<u8>, names: &Names, lacks: &[Undelivered]) -> Result<(), NoMemory>
    ensures { OnOk result (out.new.items ≡ out.old.items ++ json.lacks_members names.now true lacks.now) }
{
    let mut is_first = true;
    for lack in lacks {
        if let Some(oldest) = lack.oldest {
            put_lack(out, names, is_first, *lack, oldest)?;
            is_first = false;
        }
    }
    Ok(())
}

fn put_lack(
    out: &mut Vec<u8>,
    names: &Names,
    is_first: bool,
    lack: Undelivered,
    oldest: u32,
) -> Result<(), NoMemory>
    ensures { OnOk result (out.new.items
        ≡ out.old.items ++ json.lack_member names.now is_first lack oldest) }
{
    put(out, opening(is_first))?;
    put_name(out, names, lack.replica)?;
    put(out, "\":{\"updates\":")?;
    put_size(out, lack.updates)?;
    put_numbered(out, b",\"oldest\":", oldest)?;
    put(out, "}")
}

// Returns the beginning of a member of an object.
fn opening(is_first: bool) -> &'static str
    ensures { result.now ≡ json.opening is_first }
{
    if is_first { "\"" } else { ",\"" }
}
