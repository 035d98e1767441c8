//! The explanation as text.
ghost use Rattle.std.specs.Prelude.{◌≡◌, ℕ, ◌++◌, List, OnOk};
ghost use Rattle.ra_explain_text.specs.Words as words;
ghost use Rattle.ra_explain_text.specs.Words.{IsText, words_for};

use crate::causes::{add_order, add_update};
use crate::certificate::add_certificate;
use crate::conflict::add_conflict;
use crate::layout::{put, put_count, put_cut_line, put_row};
use crate::notes::{Note, put_notes};
use crate::opinion::put_opinion;
use crate::pass::put_undelivered;
use crate::possible::add_possible;
use crate::query::add_query;
use crate::quotes::{put_act, put_line};
use crate::rejected::put_rejections;
use crate::remedies::put_remedies;
use crate::shares::add_shares;
use crate::view::View;
use ra_explain::Violation;
use ra_history_lines::Names;
use ra_history_lines::number::put_numbered;
use ra_labels::{Cause, Command, Kind, ListOp, NoMemory, Op};

/// Appends the explanation as text.
///
/// # Errors
///
/// `NoMemory` if an allocation fails.
pub fn put_words(out: &mut Vec<u8>, view: &View<'_>) -> Result<(), NoMemory>
    // After success, the text of the explanation is appended: its sentence, the reported and the expected command,
    // whether another order explains it, the remedies, what a pass leaves open, and the rejected lines, each as the
    // explanation has it. The reasons of a violation are notes that begin with other words.
    ensures { OnOk result ((bytes : List ℕ) × (out.new.items ≡ out.old.items ++ bytes)
        × IsText view.now.names.now view.now.explanation.now bytes) }
{
    let mut notes = Vec::new(*out.allocator());
    add_reasons(&mut notes, view)?;
    put_text(out, view, &notes)
}

// Appends the text with these notes before the remedies.
fn put_text(out: &mut Vec<u8>, view: &View<'_>, notes: &[Note]) -> Result<(), NoMemory>
    ensures { OnOk result (out.new.items ≡ out.old.items ++ words_for view.now.names.now view.now.explanation.now
        notes.now view.now.explanation.now.violation) }
{
    match &view.explanation.violation {
        Some(violation) => put_violation(out, view, violation, notes),
        None => put_pass(out, view),
    }
}

fn put_violation(
    out: &mut Vec<u8>,
    view: &View<'_>,
    violation: &Violation,
    notes: &[Note],
) -> Result<(), NoMemory>
    ensures { OnOk result (out.new.items ≡ out.old.items ++ words.violation_text view.now.names.now
        view.now.explanation.now notes.now violation.now) }
{
    put_sentence(out, view.explanation.setup.kind, violation)?;
    put_reported(out, view.names, violation)?;
    put_expected(out, view.names, violation)?;
    put_opinion(out, violation.fault.label, &view.explanation.second_opinion)?;
    put_notes(out, notes)?;
    put_remedies(out, view, violation)?;
    put_rejections(out, view)
}

// Appends the line, the label, and the reason of the violation.
fn put_sentence(out: &mut Vec<u8>, kind: Kind, violation: &Violation) -> Result<(), NoMemory>
    ensures { OnOk result (out.new.items ≡ out.old.items ++ words.sentence kind violation.now) }
{
    let mut line = Vec::new(*out.allocator());
    put_sentence_line(&mut line, kind, violation)?;
    put(out, "\n")?;
    put_cut_line(out, &line)?;
    put(out, "\n\n")
}

fn put_sentence_line(line: &mut Vec<u8>, kind: Kind, violation: &Violation) -> Result<(), NoMemory>
    ensures { OnOk result (line.new.items ≡ line.old.items ++ words.sentence_line kind violation.now) }
{
    put_line(line, violation.place)?;
    put_numbered(line, b" is a violation (label ", violation.fault.label)?;
    put(line, "): ")?;
    put(line, reason(kind, violation.fault.cause))
}

fn reason(kind: Kind, cause: Cause) -> &'static str
    ensures { result.now ≡ words.reason_words kind cause }
{
    match cause {
        Cause::Query => broken_query(kind),
        Cause::Order => broken_order(kind),
        Cause::Update => "it cannot be applied at its position in the order.",
    }
}

// Returns what is wrong with the result of a violation with this cause.
fn broken_query(kind: Kind) -> &'static str
    ensures { result.now ≡ words.query_words kind }
{
    match kind {
        Kind::Any => "another read that sees the same updates returned another value.",
        _ => "its result does not follow from the updates that it sees.",
    }
}

// Returns what is wrong with the order of a violation with this cause.
fn broken_order(kind: Kind) -> &'static str
    ensures { result.now ≡ words.order_words kind }
{
    match kind {
        Kind::List => "no single order explains it with the lines before.",
        _ => "its clock is not greater than each clock that it sees.",
    }
}

fn put_reported(out: &mut Vec<u8>, names: &Names, violation: &Violation) -> Result<(), NoMemory>
    ensures { OnOk result (out.new.items ≡ out.old.items ++ words.reported_row names.now violation.now) }
{
    let mut text = Vec::new(*out.allocator());
    put_act(&mut text, names, &violation.reported)?;
    put_row(out, "reported", &text)
}

// Appends the expected result of a query, or that none is possible.
fn put_expected(out: &mut Vec<u8>, names: &Names, violation: &Violation) -> Result<(), NoMemory>
    ensures { OnOk result (out.new.items ≡ out.old.items ++ words.expected_row names.now violation.now) }
{
    if violation.fault.cause != Cause::Query {
        return Ok(());
    }
    let mut text = Vec::new(*out.allocator());
    put_expected_words(&mut text, names, &violation.reported, &violation.expected)?;
    put_row(out, "expected", &text)
}

fn put_expected_words(
    text: &mut Vec<u8>,
    names: &Names,
    reported: &Command,
    expected: &Option<Command>,
) -> Result<(), NoMemory>
    ensures { OnOk result (text.new.items
        ≡ text.old.items ++ words.expected_words names.now reported.now expected.now) }
{
    match expected {
        Some(command) => put_act(text, names, command),
        None => put(text, no_result(reported)),
    }
}

// Returns what is expected of a command for which no result is possible.
fn no_result(reported: &Command) -> &'static str
    ensures { result.now ≡ words.no_result reported.now }
{
    match reported {
        Command::Operate { op, .. } => no_result_of(op),
        Command::Deliver { .. } | Command::Join { .. } | Command::Verdict =>
            "no result: the updates that it sees cannot be applied by themselves",
    }
}

fn no_result_of(op: &Op) -> &'static str
    ensures { result.now ≡ words.no_result_of op.now }
{
    match op {
        Op::List(ListOp::Insert(_)) => "neighbours that its replica has received, or 0 for none",
        Op::List(ListOp::Remove(_)) => "an element that its replica has received",
        Op::AnyRead(_) => "the value of the earlier read that sees the same updates",
        Op::MvRead(_) => "the values of the writes that it sees and that no other one of these saw",
        _ => "no result: the updates that it sees cannot be applied by themselves",
    }
}

// Appends that all labels hold, and what is left open.
fn put_pass(out: &mut Vec<u8>, view: &View<'_>) -> Result<(), NoMemory>
    ensures { OnOk result (out.new.items
        ≡ out.old.items ++ words.pass_text view.now.names.now view.now.explanation.now) }
{
    put_pass_sentence(out, view.explanation.report.labels)?;
    put_undelivered(out, view)?;
    put_rejections(out, view)
}

fn put_pass_sentence(out: &mut Vec<u8>, labels: u32) -> Result<(), NoMemory>
    ensures { OnOk result (out.new.items ≡ out.old.items ++ words.pass_sentence labels) }
{
    put(out, "\n")?;
    put_pass_line(out, labels)?;
    put(out, "\n\n")
}

fn put_pass_line(out: &mut Vec<u8>, labels: u32) -> Result<(), NoMemory>
    ensures { OnOk result (out.new.items ≡ out.old.items ++ words.pass_line labels) }
{
    if labels == 0 {
        put(out, "no operation was accepted, so nothing was checked.")
    } else {
        put_holding(out, labels)
    }
}

fn put_holding(out: &mut Vec<u8>, labels: u32) -> Result<(), NoMemory>
    ensures { OnOk result (out.new.items ≡ out.old.items ++ words.holding_words labels) }
{
    put_count(out, labels, " label holds", " labels hold")?;
    put(out, ": one order explains all results.")
}

// Adds the reasons of a violation, if there is one.
fn add_reasons(notes: &mut Vec<Note>, view: &View<'_>) -> Result<(), NoMemory> {
    let Some(violation) = &view.explanation.violation else {
        return Ok(());
    };
    add_possible(notes, view, violation)?;
    add_certificate(notes, view)?;
    match violation.fault.cause {
        Cause::Query => add_query(notes, view, violation)?,
        Cause::Order => match &view.explanation.conflict {
            Some(conflict) => add_conflict(notes, view, violation, conflict)?,
            None => add_order(notes, view, violation)?,
        },
        Cause::Update => add_update(notes, view, violation)?,
    }
    add_shares(notes, view, violation)
}
