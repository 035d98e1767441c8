//! The explanation of a text from a reader.
ghost use Rattle.std.specs.Prelude.{◌≡◌, ◌≢◌, ◌++◌, IfOk, Ok, OnOk, Some};
ghost use Rattle.ra_monitor.specs.Monitor as model;
ghost use Rattle.ra_history_text.specs.Output.{Reports};
ghost use Rattle.ra_history_text.specs.Sessions.{IsToldBy, names_said};
ghost use Rattle.ra_explain_cli.specs.Explained.{ExplainsText, EndsExplained, EndsStopped, IsBody, IsBodyFor, IsPage, PutsExplanation, head_for, purpose_for};

use crate::asked::Form;
use ra_cli_common::{Ending, stop};
use ra_explain::{Explanation, Purpose};
use ra_explain_diagram::{put_html, put_page, put_svg};
use ra_explain_syntax_errors::Stop;
use ra_explain_text::{View, put_json, put_sequence};
use ra_history_lines::Names;
use ra_history_lines::reply::put_end;
use ra_history_text::{CheckFault, Outcome, Session, check_session, status, write_out};
use ra_labels::NoMemory;
use ra_monitor::{Monitor, Report};
use std::alloc::Global;
use std::io;
use std::io::{Read, Write};

/// Explains the text that the reader provides on `out`, and writes the line of an error on `err`. The status is that of
/// a check of the text, or 2 if the page cannot be made or written. A plain page begins with the check's own end line.
///
/// For a text with a fault, page, object and document show the line and the field. No clause states that, nor what a
/// picture and a drawing show, nor the sequence.
pub fn explain<R: Read, W: Write, E: Write>(
    alloc: Global,
    form: Form,
    reader: &mut R,
    out: &mut W,
    err: &mut E,
) -> Ending
    // If the check of the text succeeds, all of it is read, and a page is written with the check's status. The page
    // shows the explanation of the text's history: as the object, as the text, which in plain form follows the check's
    // end line, or as a drawing that has this line as its title. Otherwise, and after a failed write or allocation, the
    // status is 2.
    ensures explained { ExplainsText form result (R.remaining reader.old) (R.remaining reader.new)
        (W.contents out.old) (W.contents out.new) (E.contents err.old) (E.contents err.new) }
    // Unless the status is 2, nothing is written on `err`.
    ensures silent { result.status ≢ 2 → err.new ≡ err.old }
{
    let mut session = Session::new(alloc);
    let answer = check_session(alloc, &mut session, reader, &mut io::sink());
    match answer {
        Ok(outcome) => end_explained(alloc, form, session, outcome, out, err),
        Err(fault) => {
            let ending = end_stopped(alloc, form, &session, fault, out, err);
            // Dropped by a call, so that the proof unfolds its fields once and not at each return.
            drop(session);
            ending
        }
    }
}

// Ends an explanation of a text that was read and answered completely.
fn end_explained<W: Write, E: Write>(
    alloc: Global,
    form: Form,
    session: Session,
    outcome: Outcome,
    out: &mut W,
    err: &mut E,
) -> Ending
    requires { Reports session.said outcome.report }
    ensures explained { EndsExplained form session.said outcome result (W.contents out.old) (W.contents out.new)
        (E.contents err.old) (E.contents err.new) }
    ensures silent { result.status ≢ 2 → err.new ≡ err.old }
{
    let Ok(page) = page_of(alloc, form, session, &outcome.report) else {
        return stop(err, CheckFault::NoMemory);
    };
    match write_out(out, &page) {
        Ok(()) => Ending {
            status: status(&Ok(outcome)),
            told: true,
        },
        Err(_) => stop(err, CheckFault::Write),
    }
}

// Ends an explanation after an error of the text, the reader or an allocation.
fn end_stopped<W: Write, E: Write>(
    alloc: Global,
    form: Form,
    session: &Session,
    fault: CheckFault,
    out: &mut W,
    err: &mut E,
) -> Ending
    ensures explained { EndsStopped fault result (W.contents out.old) (W.contents out.new)
        (E.contents err.old) (E.contents err.new) }
    ensures status { result.status ≡ 2 }
{
    let words = match words_on(alloc, form, session, fault) {
        Ok(words) => words,
        Err(_) => Vec::new(alloc),
    };
    match write_out(out, &words) {
        Ok(()) => stop(err, fault),
        Err(_) => stop(err, CheckFault::Write),
    }
}

// Returns the explanation of the error, if it is one of the text.
fn words_on(
    alloc: Global,
    form: Form,
    session: &Session,
    fault: CheckFault,
) -> Result<Vec<u8>, NoMemory> {
    let mut words = Vec::new(alloc);
    let Some(stop) = Stop::of(alloc, session, fault)? else {
        return Ok(words);
    };
    match form {
        Form::Page => stop.put_page(&mut words)?,
        Form::Json => stop.put_json(&mut words)?,
        Form::Html => stop.put_html(&mut words)?,
        Form::Svg | Form::Sequence => {}
    }
    Ok(words)
}

// Returns the page of the explanation. A plain page begins with the check's end line.
fn page_of(
    alloc: Global,
    form: Form,
    session: Session,
    report: &Report,
) -> Result<Vec<u8>, NoMemory>
    requires { Reports session.said report.now }
    ensures { IfOk result (λ page. IsPage form session.said report.now page.items) }
{
    let mut page = Vec::new(alloc);
    put_first(&mut page, form, report)?;
    let body = body_of(alloc, form, session)?;
    page.extend_from_slice(&body)?;
    Ok(page)
}

fn put_first(page: &mut Vec<u8>, form: Form, report: &Report) -> Result<(), NoMemory>
    ensures { OnOk result (page.new.items ≡ page.old.items ++ head_for form report.now) }
{
    match form {
        Form::Page => put_end(page, report.labels, report.fault),
        Form::Json | Form::Svg | Form::Html | Form::Sequence => Ok(()),
    }
}

fn body_of(alloc: Global, form: Form, session: Session) -> Result<Vec<u8>, NoMemory>
    requires { (report : Report) × Reports session.said report }
    ensures { IfOk result (λ body. (monitor : model.Monitor) × IsToldBy session.said monitor
        × IsBody form monitor.setup monitor.log (names_said session.said) body.items) }
{
    match session.into_history() {
        Some((monitor, names)) => history_body(alloc, form, monitor, &names),
        None => unreachable!(),
    }
}

// Returns what the form shows of the monitor's history: an explanation, or the sequence.
fn history_body(
    alloc: Global,
    form: Form,
    monitor: Monitor,
    names: &Names,
) -> Result<Vec<u8>, NoMemory>
    ensures { IfOk result (λ body. IsBody form monitor.setup monitor.log names.now body.items) }
{
    match purpose_of(form) {
        Some(purpose) => explained_body(alloc, form, purpose, monitor, names),
        None => sequence_body(alloc, monitor),
    }
}

fn explained_body(
    alloc: Global,
    form: Form,
    purpose: Purpose,
    monitor: Monitor,
    names: &Names,
) -> Result<Vec<u8>, NoMemory>
    ensures { IfOk result (λ body.
        IsBodyFor (Some purpose) form monitor.setup monitor.log names.now body.items) }
{
    let explanation = Explanation::of(alloc, monitor, purpose)?;
    let mut body = Vec::new(alloc);
    put_explanation(&mut body, form, &explanation, names)?;
    Ok(body)
}

// Returns the sequence, which is written from the monitor itself.
fn sequence_body(alloc: Global, monitor: Monitor) -> Result<Vec<u8>, NoMemory> {
    let mut body = Vec::new(alloc);
    put_sequence(&mut body, &monitor)?;
    Ok(body)
}

fn put_explanation(
    body: &mut Vec<u8>,
    form: Form,
    explanation: &Explanation,
    names: &Names,
) -> Result<(), NoMemory>
    ensures { OnOk result (PutsExplanation form explanation.now names.now body.old.items body.new.items) }
{
    let view = View { explanation, names };
    match form {
        Form::Page => put_page(body, &view),
        Form::Json => put_json(body, &view),
        Form::Svg => put_svg(body, &view),
        Form::Html => put_html(body, &view),
        Form::Sequence => Ok(()),
    }
}

fn purpose_of(form: Form) -> Option<Purpose>
    ensures { result ≡ purpose_for form }
{
    match form {
        Form::Page | Form::Html => Some(Purpose::Text),
        Form::Json => Some(Purpose::Object),
        Form::Svg => Some(Purpose::Drawing),
        Form::Sequence => None,
    }
}
