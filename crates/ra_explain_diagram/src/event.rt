//! The event that a row of a picture shows.
ghost use Rattle.std.specs.Prelude.{◌≡◌, ◌++◌, false, IfOk, MatchOption, None, OnOk, slice_get};
ghost use Rattle.ra_history_writer.specs.Spelling.{line_of};
ghost use Rattle.ra_explain_diagram.specs.Drawn.{IsOfLog, IsViolating, IsEarlier, IsDelivered, IsDrawn, ShowsNone, behind_space, event_words};

use crate::drawing::{Row, ends_of};
use ra_explain::Violation;
use ra_explain_text::{View, put, put_line};
use ra_history_lines::Names;
use ra_history_lines::number::{put_number, put_numbered};
use ra_history_writer::spelling::put_command;
use ra_journal::Entry;
use ra_labels::{Command, NoMemory, Reply};
use std::alloc::Global;

/// An event at a replica, or one that would help.
#[derive(Drop)]
pub struct Event {
    /// The line of the event, or `or with` and `or here` for a helpful change.
    pub head: Vec<u8>,
    /// The description of the event.
    pub words: Vec<u8>,
    /// The replica from which it came, if that is another one.
    pub from: Option<u8>,
    /// The replica that has it then.
    pub to: Option<u8>,
    /// The index in the log at which it is drawn.
    pub place: u32,
    /// Whether changing this event would help.
    pub is_dashed: bool,
    /// Whether it is the violating label.
    pub is_asked: bool,
}

impl Event {
    /// Returns the event of this row, or `None` if entries are folded.
    pub fn of(
        alloc: Global,
        view: &View<'_>,
        violation: &Violation,
        row: Row,
    ) -> Result<Option<Event>, NoMemory>
        ensures drawn { IfOk result (λ event. MatchOption event (ShowsNone view.now.explanation.now.log.items row)
            (IsDrawn view.now.names.now view.now.explanation.now.log.items view.now.explanation.now.places
            violation.now row)) }
    {
        match row {
            Row::Fold(_) => Ok(None),
            Row::Entry(place) => Event::at(alloc, view, place, false),
            Row::Without(place) => Event::at(alloc, view, place, true),
            Row::Asked => Ok(Some(Event::asked(alloc, view.names, violation)?)),
            Row::Before(place) => Ok(Some(Event::before(alloc, view.names, violation, place)?)),
            Row::With(label) => Ok(Some(Event::with(alloc, view, violation, label)?)),
        }
    }

    fn at(
        alloc: Global,
        view: &View<'_>,
        place: u32,
        is_dashed: bool,
    ) -> Result<Option<Event>, NoMemory>
        ensures { IfOk result (λ event. MatchOption event
            (slice_get view.now.explanation.now.log.items place ≡ None)
            (IsOfLog view.now.names.now view.now.explanation.now.log.items view.now.explanation.now.places place
            is_dashed)) }
    {
        let Some(entry) = view.explanation.entry(place) else {
            return Ok(None);
        };
        let (from, to) = ends_of(view, &entry.command);
        let mut head = Vec::new(alloc);
        put_line(&mut head, place)?;
        let mut words = Vec::new(alloc);
        put_words(&mut words, view.names, entry)?;
        Ok(Some(Event {
            head,
            words,
            from,
            to,
            place,
            is_dashed,
            is_asked: false,
        }))
    }

    // Returns the violating label.
    fn asked(alloc: Global, names: &Names, violation: &Violation) -> Result<Event, NoMemory>
        ensures { IfOk result (IsViolating names.now violation.now) }
    {
        let mut head = Vec::new(alloc);
        put_line(&mut head, violation.place)?;
        let mut words = Vec::new(alloc);
        put_numbered(&mut words, b"", violation.fault.label)?;
        put(&mut words, "? ")?;
        put_body(&mut words, names, &violation.reported)?;
        Ok(Event {
            head,
            words,
            from: None,
            to: Some(violation.replica),
            place: violation.place,
            is_dashed: false,
            is_asked: true,
        })
    }

    // Returns the violating label as it would hold, before the entry at this index.
    fn before(
        alloc: Global,
        names: &Names,
        violation: &Violation,
        place: u32,
    ) -> Result<Event, NoMemory>
        ensures { IfOk result (IsEarlier names.now violation.now place) }
    {
        let mut head = Vec::new(alloc);
        put(&mut head, "or here")?;
        let mut words = Vec::new(alloc);
        put_numbered(&mut words, b"", violation.fault.label)?;
        put(&mut words, ": ")?;
        put_body(&mut words, names, &violation.reported)?;
        Ok(Event {
            head,
            words,
            from: None,
            to: Some(violation.replica),
            place,
            is_dashed: true,
            is_asked: true,
        })
    }

    // Returns the delivery of this label just before the violating one.
    fn with(
        alloc: Global,
        view: &View<'_>,
        violation: &Violation,
        label: u32,
    ) -> Result<Event, NoMemory>
        ensures { IfOk result (IsDelivered view.now.explanation.now.log.items view.now.explanation.now.places
            violation.now label) }
    {
        let mut head = Vec::new(alloc);
        put(&mut head, "or with")?;
        let mut words = Vec::new(alloc);
        put_numbered(&mut words, b"got ", label)?;
        Ok(Event {
            head,
            words,
            from: view.explanation.issuer(label),
            to: Some(violation.replica),
            place: violation.place,
            is_dashed: true,
            is_asked: false,
        })
    }
}

// Appends what happened at the replica: a label with its number, or a delivery.
fn put_words(
    out: &mut Vec<u8>,
    names: &Names,
    entry: &Entry<Command, Reply>,
) -> Result<(), NoMemory>
    ensures { OnOk result (out.new.items ≡ out.old.items ++ event_words names.now entry.now.reply entry.now.command) }
{
    match entry.reply {
        Reply::Got(label) => put_numbered(out, b"got ", label),
        Reply::Joined(_) => put(out, "joins"),
        Reply::Ok(label) => {
            put_number(out, label)?;
            put(out, ": ")?;
            put_body(out, names, &entry.command)
        }
        Reply::Yes(_) | Reply::No { .. } | Reply::Refused(_) => Ok(()),
    }
}

// Appends the line of the command without the name of its replica.
fn put_body(out: &mut Vec<u8>, names: &Names, command: &Command) -> Result<(), NoMemory>
    ensures { OnOk result (out.new.items ≡ out.old.items ++ behind_space false (line_of names.now command.now)) }
{
    let mut line = Vec::new(*out.allocator());
    put_command(&mut line, names, command)?;
    put_behind_space(out, &line)
}

// Appends the bytes behind the first space.
fn put_behind_space(out: &mut Vec<u8>, line: &[u8]) -> Result<(), NoMemory>
    ensures { OnOk result (out.new.items ≡ out.old.items ++ behind_space false line.now) }
{
    let mut is_behind = false;
    for byte in line {
        if is_behind {
            out.push(*byte)?;
        }
        is_behind = is_behind || *byte == b' ';
    }
    Ok(())
}
