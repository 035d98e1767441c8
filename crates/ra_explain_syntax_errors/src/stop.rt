//! The explanation of a text that stops with a fault.
use crate::field::{Trouble, in_command, in_first_line, in_names};
use crate::hint::{Line, Place, put_binary_hint, put_hints, put_note};
use crate::shown::{IN_OBJECT, field_of, put_shown};
use ra_explain_text::{put, put_cut, put_document, put_head};
use ra_history_lines::number::put_numbered;
use ra_history_lines::reply::cause_word;
use ra_history_text::{CheckFault, Session};
use ra_labels::{Fault, NoMemory};
use std::alloc::Global;

/// The line at which a text stops, and the reason.
#[derive(Drop)]
pub struct Stop<'a> {
    line: u32,
    why: Why,
    place: Place,
    // The available bytes of the line.
    text: &'a [u8],
    trouble: Option<Trouble>,
    // The violation that was reported before it.
    before: Option<Fault>,
}

#[derive(Clone, Copy)]
enum Why {
    Syntax,
    Truncated,
    LineTooLong,
    Full,
}

impl<'a> Stop<'a> {
    /// Returns the explanation of this fault in the text that this session read, or `None` if the text itself has no
    /// fault.
    pub fn of(
        alloc: Global,
        session: &'a Session,
        fault: CheckFault,
    ) -> Result<Option<Stop<'a>>, NoMemory> {
        let (why, line) = match fault {
            CheckFault::Syntax(line) => (Why::Syntax, line),
            CheckFault::Truncated(line) => (Why::Truncated, line),
            CheckFault::LineTooLong(line) => (Why::LineTooLong, line),
            CheckFault::Full(line) => (Why::Full, line),
            CheckFault::Read | CheckFault::Write | CheckFault::NoMemory | CheckFault::Endless => {
                return Ok(None);
            }
        };
        let text = session.line_so_far();
        let trouble = match why {
            Why::Syntax => trouble_in(alloc, session, text)?,
            Why::Truncated | Why::LineTooLong | Why::Full => None,
        };
        Ok(Some(Stop {
            line,
            why,
            place: place_in(session),
            text,
            trouble,
            before: session.monitor().and_then(|monitor| monitor.report().fault),
        }))
    }

    fn sentence(&self) -> &'static str {
        match self.why {
            Why::Syntax => " cannot be parsed.",
            Why::Truncated if self.text.is_empty() => " is missing: the text ends before it.",
            Why::Truncated => " has no line feed at its end: add one, unless the text was cut off.",
            Why::LineTooLong => " has more than 1048576 bytes.",
            Why::Full => " exceeds the limit of 1048576 commands.",
        }
    }

    /// Appends the explanation as a page.
    pub fn put_page(&self, out: &mut Vec<u8>) -> Result<(), NoMemory> {
        let mut words = Vec::new(*out.allocator());
        self.put_words(&mut words)?;
        put_cut(out, &words)
    }

    /// Appends the explanation as an HTML document.
    pub fn put_html(&self, out: &mut Vec<u8>) -> Result<(), NoMemory> {
        let alloc = *out.allocator();
        let mut title = Vec::new(alloc);
        put_numbered(&mut title, b"line ", self.line)?;
        put(&mut title, ": ")?;
        put(&mut title, self.why.word())?;
        let mut words = Vec::new(alloc);
        self.put_page(&mut words)?;
        put_document(out, &title, &words, b"")
    }

    /// Appends the explanation as a JSON object and a line feed.
    pub fn put_json(&self, out: &mut Vec<u8>) -> Result<(), NoMemory> {
        put_numbered(out, b"{\"answer\":\"fault\",\"line\":", self.line)?;
        put(out, ",\"why\":\"")?;
        put(out, self.why.word())?;
        put(out, "\",\"text\":\"")?;
        put_shown(out, self.text, IN_OBJECT)?;
        put(out, "\"")?;
        if let Some(trouble) = self.trouble {
            put_numbered(out, b",\"field\":", trouble.field)?;
            put(out, ",\"wanted\":\"")?;
            put(out, trouble.expected.words())?;
            put(out, "\"")?;
        }
        put(out, "}\n")
    }

    fn put_words(&self, out: &mut Vec<u8>) -> Result<(), NoMemory> {
        put_numbered(out, b"line ", self.line)?;
        put(out, self.sentence())?;
        put(out, "\n\n")?;
        if !self.text.is_empty() {
            put_head(out, "text")?;
            put_shown(out, self.text, "\\x")?;
            put(out, "\n")?;
        }
        if let Some(trouble) = self.trouble {
            put_trouble(out, self.text, trouble)?;
        }
        put_notes(out, self)?;
        put_before(out, self.before)
    }
}

impl Why {
    fn word(self) -> &'static str {
        match self {
            Why::Syntax => "syntax",
            Why::Truncated => "truncated",
            Why::LineTooLong => "too long",
            Why::Full => "full",
        }
    }
}

// Returns the position of the line at which the session is.
fn place_in(session: &Session) -> Place {
    match (session.format(), session.monitor()) {
        (None, _) => Place::First,
        (Some(format), None) => Place::Names(format),
        (Some(_), Some(_)) => Place::Command,
    }
}

fn trouble_in(alloc: Global, session: &Session, text: &[u8]) -> Result<Option<Trouble>, NoMemory> {
    let Some(format) = session.format() else {
        return Ok(in_first_line(text));
    };
    match (session.monitor(), session.names()) {
        (Some(monitor), Some(names)) => {
            Ok(in_command(format, monitor.setup().kind, names, text))
        }
        _ => in_names(alloc, format, text),
    }
}

// Appends the available bytes of the field that cannot be read, and what is valid there.
fn put_trouble(out: &mut Vec<u8>, text: &[u8], trouble: Trouble) -> Result<(), NoMemory> {
    let mut head = Vec::new(*out.allocator());
    put_numbered(&mut head, b"field ", trouble.field)?;
    for _ in head.len()..16 {
        head.push(b' ')?;
    }
    out.extend_from_slice(&head)?;
    match field_of(text, trouble.field) {
        Some([]) if text.is_empty() => put(out, "empty")?,
        Some([]) => put(out, "empty: there is one space too many")?,
        Some(field) => put_shown(out, field, "\\x")?,
        None => put(out, "missing")?,
    }
    put(out, "\n")?;
    put_head(out, "expected")?;
    put(out, trouble.expected.words())?;
    put(out, "\n")
}

// Appends the likely causes of the fault.
fn put_notes(out: &mut Vec<u8>, stop: &Stop<'_>) -> Result<(), NoMemory> {
    match (stop.why, stop.place) {
        (Why::Syntax, place) => put_hints(
            out,
            Line {
                place,
                text: stop.text,
                trouble: stop.trouble,
                field: stop
                    .trouble
                    .and_then(|trouble| field_of(stop.text, trouble.field)),
            },
        ),
        (Why::Truncated, Place::First) if stop.text.is_empty() => {
            put_note(
                out,
                "the text is empty: its first line is RAH 1 or RAH 2 and a kind, for example RAH 2 counter",
            )
        }
        (Why::Truncated, Place::Names(_)) if stop.text.is_empty() => {
            put_note(
                out,
                "line 2 is replicas and the replicas' names, for example replicas ann bob",
            )
        }
        (Why::Truncated | Why::LineTooLong, _) => put_binary_hint(out, stop.text),
        (Why::Full, _) => Ok(()),
    }
}

fn put_before(out: &mut Vec<u8>, before: Option<Fault>) -> Result<(), NoMemory> {
    let Some(fault) = before else {
        return Ok(());
    };
    put_head(out, "before it")?;
    put_numbered(out, b"a violation, no ", fault.label)?;
    put(out, " ")?;
    put(out, cause_word(fault.cause))?;
    put(
        out,
        ": remove the lines from here on to have it explained\n",
    )
}
