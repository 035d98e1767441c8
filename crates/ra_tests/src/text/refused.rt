//! Calls whose allocation fails. A second call is answered as if nothing had happened, and a check reports whose
//! allocation failed. `tests/program/alloc_failures` lets each allocation fail in turn; if none fails, each call is
//! made once.

use super::histories::JOINED;
use super::{REPLIES, SETS};
use ra_cli_report::report_json;
use ra_history_text::{CheckFault, Item, LineFault, Names, NamesFault, Reading, check};
use ra_labels::Kind;
use ra_monitor::Report;
use std::alloc::Global;
use std::io;
use std::io::{ErrorKind, Read, Write};
use std::process::Abort;

// Calls for names, a line and a report.

fn names_again(rt: &impl Abort, alloc: Global) -> Names {
    for _ in 0..2 {
        match Names::new(alloc, &["a", "b", "c"]) {
            Ok(names) => return names,
            Err(fault) => assert_eq!(rt; fault, NamesFault::NoMemory),
        }
    }
    panic!(rt; "no memory")
}

fn line_again(rt: &impl Abort, reading: &mut Reading, line: &[u8]) -> Item {
    for _ in 0..2 {
        match reading.line(line) {
            Ok(item) => return item,
            Err(fault) => assert_eq!(rt; fault, LineFault::NoMemory),
        }
    }
    panic!(rt; "no memory")
}

fn report_again(rt: &impl Abort, alloc: Global, report: &Report) -> String {
    for _ in 0..2 {
        if let Ok(object) = report_json(alloc, report) {
            return object;
        }
    }
    panic!(rt; "no memory")
}

// Returns the number of lines of a text that join a replica.
fn joins_again(rt: &impl Abort, alloc: Global) -> u32 {
    let mut reading = Reading::new(alloc);
    let mut joins = 0u32;
    for line in JOINED.as_bytes().split(|byte| *byte == b'\n') {
        if !line.is_empty() {
            if is_join(line_again(rt, &mut reading, line)) {
                joins = joins.wrapping_add(1);
            }
        }
    }
    joins
}

// Returns the number of commands of a text, none of which is a join.
fn commands_again(rt: &impl Abort, alloc: Global) -> u32 {
    let mut reading = Reading::new(alloc);
    let mut commands = 0u32;
    for line in SETS.as_bytes().split(|byte| *byte == b'\n') {
        if !line.is_empty() {
            if is_command(rt, line_again(rt, &mut reading, line)) {
                commands = commands.wrapping_add(1);
            }
        }
    }
    commands
}

fn is_command(rt: &impl Abort, item: Item) -> bool {
    match &item {
        Item::KindLine(kind) => is_right(rt, *kind == Kind::OrSet),
        Item::NamesLine(count) => is_right(rt, *count == 3),
        Item::CommandLine(_) => true,
        Item::JoinLine { .. } => panic!(rt; "a join"),
    }
}

// Asserts that a line before the commands says what it should. Returns `false`, since it is not a command.
fn is_right(rt: &impl Abort, says: bool) -> bool {
    assert!(rt; says);
    false
}

fn is_join(item: Item) -> bool {
    matches!(&item, Item::JoinLine { .. })
}

#[test]
fn calls_of_the_text_are_made_again(rt: HostRuntime) {
    assert_eq!(rt; names_again(&rt, rt.alloc()).count(), 3);
    assert_eq!(rt; commands_again(&rt, rt.alloc()), 9);
    assert_eq!(rt; joins_again(&rt, rt.alloc()), 3);
    let report = Report {
        kind: Kind::Rga,
        calls: 3,
        labels: 2,
        refused: 1,
        fault: None,
    };
    let object = report_again(&rt, rt.alloc(), &report);
    let wanted = "{\"calls\":3,\"kind\":\"rga\",\"labels\":2,\"refused\":1,\
\"verdict\":\"yes\"}";
    assert!(rt; object.as_str() == wanted);
}

// A reader that returns ten bytes at a time, and keeps a copy of them.
#[derive(Drop)]
struct Keeping<'a> {
    text: &'a [u8],
    kept: Vec<u8>,
    was_refused: bool,
}

impl Read for Keeping<'_> {
    fn read(&mut self, buf: &mut [u8]) -> io::Result<usize> {
        let count = buf.len().min(10).min(self.text.len());
        let (now, left) = self.text.split_at(count);
        if self.kept.extend_from_slice(now).is_err() {
            self.was_refused = true;
            return Err(io::Error::from(ErrorKind::Other));
        }
        self.text = left;
        buf[..count].copy_from_slice(now);
        Ok(count)
    }
}

// A writer that keeps what is written.
#[derive(Drop)]
struct Taking {
    taken: Vec<u8>,
    was_refused: bool,
}

impl Write for Taking {
    fn write(&mut self, buf: &[u8]) -> io::Result<usize> {
        if self.taken.extend_from_slice(buf).is_err() {
            self.was_refused = true;
            return Err(io::Error::from(ErrorKind::Other));
        }
        Ok(buf.len())
    }

    fn flush(&mut self) -> io::Result<()> {
        Ok(())
    }
}

// A failed allocation of the reader is reported as a failed read, one of the writer as a failed write, and each other
// one as lack of memory. What was written is the beginning of the answer, in whole lines.
#[test]
fn a_check_tells_whose_growth_was_refused(rt: HostRuntime) {
    let mut reader = Keeping {
        text: SETS.as_bytes(),
        kept: Vec::new(rt.alloc()),
        was_refused: false,
    };
    let mut writer = Taking {
        taken: Vec::new(rt.alloc()),
        was_refused: false,
    };
    let fault = check(rt.alloc(), &mut reader, &mut writer).err();
    let written = writer.taken.as_slice();
    let is_whole = written == REPLIES.as_bytes();
    match (fault, reader.was_refused, writer.was_refused) {
        (Some(CheckFault::Read), true, false) => {}
        (Some(CheckFault::Write), false, true) => {}
        (Some(CheckFault::NoMemory), false, false) => {}
        (None, false, false) => assert!(rt; is_whole),
        _ => panic!(rt; "another fault"),
    }
    assert!(rt; REPLIES.as_bytes().starts_with(written));
    assert!(rt; matches!(written.last(), None | Some(b'\n')));
}
