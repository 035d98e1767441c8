//! Histories that are written as texts.

use super::crossing::{KINDS, made_of};
use super::writers::Trickle;
use super::{LIST, SETS};
use ra_history_text::{Item, Names, Reading, check};
use ra_history_writer::{WriteFault, write_history};
use ra_journal::MOST_ENTRIES;
use ra_labels::{Cause, Command, Elements, Kind, Op, Reply};
use ra_monitor::{Monitor, Report, Reporter};
use std::alloc::{AllocError, Global};
use std::process::Abort;

// A test case: a text that is reported, and the text that is written.
struct Row {
    // All names in the end, and the number of the initial ones.
    names: &'static [&'static str],
    first: u8,
    kind: Kind,
    told: &'static str,
    written: &'static str,
}

const ABC: &[&str] = &["a", "b", "c"];

// The accepted lines of the sets: all but the delivery that comes too early.
const ACCEPTED: &str = "RAH 1 orset
replicas a b c
a add 4 #1
b got 0
b remove 4 #1
a add 4 #2
c got 0
c got 1
c got 2
c read 4
";

/// Two replicas, and one that joins. Rejected joins are not written, nor is the delivery of a label that the new
/// replica has.
pub const JOINED: &str = "RAH 2 counter
replicas a b
a inc
join c a
c read 1
join c b
join d e
c got 0
b read 0
";

const SEVENTEEN: [&str; 17] = [
    "a", "b", "c", "d", "e", "f", "g", "h", "i", "j", "k", "l", "m", "n", "o", "p", "q",
];

const SIXTEEN: [&str; 16] = [
    "a", "b", "c", "d", "e", "f", "g", "h", "i", "j", "k", "l", "m", "n", "o", "p",
];

const SIXTY_FOUR: [&str; 64] = [
    "n0", "n1", "n2", "n3", "n4", "n5", "n6", "n7", "n8", "n9", "n10", "n11", "n12", "n13", "n14",
    "n15", "n16", "n17", "n18", "n19", "n20", "n21", "n22", "n23", "n24", "n25", "n26", "n27",
    "n28", "n29", "n30", "n31", "n32", "n33", "n34", "n35", "n36", "n37", "n38", "n39", "n40",
    "n41", "n42", "n43", "n44", "n45", "n46", "n47", "n48", "n49", "n50", "n51", "n52", "n53",
    "n54", "n55", "n56", "n57", "n58", "n59", "n60", "n61", "n62", "n63",
];

/// The text with the largest number of initial replicas.
pub const OF_SIXTY_FOUR: &str =
    "RAH 2 rga\nreplicas n0 n1 n2 n3 n4 n5 n6 n7 n8 n9 n10 n11 n12 n13 n14 n15 n16 n17 n18 n19 n20 n21 \
    n22 n23 n24 n25 n26 n27 n28 n29 n30 n31 n32 n33 n34 n35 n36 n37 n38 n39 n40 n41 n42 \
    n43 n44 n45 n46 n47 n48 n49 n50 n51 n52 n53 n54 n55 n56 n57 n58 n59 n60 n61 n62 n63\n";

// Rejected commands are not written, nor are verdicts and lines after a violation.
static ROWS: [Row; 20] = [
    Row {
        names: ABC,
        first: 3,
        kind: Kind::OrSet,
        told: SETS,
        written: ACCEPTED,
    },
    Row {
        names: ABC,
        first: 3,
        kind: Kind::Counter,
        told: "RAH 1 counter\nreplicas a b c\na inc\nb read 1\na inc\nverdict\n",
        written: "RAH 1 counter\nreplicas a b c\na inc\nb read 1\n",
    },
    Row {
        names: ABC,
        first: 3,
        kind: Kind::Counter,
        told: "RAH 1 counter\nreplicas a b c\na inc\nb dec\nc got 1\nverdict\nc read -1\n",
        written: "RAH 1 counter\nreplicas a b c\na inc\nb dec\nc got 1\nc read -1\n",
    },
    Row {
        names: ABC,
        first: 3,
        kind: Kind::Register,
        told: "RAH 1 register\nreplicas a b c\na inc\na write 7\na read none\nb got 0\nb got 1\n\
a write 7 @1\na got 1\na read 7\n",
        written: "RAH 1 register\nreplicas a b c\na read none\na write 7 @1\na read 7\n",
    },
    Row {
        names: ABC,
        first: 3,
        kind: Kind::Register,
        told: "RAH 1 register\nreplicas a b c\na write 7 @5\na write 8 @4\na write 9 @6\n",
        written: "RAH 1 register\nreplicas a b c\na write 7 @5\na write 8 @4\n",
    },
    Row {
        names: ABC,
        first: 3,
        kind: Kind::LwwSet,
        told: "RAH 1 lwwset\nreplicas a b c\na add 4 @2\nb remove 4 @1\nb remove 9 @3\n\
c got 0\nc got 1\nc read 4\nc read -\n",
        written: "RAH 1 lwwset\nreplicas a b c\na add 4 @2\nb remove 4 @1\nb remove 9 @3\n\
c got 0\nc got 1\nc read 4\nc read -\n",
    },
    Row {
        names: ABC,
        first: 3,
        kind: Kind::OrSet,
        told: "RAH 1 orset\nreplicas a b c\na add 4 #1\nb add 5 #1\nb remove 4 #-\na read 4,4\n",
        written: "RAH 1 orset\nreplicas a b c\na add 4 #1\nb remove 4 #-\n",
    },
    Row {
        names: ABC,
        first: 3,
        kind: Kind::Rga,
        told: LIST,
        written: LIST,
    },
    Row {
        names: ABC,
        first: 3,
        kind: Kind::Rga,
        told: "RAH 1 rga\nreplicas a b c\na after 0 1 @1\na remove 1\nb got 0\nb after 1 2 @2\n\
c got 0\nc got 1\nc got 2\nc read 2\n",
        written: "RAH 1 rga\nreplicas a b c\na after 0 1 @1\na remove 1\nb got 0\nb after 1 2 @2\n\
c got 0\nc got 1\nc got 2\nc read 2\n",
    },
    Row {
        names: ABC,
        first: 3,
        kind: Kind::Rga,
        told: "RAH 1 rga\nreplicas a b c\na after 3 4 @1\na remove 4\n",
        written: "RAH 1 rga\nreplicas a b c\na after 3 4 @1\n",
    },
    Row {
        names: ABC,
        first: 3,
        kind: Kind::List,
        told: "RAH 1 list\nreplicas a b c\na insert 0 1 0\na insert 1 2 0\nb got 0\nb insert 0 3 1\na got 2\n\
a read 3,1,2\nb after 0 9 @1\na remove 2\na insert 3 4 1 @1\na part 1\nb insert 3 5 1\n",
        written: "RAH 1 list\nreplicas a b c\na insert 0 1 0\na insert 1 2 0\nb got 0\nb insert 0 3 1\na got 2\n\
a read 3,1,2\na remove 2\na part 1\nb insert 3 5 1\n",
    },
    Row {
        names: ABC,
        first: 3,
        kind: Kind::List,
        told: "RAH 1 list\nreplicas a b c\na insert 0 1 0\na insert 1 2 0\na read 2,1\na read 1,2\n",
        written: "RAH 1 list\nreplicas a b c\na insert 0 1 0\na insert 1 2 0\na read 2,1\n",
    },
    Row {
        names: ABC,
        first: 3,
        kind: Kind::Any,
        told: "RAH 1 any\nreplicas a b c\na update\nb got 0\na read 7\nb read 7\nb write 3\nb update @1\nb update\n\
a got 0\na got 3\nb read 7\na read 9\nverdict\n",
        written: "RAH 1 any\nreplicas a b c\na update\nb got 0\na read 7\nb read 7\nb update\na got 3\nb read 7\n\
a read 9\n",
    },
    Row {
        names: ABC,
        first: 3,
        kind: Kind::MvRegister,
        told: "RAH 1 mvregister\nreplicas a b c\na write 7\nb write 5\nb got 0\nb read 5,7\nb read 7,5\na inc\n\
b write 9 @1\nb write 9\na got 1\na got 3\na read 9\nc read -\na read 7\n",
        written: "RAH 1 mvregister\nreplicas a b c\na write 7\nb write 5\nb got 0\nb read 5,7\nb write 9\na got 1\n\
a got 3\na read 9\nc read -\na read 7\n",
    },
    Row {
        names: ABC,
        first: 3,
        kind: Kind::Counter,
        told: "RAH 1 counter\nreplicas a b c\n",
        written: "RAH 1 counter\nreplicas a b c\n",
    },
    // Names are those of the initial replicas, followed by those that joined.
    Row {
        names: ABC,
        first: 2,
        kind: Kind::Counter,
        told: JOINED,
        written: "RAH 2 counter\nreplicas a b\na inc\njoin c a\nc read 1\nb read 0\n",
    },
    // A rejected join is not written, so RAH 1 suffices.
    Row {
        names: &["a", "b"],
        first: 2,
        kind: Kind::Counter,
        told: "RAH 2 counter\nreplicas a b\njoin a b\na inc\njoin c d\n",
        written: "RAH 1 counter\nreplicas a b\na inc\n",
    },
    // More than 16 initial replicas, up to 64, are written in RAH 2, and 16 in RAH 1.
    Row {
        names: &SIXTY_FOUR,
        first: 64,
        kind: Kind::Rga,
        told: OF_SIXTY_FOUR,
        written: OF_SIXTY_FOUR,
    },
    Row {
        names: &SEVENTEEN,
        first: 17,
        kind: Kind::Rga,
        told: "RAH 2 rga\nreplicas a b c d e f g h i j k l m n o p q\n",
        written: "RAH 2 rga\nreplicas a b c d e f g h i j k l m n o p q\n",
    },
    Row {
        names: &SIXTEEN,
        first: 16,
        kind: Kind::Rga,
        told: "RAH 2 rga\nreplicas a b c d e f g h i j k l m n o p\n",
        written: "RAH 1 rga\nreplicas a b c d e f g h i j k l m n o p\n",
    },
];

#[test]
fn histories_are_written_and_checked_again(rt: HostRuntime) {
    for row in &ROWS {
        is_written(&rt, rt.alloc(), row);
    }
}

// Asserts that the text that is written has the monitor's report, without rejected commands.
fn is_written(rt: &impl Abort, alloc: Global, row: &Row) {
    let names = names_of(rt, alloc, row.names);
    let reporter = told(rt, alloc, row.kind, row.first, row.told.as_bytes());
    let text = written(rt, alloc, reporter.monitor(), &names);
    assert!(rt; text.as_slice() == row.written.as_bytes());
    amounts_to(rt, alloc, text.as_slice(), reporter.monitor().report());
}

// Returns the whole text that is written.
fn written(rt: &impl Abort, alloc: Global, monitor: &Monitor, names: &Names) -> Vec<u8> {
    let mut text = Vec::new(alloc);
    let wrote = write_history(alloc, monitor, names, &mut text);
    assert!(rt; wrote == Ok(()));
    text
}

// Asserts that the text has the labels and the fault of the report, and no rejected command.
fn amounts_to(rt: &impl Abort, alloc: Global, text: &[u8], report: Report) {
    let mut text = text;
    let mut replies = Vec::new(alloc);
    match check(alloc, &mut text, &mut replies) {
        Ok(outcome) => {
            let Report {
                labels,
                refused,
                fault,
                ..
            } = outcome.report;
            assert!(rt; labels == report.labels && refused == 0 && fault == report.fault);
        }
        Err(_) => panic!(rt; "not a text"),
    }
}

// A writer that fails, or accepts no byte, has received the bytes before, and is not called again.
#[test]
fn histories_are_written_byte_by_byte(rt: HostRuntime) {
    let names = names_of(&rt, rt.alloc(), ABC);
    let reporter = told(&rt, rt.alloc(), Kind::OrSet, 3, SETS.as_bytes());
    is_written_in_part(&rt, rt.alloc(), reporter.monitor(), &names);
}

fn is_written_in_part(rt: &impl Abort, alloc: Global, monitor: &Monitor, names: &Names) {
    for bytes in 0..=ACCEPTED.len() {
        for fails in [true, false] {
            let writer = Trickle::new(alloc, 1, bytes, fails);
            let is_part = is_written_until(alloc, monitor, names, writer, bytes);
            assert!(rt; is_part, "after {bytes} bytes");
        }
    }
}

// Returns `true` if this many bytes are written.
fn is_written_until(
    alloc: Global,
    monitor: &Monitor,
    names: &Names,
    mut writer: Trickle,
    bytes: usize,
) -> bool {
    let wrote = write_history(alloc, monitor, names, &mut writer);
    let wanted = if bytes < ACCEPTED.len() {
        Err(WriteFault::Write)
    } else {
        Ok(())
    };
    wrote == wanted && Some(writer.taken()) == ACCEPTED.as_bytes().get(..bytes)
}

// One name too few, and one too many; and one too few for those that joined.
#[test]
fn names_are_as_many_as_the_replicas(rt: HostRuntime) {
    for (words, kind, first, text) in [
        (["a", "b"].as_slice(), Kind::OrSet, 3, SETS),
        (&["a", "b", "c", "d"], Kind::OrSet, 3, SETS),
        (&["a", "b"], Kind::Counter, 2, JOINED),
    ] {
        has_no_names(
            &rt,
            rt.alloc(),
            words,
            told(&rt, rt.alloc(), kind, first, text.as_bytes()),
        );
    }
}

fn has_no_names(rt: &impl Abort, alloc: Global, words: &[&str], reporter: Reporter) {
    let names = names_of(rt, alloc, words);
    let mut text = Vec::new(alloc);
    let wrote = write_history(alloc, reporter.monitor(), &names, &mut text);
    assert!(rt; wrote == Err(WriteFault::BadNames) && text.is_empty());
}

// Two of its commands are accepted, so the next accepted one has index 2.
const SET: &str = "RAH 1 lwwset\nreplicas a b c\na add 4 @1\na add 4 @1\nverdict\nb got 0\n";

// A read whose line has 1,048,576 bytes, or one more. After `a read ` it has a number of one digit or of two, and
// 131,071 times a comma and seven digits. The lines before have 13, 15, 11 and 8 bytes with their line feeds.
#[test]
fn the_longest_line_is_written(rt: HostRuntime) {
    for (least, wanted, bytes) in [
        (1, Ok(()), 1_048_624),
        (11, Err(WriteFault::LineTooLong(2)), 0),
    ] {
        let (wrote, length) = written_with_a_read_from(&rt, rt.alloc(), least);
        assert!(rt; wrote == wanted && length == bytes);
    }
}

// Returns the result of writing the set with a read of this element and more, and the number of bytes that are written.
fn written_with_a_read_from(
    rt: &impl Abort,
    alloc: Global,
    least: u32,
) -> (Result<(), WriteFault>, usize) {
    let names = names_of(rt, alloc, ABC);
    let mut reporter = told(rt, alloc, Kind::LwwSet, 3, SET.as_bytes());
    read_from(rt, alloc, &mut reporter, least);
    let mut text = Vec::new(alloc);
    let wrote = write_history(alloc, reporter.monitor(), &names, &mut text);
    (wrote, text.len())
}

// Reports a wrong read of this element and more.
fn read_from(rt: &impl Abort, alloc: Global, reporter: &mut Reporter, least: u32) {
    let elements = match elements_from(alloc, least) {
        Ok(elements) => elements,
        Err(_) => panic!(rt; "no memory"),
    };
    let command = Command::Operate {
        replica: 0,
        op: Op::LwwRead(elements),
        stamp: None,
    };
    let no = Reply::No {
        label: 1,
        cause: Cause::Query,
    };
    assert!(rt; reply_to(rt, reporter, command) == no);
}

// Returns this element and 131,071 others of seven digits.
fn elements_from(alloc: Global, least: u32) -> Result<Elements, AllocError> {
    let mut list = vec![in alloc; least]?;
    list.extend(1_000_000..1_131_071)?;
    Ok(Elements::new(list))
}

// 200,000 updates, two in a round.
const ROUNDS: u32 = 100_000;

#[test]
fn long_histories_are_written_as_they_were_told(rt: HostRuntime) {
    for kind in KINDS {
        let made = made_of(&rt, rt.alloc(), kind, ROUNDS);
        is_written_as_told(&rt, rt.alloc(), kind, made.text());
    }
}

// Asserts that the text that is written is the one that was reported. All of its lines are accepted, and are in the
// form in which they are written.
fn is_written_as_told(rt: &impl Abort, alloc: Global, kind: Kind, text: &[u8]) {
    let names = names_of(rt, alloc, &["a", "b"]);
    let reporter = told(rt, alloc, kind, 2, text);
    let again = written(rt, alloc, reporter.monitor(), &names);
    assert!(rt; again.as_slice() == text, "{kind:?}");
}

fn names_of(rt: &impl Abort, alloc: Global, words: &[&str]) -> Names {
    match Names::new(alloc, words) {
        Ok(names) => names,
        Err(_) => panic!(rt; "no names"),
    }
}

// Creates a reporter with this many initial replicas, and reports the lines of the text to it.
fn told(rt: &impl Abort, alloc: Global, kind: Kind, first: u8, text: &[u8]) -> Reporter {
    let mut reading = Reading::new(alloc);
    let mut reporter = match Reporter::new(alloc, kind, first, MOST_ENTRIES) {
        Ok(reporter) => reporter,
        Err(_) => panic!(rt; "no reporter"),
    };
    for line in text.split(|byte| *byte == b'\n') {
        // What follows the last line feed is not a line.
        if !line.is_empty() {
            tell_line(rt, &mut reading, &mut reporter, line);
        }
    }
    reporter
}

// A replica that joins is named from then on.
fn tell_line(rt: &impl Abort, reading: &mut Reading, reporter: &mut Reporter, line: &[u8]) {
    match reading.line(line) {
        Ok(Item::KindLine(kind)) => assert!(rt; kind == reporter.monitor().report().kind),
        Ok(Item::NamesLine(count)) => assert!(rt; count == reporter.monitor().replicas()),
        Ok(Item::CommandLine(command)) => {
            reply_to(rt, reporter, command);
        }
        Ok(Item::JoinLine { command, name }) => {
            if let Reply::Joined(_) = reply_to(rt, reporter, command) {
                assert!(rt; reading.add(name.as_str()).is_ok(), "no name");
            }
        }
        Err(_) => panic!(rt; "not read"),
    }
}

// A command that is handed back is dropped here.
fn reply_to(rt: &impl Abort, reporter: &mut Reporter, command: Command) -> Reply {
    match reporter.tell(command) {
        Ok(reply) => reply,
        Err(_) => panic!(rt; "no reply"),
    }
}
