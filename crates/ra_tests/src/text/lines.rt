//! A text that is read line by line, and names.
ghost use Rattle.ra_history_lines.specs.Lines.{HasNames};

use super::histories::OF_SIXTY_FOUR;
use crate::commands::{bare, elements_of};
use ra_history_text::{Item, LineFault, Names, NamesFault, Reading};
use ra_labels::{Command, Insertion, ListOp, Op};
use std::alloc::Global;
use std::process::Abort;

// Returns `true` if the line is a syntax fault.
fn is_none(reading: &mut Reading, line: &str) -> bool {
    matches!(reading.line(line.as_bytes()), Err(LineFault::Syntax))
}

// Returns the command of a line.
fn command_of(rt: &impl Abort, reading: &mut Reading, line: &str) -> Command {
    match reading.line(line.as_bytes()) {
        Ok(Item::CommandLine(command)) => command,
        _ => panic!(rt; "no command"),
    }
}

fn is_command(rt: &impl Abort, command: &Command, wanted: &Command) {
    assert!(rt; *command == *wanted);
}

// A name that is not listed is read as the number after the last replica, and a fault leaves the reading unchanged.
#[test]
fn reads_a_text_line_by_line(rt: HostRuntime) {
    let mut reading = Reading::new(rt.alloc());
    for (line, is_line) in [
        ("RAH 1 orset ", false),
        ("RAH 1 orset", true),
        ("replicas a join", false),
        ("replicas a b", true),
        ("verdict", true),
        ("b got 00", false),
    ] {
        assert!(rt; is_none(&mut reading, line) != is_line, "{line}");
    }
    let command = Command::Operate {
        replica: 2,
        op: Op::OrAdd { element: 4, id: 9 },
        stamp: None,
    };
    is_command(&rt, &command_of(&rt, &mut reading, "c add 4 #9"), &command);
}

// Reads the first two lines of a text.
fn reading_of(rt: &impl Abort, alloc: Global, text: &str) -> Reading
    ensures { HasNames result }
{
    let mut reading = Reading::new(alloc);
    let mut lines = text.as_bytes().split(|byte| *byte == b'\n');
    tells_a_kind(rt, &mut reading, lines.next().unwrap_or(b""));
    match reading.line(lines.next().unwrap_or(b"")) {
        Ok(Item::NamesLine(_)) => reading,
        _ => panic!(rt; "not read"),
    }
}

fn tells_a_kind(rt: &impl Abort, reading: &mut Reading, line: &[u8]) {
    match reading.line(line) {
        Ok(Item::KindLine(_)) => {}
        _ => panic!(rt; "not read"),
    }
}

const ONE: &str = "RAH 2 counter\nreplicas a\n";

const OF_LIST: &str = "RAH 1 list\nreplicas a\n";

const OF_RGA: &str = "RAH 1 rga\nreplicas a\n";

const OF_SET: &str = "RAH 2 orset\nreplicas a\n";

// Asserts that in a history of a list, the line is of this operation.
fn is_list_operation(rt: &impl Abort, alloc: Global, line: &str, op: ListOp) {
    let mut reading = reading_of(rt, alloc, OF_LIST);
    is_command(
        rt,
        &command_of(rt, &mut reading, line),
        &bare(0, Op::List(op)),
    );
}

// The numbers of an insertion are the left neighbour, the element and the right neighbour, and lists have any order.
#[test]
fn reads_the_operations_of_a_list(rt: HostRuntime) {
    let insertion = Insertion {
        left: 1,
        element: 2,
        right: 3,
    };
    let shown = elements_of(&rt, rt.alloc(), &[3, 1, 2]);
    let some = elements_of(&rt, rt.alloc(), &[5, 5]);
    is_list_operation(&rt, rt.alloc(), "a insert 1 2 3", ListOp::Insert(insertion));
    is_list_operation(&rt, rt.alloc(), "a remove 7", ListOp::Remove(7));
    is_list_operation(&rt, rt.alloc(), "a read 3,1,2", ListOp::Read(shown));
    is_list_operation(&rt, rt.alloc(), "a part 5,5", ListOp::Part(some));
}

// The words `insert` and `part` are read in lists alone; the words of the other kinds, in lists too.
#[test]
fn reads_the_words_of_a_list_in_lists_alone(rt: HostRuntime) {
    for (text, line, is_line) in [
        (OF_LIST, "a insert 0 4294967295 0", true),
        (OF_LIST, "a insert 0 4294967296 0", false),
        (OF_LIST, "a insert 0 1 0 @1", true),
        (OF_LIST, "a insert 0 1", false),
        (OF_LIST, "a insert 0 1 0 0", false),
        (OF_LIST, "a insert 0 1 00", false),
        (OF_LIST, "a insert 0,1,0", false),
        (OF_LIST, "a part -", true),
        (OF_LIST, "a part", false),
        (OF_LIST, "a part 5 6", false),
        (OF_LIST, "a remove 1 #-", true),
        (OF_LIST, "a after 0 1 @1", true),
        (OF_LIST, "a inc", true),
        (OF_RGA, "a insert 0 1 0", false),
        (OF_RGA, "a part -", false),
        (OF_SET, "a insert 0 1 0", false),
        (OF_SET, "a part 1", false),
        (ONE, "a insert 0 1 0", false),
        (ONE, "a part 1", false),
    ] {
        let mut reading = reading_of(&rt, rt.alloc(), text);
        assert!(rt; is_none(&mut reading, line) != is_line, "{line}");
    }
}

// Asserts that the line joins this replica from that one, and that its first name is the new one.
fn joins(rt: &impl Abort, alloc: Global, line: &str, replica: u8, from: u8) {
    let mut reading = reading_of(rt, alloc, ONE);
    let (command, name) = join_of(rt, &mut reading, line);
    is_command(rt, &command, &Command::Join { replica, from });
    assert!(rt; Some(name.as_bytes()) == line.as_bytes().get(5..6));
}

// Returns the command of a line that joins a replica, and the name.
fn join_of(rt: &impl Abort, reading: &mut Reading, line: &str) -> (Command, String) {
    match reading.line(line.as_bytes()) {
        Ok(Item::JoinLine { command, name }) => (command, name),
        _ => panic!(rt; "no join"),
    }
}

// The result of a join line and its name. The first name is the new one; if a replica has that name, the join is of
// that replica.
#[test]
fn tells_the_name_of_a_join(rt: HostRuntime) {
    for (line, replica, from) in [
        ("join b a", 1, 0),
        ("join c b", 1, 1),
        ("join c c", 1, 1),
        ("join a a", 0, 0),
    ] {
        joins(&rt, rt.alloc(), line, replica, from);
    }
}

// Returns the result of adding the name to those of the text.
fn added(rt: &impl Abort, alloc: Global, text: &str, name: &str) -> Result<(), NamesFault> {
    let mut reading = reading_of(rt, alloc, text);
    reading.add(name)
}

// A malformed or present name is reported before the lack of room.
#[test]
fn adds_names_until_there_are_sixty_four(rt: HostRuntime) {
    let bad = Err(NamesFault::BadName(0));
    for (text, name, wanted) in [
        (ONE, "a", bad),
        (ONE, "", bad),
        (ONE, "join", bad),
        (ONE, "verdict", bad),
        (ONE, "B", bad),
        (ONE, "9a", bad),
        (ONE, "abcdefghijklmnopq", bad),
        (ONE, "abcdefghijklmnop", Ok(())),
        (OF_SIXTY_FOUR, "n0", bad),
        (OF_SIXTY_FOUR, "n63", bad),
        (OF_SIXTY_FOUR, "join", bad),
        (OF_SIXTY_FOUR, "z", Err(NamesFault::BadCount)),
    ] {
        let outcome = added(&rt, rt.alloc(), text, name);
        assert!(rt; outcome == wanted, "{name}");
    }
}

// A name that was added is read.
#[test]
fn reads_names_that_were_added(rt: HostRuntime) {
    let mut reading = reading_of(&rt, rt.alloc(), ONE);
    assert!(rt; reading.add("b").is_ok());
    let delivery = Command::Deliver {
        replica: 1,
        label: 5,
    };
    is_command(&rt, &command_of(&rt, &mut reading, "b got 5"), &delivery);
}

// Returns the first fault of these names.
fn fault_of(alloc: Global, names: &[&str]) -> Option<NamesFault> {
    Names::new(alloc, names).err()
}

#[test]
fn tells_the_first_fault_of_names(rt: HostRuntime) {
    for (names, fault) in [
        (["a", "b"].as_slice(), None),
        (&[], Some(NamesFault::BadCount)),
        (&["a", "join"], Some(NamesFault::BadName(1))),
        (&["a", "a"], Some(NamesFault::BadName(1))),
        (&["a", "b", "a", "9"], Some(NamesFault::BadName(2))),
    ] {
        assert!(rt; fault_of(rt.alloc(), names) == fault);
    }
}
