//! Reserved entries: a monitor answers as many commands as it has reserved room for.

use crate::commands::{got, increment, is_full, is_told, read, reporter_of};
use ra_journal::Entry;
use ra_labels::{Cause, Command, Kind, Refusal, Reply};
use ra_monitor::Reporter;
use std::mem;
use std::process::Abort;

// Reserves entries, once more if an allocation fails, and asserts that the report is unchanged then.
fn reserve(rt: &impl Abort, reporter: &mut Reporter, entries: u32) {
    let before = reporter.monitor().report();
    if reporter.reserve(entries).is_err() {
        assert_eq!(rt; reporter.monitor().report(), before);
        assert!(rt; reporter.reserve(entries).is_ok());
    }
    assert_eq!(rt; reporter.monitor().report(), before);
}

// Asserts that the command is answered at the first attempt, and uses the room of one entry.
fn is_answered(rt: &impl Abort, reporter: &mut Reporter, command: Command, want: Reply) {
    let room = reporter.monitor().room();
    let reply = reporter.tell(command).ok();
    assert_eq!(rt; reply, Some(want));
    assert_eq!(rt; Some(reporter.monitor().room()), room.checked_sub(1));
}

#[test]
fn what_is_reserved_is_answered(rt: HostRuntime) {
    let no = Reply::No {
        label: 1,
        cause: Cause::Query,
    };
    let mut reporter = reporter_of(&rt, rt.alloc(), Kind::Counter, 2, 300);
    reserve(&rt, &mut reporter, 260);
    assert!(rt; reporter.monitor().room() >= 260);
    for _ in 0..64 {
        let unknown = Reply::Refused(Refusal::UnknownReplica);
        is_answered(&rt, &mut reporter, increment(2), unknown);
        let missing = Reply::Refused(Refusal::UnknownLabel);
        is_answered(&rt, &mut reporter, got(1, 0), missing);
        is_answered(&rt, &mut reporter, Command::Verdict, Reply::Yes(0));
    }
    is_told(&rt, &mut reporter, increment(0), Reply::Ok(0));
    is_told(&rt, &mut reporter, read(1, 1), no);
    for command in [increment(0), increment(2), got(1, 0), Command::Verdict] {
        is_answered(&rt, &mut reporter, command, no);
    }
}

// Two entries are reserved at three replicas. A verdict and a command of an unknown replica then do not allocate.
#[test]
fn two_reserved_entries_are_answered(rt: HostRuntime) {
    let mut reporter = reporter_of(&rt, rt.alloc(), Kind::Counter, 3, 100);
    reserve(&rt, &mut reporter, 2);
    is_answered(&rt, &mut reporter, Command::Verdict, Reply::Yes(0));
    let unknown = Reply::Refused(Refusal::UnknownReplica);
    is_answered(&rt, &mut reporter, increment(3), unknown);
}

// The size in bytes that docs/howto/run_continuously.md states for an entry.
#[test]
fn an_entry_has_its_size(rt: HostRuntime) {
    assert_eq!(rt; mem::size_of::<Entry<Command, Reply>>(), 80);
}

// A reservation ends at the limit of the log.
#[test]
fn room_ends_at_the_limit(rt: HostRuntime) {
    let mut reporter = reporter_of(&rt, rt.alloc(), Kind::Rga, 1, 3);
    reserve(&rt, &mut reporter, 4_294_967_295);
    has_room(&rt, &reporter, 3);
    for left in [2, 1, 0] {
        is_answered(&rt, &mut reporter, Command::Verdict, Reply::Yes(0));
        has_room(&rt, &reporter, left);
    }
    reserve(&rt, &mut reporter, 7);
    has_room(&rt, &reporter, 0);
    assert!(rt; is_full(reporter.tell(Command::Verdict)));
}

fn has_room(rt: &impl Abort, reporter: &Reporter, entries: u32) {
    assert_eq!(rt; reporter.monitor().room(), entries);
}
