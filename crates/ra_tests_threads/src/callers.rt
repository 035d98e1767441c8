//! Reporters, which own a pass of a desk.

ghost use Rattle.std.specs.Prelude.{◌≡◌, ◌++◌, ◌∷◌, []};
ghost use Rattle.ra_ticket.specs.Callers.{AreOfOneLock};
ghost use Rattle.ra_desk.specs.Reports.{passes_of, AreOfOneDesk};

use crate::desks::{are_found, got_the_first, is_full, is_told, register_of, reply_in, write};
use ra_desk::{DeskCloseFault, DeskReporter};
use ra_journal::Entry;
use ra_labels::{Command, Refusal, Reply};
use ra_monitor::Monitor;
use std::alloc::Global;
use std::process::Abort;
use std::sync::Wait;
use std::thread;

// Opens a desk with this limit on its log, and returns its reporters.
fn reporters_of(rt: &impl Abort, alloc: Global, limit: u32, count: u8) -> Vec<DeskReporter>
    ensures { AreOfOneLock (passes_of result.items) }
{
    match DeskReporter::open(alloc, register_of(rt, alloc, limit), count) {
        Ok(reporters) => reporters,
        Err(_) => panic!(rt; "no desk"),
    }
}

// Removes the last reporter, which has this number, and returns it.
fn last_reporter(rt: &impl Abort, reporters: &mut Vec<DeskReporter>, number: u8) -> DeskReporter
    ensures { reporters.old.items ≡ reporters.new.items ++ result ∷ [] }
{
    let reporter = match reporters.pop() {
        Some(reporter) => reporter,
        None => panic!(rt; "too few reporters"),
    };
    assert_eq!(rt; reporter.number(), number);
    reporter
}

// Returns two reporters of one desk, the one with pass 0 first.
fn two_reporters(rt: &impl Abort, alloc: Global, limit: u32) -> (DeskReporter, DeskReporter)
    ensures { AreOfOneDesk result.0 result.1 }
{
    let mut reporters = reporters_of(rt, alloc, limit, 2);
    let second = last_reporter(rt, &mut reporters, 1);
    (last_reporter(rt, &mut reporters, 0), second)
}

// Returns the reply to a write, or `None` if it is handed back.
fn written<R: Wait>(rt: &R, reporter: &mut DeskReporter, replica: u8, clock: u32) -> Option<Reply> {
    reply_in(reporter.tell(rt, write(replica, clock)))
}

// Makes this many writes of the replica, each with a later clock, and returns how many are accepted.
fn accepted<R: Wait>(rt: &R, reporter: &mut DeskReporter, replica: u8, count: u32) -> u32 {
    let mut accepted = 0u32;
    for clock in 1..=count {
        if matches!(written(rt, reporter, replica, clock), Some(Reply::Ok(_))) {
            accepted = accepted.saturating_add(1);
        }
    }
    accepted
}

#[test]
fn two_threads_report_to_one_desk(rt: HostRuntime) {
    let (mut first, mut second) = two_reporters(&rt, rt.alloc(), 2_000);
    let taken = thread::join(
        &rt,
        || accepted(&rt, &mut first, 0, 1_000),
        || accepted(&rt, &mut second, 1, 1_000),
    );
    assert!(rt; taken.0 == 1_000 && taken.1 == 1_000);
    are_found(&rt, first.glance(), 2_000, None);
    are_found(&rt, second.glance(), 2_000, None);
}

// A glance finds the reports so far, and later ones find more.
#[test]
fn a_glance_finds_each_report(rt: HostRuntime) {
    let (mut first, mut second) = two_reporters(&rt, rt.alloc(), 10);
    for calls in 0..3 {
        are_found(&rt, first.glance(), calls, None);
        are_found(&rt, second.glance(), calls, None);
        is_told(
            &rt,
            written(&rt, &mut first, 0, calls + 1),
            Reply::Ok(calls),
        );
    }
}

#[test]
fn reporters_that_meet_come_back_in_order(rt: HostRuntime) {
    let (mut first, second) = two_reporters(&rt, rt.alloc(), 10);
    is_told(&rt, reply_in(first.tell(&rt, write(0, 7))), Reply::Ok(0));
    let (first, second, calls) = first.meet(second);
    assert!(rt; first.number() == 0 && second.number() == 1 && calls == 1);
}

// Room that is reserved before the desk is opened is available for its reports, and the rest comes back with the
// monitor.
#[test]
fn a_desk_has_the_room_that_was_reserved(rt: HostRuntime) {
    let mut monitor = register_of(&rt, rt.alloc(), 100);
    assert!(rt; monitor.reserve(10).is_ok());
    let room = monitor.room();
    assert!(rt; room >= 10, "room for {room}");
    let mut reporter = match DeskReporter::open(rt.alloc(), monitor, 1) {
        Ok(mut reporters) => last_reporter(&rt, &mut reporters, 0),
        Err(_) => panic!(rt; "no desk"),
    };
    assert_eq!(rt; accepted(&rt, &mut reporter, 0, 3), 3);
    assert_eq!(rt; closed(&rt, reporter).room(), room - 3);
}

// A reporter proceeds after a rejected report. The monitor of the closed desk has the reports, with room left.
#[test]
fn a_refused_report_is_logged_and_no_more(rt: HostRuntime) {
    let (mut first, second) = two_reporters(&rt, rt.alloc(), 10);
    let early = reply_in(first.tell(&rt, got_the_first(1)));
    is_told(&rt, early, Reply::Refused(Refusal::UnknownLabel));
    is_told(&rt, reply_in(first.try_tell(write(0, 7))), Reply::Ok(0));
    drop(second);
    let report = closed(&rt, first).report();
    assert!(rt; report.calls == 2 && report.labels == 1 && report.refused == 1);
}

#[test]
fn a_closed_desk_has_its_log(rt: HostRuntime) {
    let (mut first, mut second) = two_reporters(&rt, rt.alloc(), 2);
    is_told(&rt, written(&rt, &mut first, 0, 7), Reply::Ok(0));
    is_told(
        &rt,
        reply_in(second.try_tell(got_the_first(1))),
        Reply::Got(0),
    );
    assert!(rt; is_full(first.tell(&rt, Command::Verdict)));
    let second = not_closed(&rt, second);
    assert!(rt; first.number() == 0 && second.number() == 1);
    drop(first);
    let monitor = closed(&rt, second);
    assert!(rt; monitor.log().len() == 2);
    are_in_turn(&rt, monitor.log());
}

// Returns the reporter, which cannot be closed while another one exists.
fn not_closed(rt: &impl Abort, reporter: DeskReporter) -> DeskReporter {
    match reporter.close() {
        Err(DeskCloseFault::Shared(reporter)) => reporter,
        _ => panic!(rt; "closed with another reporter left"),
    }
}

fn closed(rt: &impl Abort, reporter: DeskReporter) -> Monitor {
    match reporter.close() {
        Ok(monitor) => monitor,
        Err(_) => panic!(rt; "not closed"),
    }
}

// Asserts that the passes reported one after another, from the first ticket on.
fn are_in_turn(rt: &impl Abort, log: &[Entry<Command, Reply>]) {
    for (place, entry) in log.iter().enumerate() {
        assert!(rt; usize::from(entry.pass) == place && entry.ticket == place as u64);
    }
}

// One pass, and the largest number of passes.
#[test]
fn as_many_report_as_there_are_passes(rt: HostRuntime) {
    for count in [1, 64] {
        let mut reporters = reporters_of(&rt, rt.alloc(), 100, count);
        for number in (1..count).rev() {
            drop(report_as(&rt, &mut reporters, number));
        }
        assert!(rt; report_as(&rt, &mut reporters, 0).close().is_ok());
    }
}

// Asserts that a write of the last reporter, which has this number, is accepted. Returns the reporter.
fn report_as<R: Abort + Wait>(
    rt: &R,
    reporters: &mut Vec<DeskReporter>,
    number: u8,
) -> DeskReporter {
    let mut reporter = last_reporter(rt, reporters, number);
    let reply = written(rt, &mut reporter, 0, 255 - u32::from(number));
    assert!(rt; matches!(reply, Some(Reply::Ok(_))));
    reporter
}
