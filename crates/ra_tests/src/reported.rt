//! Tests of `ra_reported`: which commands of a log count, before and after a violation, and what their labels see.

use crate::commands::{bare, got, is_told, reporter_of, stamped};
use ra_labels::{Cause, Command, Kind, NoMemory, Op, Refusal, Reply};
use ra_monitor::Reporter;
use ra_reported::Reported;
use std::alloc::Global;
use std::test::Fail;

fn write(replica: u8, value: u32, clock: u32) -> Command {
    stamped(replica, Op::Write(value), clock)
}

fn read(replica: u8, value: u32) -> Command {
    bare(replica, Op::Last(Some(value)))
}

fn join(replica: u8, from: u8) -> Command {
    Command::Join { replica, from }
}

// The reply to each command from the violation on.
const FAULT: Reply = Reply::No {
    label: 1,
    cause: Cause::Order,
};

// What the log of the reporter reports, from a second call if an allocation fails in the first one.
fn reported_by(alloc: Global, reporter: &Reporter) -> Result<Reported, NoMemory> {
    let log = reporter.monitor().log();
    match Reported::of(alloc, Kind::Register, 2, log) {
        Ok(found) => Ok(found),
        Err(_) => Reported::of(alloc, Kind::Register, 2, log),
    }
}

// The labels after a violation count too, and see what was delivered after it.
#[test]
fn labels_after_a_violation_count(rt: HostRuntime) -> Result<(), Fail> {
    let alloc = rt.alloc();
    let mut told = reporter_of(&rt, alloc, Kind::Register, 2, 100);
    is_told(&rt, &mut told, write(0, 7, 5), Reply::Ok(0));
    is_told(&rt, &mut told, got(1, 0), Reply::Got(0));
    is_told(&rt, &mut told, write(1, 9, 4), FAULT);
    is_told(&rt, &mut told, read(1, 9), FAULT);
    is_told(&rt, &mut told, got(0, 1), FAULT);
    is_told(&rt, &mut told, read(0, 9), FAULT);
    is_told(&rt, &mut told, join(2, 0), FAULT);
    is_told(&rt, &mut told, read(2, 7), FAULT);
    let found = reported_by(alloc, &told)?;
    assert!(rt; found.places.as_slice() == [0, 2, 3, 5, 7].as_slice());
    assert_eq!(rt; found.tracker.replicas(), 3);
    assert_eq!(rt; found.tracker.labels(), 5);
    // The read at a before the delivery of label 1 would not see it.
    assert_eq!(rt; found.tracker.newest_seen(3, 1), Some(1));
    assert_eq!(rt; found.tracker.newest_seen(2, 0), Some(0));
    // The replica that joined has all that the other one had.
    assert_eq!(rt; found.tracker.newest_seen(4, 1), Some(1));
    assert_eq!(rt; found.tracker.issuer(4), 2);
    Ok(())
}

// What has a reason to be rejected counts neither before a violation nor after it.
#[test]
fn rejected_commands_do_not_count(rt: HostRuntime) -> Result<(), Fail> {
    let alloc = rt.alloc();
    let mut told = reporter_of(&rt, alloc, Kind::Register, 2, 100);
    is_told(&rt, &mut told, write(0, 7, 5), Reply::Ok(0));
    is_told(
        &rt,
        &mut told,
        write(0, 8, 5),
        Reply::Refused(Refusal::StampTaken),
    );
    is_told(&rt, &mut told, Command::Verdict, Reply::Yes(1));
    is_told(&rt, &mut told, got(1, 0), Reply::Got(0));
    is_told(&rt, &mut told, write(1, 9, 4), FAULT);
    // A clock that is taken, no clock, another kind, an unknown replica.
    is_told(&rt, &mut told, write(1, 6, 4), FAULT);
    is_told(&rt, &mut told, bare(1, Op::Write(6)), FAULT);
    is_told(&rt, &mut told, bare(1, Op::Inc), FAULT);
    is_told(&rt, &mut told, write(2, 6, 9), FAULT);
    // A label that the replica has, an unknown one, an unknown replica.
    is_told(&rt, &mut told, got(1, 0), FAULT);
    is_told(&rt, &mut told, got(0, 2), FAULT);
    is_told(&rt, &mut told, got(2, 0), FAULT);
    // A replica that is there, one that is not the next, and one from an unknown replica.
    is_told(&rt, &mut told, join(1, 0), FAULT);
    is_told(&rt, &mut told, join(3, 0), FAULT);
    is_told(&rt, &mut told, join(2, 2), FAULT);
    is_told(&rt, &mut told, Command::Verdict, FAULT);
    is_told(&rt, &mut told, write(0, 6, 6), FAULT);
    let found = reported_by(alloc, &told)?;
    assert!(rt; found.places.as_slice() == [0, 4, 16].as_slice());
    assert_eq!(rt; found.tracker.replicas(), 2);
    assert_eq!(rt; found.tracker.labels(), 3);
    assert_eq!(rt; found.tracker.newest_seen(2, 1), None);
    Ok(())
}
