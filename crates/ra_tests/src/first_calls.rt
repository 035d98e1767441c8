//! Public calls of the libraries, once each, with ample memory.

ghost use Rattle.std.specs.Prelude.{◌≡◌, true};
ghost use Rattle.ra_seqspec.specs.Asked.{asks_rising};

use crate::commands::{
    bare, copy_of, counter_of, got, increment, is_full, is_told, read, reporter_of, stamped,
    state_of, stepped,
};
use ra_labels::{
    Cause, Command, Elements, Kind, NoMemory, Op, Query, Refusal, Reply, Update, fits,
};
use std::alloc::{AllocError, AllocFailed, Global};
use std::process::Abort;

#[test]
fn a_counter_counts(rt: HostRuntime) {
    let mut counter = state_of(&rt, rt.alloc(), Kind::Counter);
    assert!(rt; counter.admits(&Query::Count(0)));
    let admitted = counter.apply(&Update::Dec);
    assert!(rt; matches!(&admitted, Ok(true)));
    assert!(rt; counter.admits(&Query::Count(-1)));
    assert!(rt; !counter.admits(&Query::Count(0)));
    assert!(rt; copy_of(&rt, &counter).admits(&Query::Count(-1)));
}

#[test]
fn a_register_and_a_set_are_copied(rt: HostRuntime) {
    let mut register = state_of(&rt, rt.alloc(), Kind::Register);
    let written = register.apply(&Update::Write(7));
    assert!(rt; matches!(&written, Ok(true)));
    assert!(rt; copy_of(&rt, &register).admits(&Query::Last(Some(7))));
    a_set_is_copied(&rt, rt.alloc());
}

// An element that is removed from a set is present in an earlier copy.
fn a_set_is_copied(rt: &impl Abort, alloc: Global) {
    let mut set = state_of(rt, alloc, Kind::LwwSet);
    let added = set.apply(&Update::LwwAdd(4));
    assert!(rt; matches!(&added, Ok(true)));
    let same_set = copy_of(rt, &set);
    let removed = set.apply(&Update::LwwRemove(4));
    assert!(rt; matches!(&removed, Ok(true)));
    let four = read_of_four(rt, alloc);
    assert!(rt; same_set.admits(&four));
    assert!(rt; !set.admits(&four));
}

fn read_of_four(rt: &impl Abort, alloc: Global) -> Query
    ensures { asks_rising result ≡ true }
{
    match Vec::from_slice(alloc, &[4]) {
        Ok(four) => Query::LwwRead(Elements::new(four)),
        Err(_) => panic!(rt; "no memory"),
    }
}

#[test]
fn a_monitor_is_told_three_things(rt: HostRuntime) {
    let mut monitor = counter_of(&rt, rt.alloc(), 2, 1_000);
    for (ticket, command, want) in [
        (0, increment(0), Reply::Ok(0)),
        (1, got(1, 0), Reply::Got(0)),
        (2, read(1, 1), Reply::Ok(1)),
    ] {
        let reply = stepped(&rt, &mut monitor, 0, ticket, command);
        assert_eq!(rt; reply, Some(want));
    }
}

#[test]
fn a_reporter_is_answered_as_the_monitor(rt: HostRuntime) {
    let mut reporter = reporter_of(&rt, rt.alloc(), Kind::Counter, 3, 6);
    let no = Reply::No {
        label: 2,
        cause: Cause::Query,
    };
    for (command, want) in [
        (increment(0), Reply::Ok(0)),
        (got(1, 0), Reply::Got(0)),
        (got(1, 0), Reply::Refused(Refusal::AlreadySeen)),
        (read(1, 1), Reply::Ok(1)),
        (Command::Verdict, Reply::Yes(2)),
        (read(2, 1), no),
    ] {
        is_told(&rt, &mut reporter, command, want);
    }
    assert!(rt; is_full(reporter.tell(Command::Verdict)));
    assert_eq!(rt; reporter.monitor().report().refused, 1);
    for (place, entry) in reporter.into_monitor().log().iter().enumerate() {
        assert!(rt; entry.pass == 0 && entry.ticket == place as u64);
    }
}

#[test]
fn a_stamp_is_unwanted_and_all_else_fits(rt: HostRuntime) {
    let unwanted = Some(Refusal::StampUnwanted);
    let delivery = Command::Deliver {
        replica: 200,
        label: 7,
    };
    let cases = [
        (bare(200, Op::Inc), None),
        (stamped(200, Op::Inc, 3), unwanted),
        (stamped(200, Op::Dec, 0), unwanted),
        (stamped(200, Op::Count(-12), 4_294_967_295), unwanted),
        (bare(200, Op::Count(-12)), None),
        (delivery, None),
        (Command::Verdict, None),
    ];
    for (command, want) in cases {
        assert_eq!(rt; fits(Kind::Counter, &command), want);
    }
}

#[test]
fn a_refused_growth_is_want_of_memory(rt: HostRuntime) {
    assert_eq!(rt; NoMemory::from(AllocError), NoMemory);
    assert_eq!(rt; NoMemory::from(AllocFailed { value: 7u32 }), NoMemory);
}
