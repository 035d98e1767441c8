//! Messages that wait for their causes, and clocks.

use super::{applies, bring, copy, hold, is_op, list, made, message, replica_of, shows};
use ra_bench_replicas::{Made, Message, Replica};
use ra_labels::{Elements, Kind, Op};
use std::alloc::Global;
use std::process::Abort;

// Asserts that the replica had applied this many updates of each replica before it made this.
fn has_had(rt: &impl Abort, made: &Made, wanted: &[u32]) {
    assert_eq!(rt; made.had.as_slice(), wanted);
}

// Returns two updates: a increments, and b increments after it applied that.
fn one_behind_another(rt: &impl Abort, alloc: Global) -> (Message, Message) {
    let mut a = replica_of(rt, alloc, Kind::Counter, 0, 3);
    let mut b = replica_of(rt, alloc, Kind::Counter, 1, 3);
    let first = Message {
        label: 40,
        from: 0,
        made: made(rt, &mut a, 0),
    };
    hold(rt, &mut b, copy(rt, &first));
    applies(rt, &mut b, Some(40), 0);
    let second = Message {
        label: 50,
        from: 1,
        made: made(rt, &mut b, 1),
    };
    (first, second)
}

// b's message arrives at c before a's.
#[test]
fn a_message_is_held_until_its_cause_came(rt: HostRuntime) {
    let (first, second) = one_behind_another(&rt, rt.alloc());
    has_had(&rt, &second.made, &[1, 0, 0]);
    let mut c = replica_of(&rt, rt.alloc(), Kind::Counter, 2, 3);
    hold(&rt, &mut c, second);
    applies(&rt, &mut c, None, 1);
    shows(&rt, rt.alloc(), &c, "0");
    hold(&rt, &mut c, first);
    assert_eq!(rt; c.held(), 2);
    applies(&rt, &mut c, Some(40), 1);
    shows(&rt, rt.alloc(), &c, "1");
    applies(&rt, &mut c, Some(50), 0);
    applies(&rt, &mut c, None, 0);
    shows(&rt, rt.alloc(), &c, "2");
}

// The first held message that can be applied is applied first. After each one the search begins again at the front.
#[test]
fn the_first_that_can_be_applied_is(rt: HostRuntime) {
    let mut c = replica_of(&rt, rt.alloc(), Kind::Counter, 2, 3);
    for (label, from, had) in [
        (11, 0, [1, 0, 0]),
        (30, 1, [0, 0, 0]),
        (12, 0, [2, 1, 0]),
        (10, 0, [0, 0, 0]),
        (31, 1, [0, 1, 0]),
    ] {
        let had = list(&rt, rt.alloc(), had.as_slice());
        hold(&rt, &mut c, message(label, from, Op::Inc, None, had));
    }
    for (label, held) in [(30, 4), (10, 3), (11, 2), (12, 1), (31, 0)] {
        applies(&rt, &mut c, Some(label), held);
    }
    applies(&rt, &mut c, None, 0);
    let made = made(&rt, &mut c, 0);
    has_had(&rt, &made, &[3, 2, 0]);
}

// A clock is one more than the greatest that was seen, whatever came last.
#[test]
fn clocks_go_on_from_the_greatest(rt: HostRuntime) {
    let mut b = replica_of(&rt, rt.alloc(), Kind::Register, 1, 2);
    bring(&rt, rt.alloc(), &mut b, 0, Op::Write(5), Some(9));
    makes_at(&rt, &mut b, 0, 10);
    bring(&rt, rt.alloc(), &mut b, 0, Op::Write(6), Some(4));
    makes_at(&rt, &mut b, 1, 11);
    shows(&rt, rt.alloc(), &b, "4");
}

// Asserts that the replica's update of the round has this clock.
fn makes_at(rt: &impl Abort, replica: &mut Replica, round: u32, clock: u32) {
    assert_eq!(rt; made(rt, replica, round).clock, Some(clock));
}

// A copy equals the message.
#[test]
fn copies_are_equal(rt: HostRuntime) {
    let ids = list(&rt, rt.alloc(), &[3, 5]);
    let op = Op::OrRemove {
        element: 4,
        ids: Elements::new(ids),
    };
    let message = message(8, 1, op, Some(6), list(&rt, rt.alloc(), &[2, 7]));
    let copy = copy(&rt, &message);
    assert_eq!(rt; (copy.label, copy.from, copy.made.clock), (8, 1, Some(6)));
    is_op(&rt, &copy.made.op, &message.made.op);
    has_had(&rt, &copy.made, &[2, 7]);
}
