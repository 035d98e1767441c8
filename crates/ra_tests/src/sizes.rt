//! Tens of thousands of labels, and thousands of elements with late stamps.

ghost use Rattle.std.specs.Prelude.{◌≡◌, ◌+◌, ◌<◌, ◌≤◌, length};
ghost use Rattle.ra_visibility.specs.Tracked.{labels_in, replicas_in};

use crate::commands::{bare, copy_of, is_told, reporter_of, sequence_of, stamped, state_of};
use ra_labels::{Elements, Kind, Label, Op, Query, Refusal, Reply, Stamp, Update};
use ra_monitor::{Monitor, Reporter};
use ra_time_order::TimeOrder;
use ra_visibility::{MOST_LABELS, NamedOrder, Tracker};
use std::alloc::Global;
use std::process::Abort;

// A number above 65,536.
const MANY: u32 = 70_000;

#[test]
fn many_labels_stand_by_their_stamps(rt: HostRuntime) {
    let mut tracker = match Tracker::new(rt.alloc(), 2) {
        Ok(tracker) => tracker,
        Err(_) => panic!(rt; "no memory"),
    };
    let mut order = match TimeOrder::new(rt.alloc(), 2) {
        Ok(order) => order,
        Err(_) => panic!(rt; "no memory"),
    };
    for number in 0..MANY {
        let stamp = stamp_of(number);
        stand(&rt, &mut tracker, &mut order, stamp);
    }
    let numbers = match order.numbers(rt.alloc()) {
        Ok(numbers) => numbers,
        Err(_) => panic!(rt; "no memory"),
    };
    assert_eq!(rt; numbers.len(), MANY as usize);
    for number in 0..MANY {
        let at = stamp_of(number).clock as usize - 1;
        assert_eq!(rt; order.at(at), Some(number));
        assert_eq!(rt; numbers.get(at), Some(&number));
    }
    assert_eq!(rt; order.at(MANY as usize), None);
}

// The first half of the labels has the even clocks. The other replica's half comes late, with the odd ones.
fn stamp_of(number: u32) -> Stamp
    requires { number < MANY }
    ensures replica { result.replica < 2 }
    ensures clock { 1 ≤ result.clock }
{
    let half = MANY / 2;
    if number < half {
        Stamp {
            clock: 2 * number + 2,
            replica: 0,
        }
    } else {
        Stamp {
            clock: 2 * (number - half) + 1,
            replica: 1,
        }
    }
}

// Inserts a write with this stamp into the order.
fn stand(rt: &impl Abort, tracker: &mut Tracker, order: &mut TimeOrder, stamp: Stamp)
    requires replica { stamp.replica < replicas_in tracker.old.now }
    requires few { labels_in tracker.old.now < MOST_LABELS }
    requires listed { length (⟦<TimeOrder as NamedOrder>⟧.listed order.old) ≡ labels_in tracker.old.now }
    ensures replicas { replicas_in tracker.new.now ≡ replicas_in tracker.old.now }
    ensures labels { labels_in tracker.new.now ≡ labels_in tracker.old.now + 1 }
    ensures listed { length (⟦<TimeOrder as NamedOrder>⟧.listed order.new) ≡ labels_in tracker.new.now }
{
    let number = match tracker.issue(stamp.replica, true) {
        Ok(number) => number,
        Err(_) => panic!(rt; "no memory"),
    };
    if order.spare().is_err() {
        panic!(rt; "no memory");
    }
    let label = Label {
        number,
        replica: stamp.replica,
        op: Op::Write(number),
        stamp: Some(stamp),
    };
    let seen = tracker.vis(number);
    let place = order.place(&label, &seen);
    assert!(rt; place.fits);
    order.put(&label, &seen, place);
}

#[test]
fn thousands_of_elements_are_put_in(rt: HostRuntime) {
    let mut reporter = reporter_of(&rt, rt.alloc(), Kind::LwwSet, 3, 1_048_576);
    let all = put_in(&rt, rt.alloc(), &mut reporter);
    for (replica, clock) in [(0, 2), (0, 4_200), (1, 1), (1, 4_199)] {
        let add = stamped(replica, Op::LwwAdd(0), clock);
        is_told(&rt, &mut reporter, add, Reply::Refused(Refusal::StampTaken));
    }
    let read = bare(0, Op::LwwRead(Elements::new(all)));
    is_told(&rt, &mut reporter, read, Reply::Ok(4_200));
    stand_by_turns(&rt, reporter.monitor());
}

// The first replica adds 2,100 elements at even clocks, and then the second one 2,100 more at odd clocks. Returns the
// elements of the first one.
fn put_in(rt: &impl Abort, alloc: Global, reporter: &mut Reporter) -> Vec<u32> {
    let mut all = Vec::new(alloc);
    for number in 0..4_200u32 {
        let replica = (number / 2_100) as u8;
        let clock = 2 * (number % 2_100) + 2 - replica as u32;
        let add = stamped(replica, Op::LwwAdd(number ^ 1), clock);
        is_told(rt, reporter, add, Reply::Ok(number));
        if number < 2_100 && all.push(number).is_err() && all.push(number).is_err() {
            panic!(rt; "no memory");
        }
    }
    all
}

// Asserts that elements of the second and of the first replica alternate.
fn stand_by_turns(rt: &impl Abort, monitor: &Monitor) {
    let sequence = sequence_of(rt, monitor);
    assert_eq!(rt; sequence.len(), 4_201);
    for (at, part) in sequence.iter().enumerate() {
        let first = if at % 2 == 0 { 2_100 } else { 0 };
        assert_eq!(rt; part.label as usize, first + at / 2);
    }
}

#[test]
fn an_or_set_has_many_pairs(rt: HostRuntime) {
    let mut set = state_of(&rt, rt.alloc(), Kind::OrSet);
    for n in 1..=MANY {
        let put_in = Update::OrAdd { element: n, id: n };
        let admitted = set.apply(&put_in);
        assert!(rt; matches!(&admitted, Ok(true)), "at {n}");
    }
    let ids = match vec![in rt.alloc(); MANY] {
        Ok(ids) => Elements::new(ids),
        Err(_) => panic!(rt; "no memory"),
    };
    let read = Query::ReadIds { element: MANY, ids };
    assert!(rt; copy_of(&rt, &set).admits(&read));
}

#[test]
fn an_rga_has_many_elements(rt: HostRuntime) {
    let mut list = state_of(&rt, rt.alloc(), Kind::Rga);
    let mut elements = Vec::new(rt.alloc());
    for n in 1..=MANY {
        let put_in = Update::After {
            anchor: n - 1,
            element: n,
        };
        let admitted = list.apply(&put_in);
        assert!(rt; matches!(&admitted, Ok(true)), "at {n}");
        assert!(rt; elements.push(n).is_ok());
    }
    let read = Query::RgaRead(Elements::new(elements));
    assert!(rt; copy_of(&rt, &list).admits(&read));
}
