//! Calls whose allocation fails. A second call is answered as if nothing had happened. `tests/program/alloc_failures`
//! lets each allocation fail in turn; if none fails, each call is made once.

use super::is_text;
use super::words::words;
use ra_bench_replicas::{Made, Message, Replica};
use ra_labels::Kind;
use std::alloc::Global;
use std::process::Abort;

fn new_again(rt: &impl Abort, alloc: Global, kind: Kind, number: u8) -> Replica {
    for _ in 0..2 {
        if let Ok(replica) = Replica::new(alloc, kind, number, 2) {
            return replica;
        }
    }
    panic!(rt; "no memory")
}

fn made_again(rt: &impl Abort, replica: &mut Replica, round: u32) -> Made {
    for _ in 0..2 {
        if let Ok(made) = replica.update(round) {
            return made;
        }
    }
    panic!(rt; "no memory")
}

// Lets the replica hold a copy of the message.
fn hold_again(rt: &impl Abort, replica: &mut Replica, message: &Message) {
    for _ in 0..2 {
        if let Ok(copy) = message.copy() {
            if replica.hold(copy).is_ok() {
                return;
            }
        }
    }
    panic!(rt; "no memory")
}

fn apply_again(rt: &impl Abort, replica: &mut Replica) -> Option<u32> {
    for _ in 0..2 {
        if let Ok(label) = replica.apply_next() {
            return label;
        }
    }
    panic!(rt; "no memory")
}

fn shown_again(rt: &impl Abort, alloc: Global, replica: &Replica) -> String {
    for _ in 0..2 {
        if let Ok(op) = replica.read() {
            if let Ok(words) = words(alloc, &op, None) {
                return words;
            }
        }
    }
    panic!(rt; "no memory")
}

#[test]
fn each_call_is_made_again(rt: HostRuntime) {
    for (kind, read) in [
        (Kind::Counter, "1"),
        (Kind::Register, "5"),
        (Kind::LwwSet, "3"),
        (Kind::OrSet, "3"),
        (Kind::Rga, "1"),
    ] {
        let mut a = new_again(&rt, rt.alloc(), kind, 0);
        let mut b = new_again(&rt, rt.alloc(), kind, 1);
        for round in 0..3 {
            hear(&rt, &mut a, &mut b, round);
        }
        is_text(&rt, shown_again(&rt, rt.alloc(), &a).as_str(), read, 0);
        is_text(&rt, shown_again(&rt, rt.alloc(), &b).as_str(), read, 1);
    }
}

// Applies the first replica's update of the round at the other one.
fn hear(rt: &impl Abort, from: &mut Replica, to: &mut Replica, round: u32) {
    let message = Message {
        label: round,
        from: 0,
        made: made_again(rt, from, round),
    };
    hold_again(rt, to, &message);
    assert_eq!(rt; to.held(), 1);
    applies_again(rt, to, Some(round));
    applies_again(rt, to, None);
}

// Asserts that this label, or none, is applied next.
fn applies_again(rt: &impl Abort, replica: &mut Replica, label: Option<u32>) {
    assert_eq!(rt; apply_again(rt, replica), label);
}
