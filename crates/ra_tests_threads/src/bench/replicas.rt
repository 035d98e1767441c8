//! The updates, messages and reads of the bench's replicas. Expected values are derived by hand from the definition of
//! each data type.

mod held;
mod late;
mod memory;
mod rounds;
mod schedule;
mod sizes;
mod words;

use self::words::words;
use ra_bench_replicas::{Counts, Made, Message, Replica};
use ra_labels::{Kind, Op};
use std::alloc::Global;
use std::process::Abort;

pub fn replica_of(rt: &impl Abort, alloc: Global, kind: Kind, number: u8, replicas: u8) -> Replica {
    match Replica::new(alloc, kind, number, replicas) {
        Ok(replica) => replica,
        Err(_) => panic!(rt; "no memory"),
    }
}

/// Returns the replica's update of the round.
pub fn made(rt: &impl Abort, replica: &mut Replica, round: u32) -> Made {
    match replica.update(round) {
        Ok(made) => made,
        Err(_) => panic!(rt; "no memory"),
    }
}

/// Returns what the replica shows.
pub fn shown(rt: &impl Abort, alloc: Global, replica: &Replica) -> String {
    match replica.read() {
        Ok(op) => said(rt, alloc, &op, None),
        Err(_) => panic!(rt; "no memory"),
    }
}

pub fn said(rt: &impl Abort, alloc: Global, op: &Op, clock: Option<u32>) -> String {
    match words(alloc, op, clock) {
        Ok(words) => words,
        Err(_) => panic!(rt; "no memory"),
    }
}

pub fn list(rt: &impl Abort, alloc: Global, items: &[u32]) -> Vec<u32> {
    match Vec::from_slice(alloc, items) {
        Ok(list) => list,
        Err(_) => panic!(rt; "no memory"),
    }
}

pub fn hold(rt: &impl Abort, replica: &mut Replica, message: Message) {
    assert!(rt; replica.hold(message).is_ok());
}

pub fn copy(rt: &impl Abort, message: &Message) -> Message {
    match message.copy() {
        Ok(copy) => copy,
        Err(_) => panic!(rt; "no memory"),
    }
}

/// Asserts that this is the update. Updates are compared here alone, since every further comparison would be proved
/// again.
pub fn is_op(rt: &impl Abort, op: &Op, wanted: &Op) {
    assert!(rt; *op == *wanted);
}

/// Asserts that the numbers ascend by one from the first.
pub fn rise_from(rt: &impl Abort, numbers: &[u32], first: u32) {
    let mut next = first;
    for number in numbers {
        assert_eq!(rt; *number, next);
        next = next.wrapping_add(1);
    }
}

/// Asserts that this label, or none, is applied next, and that this many messages are held then.
pub fn applies(rt: &impl Abort, replica: &mut Replica, label: Option<u32>, held: usize) {
    assert_eq!(rt; (apply_next(rt, replica), replica.held()), (label, held));
}

/// Asserts that the replica shows this.
pub fn shows(rt: &impl Abort, alloc: Global, replica: &Replica, read: &str) {
    is_text(rt, shown(rt, alloc, replica).as_str(), read, 0);
}

/// Asserts that this is the text, in a round or a test case with this number.
pub fn is_text(rt: &impl Abort, text: &str, wanted: &str, number: usize) {
    assert_eq!(rt; text, wanted, "at {number}");
}

/// Returns the label that is applied next, if there is one.
pub fn apply_next(rt: &impl Abort, replica: &mut Replica) -> Option<u32> {
    match replica.apply_next() {
        Ok(label) => label,
        Err(_) => panic!(rt; "no memory"),
    }
}

/// Returns an update on its way, whose replica had applied this many updates of each.
pub fn message(label: u32, from: u8, op: Op, clock: Option<u32>, had: Vec<u32>) -> Message {
    let had = Counts::new(had);
    let made = Made { op, clock, had };
    Message { label, from, made }
}

/// Lets an update arrive whose replica had applied none before it. It is applied at once.
pub fn bring(
    rt: &impl Abort,
    alloc: Global,
    replica: &mut Replica,
    from: u8,
    op: Op,
    clock: Option<u32>,
) {
    hold(rt, replica, message(7, from, op, clock, Vec::new(alloc)));
    assert_eq!(rt; apply_next(rt, replica), Some(7));
}
