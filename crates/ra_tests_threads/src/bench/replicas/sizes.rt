//! Thousands of elements, of identifiers and of waiting messages.

use super::{applies, apply_next, bring, hold, is_op, list, made, message, replica_of, rise_from};
use ra_bench_replicas::Replica;
use ra_labels::{Kind, Op};
use std::alloc::Global;
use std::process::Abort;

// The kind of the numbered updates.
#[derive(Clone, Copy)]
enum Many {
    Members,
    Pairs,
    // Each element below the one before it.
    Deep,
    // All elements below the root.
    Wide,
}

// Returns the update with this number.
fn numbered(many: Many, number: u32) -> Op {
    match many {
        Many::Members => Op::LwwAdd(number),
        Many::Pairs => Op::OrAdd {
            element: number,
            id: 7,
        },
        Many::Deep => Op::After {
            anchor: number.saturating_sub(1),
            element: number,
        },
        Many::Wide => Op::After {
            anchor: 0,
            element: number,
        },
    }
}

// Returns the elements that a set or a list shows.
fn elements(rt: &impl Abort, replica: &Replica) -> Vec<u32> {
    match replica.read() {
        Ok(Op::LwwRead(list) | Op::OrRead(list) | Op::RgaRead(list)) => list.into_vec(),
        _ => panic!(rt; "no list"),
    }
}

// Creates a replica to which 20,000 numbered updates came, with their numbers as clocks.
fn with_many(rt: &impl Abort, alloc: Global, kind: Kind, many: Many) -> Replica {
    let mut replica = replica_of(rt, alloc, kind, 0, 16);
    for number in 1..20_001 {
        bring(
            rt,
            alloc,
            &mut replica,
            1,
            numbered(many, number),
            Some(number),
        );
    }
    replica
}

// The children of one element are in descending order of their stamps; all other elements ascend here.
#[test]
fn thousands_of_elements_are_shown(rt: HostRuntime) {
    for (kind, many, falls) in [
        (Kind::LwwSet, Many::Members, false),
        (Kind::OrSet, Many::Pairs, false),
        (Kind::Rga, Many::Deep, false),
        (Kind::Rga, Many::Wide, true),
    ] {
        let replica = with_many(&rt, rt.alloc(), kind, many);
        let mut shown = elements(&rt, &replica);
        if falls {
            shown.reverse();
        }
        assert_eq!(rt; shown.len(), 20_000);
        rise_from(&rt, shown.as_slice(), 1);
    }
}

// The removal of an element names all identifiers that it is present under, in ascending order.
#[test]
fn thousands_of_identifiers_are_taken_out(rt: HostRuntime) {
    let mut replica = replica_of(&rt, rt.alloc(), Kind::OrSet, 0, 16);
    for below in 0..20_000 {
        let id = 19_999u32.saturating_sub(below);
        let op = Op::OrAdd { element: 3, id };
        bring(&rt, rt.alloc(), &mut replica, 1, op, None);
    }
    takes_all_out(&rt, &made(&rt, &mut replica, 2).op);
    assert_eq!(rt; elements(&rt, &replica).len(), 0);
}

fn takes_all_out(rt: &impl Abort, op: &Op) {
    match op {
        Op::OrRemove { element, ids } => {
            assert!(rt; *element == 3 && ids.as_slice().len() == 20_000);
            rise_from(rt, ids.as_slice(), 0);
        }
        _ => panic!(rt; "no removal"),
    }
}

// 300 elements at the front are removed one by one, each time the first shown one, and 20,000 messages wait.
#[test]
fn thousands_wait_and_are_removed(rt: HostRuntime) {
    let mut replica = with_many(&rt, rt.alloc(), Kind::Rga, Many::Wide);
    for removed in 0..300 {
        let made = made(&rt, &mut replica, 2);
        is_op(
            &rt,
            &made.op,
            &Op::RgaRemove(20_000u32.saturating_sub(removed)),
        );
    }
    assert_eq!(rt; elements(&rt, &replica).len(), 19_700);
    for number in 0..20_000 {
        let had = list(&rt, rt.alloc(), &[0, 20_000, 1]);
        hold(
            &rt,
            &mut replica,
            message(number, 1, Op::RgaRemove(1), None, had),
        );
    }
    applies(&rt, &mut replica, None, 20_000);
    bring_cause(&rt, rt.alloc(), &mut replica);
    applies(&rt, &mut replica, Some(0), 19_999);
}

// Applies one update of replica 2, although 20,000 other messages wait.
fn bring_cause(rt: &impl Abort, alloc: Global, replica: &mut Replica) {
    hold(
        rt,
        replica,
        message(90_000, 2, Op::RgaRemove(1), None, Vec::new(alloc)),
    );
    assert_eq!(rt; apply_next(rt, replica), Some(90_000));
}
