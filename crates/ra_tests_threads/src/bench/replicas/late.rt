//! The reads after updates that come late, at the same clock, or for something that was never present.

use super::{bring, is_text, list, replica_of, shown};
use ra_labels::{Elements, Kind, Op};
use std::alloc::Global;
use std::process::Abort;

// An update that arrives.
#[derive(Clone, Copy)]
enum Come {
    Write(u32),
    Add(u32),
    Remove(u32),
    Pair(u32, u32),
    TakeOut(u32, &'static [u32]),
    After(u32, u32),
    Hide(u32),
}

use Come::{Add, After, Hide, Pair, Remove, TakeOut, Write};

fn op_of(rt: &impl Abort, alloc: Global, come: Come) -> Op {
    match come {
        Write(value) => Op::Write(value),
        Add(element) => Op::LwwAdd(element),
        Remove(element) => Op::LwwRemove(element),
        Pair(element, id) => Op::OrAdd { element, id },
        TakeOut(element, ids) => Op::OrRemove {
            element,
            ids: Elements::new(list(rt, alloc, ids)),
        },
        After(anchor, element) => Op::After { anchor, element },
        Hide(element) => Op::RgaRemove(element),
    }
}

struct Row {
    kind: Kind,
    // Each with the replica that made it and its clock, if it has one.
    came: &'static [(u8, Option<u32>, Come)],
    read: &'static str,
}

// At one clock the higher replica's update decides; a higher clock decides over a higher replica.
static TIES: [Row; 9] = [
    Row {
        kind: Kind::Register,
        came: &[(0, Some(1), Write(10)), (1, Some(1), Write(20))],
        read: "20",
    },
    Row {
        kind: Kind::Register,
        came: &[(1, Some(1), Write(20)), (0, Some(1), Write(10))],
        read: "20",
    },
    Row {
        kind: Kind::Register,
        came: &[(1, Some(1), Write(20)), (0, Some(2), Write(10))],
        read: "10",
    },
    Row {
        kind: Kind::Register,
        came: &[(0, Some(2), Write(10)), (1, Some(1), Write(20))],
        read: "10",
    },
    Row {
        kind: Kind::LwwSet,
        came: &[(0, Some(3), Add(5)), (1, Some(3), Remove(5))],
        read: "-",
    },
    Row {
        kind: Kind::LwwSet,
        came: &[(1, Some(3), Remove(5)), (0, Some(3), Add(5))],
        read: "-",
    },
    Row {
        kind: Kind::LwwSet,
        came: &[(1, Some(3), Add(5)), (0, Some(3), Remove(5))],
        read: "5",
    },
    Row {
        kind: Kind::LwwSet,
        came: &[(0, Some(3), Remove(5)), (1, Some(3), Add(5))],
        read: "5",
    },
    Row {
        kind: Kind::LwwSet,
        came: &[
            (0, Some(4), Remove(5)),
            (1, Some(3), Add(5)),
            (1, Some(3), Add(2)),
        ],
        read: "2",
    },
];

// Something that was never present is removed, an addition follows the removal, or an update is of another kind.
static NEVER_THERE: [Row; 10] = [
    Row {
        kind: Kind::LwwSet,
        came: &[(0, Some(2), Remove(9))],
        read: "-",
    },
    Row {
        kind: Kind::LwwSet,
        came: &[(0, Some(2), Remove(9)), (1, Some(1), Add(9))],
        read: "-",
    },
    Row {
        kind: Kind::LwwSet,
        came: &[(0, Some(2), Remove(9)), (1, Some(3), Add(9))],
        read: "9",
    },
    Row {
        kind: Kind::OrSet,
        came: &[(0, None, TakeOut(9, &[3])), (1, None, Pair(9, 5))],
        read: "9",
    },
    Row {
        kind: Kind::OrSet,
        came: &[(0, None, Pair(4, 1)), (1, None, TakeOut(5, &[1]))],
        read: "4",
    },
    Row {
        kind: Kind::Rga,
        came: &[(0, None, Hide(9)), (1, Some(1), After(0, 9))],
        read: "9",
    },
    Row {
        kind: Kind::Rga,
        came: &[(0, None, Hide(0)), (1, Some(1), After(0, 1))],
        read: "1",
    },
    Row {
        kind: Kind::Rga,
        came: &[(0, Some(1), After(7, 8))],
        read: "-",
    },
    Row {
        kind: Kind::Rga,
        came: &[(0, Some(1), After(0, 1)), (0, Some(2), After(1, 1))],
        read: "1",
    },
    Row {
        kind: Kind::Counter,
        came: &[(0, Some(1), Add(5)), (0, Some(1), Write(5))],
        read: "0",
    },
];

// A removal leaves what it does not name. Each element is shown once, in ascending order.
static PAIRS: [Row; 5] = [
    Row {
        kind: Kind::OrSet,
        came: &[
            (0, None, Pair(4, 1)),
            (0, None, Pair(4, 2)),
            (1, None, TakeOut(4, &[1])),
        ],
        read: "4",
    },
    Row {
        kind: Kind::OrSet,
        came: &[
            (0, None, Pair(4, 1)),
            (0, None, Pair(4, 2)),
            (1, None, TakeOut(4, &[1, 2])),
        ],
        read: "-",
    },
    Row {
        kind: Kind::OrSet,
        came: &[
            (0, None, Pair(4, 2)),
            (0, None, Pair(4, 1)),
            (1, None, Pair(3, 7)),
        ],
        read: "3,4",
    },
    Row {
        kind: Kind::OrSet,
        came: &[(0, None, Pair(4_294_967_295, 1)), (0, None, Pair(0, 2))],
        read: "0,4294967295",
    },
    Row {
        kind: Kind::OrSet,
        came: &[(0, None, Pair(7, 0)), (0, None, Pair(8, 4_294_967_295))],
        read: "7,8",
    },
];

// Of the children of one element, the one with the greatest stamp comes first with its subtree, also if an older one
// comes late. A removed element keeps its place.
static TREES: [Row; 6] = [
    Row {
        kind: Kind::Rga,
        came: &[(1, Some(1), After(0, 2)), (0, Some(1), After(0, 1))],
        read: "2,1",
    },
    Row {
        kind: Kind::Rga,
        came: &[(0, Some(1), After(0, 1)), (1, Some(1), After(0, 2))],
        read: "2,1",
    },
    Row {
        kind: Kind::Rga,
        came: &[
            (0, Some(1), After(0, 10)),
            (0, Some(2), After(10, 11)),
            (1, Some(3), After(0, 20)),
            (1, Some(2), After(10, 12)),
            (1, Some(1), After(0, 30)),
        ],
        read: "20,30,10,12,11",
    },
    Row {
        kind: Kind::Rga,
        came: &[
            (0, Some(1), After(0, 10)),
            (0, Some(2), After(10, 11)),
            (0, Some(3), After(11, 12)),
            (1, Some(2), After(0, 20)),
        ],
        read: "20,10,11,12",
    },
    Row {
        kind: Kind::Rga,
        came: &[
            (0, Some(1), After(0, 10)),
            (1, None, Hide(10)),
            (0, Some(2), After(10, 11)),
            (1, None, Hide(10)),
        ],
        read: "11",
    },
    Row {
        kind: Kind::Rga,
        came: &[
            (0, Some(1), After(0, 10)),
            (0, Some(2), After(0, 20)),
            (1, None, Hide(20)),
            (1, Some(1), After(0, 15)),
        ],
        read: "15,10",
    },
];

fn show(rt: &impl Abort, alloc: Global, rows: &[Row]) {
    for (place, row) in rows.iter().enumerate() {
        let mut replica = replica_of(rt, alloc, row.kind, 2, 3);
        for (from, clock, come) in row.came {
            let op = op_of(rt, alloc, *come);
            bring(rt, alloc, &mut replica, *from, op, *clock);
        }
        is_text(rt, shown(rt, alloc, &replica).as_str(), row.read, place);
    }
}

#[test]
fn the_greatest_stamp_counts(rt: HostRuntime) {
    show(&rt, rt.alloc(), &TIES);
}

#[test]
fn what_was_never_there_is_taken_out(rt: HostRuntime) {
    show(&rt, rt.alloc(), &NEVER_THERE);
}

#[test]
fn a_removal_takes_out_what_it_names(rt: HostRuntime) {
    show(&rt, rt.alloc(), &PAIRS);
}

#[test]
fn children_stand_in_falling_order_of_stamps(rt: HostRuntime) {
    show(&rt, rt.alloc(), &TREES);
}
