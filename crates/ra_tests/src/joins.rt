//! Joins of replicas: worked examples of each kind, and the largest number of replicas.

use crate::commands::{got, increment, is_told, read, reporter_of};
use crate::rows::{NO_AT_ONE, Row, Step, are_answered};
use ra_labels::{Cause, Command, Fault, Kind, Refusal, Reply};
use ra_monitor::Reporter;
use std::process::Abort;

static JOINS: [Row; 10] = [
    Row {
        name: "each refusal of a join, in its order",
        kind: Kind::Counter,
        steps: &[
            (Step::Inc(0), Reply::Ok(0)),
            (Step::Join(3, 0), Reply::Joined(3)),
            (Step::Read(3, 1), Reply::Ok(1)),
            (Step::Join(2, 0), Reply::Refused(Refusal::ReplicaThere)),
            (Step::Join(3, 1), Reply::Refused(Refusal::ReplicaThere)),
            (Step::Join(4, 4), Reply::Refused(Refusal::UnknownReplica)),
            (Step::Join(5, 0), Reply::Refused(Refusal::UnknownReplica)),
            (Step::Join(2, 9), Reply::Refused(Refusal::UnknownReplica)),
            (Step::Got(3, 0), Reply::Refused(Refusal::AlreadySeen)),
            (Step::Read(4, 1), Reply::Refused(Refusal::UnknownReplica)),
            (Step::Read(1, 0), Reply::Ok(2)),
            (Step::Verdict, Reply::Yes(3)),
        ],
        labels: 3,
        refused: 7,
        fault: None,
        sequence: &[0, 1, 2],
    },
    Row {
        name: "a join before any label, and of one that joined",
        kind: Kind::Counter,
        steps: &[
            (Step::Join(3, 1), Reply::Joined(3)),
            (Step::Join(4, 3), Reply::Joined(4)),
            (Step::Inc(4), Reply::Ok(0)),
            (Step::Got(3, 0), Reply::Got(0)),
            (Step::Read(3, 1), Reply::Ok(1)),
            (Step::Read(4, 1), Reply::Ok(2)),
            (Step::Read(1, 0), Reply::Ok(3)),
        ],
        labels: 4,
        refused: 0,
        fault: None,
        sequence: &[0, 1, 2, 3],
    },
    Row {
        name: "afterwards it sees other labels than its source",
        kind: Kind::Counter,
        steps: &[
            (Step::Inc(0), Reply::Ok(0)),
            (Step::Join(3, 0), Reply::Joined(3)),
            (Step::Inc(0), Reply::Ok(1)),
            (Step::Read(3, 1), Reply::Ok(2)),
            (Step::Read(0, 2), Reply::Ok(3)),
            (Step::Got(3, 1), Reply::Got(1)),
            (Step::Read(3, 2), Reply::Ok(4)),
            (Step::Inc(3), Reply::Ok(5)),
            (Step::Read(0, 2), Reply::Ok(6)),
            (Step::Got(0, 5), Reply::Got(5)),
            (Step::Read(0, 3), Reply::Ok(7)),
            (Step::Got(2, 5), Reply::Refused(Refusal::NotCausal(0))),
        ],
        labels: 8,
        refused: 1,
        fault: None,
        sequence: &[0, 1, 2, 3, 4, 5, 6, 7],
    },
    Row {
        name: "a join after a no is answered with it",
        kind: Kind::Counter,
        steps: &[
            (Step::Inc(0), Reply::Ok(0)),
            (Step::Read(1, 1), NO_AT_ONE),
            (Step::Join(3, 0), NO_AT_ONE),
            (Step::Inc(3), NO_AT_ONE),
        ],
        labels: 2,
        refused: 0,
        fault: Some(Fault {
            label: 1,
            cause: Cause::Query,
        }),
        sequence: &[0],
    },
    Row {
        name: "a joined replica's read that its source would not give",
        kind: Kind::Counter,
        steps: &[
            (Step::Inc(0), Reply::Ok(0)),
            (Step::Join(3, 1), Reply::Joined(3)),
            (Step::Read(3, 1), NO_AT_ONE),
        ],
        labels: 2,
        refused: 0,
        fault: Some(Fault {
            label: 1,
            cause: Cause::Query,
        }),
        sequence: &[0],
    },
    Row {
        name: "an addition is joined with and taken out",
        kind: Kind::OrSet,
        steps: &[
            (Step::OrAdd(0, 4, 1), Reply::Ok(0)),
            (Step::Join(3, 0), Reply::Joined(3)),
            (Step::OrRemove(3, 4, &[1]), Reply::Ok(1)),
            (Step::OrRead(0, &[4]), Reply::Ok(2)),
            (Step::Got(0, 1), Reply::Got(1)),
            (Step::OrRead(0, &[]), Reply::Ok(3)),
        ],
        labels: 4,
        refused: 0,
        fault: None,
        sequence: &[0, 1, 1, 2, 3],
    },
    Row {
        name: "removals before a join and after it",
        kind: Kind::OrSet,
        steps: &[
            (Step::OrAdd(0, 4, 1), Reply::Ok(0)),
            (Step::OrAdd(1, 4, 2), Reply::Ok(1)),
            (Step::Got(0, 1), Reply::Got(1)),
            (Step::OrRemove(0, 4, &[1, 2]), Reply::Ok(2)),
            (Step::Join(3, 0), Reply::Joined(3)),
            (Step::OrRead(3, &[]), Reply::Ok(3)),
            (Step::OrAdd(3, 4, 3), Reply::Ok(4)),
            (Step::OrRemove(3, 4, &[3]), Reply::Ok(5)),
            (Step::Got(0, 4), Reply::Got(4)),
            (Step::OrRead(0, &[4]), Reply::Ok(6)),
            (Step::Got(0, 5), Reply::Got(5)),
            (Step::OrRead(0, &[]), Reply::Ok(7)),
            (Step::OrRead(1, &[4]), Reply::Ok(8)),
            (Step::OrAdd(3, 5, 2), Reply::Refused(Refusal::IdTaken)),
        ],
        labels: 9,
        refused: 1,
        fault: None,
        sequence: &[0, 1, 2, 2, 3, 4, 5, 5, 6, 7, 8],
    },
    Row {
        name: "a register's last write is joined with, and an older one comes late",
        kind: Kind::Register,
        steps: &[
            (Step::Write(0, 7, 5), Reply::Ok(0)),
            (Step::Write(1, 8, 3), Reply::Ok(1)),
            (Step::Join(3, 0), Reply::Joined(3)),
            (Step::Last(3, Some(7)), Reply::Ok(2)),
            (Step::Got(3, 1), Reply::Got(1)),
            (Step::Last(3, Some(7)), Reply::Ok(3)),
            (Step::Write(3, 9, 6), Reply::Ok(4)),
            (Step::Got(1, 0), Reply::Got(0)),
            (Step::Got(1, 4), Reply::Got(4)),
            (Step::Last(1, Some(9)), Reply::Ok(5)),
            (Step::Last(2, None), Reply::Ok(6)),
            (Step::Write(3, 9, 6), Reply::Refused(Refusal::StampTaken)),
        ],
        labels: 7,
        refused: 1,
        fault: None,
        sequence: &[6, 1, 0, 2, 3, 4, 5],
    },
    Row {
        name: "a set's removal comes late to the one that joined",
        kind: Kind::LwwSet,
        steps: &[
            (Step::Add(0, 4, 1), Reply::Ok(0)),
            (Step::Remove(1, 4, 2), Reply::Ok(1)),
            (Step::Join(3, 0), Reply::Joined(3)),
            (Step::Elements(3, &[4]), Reply::Ok(2)),
            (Step::Got(3, 1), Reply::Got(1)),
            (Step::Elements(3, &[]), Reply::Ok(3)),
            (Step::Join(4, 3), Reply::Joined(4)),
            (Step::Add(4, 5, 3), Reply::Ok(4)),
            (Step::Elements(4, &[5]), Reply::Ok(5)),
            (Step::Elements(3, &[]), Reply::Ok(6)),
        ],
        labels: 7,
        refused: 0,
        fault: None,
        sequence: &[0, 2, 1, 3, 6, 4, 5],
    },
    Row {
        name: "what waits at the source waits at the one that joined, and follows there",
        kind: Kind::Rga,
        steps: &[
            (Step::After(0, 0, 1, 1), Reply::Ok(0)),
            (Step::After(1, 1, 2, 2), Reply::Ok(1)),
            (Step::Got(2, 1), Reply::Got(1)),
            (Step::Join(3, 2), Reply::Joined(3)),
            (Step::Got(3, 0), Reply::Got(0)),
            (Step::RgaRead(3, &[1, 2]), Reply::Ok(2)),
            (Step::After(3, 2, 3, 3), Reply::Ok(3)),
            (Step::Got(2, 3), Reply::Refused(Refusal::NotCausal(0))),
            (Step::Got(2, 0), Reply::Got(0)),
            (Step::Got(2, 3), Reply::Got(3)),
            (Step::RgaRead(2, &[1, 2, 3]), Reply::Ok(4)),
            (Step::RgaRemove(3, 1), Reply::Ok(5)),
            (Step::RgaRead(3, &[2, 3]), Reply::Ok(6)),
            (Step::RgaRead(2, &[1, 2, 3]), Reply::Ok(7)),
        ],
        labels: 8,
        refused: 1,
        fault: None,
        sequence: &[0, 1, 2, 3, 4, 5, 6, 7],
    },
];

#[test]
fn replicas_join(rt: HostRuntime) {
    are_answered(&rt, rt.alloc(), &JOINS);
}

// The largest number of replicas.
const MOST: u8 = 64;

#[test]
fn two_replicas_become_sixty_four(rt: HostRuntime) {
    let mut reporter = reporter_of(&rt, rt.alloc(), Kind::Counter, 2, 1_048_576);
    for replica in 2..MOST {
        joins(&rt, &mut reporter, replica, replica - 1);
    }
    // The monitor tests the source of a join and the next number before the limit.
    for (replica, from, why) in [
        (64, 0, Refusal::TooManyReplicas),
        (64, 64, Refusal::UnknownReplica),
        (65, 0, Refusal::UnknownReplica),
        (255, 255, Refusal::UnknownReplica),
        (63, 0, Refusal::ReplicaThere),
    ] {
        let join = Command::Join { replica, from };
        is_told(&rt, &mut reporter, join, Reply::Refused(why));
    }
    is_told(&rt, &mut reporter, read(63, 62), Reply::Ok(62));
    is_told(&rt, &mut reporter, read(0, 0), Reply::Ok(63));
    is_told(
        &rt,
        &mut reporter,
        got(0, 61),
        Reply::Refused(Refusal::NotCausal(0)),
    );
    assert_eq!(rt; reporter.monitor().replicas(), 64);
}

// The last replica increments, and the next one joins from it.
fn joins(rt: &impl Abort, reporter: &mut Reporter, replica: u8, from: u8) {
    let number = reporter.monitor().report().labels;
    is_told(rt, reporter, increment(from), Reply::Ok(number));
    let join = Command::Join { replica, from };
    is_told(rt, reporter, join, Reply::Joined(replica));
    assert!(rt; u32::from(reporter.monitor().replicas()) == u32::from(replica) + 1);
}
