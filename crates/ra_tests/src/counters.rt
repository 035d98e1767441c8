//! Worked examples of counters.

use crate::rows::{NO_AT_ONE, Row, Step, are_answered};
use ra_labels::{Cause, Fault, Kind, Refusal, Reply};

static COUNTERS: [Row; 9] = [
    Row {
        name: "everything was delivered",
        kind: Kind::Counter,
        steps: &[
            (Step::Inc(0), Reply::Ok(0)),
            (Step::Got(1, 0), Reply::Got(0)),
            (Step::Read(1, 1), Reply::Ok(1)),
        ],
        labels: 2,
        refused: 0,
        fault: None,
        sequence: &[0, 1],
    },
    Row {
        name: "nothing was delivered",
        kind: Kind::Counter,
        steps: &[
            (Step::Inc(0), Reply::Ok(0)),
            (Step::Read(1, 1), NO_AT_ONE),
            (Step::Inc(0), NO_AT_ONE),
            (Step::Verdict, NO_AT_ONE),
        ],
        labels: 2,
        refused: 0,
        fault: Some(Fault {
            label: 1,
            cause: Cause::Query,
        }),
        sequence: &[0],
    },
    Row {
        name: "nothing happened",
        kind: Kind::Counter,
        steps: &[],
        labels: 0,
        refused: 0,
        fault: None,
        sequence: &[],
    },
    Row {
        name: "a read is held against what it sees",
        kind: Kind::Counter,
        steps: &[
            (Step::Inc(0), Reply::Ok(0)),
            (Step::Dec(1), Reply::Ok(1)),
            (Step::Inc(1), Reply::Ok(2)),
            (Step::Read(1, 0), Reply::Ok(3)),
            (Step::Got(1, 0), Reply::Got(0)),
            (Step::Read(1, 1), Reply::Ok(4)),
            (Step::Read(0, 1), Reply::Ok(5)),
            (Step::Read(2, 0), Reply::Ok(6)),
            (Step::Got(2, 1), Reply::Got(1)),
            (Step::Read(2, -1), Reply::Ok(7)),
        ],
        labels: 8,
        refused: 0,
        fault: None,
        sequence: &[0, 1, 2, 3, 4, 5, 6, 7],
    },
    Row {
        name: "a first read of one fails",
        kind: Kind::Counter,
        steps: &[(
            Step::Read(0, 1),
            Reply::No {
                label: 0,
                cause: Cause::Query,
            },
        )],
        labels: 1,
        refused: 0,
        fault: Some(Fault {
            label: 0,
            cause: Cause::Query,
        }),
        sequence: &[],
    },
    Row {
        name: "refusals come in their order",
        kind: Kind::Counter,
        steps: &[
            (Step::IncAt(3, 7), Reply::Refused(Refusal::UnknownReplica)),
            (Step::IncAt(2, 0), Reply::Refused(Refusal::StampUnwanted)),
            (Step::Got(3, 9), Reply::Refused(Refusal::UnknownReplica)),
            (Step::Got(2, 0), Reply::Refused(Refusal::UnknownLabel)),
            (Step::Read(0, 0), Reply::Ok(0)),
            (Step::Got(1, 0), Reply::Refused(Refusal::NotAnUpdate)),
            (Step::Inc(0), Reply::Ok(1)),
            (Step::Got(0, 1), Reply::Refused(Refusal::AlreadySeen)),
            (Step::Got(1, 1), Reply::Got(1)),
            (Step::Got(1, 1), Reply::Refused(Refusal::AlreadySeen)),
            (Step::Verdict, Reply::Yes(2)),
        ],
        labels: 2,
        refused: 7,
        fault: None,
        sequence: &[0, 1],
    },
    Row {
        name: "an update came before one that it saw",
        kind: Kind::Counter,
        steps: &[
            (Step::Inc(0), Reply::Ok(0)),
            (Step::Got(1, 0), Reply::Got(0)),
            (Step::Inc(1), Reply::Ok(1)),
            (Step::Got(2, 1), Reply::Refused(Refusal::NotCausal(0))),
            (Step::Got(2, 0), Reply::Got(0)),
            (Step::Got(2, 1), Reply::Got(1)),
            (Step::Read(2, 2), Reply::Ok(2)),
        ],
        labels: 3,
        refused: 1,
        fault: None,
        sequence: &[0, 1, 2],
    },
    Row {
        name: "of two missing labels the least is named",
        kind: Kind::Counter,
        steps: &[
            (Step::Inc(0), Reply::Ok(0)),
            (Step::Inc(1), Reply::Ok(1)),
            (Step::Got(0, 1), Reply::Got(1)),
            (Step::Inc(0), Reply::Ok(2)),
            (Step::Got(2, 2), Reply::Refused(Refusal::NotCausal(0))),
            (Step::Got(2, 0), Reply::Got(0)),
            (Step::Got(2, 2), Reply::Refused(Refusal::NotCausal(1))),
            (Step::Got(2, 1), Reply::Got(1)),
            (Step::Got(2, 2), Reply::Got(2)),
        ],
        labels: 3,
        refused: 2,
        fault: None,
        sequence: &[0, 1, 2],
    },
    Row {
        name: "two decrements",
        kind: Kind::Counter,
        steps: &[
            (Step::Dec(0), Reply::Ok(0)),
            (Step::Dec(0), Reply::Ok(1)),
            (Step::Read(0, -2), Reply::Ok(2)),
        ],
        labels: 3,
        refused: 0,
        fault: None,
        sequence: &[0, 1, 2],
    },
];

#[test]
fn counters_are_answered(rt: HostRuntime) {
    are_answered(&rt, rt.alloc(), &COUNTERS);
}
