//! Worked examples of registers and LWW sets, whose order is that of timestamps.

use crate::rows::{Row, Step, are_answered};
use ra_labels::{Cause, Fault, Kind, Refusal, Reply};

static STAMPED: [Row; 10] = [
    Row {
        name: "the greatest stamp is read, though it came first",
        kind: Kind::Register,
        steps: &[
            (Step::Write(0, 7, 5), Reply::Ok(0)),
            (Step::Write(1, 9, 3), Reply::Ok(1)),
            (Step::Got(2, 0), Reply::Got(0)),
            (Step::Got(2, 1), Reply::Got(1)),
            (Step::Last(2, Some(7)), Reply::Ok(2)),
        ],
        labels: 3,
        refused: 0,
        fault: None,
        sequence: &[1, 0, 2],
    },
    Row {
        name: "a late stamp is not read",
        kind: Kind::Register,
        steps: &[
            (Step::Write(0, 7, 5), Reply::Ok(0)),
            (Step::Write(1, 9, 3), Reply::Ok(1)),
            (Step::Got(2, 0), Reply::Got(0)),
            (Step::Got(2, 1), Reply::Got(1)),
            (
                Step::Last(2, Some(9)),
                Reply::No {
                    label: 2,
                    cause: Cause::Query,
                },
            ),
        ],
        labels: 3,
        refused: 0,
        fault: Some(Fault {
            label: 2,
            cause: Cause::Query,
        }),
        sequence: &[1, 0],
    },
    Row {
        name: "equal clocks are decided by the replica",
        kind: Kind::Register,
        steps: &[
            (Step::Write(0, 7, 5), Reply::Ok(0)),
            (Step::Got(1, 0), Reply::Got(0)),
            (Step::Write(1, 9, 5), Reply::Ok(1)),
        ],
        labels: 2,
        refused: 0,
        fault: None,
        sequence: &[0, 1],
    },
    Row {
        name: "a write stands before one that it saw",
        kind: Kind::Register,
        steps: &[
            (Step::Write(0, 7, 5), Reply::Ok(0)),
            (Step::Got(1, 0), Reply::Got(0)),
            (
                Step::Write(1, 9, 4),
                Reply::No {
                    label: 1,
                    cause: Cause::Order,
                },
            ),
        ],
        labels: 2,
        refused: 0,
        fault: Some(Fault {
            label: 1,
            cause: Cause::Order,
        }),
        sequence: &[0],
    },
    Row {
        name: "of equal clocks the greater replica is read",
        kind: Kind::Register,
        steps: &[
            (Step::Write(1, 9, 5), Reply::Ok(0)),
            (Step::Write(0, 7, 5), Reply::Ok(1)),
            (Step::Got(2, 0), Reply::Got(0)),
            (Step::Got(2, 1), Reply::Got(1)),
            (Step::Last(2, Some(9)), Reply::Ok(2)),
        ],
        labels: 3,
        refused: 0,
        fault: None,
        sequence: &[1, 0, 2],
    },
    Row {
        name: "a write stands before an earlier one of its replica, and commands after a no are not refused",
        kind: Kind::Register,
        steps: &[
            (Step::Write(0, 7, 5), Reply::Ok(0)),
            (
                Step::Write(0, 8, 4),
                Reply::No {
                    label: 1,
                    cause: Cause::Order,
                },
            ),
            (
                Step::Inc(0),
                Reply::No {
                    label: 1,
                    cause: Cause::Order,
                },
            ),
            (
                Step::Last(3, None),
                Reply::No {
                    label: 1,
                    cause: Cause::Order,
                },
            ),
            (
                Step::Write(0, 7, 5),
                Reply::No {
                    label: 1,
                    cause: Cause::Order,
                },
            ),
        ],
        labels: 2,
        refused: 0,
        fault: Some(Fault {
            label: 1,
            cause: Cause::Order,
        }),
        sequence: &[0],
    },
    Row {
        name: "a stamp is given once",
        kind: Kind::Register,
        steps: &[
            (Step::Write(0, 7, 5), Reply::Ok(0)),
            (Step::Write(0, 8, 5), Reply::Refused(Refusal::StampTaken)),
            (Step::Last(0, Some(7)), Reply::Ok(1)),
            (Step::Write(0, 8, 5), Reply::Refused(Refusal::StampTaken)),
            (Step::Write(1, 8, 5), Reply::Ok(2)),
            (Step::Verdict, Reply::Yes(3)),
        ],
        labels: 3,
        refused: 2,
        fault: None,
        sequence: &[0, 1, 2],
    },
    Row {
        name: "refusals come in their order",
        kind: Kind::Register,
        steps: &[
            (Step::Last(3, None), Reply::Refused(Refusal::UnknownReplica)),
            (Step::Inc(0), Reply::Refused(Refusal::WrongKind)),
            (Step::WriteBare(0, 7), Reply::Refused(Refusal::StampMissing)),
            (Step::Write(0, 7, 0), Reply::Refused(Refusal::StampMissing)),
            (
                Step::LastAt(0, None, 1),
                Reply::Refused(Refusal::StampUnwanted),
            ),
            (Step::Last(0, None), Reply::Ok(0)),
            (Step::Got(1, 0), Reply::Refused(Refusal::NotAnUpdate)),
            (Step::Got(1, 1), Reply::Refused(Refusal::UnknownLabel)),
            (Step::Write(0, 7, 1), Reply::Ok(1)),
            (Step::Got(0, 1), Reply::Refused(Refusal::AlreadySeen)),
        ],
        labels: 2,
        refused: 8,
        fault: None,
        sequence: &[0, 1],
    },
    Row {
        name: "the last writer wins",
        kind: Kind::LwwSet,
        steps: &[
            (Step::Add(0, 4, 2), Reply::Ok(0)),
            (Step::Remove(1, 4, 1), Reply::Ok(1)),
            (Step::Remove(1, 9, 3), Reply::Ok(2)),
            (Step::Got(2, 0), Reply::Got(0)),
            (Step::Got(2, 1), Reply::Got(1)),
            (Step::Elements(2, &[4]), Reply::Ok(3)),
        ],
        labels: 4,
        refused: 0,
        fault: None,
        sequence: &[1, 0, 3, 2],
    },
    Row {
        name: "a read of a set rises",
        kind: Kind::LwwSet,
        steps: &[
            (Step::Elements(0, &[4, 4]), Reply::Refused(Refusal::BadList)),
            (Step::WriteBare(0, 7), Reply::Refused(Refusal::WrongKind)),
            (Step::Elements(0, &[]), Reply::Ok(0)),
            (Step::Add(0, 4, 1), Reply::Ok(1)),
            (Step::Remove(0, 4, 1), Reply::Refused(Refusal::StampTaken)),
            (Step::Elements(0, &[4]), Reply::Ok(2)),
            (Step::Remove(0, 4, 2), Reply::Ok(3)),
            (
                Step::Elements(0, &[4]),
                Reply::No {
                    label: 4,
                    cause: Cause::Query,
                },
            ),
        ],
        labels: 5,
        refused: 3,
        fault: Some(Fault {
            label: 4,
            cause: Cause::Query,
        }),
        sequence: &[0, 1, 2, 3],
    },
];

#[test]
fn stamped_histories_are_answered(rt: HostRuntime) {
    are_answered(&rt, rt.alloc(), &STAMPED);
}
