//! Worked examples of OR-Sets.

use crate::rows::{Row, Step, are_answered};
use ra_labels::{Cause, Fault, Kind, Refusal, Reply};

static OR_SETS: [Row; 8] = [
    Row {
        name: "an element comes back under a new identifier",
        kind: Kind::OrSet,
        steps: &[
            (Step::OrAdd(0, 4, 1), Reply::Ok(0)),
            (Step::Got(1, 0), Reply::Got(0)),
            (Step::OrRemove(1, 4, &[1]), Reply::Ok(1)),
            (Step::OrAdd(0, 4, 2), Reply::Ok(2)),
            (Step::Got(2, 1), Reply::Refused(Refusal::NotCausal(0))),
            (Step::Got(2, 0), Reply::Got(0)),
            (Step::Got(2, 1), Reply::Got(1)),
            (Step::Got(2, 2), Reply::Got(2)),
            (Step::OrRead(2, &[4]), Reply::Ok(3)),
        ],
        labels: 4,
        refused: 1,
        fault: None,
        sequence: &[0, 1, 1, 2, 3],
    },
    Row {
        name: "a remove names what its replica has not seen",
        kind: Kind::OrSet,
        steps: &[
            (Step::OrAdd(0, 4, 1), Reply::Ok(0)),
            (
                Step::OrRemove(1, 4, &[1]),
                Reply::No {
                    label: 1,
                    cause: Cause::Query,
                },
            ),
        ],
        labels: 2,
        refused: 0,
        fault: Some(Fault {
            label: 1,
            cause: Cause::Query,
        }),
        sequence: &[0],
    },
    Row {
        name: "a remove names what nobody added",
        kind: Kind::OrSet,
        steps: &[(
            Step::OrRemove(0, 4, &[9]),
            Reply::No {
                label: 0,
                cause: Cause::Query,
            },
        )],
        labels: 1,
        refused: 0,
        fault: Some(Fault {
            label: 0,
            cause: Cause::Query,
        }),
        sequence: &[],
    },
    Row {
        name: "an absent element is removed",
        kind: Kind::OrSet,
        steps: &[
            (Step::OrAdd(0, 4, 1), Reply::Ok(0)),
            (Step::OrAdd(1, 5, 1), Reply::Refused(Refusal::IdTaken)),
            (Step::OrRemove(1, 4, &[]), Reply::Ok(1)),
            (Step::OrRead(0, &[4, 4]), Reply::Refused(Refusal::BadList)),
        ],
        labels: 2,
        refused: 2,
        fault: None,
        sequence: &[0, 1, 1],
    },
    Row {
        name: "two replicas remove the same",
        kind: Kind::OrSet,
        steps: &[
            (Step::OrAdd(0, 4, 1), Reply::Ok(0)),
            (Step::Got(1, 0), Reply::Got(0)),
            (Step::OrRemove(0, 4, &[1]), Reply::Ok(1)),
            (Step::OrRemove(1, 4, &[1]), Reply::Ok(2)),
        ],
        labels: 3,
        refused: 0,
        fault: None,
        sequence: &[0, 1, 1, 2, 2],
    },
    Row {
        name: "a remove takes out what it names and nothing else",
        kind: Kind::OrSet,
        steps: &[
            (Step::OrAdd(0, 4, 1), Reply::Ok(0)),
            (Step::OrAdd(1, 4, 2), Reply::Ok(1)),
            (Step::OrAdd(1, 5, 3), Reply::Ok(2)),
            (Step::OrRemove(1, 4, &[2]), Reply::Ok(3)),
            (Step::Got(2, 0), Reply::Got(0)),
            (Step::Got(2, 1), Reply::Got(1)),
            (Step::Got(2, 2), Reply::Got(2)),
            (Step::Got(2, 3), Reply::Got(3)),
            (Step::OrRead(2, &[4, 5]), Reply::Ok(4)),
            (Step::OrRemove(2, 4, &[1]), Reply::Ok(5)),
            (Step::OrRead(2, &[5]), Reply::Ok(6)),
            (
                Step::OrRemove(2, 5, &[2]),
                Reply::No {
                    label: 7,
                    cause: Cause::Query,
                },
            ),
        ],
        labels: 8,
        refused: 0,
        fault: Some(Fault {
            label: 7,
            cause: Cause::Query,
        }),
        sequence: &[0, 1, 2, 3, 3, 4, 5, 5, 6],
    },
    Row {
        name: "one element is there under two identifiers",
        kind: Kind::OrSet,
        steps: &[
            (Step::OrAdd(0, 4, 7), Reply::Ok(0)),
            (Step::OrAdd(0, 4, 2), Reply::Ok(1)),
            (Step::OrRead(0, &[4]), Reply::Ok(2)),
            (
                Step::OrRemove(0, 4, &[7]),
                Reply::No {
                    label: 3,
                    cause: Cause::Query,
                },
            ),
        ],
        labels: 4,
        refused: 0,
        fault: Some(Fault {
            label: 3,
            cause: Cause::Query,
        }),
        sequence: &[0, 1, 2],
    },
    Row {
        name: "refusals come in their order",
        kind: Kind::OrSet,
        steps: &[
            (Step::Inc(0), Reply::Refused(Refusal::WrongKind)),
            (
                Step::OrRemove(0, 4, &[2, 1]),
                Reply::Refused(Refusal::BadList),
            ),
            (Step::OrRead(0, &[2, 2]), Reply::Refused(Refusal::BadList)),
            (
                Step::OrAddAt(0, 4, 1, 7),
                Reply::Refused(Refusal::StampUnwanted),
            ),
            (
                Step::OrAddAt(3, 4, 1, 7),
                Reply::Refused(Refusal::UnknownReplica),
            ),
            (Step::OrAdd(0, 4, 1), Reply::Ok(0)),
            (
                Step::OrAddAt(1, 4, 1, 0),
                Reply::Refused(Refusal::StampUnwanted),
            ),
            (Step::OrAdd(1, 9, 1), Reply::Refused(Refusal::IdTaken)),
            (Step::Got(1, 0), Reply::Got(0)),
            (Step::Got(1, 0), Reply::Refused(Refusal::AlreadySeen)),
            (Step::OrRemove(1, 4, &[1]), Reply::Ok(1)),
            (Step::OrAdd(0, 4, 1), Reply::Refused(Refusal::IdTaken)),
            (Step::Got(0, 1), Reply::Got(1)),
            (Step::OrRead(0, &[]), Reply::Ok(2)),
            (Step::Got(1, 2), Reply::Refused(Refusal::NotAnUpdate)),
        ],
        labels: 3,
        refused: 10,
        fault: None,
        sequence: &[0, 1, 1, 2],
    },
];

#[test]
fn or_sets_are_answered(rt: HostRuntime) {
    are_answered(&rt, rt.alloc(), &OR_SETS);
}
