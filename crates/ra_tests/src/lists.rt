//! Worked examples of RGAs.

use crate::rows::{Row, Step, are_answered};
use ra_labels::{Cause, Fault, Kind, Refusal, Reply};

static RGAS: [Row; 16] = [
    Row {
        name: "of two behind one anchor the later stands first",
        kind: Kind::Rga,
        steps: &[
            (Step::After(0, 0, 1, 1), Reply::Ok(0)),
            (Step::Got(1, 0), Reply::Got(0)),
            (Step::After(0, 0, 2, 3), Reply::Ok(1)),
            (Step::After(1, 0, 3, 2), Reply::Ok(2)),
            (Step::Got(2, 0), Reply::Got(0)),
            (Step::Got(2, 1), Reply::Got(1)),
            (Step::Got(2, 2), Reply::Got(2)),
            (Step::RgaRead(2, &[2, 3, 1]), Reply::Ok(3)),
        ],
        labels: 4,
        refused: 0,
        fault: None,
        sequence: &[0, 2, 1, 3],
    },
    Row {
        name: "an element is put in again, earlier in the order",
        kind: Kind::Rga,
        steps: &[
            (Step::After(0, 0, 1, 5), Reply::Ok(0)),
            (
                Step::After(1, 0, 1, 2),
                Reply::No {
                    label: 1,
                    cause: Cause::Update,
                },
            ),
        ],
        labels: 2,
        refused: 0,
        fault: Some(Fault {
            label: 1,
            cause: Cause::Update,
        }),
        sequence: &[0],
    },
    Row {
        name: "an element comes before its anchor, and then the anchor",
        kind: Kind::Rga,
        steps: &[
            (Step::After(0, 0, 1, 1), Reply::Ok(0)),
            (Step::After(1, 1, 2, 2), Reply::Ok(1)),
            (Step::Got(2, 1), Reply::Got(1)),
            (Step::Got(2, 0), Reply::Got(0)),
            (Step::RgaRead(2, &[1, 2]), Reply::Ok(2)),
        ],
        labels: 3,
        refused: 0,
        fault: None,
        sequence: &[0, 1, 2],
    },
    Row {
        name: "an element is read before its anchor came",
        kind: Kind::Rga,
        steps: &[
            (Step::After(0, 0, 1, 1), Reply::Ok(0)),
            (Step::After(1, 1, 2, 2), Reply::Ok(1)),
            (Step::Got(2, 1), Reply::Got(1)),
            (
                Step::RgaRead(2, &[]),
                Reply::No {
                    label: 2,
                    cause: Cause::Query,
                },
            ),
            (
                Step::Got(2, 0),
                Reply::No {
                    label: 2,
                    cause: Cause::Query,
                },
            ),
        ],
        labels: 3,
        refused: 0,
        fault: Some(Fault {
            label: 2,
            cause: Cause::Query,
        }),
        sequence: &[0, 1],
    },
    Row {
        name: "a removed element is an anchor",
        kind: Kind::Rga,
        steps: &[
            (Step::After(0, 0, 1, 1), Reply::Ok(0)),
            (Step::RgaRemove(0, 1), Reply::Ok(1)),
            (Step::Got(1, 0), Reply::Got(0)),
            (Step::After(1, 1, 2, 2), Reply::Ok(2)),
            (Step::Got(2, 0), Reply::Got(0)),
            (Step::Got(2, 1), Reply::Got(1)),
            (Step::Got(2, 2), Reply::Got(2)),
            (Step::RgaRead(2, &[2]), Reply::Ok(3)),
        ],
        labels: 4,
        refused: 0,
        fault: None,
        sequence: &[0, 1, 2, 3],
    },
    Row {
        name: "the root is removed",
        kind: Kind::Rga,
        steps: &[(
            Step::RgaRemove(0, 0),
            Reply::No {
                label: 0,
                cause: Cause::Update,
            },
        )],
        labels: 1,
        refused: 0,
        fault: Some(Fault {
            label: 0,
            cause: Cause::Update,
        }),
        sequence: &[],
    },
    Row {
        name: "an anchor comes later in the order",
        kind: Kind::Rga,
        steps: &[
            (Step::After(0, 0, 1, 5), Reply::Ok(0)),
            (
                Step::After(1, 1, 2, 3),
                Reply::No {
                    label: 1,
                    cause: Cause::Update,
                },
            ),
        ],
        labels: 2,
        refused: 0,
        fault: Some(Fault {
            label: 1,
            cause: Cause::Update,
        }),
        sequence: &[0],
    },
    Row {
        name: "an anchor never came",
        kind: Kind::Rga,
        steps: &[(
            Step::After(0, 3, 4, 1),
            Reply::No {
                label: 0,
                cause: Cause::Update,
            },
        )],
        labels: 1,
        refused: 0,
        fault: Some(Fault {
            label: 0,
            cause: Cause::Update,
        }),
        sequence: &[],
    },
    Row {
        name: "a remove that saw nothing stands before all",
        kind: Kind::Rga,
        steps: &[
            (Step::After(0, 0, 1, 5), Reply::Ok(0)),
            (
                Step::RgaRemove(1, 1),
                Reply::No {
                    label: 1,
                    cause: Cause::Update,
                },
            ),
        ],
        labels: 2,
        refused: 0,
        fault: Some(Fault {
            label: 1,
            cause: Cause::Update,
        }),
        sequence: &[0],
    },
    Row {
        name: "the order is told before the updates",
        kind: Kind::Rga,
        steps: &[
            (Step::After(0, 0, 1, 5), Reply::Ok(0)),
            (
                Step::After(0, 9, 2, 3),
                Reply::No {
                    label: 1,
                    cause: Cause::Order,
                },
            ),
        ],
        labels: 2,
        refused: 0,
        fault: Some(Fault {
            label: 1,
            cause: Cause::Order,
        }),
        sequence: &[0],
    },
    Row {
        name: "two replicas remove the same",
        kind: Kind::Rga,
        steps: &[
            (Step::After(0, 0, 1, 1), Reply::Ok(0)),
            (Step::Got(1, 0), Reply::Got(0)),
            (Step::RgaRemove(0, 1), Reply::Ok(1)),
            (Step::RgaRemove(1, 1), Reply::Ok(2)),
            (Step::Got(2, 0), Reply::Got(0)),
            (Step::Got(2, 1), Reply::Got(1)),
            (Step::Got(2, 2), Reply::Got(2)),
            (Step::RgaRead(2, &[]), Reply::Ok(3)),
        ],
        labels: 4,
        refused: 0,
        fault: None,
        sequence: &[0, 1, 2, 3],
    },
    Row {
        name: "a removed element is put in again",
        kind: Kind::Rga,
        steps: &[
            (Step::After(0, 0, 1, 1), Reply::Ok(0)),
            (Step::RgaRemove(0, 1), Reply::Ok(1)),
            (
                Step::After(0, 0, 1, 2),
                Reply::No {
                    label: 2,
                    cause: Cause::Update,
                },
            ),
        ],
        labels: 3,
        refused: 0,
        fault: Some(Fault {
            label: 2,
            cause: Cause::Update,
        }),
        sequence: &[0, 1],
    },
    Row {
        name: "a remove is read before its element came",
        kind: Kind::Rga,
        steps: &[
            (Step::After(0, 0, 1, 1), Reply::Ok(0)),
            (Step::After(1, 0, 2, 3), Reply::Ok(1)),
            (Step::RgaRemove(1, 1), Reply::Ok(2)),
            (Step::Got(2, 1), Reply::Got(1)),
            (Step::Got(2, 2), Reply::Got(2)),
            (
                Step::RgaRead(2, &[2]),
                Reply::No {
                    label: 3,
                    cause: Cause::Query,
                },
            ),
        ],
        labels: 4,
        refused: 0,
        fault: Some(Fault {
            label: 3,
            cause: Cause::Query,
        }),
        sequence: &[0, 1, 2],
    },
    Row {
        name: "a remove comes before its element, and then the element",
        kind: Kind::Rga,
        steps: &[
            (Step::After(0, 0, 1, 1), Reply::Ok(0)),
            (Step::After(1, 0, 2, 3), Reply::Ok(1)),
            (Step::RgaRemove(1, 1), Reply::Ok(2)),
            (Step::Got(2, 1), Reply::Got(1)),
            (Step::Got(2, 2), Reply::Got(2)),
            (Step::Got(2, 0), Reply::Got(0)),
            (Step::RgaRead(2, &[2]), Reply::Ok(3)),
        ],
        labels: 4,
        refused: 0,
        fault: None,
        sequence: &[0, 1, 2, 3],
    },
    Row {
        name: "a read has its order",
        kind: Kind::Rga,
        steps: &[
            (Step::After(0, 0, 1, 1), Reply::Ok(0)),
            (Step::After(0, 0, 2, 2), Reply::Ok(1)),
            (
                Step::RgaRead(0, &[1, 2]),
                Reply::No {
                    label: 2,
                    cause: Cause::Query,
                },
            ),
        ],
        labels: 3,
        refused: 0,
        fault: Some(Fault {
            label: 2,
            cause: Cause::Query,
        }),
        sequence: &[0, 1],
    },
    Row {
        name: "refusals come in their order",
        kind: Kind::Rga,
        steps: &[
            (
                Step::After(3, 0, 1, 1),
                Reply::Refused(Refusal::UnknownReplica),
            ),
            (Step::Inc(0), Reply::Refused(Refusal::WrongKind)),
            (Step::OrRead(0, &[2, 1]), Reply::Refused(Refusal::WrongKind)),
            (
                Step::AfterBare(0, 0, 1),
                Reply::Refused(Refusal::StampMissing),
            ),
            (
                Step::After(0, 0, 1, 0),
                Reply::Refused(Refusal::StampMissing),
            ),
            (
                Step::RgaRemoveAt(0, 1, 5),
                Reply::Refused(Refusal::StampUnwanted),
            ),
            (Step::After(0, 0, 1, 1), Reply::Ok(0)),
            (Step::After(0, 1, 2, 1), Reply::Refused(Refusal::StampTaken)),
            (Step::After(0, 0, 2, 2), Reply::Ok(1)),
            (Step::RgaRead(0, &[2, 1]), Reply::Ok(2)),
            (Step::RgaRemove(0, 2), Reply::Ok(3)),
            (Step::After(0, 1, 3, 2), Reply::Refused(Refusal::StampTaken)),
            (Step::Got(1, 2), Reply::Refused(Refusal::NotAnUpdate)),
            (Step::Got(1, 3), Reply::Refused(Refusal::NotCausal(0))),
            (Step::Got(0, 3), Reply::Refused(Refusal::AlreadySeen)),
            (Step::Got(1, 9), Reply::Refused(Refusal::UnknownLabel)),
        ],
        labels: 4,
        refused: 12,
        fault: None,
        sequence: &[0, 1, 2, 3],
    },
];

#[test]
fn lists_are_answered(rt: HostRuntime) {
    are_answered(&rt, rt.alloc(), &RGAS);
}
