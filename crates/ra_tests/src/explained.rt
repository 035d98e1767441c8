//! The expected answers of violating labels, in worked examples.

use crate::commands::{reply_behind, reporter_of};
use crate::rows::{Step, command_of};
use ra_explain::{Explanation, Purpose};
use ra_labels::{Command, Kind, Op};
use ra_monitor::Monitor;
use std::alloc::Global;
use std::process::Abort;

// A history with three initial replicas, and what its last label had to be.
struct Row {
    name: &'static str,
    kind: Kind,
    says: &'static [Step],
    expected: Option<Step>,
}

static ROWS: [Row; 14] = [
    Row {
        name: "a counter that was read before an increment counted",
        kind: Kind::Counter,
        says: &[Step::Inc(0), Step::Got(1, 0), Step::Read(1, 0)],
        expected: Some(Step::Read(1, 1)),
    },
    Row {
        name: "a counter that counts what did not come",
        kind: Kind::Counter,
        says: &[
            Step::Inc(0),
            Step::Dec(0),
            Step::Inc(0),
            Step::Got(2, 0),
            Step::Got(2, 1),
            Step::Read(2, 1),
        ],
        expected: Some(Step::Read(2, 0)),
    },
    Row {
        name: "a register that keeps the older write",
        kind: Kind::Register,
        says: &[
            Step::Write(0, 7, 1),
            Step::Write(1, 9, 2),
            Step::Got(0, 1),
            Step::Last(0, Some(7)),
        ],
        expected: Some(Step::Last(0, Some(9))),
    },
    Row {
        name: "a register that nothing was written to",
        kind: Kind::Register,
        says: &[Step::Write(0, 7, 1), Step::Last(1, Some(7))],
        expected: Some(Step::Last(1, None)),
    },
    Row {
        name: "an LWW set that lacks an element",
        kind: Kind::LwwSet,
        says: &[
            Step::Add(0, 4, 1),
            Step::Add(0, 2, 2),
            Step::Elements(0, &[4]),
        ],
        expected: Some(Step::Elements(0, &[2, 4])),
    },
    Row {
        name: "an LWW set that shows what was removed later",
        kind: Kind::LwwSet,
        says: &[
            Step::Add(0, 4, 1),
            Step::Remove(1, 4, 2),
            Step::Got(0, 1),
            Step::Elements(0, &[4]),
        ],
        expected: Some(Step::Elements(0, &[])),
    },
    Row {
        name: "an OR-Set that lacks an element, which is there twice",
        kind: Kind::OrSet,
        says: &[
            Step::OrAdd(0, 4, 1),
            Step::OrAdd(1, 4, 2),
            Step::OrAdd(1, 2, 3),
            Step::Got(0, 1),
            Step::Got(0, 2),
            Step::OrRead(0, &[2]),
        ],
        expected: Some(Step::OrRead(0, &[2, 4])),
    },
    Row {
        name: "a removal from an OR-Set that leaves an identifier out",
        kind: Kind::OrSet,
        says: &[
            Step::OrAdd(0, 4, 2),
            Step::OrAdd(1, 4, 1),
            Step::OrAdd(1, 5, 3),
            Step::Got(0, 1),
            Step::Got(0, 2),
            Step::OrRemove(0, 4, &[2]),
        ],
        expected: Some(Step::OrRemove(0, 4, &[1, 2])),
    },
    Row {
        name: "a list that is shown in another order",
        kind: Kind::Rga,
        says: &[
            Step::After(0, 0, 1, 1),
            Step::After(0, 1, 2, 2),
            Step::After(0, 1, 3, 3),
            Step::RgaRead(0, &[1, 2, 3]),
        ],
        expected: Some(Step::RgaRead(0, &[1, 3, 2])),
    },
    Row {
        name: "a list that shows what was removed",
        kind: Kind::Rga,
        says: &[
            Step::After(0, 0, 1, 1),
            Step::After(0, 1, 2, 2),
            Step::RgaRemove(0, 1),
            Step::RgaRead(0, &[1, 2]),
        ],
        expected: Some(Step::RgaRead(0, &[2])),
    },
    Row {
        name: "a list whose replica has not what its element stands behind, so that no answer would do",
        kind: Kind::Rga,
        says: &[
            Step::After(0, 0, 1, 1),
            Step::After(1, 1, 2, 2),
            Step::RgaRead(1, &[2]),
        ],
        expected: None,
    },
    Row {
        name: "an update that is not admitted, which asks nothing",
        kind: Kind::Rga,
        says: &[Step::After(0, 5, 6, 1)],
        expected: None,
    },
    Row {
        name: "a stamp below one that was seen",
        kind: Kind::Register,
        says: &[Step::Write(0, 7, 5), Step::Got(1, 0), Step::Write(1, 9, 3)],
        expected: None,
    },
    Row {
        name: "no fault",
        kind: Kind::Counter,
        says: &[Step::Inc(0), Step::Got(1, 0), Step::Read(1, 1)],
        expected: None,
    },
];

// Returns the operation of this report.
fn operation_of(rt: &impl Abort, alloc: Global, say: Step) -> Op {
    match command_of(rt, alloc, say) {
        Command::Operate { op, .. } => op,
        _ => panic!(rt; "no operation"),
    }
}

// Returns the monitor of the row's history, after this many further calls.
fn monitor_of(rt: &impl Abort, alloc: Global, row: &Row, calls: u32) -> Monitor {
    let mut reporter = reporter_of(rt, alloc, row.kind, 3, 100);
    for say in row.says {
        reply_behind(rt, &mut reporter, command_of(rt, alloc, *say), None);
    }
    for _call in 0..calls {
        reply_behind(rt, &mut reporter, Command::Verdict, None);
    }
    reporter.into_monitor()
}

// Returns `true` if the explanation's violation has this expected answer.
fn has_answer(explanation: &Explanation, want: &Option<Op>) -> bool {
    let Some(violation) = &explanation.violation else {
        return want.is_none();
    };
    match (&violation.expected, want) {
        (Some(Command::Operate { op, .. }), Some(other)) => *op == *other,
        (None, None) => true,
        _ => false,
    }
}

// Returns `true` if the row's history is explained with this answer, after this many further calls. If an allocation
// fails, it is explained once more.
fn is_explained(rt: &impl Abort, alloc: Global, row: &Row, calls: u32, want: &Option<Op>) -> bool {
    for _attempt in 0..2 {
        let monitor = monitor_of(rt, alloc, row, calls);
        match Explanation::of(alloc, monitor, Purpose::Object) {
            Ok(explanation) => return has_answer(&explanation, want),
            Err(_) => {}
        }
    }
    panic!(rt; "no memory")
}

// Asserts that this is the expected answer, at the fault and after a further call, which has the same reply.
fn is_expected(rt: &impl Abort, alloc: Global, row: &Row) {
    let want = match row.expected {
        Some(say) => Some(operation_of(rt, alloc, say)),
        None => None,
    };
    for calls in 0..2 {
        assert!(rt; is_explained(rt, alloc, row, calls, &want), "{}", row.name);
    }
}

#[test]
fn a_violation_has_the_expected_answer(rt: HostRuntime) {
    for row in &ROWS {
        is_expected(&rt, rt.alloc(), row);
    }
}
