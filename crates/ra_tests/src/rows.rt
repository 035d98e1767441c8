//! Worked examples of any kind as a table of test cases: reports and the expected replies.

use crate::commands::{
    bare, elements_of, got, increment, read, reply_behind, reporter_of, sequence_of, stamped,
};
use ra_labels::{Cause, Command, Fault, Kind, Op, Reply};
use ra_monitor::{Half, Monitor, PartRef, Report, Reporter};
use std::alloc::Global;
use std::process::Abort;

/// The reply where the second label is a read that nothing leads to.
pub const NO_AT_ONE: Reply = Reply::No {
    label: 1,
    cause: Cause::Query,
};

/// A report or a question of a test case. The first number is the replica. For an operation with a stamp the last
/// number is its clock.
#[derive(Clone, Copy)]
pub enum Step {
    Inc(u8),
    /// An increment with this clock.
    IncAt(u8, u32),
    Dec(u8),
    Read(u8, i32),
    Write(u8, u32, u32),
    /// A write without a clock.
    WriteBare(u8, u32),
    Last(u8, Option<u32>),
    /// A read with this clock.
    LastAt(u8, Option<u32>, u32),
    Add(u8, u32, u32),
    Remove(u8, u32, u32),
    Elements(u8, &'static [u32]),
    /// An element and its identifier.
    OrAdd(u8, u32, u32),
    /// An element, its identifier and a clock.
    OrAddAt(u8, u32, u32, u32),
    /// An element and its observed identifiers.
    OrRemove(u8, u32, &'static [u32]),
    OrRead(u8, &'static [u32]),
    /// An anchor, an element and a clock.
    After(u8, u32, u32, u32),
    /// An anchor and an element, without a clock.
    AfterBare(u8, u32, u32),
    RgaRemove(u8, u32),
    /// A removal with this clock.
    RgaRemoveAt(u8, u32, u32),
    RgaRead(u8, &'static [u32]),
    Got(u8, u32),
    /// The new replica, and the one from which it joins.
    Join(u8, u8),
    Verdict,
}

/// Returns the command of this report.
pub fn command_of(rt: &impl Abort, alloc: Global, say: Step) -> Command {
    match say {
        Step::Inc(replica) => increment(replica),
        Step::IncAt(replica, clock) => stamped(replica, Op::Inc, clock),
        Step::Dec(replica) => bare(replica, Op::Dec),
        Step::Read(replica, answer) => read(replica, answer),
        Step::Write(replica, value, clock) => stamped(replica, Op::Write(value), clock),
        Step::WriteBare(replica, value) => bare(replica, Op::Write(value)),
        Step::Last(replica, answer) => bare(replica, Op::Last(answer)),
        Step::LastAt(replica, answer, clock) => stamped(replica, Op::Last(answer), clock),
        Step::Add(replica, element, clock) => stamped(replica, Op::LwwAdd(element), clock),
        Step::Remove(replica, element, clock) => { stamped(replica, Op::LwwRemove(element), clock) }
        Step::OrAdd(replica, element, id) => bare(replica, Op::OrAdd { element, id }),
        Step::OrAddAt(replica, element, id, clock) => {
            stamped(replica, Op::OrAdd { element, id }, clock)
        }
        Step::After(replica, anchor, element, clock) => {
            stamped(replica, Op::After { anchor, element }, clock)
        }
        Step::AfterBare(replica, anchor, element) => {
            bare(replica, Op::After { anchor, element })
        }
        Step::RgaRemove(replica, element) => bare(replica, Op::RgaRemove(element)),
        Step::RgaRemoveAt(replica, element, clock) => {
            stamped(replica, Op::RgaRemove(element), clock)
        }
        Step::Got(replica, label) => got(replica, label),
        Step::Join(replica, from) => Command::Join { replica, from },
        Step::Verdict => Command::Verdict,
        Step::Elements(replica, list) => {
            bare(replica, Op::LwwRead(elements_of(rt, alloc, list)))
        }
        Step::OrRead(replica, list) => { bare(replica, Op::OrRead(elements_of(rt, alloc, list))) }
        Step::RgaRead(replica, list) => { bare(replica, Op::RgaRead(elements_of(rt, alloc, list))) }
        Step::OrRemove(replica, element, list) => {
            let ids = elements_of(rt, alloc, list);
            bare(replica, Op::OrRemove { element, ids })
        }
    }
}

/// A test case: a history with three initial replicas.
#[derive(Clone, Copy)]
pub struct Row {
    /// The statement that it shows.
    pub name: &'static str,
    pub kind: Kind,
    pub steps: &'static [(Step, Reply)],
    pub labels: u32,
    pub refused: u32,
    pub fault: Option<Fault>,
    /// The labels in the sequence, twice for a label of two halves.
    pub sequence: &'static [u32],
}

/// Asserts that each test case has the expected replies.
pub fn are_answered(rt: &impl Abort, alloc: Global, rows: &[Row]) {
    for row in rows {
        let mut reporter = reporter_of(rt, alloc, row.kind, 3, 100);
        for (step, (say, want)) in row.steps.iter().enumerate() {
            let reply = reply_in(rt, &mut reporter, command_of(rt, alloc, *say));
            assert_eq!(rt; reply, *want, "{}, at step {step}", row.name);
        }
        amounts_to(rt, reporter.monitor(), row);
    }
}

// Returns the reply to one command, after the labels so far.
fn reply_in(rt: &impl Abort, reporter: &mut Reporter, command: Command) -> Reply {
    let sequence = sequence_of(rt, reporter.monitor());
    reply_behind(rt, reporter, command, Some(sequence.as_slice()))
}

// Asserts that the monitor's report and its sequence are those of the test case.
fn amounts_to(rt: &impl Abort, monitor: &Monitor, row: &Row) {
    let Ok(calls) = u32::try_from(row.steps.len()) else {
        panic!(rt; "too many steps");
    };
    let report = Report {
        kind: row.kind,
        calls,
        labels: row.labels,
        refused: row.refused,
        fault: row.fault,
    };
    assert_eq!(rt; monitor.report(), report, "{}", row.name);
    let sequence = sequence_of(rt, monitor);
    assert!(rt;
        are_parts(sequence.as_slice(), row.sequence),
        "{}",
        row.name
    );
}

/// Returns `true` if these are the parts of the labels: for a label that occurs twice, the query half and then the
/// update half.
pub fn are_parts(parts: &[PartRef], labels: &[u32]) -> bool {
    if parts.len() != labels.len() {
        return false;
    }
    let mut before = None;
    for (at, part) in parts.iter().enumerate() {
        let label = Some(&part.label);
        let half = if before == label {
            Half::UpdateHalf
        } else if labels.get(at + 1) == label {
            Half::QueryHalf
        } else {
            Half::Whole
        };
        if labels.get(at) != label || part.half != half {
            return false;
        }
        before = label;
    }
    true
}
