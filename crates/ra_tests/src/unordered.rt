//! Worked examples of the kinds that are judged by what each read sees, whatever the order of the updates: an object of
//! any type, and a multi-value register.

use crate::commands::{bare, elements_of, got, is_told, reply_to, reporter_of};
use ra_labels::{Cause, Command, Fault, Kind, Op, Refusal, Reply};
use ra_monitor::{Report, Reporter};
use std::alloc::Global;
use std::process::Abort;
use std::test::Fail;

fn update(replica: u8) -> Command {
    bare(replica, Op::AnyUpdate)
}

fn read(replica: u8, value: u32) -> Command {
    bare(replica, Op::AnyRead(value))
}

fn write(replica: u8, value: u32) -> Command {
    bare(replica, Op::MvWrite(value))
}

fn values(rt: &impl Abort, alloc: Global, replica: u8, list: &[u32]) -> Command {
    bare(replica, Op::MvRead(elements_of(rt, alloc, list)))
}

fn join(replica: u8, from: u8) -> Command {
    Command::Join { replica, from }
}

// The reply to a violation by a read.
fn wrong(label: u32) -> Reply {
    Reply::No {
        label,
        cause: Cause::Query,
    }
}

fn any_of(rt: &impl Abort, alloc: Global) -> Reporter {
    reporter_of(rt, alloc, Kind::Any, 3, 100)
}

fn register_of(rt: &impl Abort, alloc: Global) -> Reporter {
    reporter_of(rt, alloc, Kind::MvRegister, 3, 100)
}

// Two replicas that have the same two updates, whichever came first, return the same value. With other updates another
// value may be read, and the same one again.
#[test]
fn reads_of_the_same_updates_agree(rt: HostRuntime) -> Result<(), Fail> {
    let mut any = any_of(&rt, rt.alloc());
    is_told(&rt, &mut any, read(2, 0), Reply::Ok(0));
    is_told(&rt, &mut any, update(0), Reply::Ok(1));
    is_told(&rt, &mut any, update(1), Reply::Ok(2));
    is_told(&rt, &mut any, read(0, 4), Reply::Ok(3));
    is_told(&rt, &mut any, read(1, 5), Reply::Ok(4));
    is_told(&rt, &mut any, got(0, 2), Reply::Got(2));
    is_told(&rt, &mut any, got(1, 1), Reply::Got(1));
    is_told(&rt, &mut any, read(0, 4), Reply::Ok(5));
    is_told(&rt, &mut any, read(1, 4), Reply::Ok(6));
    is_told(&rt, &mut any, join(3, 2), Reply::Joined(3));
    is_told(&rt, &mut any, read(3, 0), Reply::Ok(7));
    is_told(&rt, &mut any, join(4, 1), Reply::Joined(4));
    is_told(&rt, &mut any, read(4, 9), wrong(8));
    is_told(&rt, &mut any, read(4, 4), wrong(8));
    Ok(())
}

// One update of each of two replicas is as many updates as two of one, and not the same ones.
#[test]
fn as_many_updates_are_not_the_same_ones(rt: HostRuntime) -> Result<(), Fail> {
    let mut any = any_of(&rt, rt.alloc());
    is_told(&rt, &mut any, update(0), Reply::Ok(0));
    is_told(&rt, &mut any, update(0), Reply::Ok(1));
    is_told(&rt, &mut any, update(1), Reply::Ok(2));
    is_told(&rt, &mut any, got(1, 0), Reply::Got(0));
    is_told(&rt, &mut any, read(0, 6), Reply::Ok(3));
    is_told(&rt, &mut any, read(1, 7), Reply::Ok(4));
    is_told(&rt, &mut any, read(0, 7), wrong(5));
    Ok(())
}

// Writes that do not see each other are read together until a write that sees both.
#[test]
fn siblings_are_read_together(rt: HostRuntime) -> Result<(), Fail> {
    let alloc = rt.alloc();
    let mut register = register_of(&rt, alloc);
    is_told(&rt, &mut register, values(&rt, alloc, 0, &[]), Reply::Ok(0));
    is_told(&rt, &mut register, write(0, 7), Reply::Ok(1));
    is_told(&rt, &mut register, write(1, 5), Reply::Ok(2));
    is_told(&rt, &mut register, got(1, 1), Reply::Got(1));
    is_told(
        &rt,
        &mut register,
        values(&rt, alloc, 1, &[5, 7]),
        Reply::Ok(3),
    );
    is_told(&rt, &mut register, join(3, 1), Reply::Joined(3));
    is_told(&rt, &mut register, write(1, 5), Reply::Ok(4));
    is_told(
        &rt,
        &mut register,
        values(&rt, alloc, 1, &[5]),
        Reply::Ok(5),
    );
    is_told(
        &rt,
        &mut register,
        values(&rt, alloc, 3, &[5, 7]),
        Reply::Ok(6),
    );
    is_told(&rt, &mut register, got(0, 2), Reply::Got(2));
    is_told(&rt, &mut register, got(0, 4), Reply::Got(4));
    is_told(
        &rt,
        &mut register,
        values(&rt, alloc, 0, &[5]),
        Reply::Ok(7),
    );
    is_told(&rt, &mut register, values(&rt, alloc, 3, &[7]), wrong(8));
    Ok(())
}

// A write that was replaced elsewhere is read where the later one has not arrived, and not where it has.
#[test]
fn a_replaced_value_is_wrong_where_its_successor_arrived(rt: HostRuntime) -> Result<(), Fail> {
    let alloc = rt.alloc();
    let mut register = register_of(&rt, alloc);
    is_told(&rt, &mut register, write(0, 1), Reply::Ok(0));
    is_told(&rt, &mut register, write(0, 2), Reply::Ok(1));
    is_told(&rt, &mut register, got(1, 0), Reply::Got(0));
    is_told(
        &rt,
        &mut register,
        values(&rt, alloc, 1, &[1]),
        Reply::Ok(2),
    );
    is_told(&rt, &mut register, got(1, 1), Reply::Got(1));
    is_told(&rt, &mut register, values(&rt, alloc, 1, &[1, 2]), wrong(3));
    Ok(())
}

// A report or a question of a worked example. The first number is the replica.
#[derive(Clone, Copy)]
enum Step {
    Update(u8),
    Read(u8, u32),
    Write(u8, u32),
    Values(u8, &'static [u32]),
    Got(u8, u32),
    // The new replica, and the one from which it joins.
    Join(u8, u8),
    Verdict,
}

fn command_of(rt: &impl Abort, alloc: Global, step: Step) -> Command {
    match step {
        Step::Update(replica) => update(replica),
        Step::Read(replica, value) => read(replica, value),
        Step::Write(replica, value) => write(replica, value),
        Step::Values(replica, list) => values(rt, alloc, replica, list),
        Step::Got(replica, label) => got(replica, label),
        Step::Join(replica, from) => join(replica, from),
        Step::Verdict => Command::Verdict,
    }
}

// A worked example whose replies were derived by hand from the definitions. The text of this name in
// `tests/program/any_texts` or `tests/program/mvregister_texts` is the same history, with the same replies.
#[derive(Clone, Copy)]
struct Example {
    text: &'static str,
    kind: Kind,
    // The number of initial replicas.
    replicas: u8,
    steps: &'static [(Step, Reply)],
    labels: u32,
    refused: u32,
    // The violating label.
    fault: Option<u32>,
}

static EXAMPLES: [Example; 12] = [
    Example {
        text: "any_two_reads_of_the_same_updates",
        kind: Kind::Any,
        replicas: 2,
        steps: &[
            (Step::Update(0), Reply::Ok(0)),
            (Step::Got(1, 0), Reply::Got(0)),
            (Step::Read(0, 5), Reply::Ok(1)),
            (Step::Read(1, 5), Reply::Ok(2)),
            (Step::Verdict, Reply::Yes(3)),
        ],
        labels: 3,
        refused: 0,
        fault: None,
    },
    Example {
        text: "any_two_reads_of_the_same_updates_differ",
        kind: Kind::Any,
        replicas: 2,
        steps: &[
            (Step::Update(0), Reply::Ok(0)),
            (Step::Got(1, 0), Reply::Got(0)),
            (Step::Read(0, 5), Reply::Ok(1)),
            (
                Step::Read(1, 6),
                Reply::No {
                    label: 2,
                    cause: Cause::Query,
                },
            ),
        ],
        labels: 3,
        refused: 0,
        fault: Some(2),
    },
    Example {
        text: "any_concurrent_updates_in_two_orders",
        kind: Kind::Any,
        replicas: 2,
        steps: &[
            (Step::Update(0), Reply::Ok(0)),
            (Step::Update(1), Reply::Ok(1)),
            (Step::Got(0, 1), Reply::Got(1)),
            (Step::Got(1, 0), Reply::Got(0)),
            (Step::Read(0, 3), Reply::Ok(2)),
            (Step::Read(1, 3), Reply::Ok(3)),
        ],
        labels: 4,
        refused: 0,
        fault: None,
    },
    Example {
        text: "any_reads_before_any_update_differ",
        kind: Kind::Any,
        replicas: 2,
        steps: &[
            (Step::Read(0, 1), Reply::Ok(0)),
            (
                Step::Read(1, 2),
                Reply::No {
                    label: 1,
                    cause: Cause::Query,
                },
            ),
        ],
        labels: 2,
        refused: 0,
        fault: Some(1),
    },
    Example {
        text: "any_as_many_updates_are_not_the_same_ones",
        kind: Kind::Any,
        replicas: 3,
        steps: &[
            (Step::Update(0), Reply::Ok(0)),
            (Step::Update(1), Reply::Ok(1)),
            (Step::Read(0, 1), Reply::Ok(2)),
            (Step::Read(1, 2), Reply::Ok(3)),
            (Step::Got(2, 1), Reply::Got(1)),
            (Step::Read(2, 2), Reply::Ok(4)),
            (Step::Got(2, 0), Reply::Got(0)),
            (Step::Read(2, 9), Reply::Ok(5)),
            (Step::Got(0, 1), Reply::Got(1)),
            (Step::Read(0, 9), Reply::Ok(6)),
            (Step::Got(1, 0), Reply::Got(0)),
            (
                Step::Read(1, 2),
                Reply::No {
                    label: 7,
                    cause: Cause::Query,
                },
            ),
        ],
        labels: 8,
        refused: 0,
        fault: Some(7),
    },
    Example {
        text: "any_a_replica_joins",
        kind: Kind::Any,
        replicas: 1,
        steps: &[
            (Step::Update(0), Reply::Ok(0)),
            (Step::Read(0, 4), Reply::Ok(1)),
            (Step::Join(1, 0), Reply::Joined(1)),
            (Step::Read(1, 4), Reply::Ok(2)),
            (Step::Update(1), Reply::Ok(3)),
            (Step::Read(1, 5), Reply::Ok(4)),
            (Step::Read(0, 4), Reply::Ok(5)),
            (Step::Got(0, 3), Reply::Got(3)),
            (
                Step::Read(0, 6),
                Reply::No {
                    label: 6,
                    cause: Cause::Query,
                },
            ),
        ],
        labels: 7,
        refused: 0,
        fault: Some(6),
    },
    Example {
        text: "mvregister_a_write_replaces_what_it_saw",
        kind: Kind::MvRegister,
        replicas: 2,
        steps: &[
            (Step::Write(0, 1), Reply::Ok(0)),
            (Step::Got(1, 0), Reply::Got(0)),
            (Step::Write(1, 2), Reply::Ok(1)),
            (Step::Got(0, 1), Reply::Got(1)),
            (Step::Values(0, &[2]), Reply::Ok(2)),
            (Step::Values(1, &[2]), Reply::Ok(3)),
        ],
        labels: 4,
        refused: 0,
        fault: None,
    },
    Example {
        text: "mvregister_two_concurrent_writes",
        kind: Kind::MvRegister,
        replicas: 2,
        steps: &[
            (Step::Write(0, 1), Reply::Ok(0)),
            (Step::Write(1, 2), Reply::Ok(1)),
            (Step::Got(0, 1), Reply::Got(1)),
            (Step::Values(0, &[1, 2]), Reply::Ok(2)),
            (Step::Write(0, 3), Reply::Ok(3)),
            (Step::Values(0, &[3]), Reply::Ok(4)),
            (Step::Got(1, 0), Reply::Got(0)),
            (Step::Got(1, 3), Reply::Got(3)),
            (
                Step::Values(1, &[2]),
                Reply::No {
                    label: 5,
                    cause: Cause::Query,
                },
            ),
        ],
        labels: 6,
        refused: 0,
        fault: Some(5),
    },
    Example {
        text: "mvregister_a_competing_value_is_missing",
        kind: Kind::MvRegister,
        replicas: 2,
        steps: &[
            (Step::Write(0, 1), Reply::Ok(0)),
            (Step::Write(1, 2), Reply::Ok(1)),
            (Step::Got(0, 1), Reply::Got(1)),
            (
                Step::Values(0, &[1]),
                Reply::No {
                    label: 2,
                    cause: Cause::Query,
                },
            ),
        ],
        labels: 3,
        refused: 0,
        fault: Some(2),
    },
    Example {
        text: "mvregister_one_value_of_two_writers",
        kind: Kind::MvRegister,
        replicas: 2,
        steps: &[
            (Step::Write(0, 7), Reply::Ok(0)),
            (Step::Write(1, 7), Reply::Ok(1)),
            (Step::Got(0, 1), Reply::Got(1)),
            (Step::Values(0, &[7]), Reply::Ok(2)),
            (Step::Got(1, 0), Reply::Got(0)),
            (Step::Values(1, &[7]), Reply::Ok(3)),
            (Step::Write(0, 8), Reply::Ok(4)),
            (Step::Write(1, 7), Reply::Ok(5)),
            (Step::Got(0, 5), Reply::Got(5)),
            (Step::Values(0, &[7, 8]), Reply::Ok(6)),
        ],
        labels: 7,
        refused: 0,
        fault: None,
    },
    Example {
        text: "mvregister_only_what_the_replica_had_is_replaced",
        kind: Kind::MvRegister,
        replicas: 3,
        steps: &[
            (Step::Write(0, 1), Reply::Ok(0)),
            (Step::Write(1, 2), Reply::Ok(1)),
            (Step::Got(2, 0), Reply::Got(0)),
            (Step::Write(2, 3), Reply::Ok(2)),
            (Step::Got(1, 0), Reply::Got(0)),
            (Step::Values(1, &[1, 2]), Reply::Ok(3)),
            (Step::Got(1, 2), Reply::Got(2)),
            (Step::Values(1, &[2, 3]), Reply::Ok(4)),
            (
                Step::Values(1, &[1, 2, 3]),
                Reply::No {
                    label: 5,
                    cause: Cause::Query,
                },
            ),
        ],
        labels: 6,
        refused: 0,
        fault: Some(5),
    },
    Example {
        text: "mvregister_a_replica_joins",
        kind: Kind::MvRegister,
        replicas: 2,
        steps: &[
            (Step::Write(0, 1), Reply::Ok(0)),
            (Step::Write(1, 2), Reply::Ok(1)),
            (Step::Got(0, 1), Reply::Got(1)),
            (Step::Join(2, 0), Reply::Joined(2)),
            (Step::Values(2, &[1, 2]), Reply::Ok(2)),
            (Step::Write(2, 3), Reply::Ok(3)),
            (Step::Values(2, &[3]), Reply::Ok(4)),
            (Step::Values(0, &[1, 2]), Reply::Ok(5)),
            (Step::Got(0, 3), Reply::Got(3)),
            (Step::Values(0, &[3]), Reply::Ok(6)),
            (Step::Got(2, 1), Reply::Refused(Refusal::AlreadySeen)),
            (Step::Got(1, 3), Reply::Refused(Refusal::NotCausal(0))),
        ],
        labels: 7,
        refused: 2,
        fault: None,
    },
];

// Twelve worked examples have the same replies by calls as by text.
#[test]
fn examples_have_the_replies_of_their_texts(rt: HostRuntime) -> Result<(), Fail> {
    let alloc = rt.alloc();
    for example in &EXAMPLES {
        let mut reporter = reporter_of(&rt, alloc, example.kind, example.replicas, 100);
        for (index, (step, want)) in example.steps.iter().enumerate() {
            let reply = reply_to(&rt, &mut reporter, command_of(&rt, alloc, *step));
            assert_eq!(rt; reply, *want, "{}, at step {index}", example.text);
        }
        let Ok(calls) = u32::try_from(example.steps.len()) else {
            panic!(rt; "too many steps");
        };
        let report = Report {
            kind: example.kind,
            calls,
            labels: example.labels,
            refused: example.refused,
            fault: match example.fault {
                Some(label) => Some(Fault {
                    label,
                    cause: Cause::Query,
                }),
                None => None,
            },
        };
        assert_eq!(rt; reporter.monitor().report(), report, "{}", example.text);
    }
    Ok(())
}
