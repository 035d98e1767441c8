//! A read that is reported falsely: the monitor identifies it.

use ra_bench::{BenchFault, BenchReport, Lie, OpenGate, run_bench_with};
use ra_labels::{Cause, Kind, Reply};
use std::process::Abort;

const KINDS: [Kind; 5] = [
    Kind::Counter,
    Kind::Register,
    Kind::LwwSet,
    Kind::OrSet,
    Kind::Rga,
];

// Returns the replica whose read is a violation because of its query, or `None` for any other result.
fn named(answer: Result<BenchReport, BenchFault>) -> Option<u8> {
    match answer {
        Err(
            BenchFault::Answered {
                replica,
                reply: Reply::No {
                    cause: Cause::Query,
                    ..
                },
            },
        ) => Some(replica),
        _ => None,
    }
}

/// Asserts that the bench has this result.
pub fn is_answered(
    rt: &impl Abort,
    answer: Result<BenchReport, BenchFault>,
    wanted: Result<BenchReport, BenchFault>,
) {
    assert_eq!(rt; answer, wanted);
}

// With a single replica the label's number is known.
#[test]
fn a_register_of_one_replica_lies(rt: HostRuntime) {
    let lie = Lie {
        replica: 0,
        round: 1,
    };
    let answer = run_bench_with(&rt, rt.alloc(), Kind::Register, 1, 2, Some(lie), &OpenGate);
    let no = BenchFault::Answered {
        replica: 0,
        reply: Reply::No {
            label: 3,
            cause: Cause::Query,
        },
    };
    is_answered(&rt, answer, Err(no));
}

// In the first round, in the last one with an update, and in the one after the last delivery. After a violation,
// another replica's call of the same round is answered `no` as well, and the lowest replica's error is returned.
#[test]
fn each_kind_lies_in_each_round_with_a_read(rt: HostRuntime) {
    for kind in KINDS {
        for round in [0, 2, 4] {
            let lie = Some(Lie { replica: 1, round });
            let answer = run_bench_with(&rt, rt.alloc(), kind, 3, 3, lie, &OpenGate);
            assert!(rt; matches!(named(answer), Some(0 | 1)));
        }
    }
}

// If the replica does not read in the round, or does not exist, nothing changes.
#[test]
fn a_lie_about_no_read_changes_nothing(rt: HostRuntime) {
    let wanted = BenchReport {
        labels: 21,
        deliveries: 18,
        calls: 40,
        verdict: Reply::Yes(21),
    };
    let no_reads = [(1, 3), (1, 5), (3, 2), (255, 0)];
    for kind in KINDS {
        for (replica, round) in no_reads {
            let lie = Lie { replica, round };
            let answer = run_bench_with(&rt, rt.alloc(), kind, 3, 3, Some(lie), &OpenGate);
            is_answered(&rt, answer, Ok(wanted));
        }
    }
}
