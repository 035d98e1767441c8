//! Gates that hold a replica back, or stop it.

use super::lies::is_answered;
use ra_bench::{BenchFault, BenchReport, Gate, Lie, OpenGate, run_bench, run_bench_with};
use ra_labels::{Cause, Kind, Reply};
use std::sync::atomic::{AtomicU32, Ordering};
use std::thread;

/// The number of times that the held replica asks whether the others have left, each time by this many loads. It lets
/// other threads run after each time.
const TURNS: u32 = 1_000_000;

const LOADS: u32 = 64;

// A gate that holds one replica in one round until this many others have left it.
#[derive(Drop)]
struct Holding {
    held: u8,
    round: u32,
    others: u32,
    left: AtomicU32,
}

impl Holding {
    fn new(held: u8, round: u32, others: u32) -> Holding {
        Holding {
            held,
            round,
            others,
            left: AtomicU32::new(0),
        }
    }

    fn have_left(&self) -> bool {
        for _ in 0..LOADS {
            if self.left.load(Ordering::Acquire) >= self.others {
                return true;
            }
        }
        false
    }
}

impl Gate for Holding {
    fn enter(&self, replica: u8, round: u32) -> bool {
        if replica != self.held || round != self.round {
            return true;
        }
        for _ in 0..TURNS {
            if self.have_left() {
                return true;
            }
            thread::yield_now();
        }
        false
    }

    fn left(&self, replica: u8, round: u32) {
        if replica != self.held && round == self.round {
            self.left.fetch_add(1, Ordering::Release);
        }
    }
}

// A bench that runs the replicas one after another in one thread stalls in one of the two runs.
#[test]
fn two_in_flight(rt: HostRuntime) {
    let wanted = BenchReport {
        labels: 6,
        deliveries: 2,
        calls: 9,
        verdict: Reply::Yes(6),
    };
    for held in [0, 1] {
        let gate = Holding::new(held, 0, 1);
        let answer = run_bench(&rt, rt.alloc(), Kind::Counter, 2, 1, &gate);
        is_answered(&rt, answer, Ok(wanted));
    }
}

// Each of three replicas waits for both others, in each round.
#[test]
fn three_in_flight(rt: HostRuntime) {
    let wanted = BenchReport {
        labels: 15,
        deliveries: 12,
        calls: 28,
        verdict: Reply::Yes(15),
    };
    for held in [0, 1, 2] {
        for round in [0, 1, 2, 3] {
            let gate = Holding::new(held, round, 2);
            let answer = run_bench(&rt, rt.alloc(), Kind::OrSet, 3, 2, &gate);
            is_answered(&rt, answer, Ok(wanted));
        }
    }
}

// The others make their calls of the round before the lying replica begins. So that one is the first with a violation,
// and its read is the last label so far.
#[test]
fn the_one_that_lies_is_told(rt: HostRuntime) {
    for replica in [0, 1, 2] {
        for (round, label) in [(0, 5), (1, 11), (3, 14)] {
            let gate = Holding::new(replica, round, 2);
            let lie = Some(Lie { replica, round });
            let answer = run_bench_with(&rt, rt.alloc(), Kind::LwwSet, 3, 2, lie, &gate);
            let no = Reply::No {
                label,
                cause: Cause::Query,
            };
            is_answered(
                &rt,
                answer,
                Err(BenchFault::Answered { replica, reply: no }),
            );
        }
    }
}

// A gate that admits to one round only the replicas below a given one.
#[derive(Drop)]
struct Closed {
    round: u32,
    from: u8,
}

impl Gate for Closed {
    fn enter(&self, replica: u8, round: u32) -> bool {
        round != self.round || replica < self.from
    }

    fn left(&self, _replica: u8, _round: u32) {}
}

// The error names the lowest replica that is not admitted, in each round. A replica that is alone stalls at once.
#[test]
fn a_closed_gate_stalls(rt: HostRuntime) {
    let alone = Closed { round: 0, from: 0 };
    let answer = run_bench(&rt, rt.alloc(), Kind::Counter, 1, 1, &alone);
    is_answered(&rt, answer, Err(BenchFault::Stalled { replica: 0 }));
    for round in [0, 3, 4, 5] {
        for from in [0, 1, 2] {
            let gate = Closed { round, from };
            let answer = run_bench(&rt, rt.alloc(), Kind::Register, 3, 4, &gate);
            is_answered(&rt, answer, Err(BenchFault::Stalled { replica: from }));
        }
    }
}

// A number of replicas out of bounds is reported before a number of rounds.
#[test]
fn bad_replicas_and_bad_rounds_are_told_apart(rt: HostRuntime) {
    for (replicas, rounds, fault) in [
        (0, 1, BenchFault::BadReplicas),
        (17, 1, BenchFault::BadReplicas),
        (1, 0, BenchFault::BadRounds),
        (1, 1_001, BenchFault::BadRounds),
        (16, 0, BenchFault::BadRounds),
        (0, 0, BenchFault::BadReplicas),
    ] {
        let answer = run_bench(&rt, rt.alloc(), Kind::Counter, replicas, rounds, &OpenGate);
        is_answered(&rt, answer, Err(fault));
    }
}
