//! Limits of a monitor, and histories of thousands of labels.

use crate::commands::{
    counter_of, got, increment, is_told, read, reporter_of, sequence_of, step_by, stepped,
};
use ra_journal::{Journal, StepFault};
use ra_labels::{Command, Kind, Op, Refusal, Reply};
use ra_monitor::{Half, Monitor, NewFault};
use std::process::Abort;

#[test]
fn a_full_log_hands_the_command_back(rt: HostRuntime) {
    let mut monitor = counter_of(&rt, rt.alloc(), 3, 2);
    assert_eq!(rt; monitor.last_ticket(), None);
    for ticket in [5, 9] {
        let reply = stepped(&rt, &mut monitor, 0, ticket, Command::Verdict);
        assert_eq!(rt; reply, Some(Reply::Yes(0)));
    }
    assert!(rt; is_handed_back(step_by(&rt, &mut monitor, 0, 10, increment(2))));
    assert_eq!(rt; monitor.report().calls, 2);
    assert_eq!(rt; monitor.last_ticket(), Some(9));
}

// Returns `true` if the third replica's increment is handed back because the log is full.
fn is_handed_back(answer: Result<Reply, StepFault<Command>>) -> bool {
    matches!(
        &answer,
        Err(StepFault::Full(Command::Operate {
            replica: 2,
            op: Op::Inc,
            stamp: None
        }))
    )
}

#[test]
fn replicas_are_one_to_sixty_four_and_tested_first(rt: HostRuntime) {
    for (replicas, limit, fault) in [
        (0, 0, Some(NewFault::BadReplicas)),
        (65, 1, Some(NewFault::BadReplicas)),
        (255, 1, Some(NewFault::BadReplicas)),
        (16, 1_048_577, Some(NewFault::BadLimit)),
        (64, 0, Some(NewFault::BadLimit)),
        (64, 1_048_577, Some(NewFault::BadLimit)),
        (1, 1, None),
        (17, 1, None),
        (64, 1_048_576, None),
    ] {
        let made = Monitor::new(rt.alloc(), Kind::Counter, replicas, limit);
        assert_eq!(rt; made.err(), fault, "at {replicas} and {limit}");
    }
}

#[test]
fn the_greatest_pass_ticket_and_replica_are_taken(rt: HostRuntime) {
    let mut monitor = counter_of(&rt, rt.alloc(), 16, 3);
    for (pass, ticket, command, want) in [
        (255, 0, increment(15), Reply::Ok(0)),
        (63, 1, read(15, 1), Reply::Ok(1)),
        (
            1,
            18_446_744_073_709_551_615,
            Command::Verdict,
            Reply::Yes(2),
        ),
    ] {
        let reply = stepped(&rt, &mut monitor, pass, ticket, command);
        assert_eq!(rt; reply, Some(want), "at {pass} and {ticket}");
    }
}

#[test]
fn thousands_of_labels_are_taken(rt: HostRuntime) {
    let mut reporter = reporter_of(&rt, rt.alloc(), Kind::Counter, 16, 1_048_576);
    for number in 0..5_000u32 {
        let added = increment((number % 2) as u8);
        is_told(&rt, &mut reporter, added, Reply::Ok(number));
        if number == 299 {
            stands_in_turn(&rt, reporter.monitor(), 300);
        }
    }
    is_told(
        &rt,
        &mut reporter,
        got(2, 4_999),
        Reply::Refused(Refusal::NotCausal(1)),
    );
    is_told(&rt, &mut reporter, got(2, 1), Reply::Got(1));
    is_told(&rt, &mut reporter, read(2, 1), Reply::Ok(5_000));
    is_told(&rt, &mut reporter, read(0, 2_500), Reply::Ok(5_001));
    is_told(&rt, &mut reporter, Command::Verdict, Reply::Yes(5_002));
    stands_in_turn(&rt, reporter.monitor(), 5_002);
}

// Asserts that the sequence has this many labels, in the order of their numbers, each of one part.
fn stands_in_turn(rt: &impl Abort, monitor: &Monitor, labels: u32) {
    let sequence = sequence_of(rt, monitor);
    assert_eq!(rt; sequence.len(), labels as usize);
    for (label, part) in sequence.iter().enumerate() {
        assert_eq!(rt; part.label as usize, label);
        assert!(rt; part.half == Half::Whole);
    }
}
