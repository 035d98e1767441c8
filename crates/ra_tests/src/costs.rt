//! The cost of deliveries, in updates that the monitor applies.

use crate::commands::{bare, got, is_told, reporter_of, stamped};
use ra_labels::{Command, Kind, Op, Reply};
use ra_monitor::Reporter;
use std::process::Abort;

// A register: a writes 0 to 299 at the clocks 2 to 301, and b writes 7 at the clock 1. All are delivered to c, b's
// write last.
#[test]
fn a_late_write_costs_few_steps(rt: HostRuntime) {
    let mut reporter = reporter_of(&rt, rt.alloc(), Kind::Register, 3, 1_000);
    for value in 0..300 {
        let write = stamped(0, Op::Write(value), value + 2);
        is_told(&rt, &mut reporter, write, Reply::Ok(value));
    }
    let late = stamped(1, Op::Write(7), 1);
    is_told(&rt, &mut reporter, late, Reply::Ok(300));
    for label in 0..=300 {
        let most = if label < 300 { 64 } else { 364 };
        let steps = steps_of(&rt, &mut reporter, got(2, label), Reply::Got(label));
        assert!(rt; 1 <= steps && steps <= most, "{steps} steps at {label}");
    }
    let read = bare(2, Op::Last(Some(299)));
    is_told(&rt, &mut reporter, read, Reply::Ok(301));
}

// An RGA: a's insertion takes one step at a. b's three updates depend on it and are pending at b and at c. Once it is
// delivered to c, it and they take one step each.
#[test]
fn those_that_wait_cost_a_step_each(rt: HostRuntime) {
    let mut reporter = reporter_of(&rt, rt.alloc(), Kind::Rga, 3, 1_000);
    costs(&rt, &mut reporter, after(0, 0, 5, 1), Reply::Ok(0), 1);
    costs(&rt, &mut reporter, after(1, 5, 6, 2), Reply::Ok(1), 0);
    let removal = bare(1, Op::RgaRemove(6));
    costs(&rt, &mut reporter, removal, Reply::Ok(2), 0);
    costs(&rt, &mut reporter, after(1, 6, 7, 3), Reply::Ok(3), 0);
    for (label, steps) in [(1, 0), (2, 0), (3, 0), (0, 4)] {
        let delivery = got(2, label);
        costs(&rt, &mut reporter, delivery, Reply::Got(label), steps);
    }
}

// Asserts that the command has this reply, and that this many updates are applied for it.
fn costs(rt: &impl Abort, reporter: &mut Reporter, command: Command, want: Reply, steps: u64) {
    assert_eq!(rt; steps_of(rt, reporter, command, want), steps);
}

fn after(replica: u8, anchor: u32, element: u32, clock: u32) -> Command {
    stamped(replica, Op::After { anchor, element }, clock)
}

// Asserts that the command has this reply, and returns how many updates are applied for it.
fn steps_of(rt: &impl Abort, reporter: &mut Reporter, command: Command, want: Reply) -> u64 {
    let before = reporter.monitor().steps();
    is_told(rt, reporter, command, want);
    reporter.monitor().steps().saturating_sub(before)
}
