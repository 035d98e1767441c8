//! Two threads that report to one desk, each through a reporter of its own.

use anyhow::{Result, bail};
use ra_desk::DeskReporter;
use ra_labels::{Command, Kind, Op};
use ra_monitor::Monitor;
use ra_ticket::Glance;
use std::alloc::Global;
use std::sync::Wait;
use std::thread;
use std::thread::Threads;

/// Opens a desk with two reporters.
pub fn reporters_of(alloc: Global, limit: u32) -> Result<Vec<DeskReporter>> {
    match Monitor::new(alloc, Kind::Counter, 2, limit) {
        Ok(monitor) => match DeskReporter::open(alloc, monitor, 2) {
            Ok(reporters) => Ok(reporters),
            Err(_) => bail!("no desk"),
        },
        Err(_) => bail!("no monitor"),
    }
}

// Reports a hundred increments of one replica. Returns `true` if each was answered.
fn add<R: Wait>(rt: &R, reporter: &mut DeskReporter, replica: u8) -> bool {
    for _ in 0..100 {
        let added = Command::Operate {
            replica,
            op: Op::Inc,
            stamp: None,
        };
        if reporter.tell(rt, added).is_err() {
            return false;
        }
    }
    true
}

// Lets both replicas add, each on a thread of its own.
fn add_both<R: Threads + Wait + Sync>(
    rt: &R,
    one: &mut DeskReporter,
    two: &mut DeskReporter,
) -> Result<Glance> {
    match thread::join(rt, || add(rt, one, 0), || add(rt, two, 1)) {
        (true, true) => Ok(one.glance()),
        _ => bail!("a report was not taken"),
    }
}

/// Returns the number of reports in the end, and the label of the first violation, if there was one.
pub fn report<R: Threads + Wait + Sync>(rt: &R, alloc: Global) -> Result<Glance> {
    let mut reporters = reporters_of(alloc, 1000)?;
    match (reporters.pop(), reporters.pop()) {
        (Some(mut one), Some(mut two)) => add_both(rt, &mut one, &mut two),
        _ => bail!("no reporters"),
    }
}
