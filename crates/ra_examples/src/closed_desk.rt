//! A desk that is closed after all reports, and the log and the report of its monitor.

use crate::two_threads::reporters_of;
use anyhow::{Result, bail};
use ra_desk::DeskReporter;
use ra_labels::{Command, Op};
use ra_monitor::Monitor;
use std::alloc::Global;

// Returns the command of an operation at a replica, with its answer.
fn did(replica: u8, op: Op) -> Command {
    Command::Operate {
        replica,
        op,
        stamp: None,
    }
}

/// Closes a desk at which replica 1 reads an increment that was not delivered to it. Prints the log and the report.
pub fn close(rt: &HostRuntime) -> Result<()> {
    let monitor = closed(rt.alloc())?;
    print(rt, &monitor)
}

fn closed(alloc: Global) -> Result<Monitor> {
    let mut reporters = reporters_of(alloc, 100)?;
    match (reporters.pop(), reporters.pop()) {
        (Some(one), Some(two)) => close_behind(one, two),
        _ => bail!("no reporters"),
    }
}

// Makes one report with each reporter, drops the second, and closes the desk with the first.
fn close_behind(mut one: DeskReporter, mut two: DeskReporter) -> Result<Monitor> {
    let is_taken = two.try_tell(did(0, Op::Inc)).is_ok()
        && one.try_tell(did(1, Op::Count(1))).is_ok();
    drop(two);
    match one.close() {
        Ok(monitor) if is_taken => Ok(monitor),
        _ => bail!("a report was not taken, or another reporter is left"),
    }
}

fn print(rt: &HostRuntime, monitor: &Monitor) -> Result<()> {
    for entry in monitor.log() {
        println!(rt;
            "pass {}, ticket {}: {:?}",
            entry.pass, entry.ticket, entry.reply
        )?;
    }
    println!(rt; "{:?}", monitor.report())?;
    Ok(())
}
