//! Timed reports from several threads to a monitor: behind the lock, and behind a Mutex. The functions are those of
//! `calls` for another journal: code that is generic in the journal and moves passes into threads cannot be checked
//! (decision 0029).
ghost use Rattle.std.specs.Prelude.{All, IfOk};
ghost use Rattle.ra_ticket.specs.Passes.{IsPassOf};

use anyhow::{Result, bail};
use ra_journal::MOST_ENTRIES;
use ra_labels::{Command, Kind, Op};
use ra_monitor::{Monitor, Reporter};
use ra_ticket::{OpenFault, Pass, TicketLock};
use std::alloc::Global;
use std::sync::{Mutex, Wait};
use std::thread;
use std::thread::Threads;
use std::time::{Clock, Duration, Instant};

// Returns the report of an increment.
fn increment(replica: u8) -> Command {
    Command::Operate {
        replica,
        op: Op::Inc,
        stamp: None,
    }
}

// Opens a lock over a monitor of a counter, with a pass for each replica.
fn opened(alloc: Global, replicas: u8) -> Result<(TicketLock<Monitor>, Vec<Pass<Monitor>>)>
    ensures { IfOk result (λ opened. All (IsPassOf opened.0) opened.1.items) }
{
    let Ok(monitor) = Monitor::new(alloc, Kind::Counter, replicas, MOST_ENTRIES) else {
        bail!("no monitor");
    };
    match TicketLock::open(alloc, monitor, replicas, 0) {
        Ok(opened) => Ok(opened),
        Err(OpenFault::BadPasses(_)) => bail!("bad passes"),
        Err(OpenFault::NoMemory) => bail!("no memory"),
    }
}

/// Returns the time that this many threads take for this many reports each, with the ticket lock.
pub fn by_lock<R: Threads + Wait + Clock + Sync>(
    rt: &R,
    alloc: Global,
    threads: u8,
    reports: u32,
) -> Result<Duration> {
    // The lock is dropped at one place, since a proof unfolds its fields at each.
    let (lock, passes) = opened(alloc, threads)?;
    time_of(rt, &lock, passes, reports)
}

fn time_of<R: Threads + Wait + Clock + Sync>(
    rt: &R,
    lock: &TicketLock<Monitor>,
    passes: Vec<Pass<Monitor>>,
    reports: u32,
) -> Result<Duration>
    requires { All (IsPassOf lock.now) passes.items }
{
    let start = Instant::now(rt)?;
    let answered = thread::map_vec(
        rt,
        passes,
        &|pass: Pass<Monitor>| -> u32
            requires { IsPassOf lock.now pass }
        { submit_all(rt, lock, pass, reports) },
    )?;
    let time = start.elapsed(rt)?;
    if answered.iter().any(|count| *count != reports) {
        bail!("a report to the lock was not answered");
    }
    Ok(time)
}

// Returns how many of the reports are answered.
fn submit_all<R: Wait>(
    rt: &R,
    lock: &TicketLock<Monitor>,
    mut pass: Pass<Monitor>,
    reports: u32,
) -> u32
    requires { IsPassOf lock.now pass }
{
    let replica = pass.number();
    let mut answered = 0u32;
    for _ in 0..reports {
        if lock.submit(rt, &mut pass, increment(replica)).is_ok() {
            answered = answered.saturating_add(1);
        }
    }
    answered
}

/// Returns the time that this many threads take for this many reports each, with a Mutex around the same monitor.
pub fn by_mutex<R: Threads + Wait + Clock + Sync>(
    rt: &R,
    alloc: Global,
    threads: u8,
    reports: u32,
) -> Result<Duration> {
    let Ok(reporter) = Reporter::new(alloc, Kind::Counter, threads, MOST_ENTRIES) else {
        bail!("no monitor");
    };
    let guarded = Mutex::new(reporter);
    let shared = &guarded;
    let start = Instant::now(rt)?;
    let answered = thread::map_indices(
        rt,
        alloc,
        usize::from(threads),
        &|index: usize| { tell_all(rt, shared, u8::try_from(index).unwrap_or(0), reports) },
    )?;
    let time = start.elapsed(rt)?;
    if answered.iter().any(|count| *count != reports) {
        bail!("a report to the Mutex was not answered");
    }
    Ok(time)
}

// Returns how many of the reports are answered.
fn tell_all<R: Wait>(rt: &R, guarded: &Mutex<Reporter>, replica: u8, reports: u32) -> u32 {
    let mut answered = 0u32;
    for _ in 0..reports {
        if guarded.lock(rt).tell(increment(replica)).is_ok() {
            answered = answered.saturating_add(1);
        }
    }
    answered
}
