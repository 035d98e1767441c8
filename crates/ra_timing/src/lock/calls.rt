//! Timed calls from several threads.
ghost use Rattle.std.specs.Prelude.{All, IfOk};
ghost use Rattle.ra_ticket.specs.Passes.{IsPassOf};

use super::journal::{Call, Log};
use anyhow::{Result, bail};
use ra_ticket::{Entry, OpenFault, Pass, TicketLock};
use std::alloc::Global;
use std::sync::{Mutex, Wait};
use std::thread;
use std::thread::Threads;
use std::time::{Clock, Duration, Instant};

/// Opens a lock over an empty log, with this many passes.
pub fn opened(alloc: Global, passes: u8, yields: bool) -> Result<(TicketLock<Log>, Vec<Pass<Log>>)>
    ensures { IfOk result (λ opened. All (IsPassOf opened.0) opened.1.items) }
{
    match TicketLock::open(alloc, Log::new(alloc, yields), passes, 0) {
        Ok(opened) => Ok(opened),
        Err(OpenFault::BadPasses(_)) => bail!("bad passes"),
        Err(OpenFault::NoMemory) => bail!("no memory"),
    }
}

/// Returns the time that this many passes take for this many calls each, with the ticket lock.
pub fn by_lock<R: Threads + Wait + Clock + Sync>(
    rt: &R,
    alloc: Global,
    threads: u8,
    calls: u32,
) -> Result<Duration> {
    // The lock is dropped at one place, since a proof unfolds its fields at each.
    let (lock, passes) = opened(alloc, threads, false)?;
    time_of(rt, &lock, passes, calls)
}

fn time_of<R: Threads + Wait + Clock + Sync>(
    rt: &R,
    lock: &TicketLock<Log>,
    passes: Vec<Pass<Log>>,
    calls: u32,
) -> Result<Duration>
    requires { All (IsPassOf lock.now) passes.items }
{
    let start = Instant::now(rt)?;
    let answered = thread::map_vec(
        rt,
        passes,
        &|pass: Pass<Log>| -> u32
            requires { IsPassOf lock.now pass }
        { submit_all(rt, lock, pass, calls) },
    )?;
    let time = start.elapsed(rt)?;
    if answered.iter().any(|count| *count != calls) {
        bail!("a call of the lock was not answered");
    }
    Ok(time)
}

// Returns how many of the calls are answered.
fn submit_all<R: Wait>(rt: &R, lock: &TicketLock<Log>, mut pass: Pass<Log>, calls: u32) -> u32
    requires { IsPassOf lock.now pass }
{
    let mut answered = 0u32;
    for call in 0..calls {
        if lock.submit(rt, &mut pass, call).is_ok() {
            answered = answered.saturating_add(1);
        }
    }
    answered
}

/// Returns the time that this many threads take for this many pushes each, with a Mutex around the same log.
pub fn by_mutex<R: Threads + Wait + Clock + Sync>(
    rt: &R,
    alloc: Global,
    threads: u8,
    calls: u32,
) -> Result<Duration> {
    let log = Mutex::new(Vec::new(alloc));
    let shared = &log;
    let start = Instant::now(rt)?;
    let pushed = thread::map_indices(
        rt,
        alloc,
        usize::from(threads),
        &|_: usize| { push_all(rt, shared, calls) },
    )?;
    let time = start.elapsed(rt)?;
    if pushed.iter().any(|count| *count != calls) {
        bail!("a push was refused memory");
    }
    Ok(time)
}

// Returns how many of the calls are logged.
fn push_all<R: Wait>(rt: &R, log: &Mutex<Vec<Call>>, calls: u32) -> u32 {
    let mut pushed = 0u32;
    for command in 0..calls {
        let mut entries = log.lock(rt);
        let entry = Entry {
            pass: 0,
            ticket: entries.len() as u64,
            command,
            reply: 0,
        };
        if entries.push(entry).is_ok() {
            pushed = pushed.saturating_add(1);
        }
    }
    pushed
}
