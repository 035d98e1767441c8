//! The lock beside a Mutex around the same log, and around the same monitor: a million calls of each on 1, 2, 4, 8 and
//! 64 threads; the number of calls that each of several threads completes, in turns; and the order in which waiting
//! callers are served. `tests/program/fairness` bounds the last two.

mod calls;
mod gated;
mod journal;
mod monitor;
mod mutex;
mod order;
mod waits;

use anyhow::Result;
use calls::{by_lock, by_mutex};
use mutex::answered_by_mutex;
use order::places_of_callers;
use std::alloc::Global;
use std::io::Print;
use std::sync::Wait;
use std::thread::Threads;
use std::time::{Clock, Duration};
use waits::{AcquireMode, answered_of_each};

/// The number of calls that are timed, over all threads.
const CALLS: u32 = 1_000_000;

/// The number of turns of the lock and of the Mutex, one after the other.
const TURNS: u32 = 5;

/// The duration of each turn, in milliseconds.
const TURN_MILLIS: u64 = 200;

/// The ways in which threads use the lock.
#[derive(Clone, Copy)]
pub enum Asked {
    /// Eight threads submit.
    Calls,
    /// Eight threads submit, and the holder of the lock yields the processor.
    Yields,
    /// One thread submits.
    Alone,
    /// Two threads try.
    Attempts,
    /// One thread submits, and one glances.
    Glances,
}

impl Asked {
    fn ways(self) -> &'static [AcquireMode] {
        match self {
            Asked::Calls | Asked::Yields => &[AcquireMode::Submit; 8],
            Asked::Alone => &[AcquireMode::Submit],
            Asked::Attempts => &[AcquireMode::Try; 2],
            Asked::Glances => &[AcquireMode::Submit, AcquireMode::Glance],
        }
    }
}

/// Prints how often each thread was answered, in turns by the lock and by a Mutex: a line for each turn of either.
pub fn print_counts<R: Threads + Wait + Clock + Print + Sync>(
    rt: &R,
    alloc: Global,
    asked: Asked,
) -> Result<()> {
    let (ways, time) = (asked.ways(), Duration::from_millis(TURN_MILLIS));
    let yields = matches!(asked, Asked::Yields);
    for _ in 0..TURNS {
        let lock = answered_of_each(rt, alloc, ways, yields, time)?;
        print_turn(rt, "lock", &lock)?;
        let mutex = answered_by_mutex(rt, alloc, ways, yields, time)?;
        print_turn(rt, "mutex", &mutex)?;
    }
    Ok(())
}

fn print_turn(rt: &impl Print, name: &str, counts: &[u32]) -> Result<()> {
    print!(rt; "{name}")?;
    for count in counts {
        print!(rt; " {count}")?;
    }
    println!(rt; "")?;
    Ok(())
}

/// Prints the index in the log of the holder's call, and of each caller's in the order of their arrival. Then prints
/// how many callers were seen to wait. Each number has a line.
pub fn print_places<R: Threads + Wait + Clock + Print + Sync>(rt: &R, alloc: Global) -> Result<()> {
    for place in &places_of_callers(rt, alloc)? {
        println!(rt; "{place}")?;
    }
    Ok(())
}

/// Prints the times of lock and Mutex, a line for each number of threads.
pub fn print_times<R: Threads + Wait + Clock + Print + Sync>(rt: &R, alloc: Global) -> Result<()> {
    println!(rt; "threads  lock (ms)  mutex (ms)")?;
    for threads in [1u8, 2, 4, 8, 64] {
        let calls = CALLS / u32::from(threads);
        let lock = by_lock(rt, alloc, threads, calls)?;
        let mutex = by_mutex(rt, alloc, threads, calls)?;
        println!(rt;
            "{threads:>7}  {:>9}  {:>10}",
            lock.as_millis(),
            mutex.as_millis()
        )?;
    }
    Ok(())
}

/// Prints the times of a monitor behind the lock and behind a Mutex, a line for each number of threads. Each is the
/// least of several turns, so that other work on the machine matters little.
pub fn print_monitor_times<R: Threads + Wait + Clock + Print + Sync>(
    rt: &R,
    alloc: Global,
) -> Result<()> {
    println!(rt; "threads  lock (ms)  mutex (ms)")?;
    for threads in [1u8, 2, 4, 8, 64] {
        let reports = CALLS / u32::from(threads);
        let (lock, mutex) = least_monitor_times(rt, alloc, threads, reports)?;
        println!(rt; "{threads:>7}  {lock:>9}  {mutex:>10}")?;
    }
    Ok(())
}

// Returns the least time of the lock and of the Mutex, in milliseconds.
fn least_monitor_times<R: Threads + Wait + Clock + Sync>(
    rt: &R,
    alloc: Global,
    threads: u8,
    reports: u32,
) -> Result<(u128, u128)> {
    let (mut lock, mut mutex) = (u128::MAX, u128::MAX);
    for _ in 0..TURNS {
        let time = monitor::by_lock(rt, alloc, threads, reports)?;
        lock = lock.min(time.as_millis());
        let time = monitor::by_mutex(rt, alloc, threads, reports)?;
        mutex = mutex.min(time.as_millis());
    }
    Ok((lock, mutex))
}
