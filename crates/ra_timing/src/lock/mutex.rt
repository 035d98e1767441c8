//! The number of calls that threads complete at a Mutex around the same log, with its length in a word beside it. The
//! lock is compared with this.

use super::journal::Call;
use super::waits::{AcquireMode, start_together};
use anyhow::Result;
use ra_ticket::{Entry, MOST_ENTRIES};
use std::alloc::Global;
use std::sync::atomic::{AtomicUsize, Ordering};
use std::sync::{Mutex, Wait};
use std::thread;
use std::thread::Threads;
use std::time::{Clock, Duration, Instant};

// A log under a Mutex, and the number of its entries.
#[derive(Drop)]
struct Shared {
    log: Mutex<Vec<Call>>,
    calls: AtomicUsize,
    // Whether a thread that has locked it yields the processor.
    yields: bool,
}

/// Runs a thread for each of these ways for this time. Returns how often each was answered, also by a full log. If it
/// `yields`, each thread that has locked the Mutex yields the processor.
pub fn answered_by_mutex<R: Threads + Wait + Clock + Sync>(
    rt: &R,
    alloc: Global,
    ways: &[AcquireMode],
    yields: bool,
    time: Duration,
) -> Result<Vec<u32>> {
    let made = Shared {
        log: Mutex::new(Vec::new(alloc)),
        calls: AtomicUsize::new(0),
        yields,
    };
    let started = AtomicUsize::new(0);
    let (shared, count) = (&made, ways.len());
    let answered = thread::map_indices(
        rt,
        alloc,
        count,
        &|place: usize| -> u32 {
            start_together(&started, count);
            match ways.get(place) {
                Some(way) => answered_in(rt, shared, *way, time),
                None => 0,
            }
        },
    )?;
    Ok(answered)
}

// Returns how often the Mutex is not found locked in this time, or 0 if there is no clock.
fn answered_in<R: Wait + Clock>(rt: &R, shared: &Shared, way: AcquireMode, time: Duration) -> u32 {
    let Ok(start) = Instant::now(rt) else {
        return 0;
    };
    let mut answered = 0u32;
    for call in 0..u32::MAX {
        if !start.elapsed(rt).is_ok_and(|passed| passed < time) {
            break;
        }
        if is_answered(rt, shared, way, call) {
            answered = answered.saturating_add(1);
        }
    }
    answered
}

// Returns `true` if the Mutex is not found locked. The call is then logged.
fn is_answered<R: Wait>(rt: &R, shared: &Shared, way: AcquireMode, call: u32) -> bool {
    match way {
        AcquireMode::Submit => {
            log_call(&mut shared.log.lock(rt), shared, call);
            true
        }
        AcquireMode::Try => match shared.log.try_lock() {
            Some(mut log) => {
                log_call(&mut log, shared, call);
                true
            }
            None => false,
        },
        AcquireMode::Glance => shared.calls.load(Ordering::SeqCst) <= MOST_ENTRIES as usize,
    }
}

// Logs the call, unless the log is full or an allocation fails.
fn log_call(log: &mut Vec<Call>, shared: &Shared, command: u32) {
    if shared.yields {
        thread::yield_now();
    }
    let Ok(reply) = u32::try_from(log.len()) else {
        return;
    };
    if reply >= MOST_ENTRIES {
        return;
    }
    let entry = Entry {
        pass: 0,
        ticket: log.len() as u64,
        command,
        reply,
    };
    if log.push(entry).is_ok() {
        shared.calls.store(log.len(), Ordering::SeqCst);
    }
}
