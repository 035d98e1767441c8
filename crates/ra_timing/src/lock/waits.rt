//! The number of calls that each of several threads completes beside others.
ghost use Rattle.ra_ticket.specs.Passes.{IsPassOf};

use super::calls::opened;
use super::journal::Log;
use anyhow::Result;
use ra_ticket::{CallFault, Pass, TicketLock};
use std::alloc::Global;
use std::sync::Wait;
use std::sync::atomic::{AtomicUsize, Ordering};
use std::thread::Threads;
use std::time::{Clock, Duration, Instant};
use std::{hint, thread};

// The number of times that a thread looks whether all have started.
const MOST_LOOKS: u32 = 1_000_000;

/// Waits until this many threads have arrived, for a bounded time, since some may be unable to run beside this one.
pub fn start_together(started: &AtomicUsize, count: usize) {
    started.fetch_add(1, Ordering::SeqCst);
    for _ in 0..MOST_LOOKS {
        if started.load(Ordering::SeqCst) >= count {
            return;
        }
        hint::spin_loop();
    }
}

/// The way in which a thread uses the lock.
#[derive(Clone, Copy)]
pub enum AcquireMode {
    /// A call that waits for its turn.
    Submit,
    /// An attempt, which finds the lock busy if another call is in progress.
    Try,
    /// A look at the number of entries.
    Glance,
}

/// Runs a thread for each of these ways for this time. Returns how often each was answered, also by a full log. If the
/// log `yields`, each step yields the processor.
pub fn answered_of_each<R: Threads + Wait + Clock + Sync>(
    rt: &R,
    alloc: Global,
    ways: &[AcquireMode],
    yields: bool,
    time: Duration,
) -> Result<Vec<u32>> {
    let (lock, passes) = opened(alloc, u8::try_from(ways.len())?, yields)?;
    let started = AtomicUsize::new(0);
    let (shared, count) = (&lock, passes.len());
    let answered = thread::map_vec(
        rt,
        passes,
        &|pass: Pass<Log>| -> u32
            requires { IsPassOf shared.now pass }
        {
            start_together(&started, count);
            match ways.get(usize::from(pass.number())) {
                Some(way) => answered_in(rt, shared, pass, *way, time),
                None => 0,
            }
        },
    )?;
    Ok(answered)
}

// Returns how often the lock is not found busy in this time, or 0 if there is no clock.
fn answered_in<R: Wait + Clock>(
    rt: &R,
    lock: &TicketLock<Log>,
    mut pass: Pass<Log>,
    way: AcquireMode,
    time: Duration,
) -> u32
    requires { IsPassOf lock.now pass }
{
    let Ok(start) = Instant::now(rt) else {
        return 0;
    };
    let mut answered = 0u32;
    for call in 0..u32::MAX {
        if !start.elapsed(rt).is_ok_and(|passed| passed < time) {
            break;
        }
        if !is_busy(rt, lock, &mut pass, way, call) {
            answered = answered.saturating_add(1);
        }
    }
    answered
}

// Returns `true` if the lock is busy. A full log hands a call back, in its turn.
fn is_busy<R: Wait>(
    rt: &R,
    lock: &TicketLock<Log>,
    pass: &mut Pass<Log>,
    way: AcquireMode,
    call: u32,
) -> bool
    requires { IsPassOf lock.now pass.old }
    ensures { IsPassOf lock.now pass.new }
{
    let reply = match way {
        AcquireMode::Submit => lock.submit(rt, pass, call),
        AcquireMode::Try => lock.try_submit(pass, call),
        AcquireMode::Glance => {
            let _found = lock.glance(pass);
            return false;
        }
    };
    matches!(reply, Err(CallFault::Busy { .. }))
}
