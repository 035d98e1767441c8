//! The order in which the lock serves waiting callers.
//!
//! One caller holds the lock. The others arrive one after another, each once the one before was seen to wait with a
//! ticket. An attempt shows that: it finds the lock busy, and the number of drawn tickets. When all wait, the holder
//! leaves. Nothing is timed; waits are bounded, so that a run ends even if nobody draws a ticket.

use super::gated::{Gate, Gated, HOLDS};
use anyhow::{Result, bail};
use ra_ticket::{CallFault, Caller, OpenFault};
use std::alloc::Global;
use std::sync::Wait;
use std::sync::atomic::{AtomicUsize, Ordering};
use std::thread;
use std::thread::Threads;
use std::time::{Clock, Duration};

/// The number of callers that arrive while another one holds the lock.
const CALLERS: u8 = 6;

// The number of times that a thread looks whether others have proceeded, a millisecond apart.
const MOST_LOOKS: u32 = 20_000;

// The state that the threads share.
#[derive(Drop)]
struct Hall<'a> {
    gate: &'a Gate,
    // The number of callers that may arrive.
    let_in: AtomicUsize,
}

/// Returns the index in the log of the holder's call, and of each caller's in the order of their arrival, followed by
/// how many of these were seen to wait.
pub fn places_of_callers<R: Threads + Wait + Clock + Sync>(
    rt: &R,
    alloc: Global,
) -> Result<Vec<u32>> {
    let gate = Gate::new(alloc)?;
    let callers = opened(alloc, gate.share()?)?;
    let hall = Hall {
        gate: &gate,
        let_in: AtomicUsize::new(0),
    };
    let shared = &hall;
    let places = thread::map_vec(
        rt,
        callers,
        &|caller: Caller<Gated>| -> u32 { play(rt, caller, shared) },
    )?;
    Ok(places)
}

// Opens a lock over an empty log, with a caller that holds it, those that arrive, and one that looks on.
fn opened(alloc: Global, gate: Gate) -> Result<Vec<Caller<Gated>>> {
    match Caller::open(alloc, Gated::new(alloc, gate), CALLERS + 2) {
        Ok(callers) => Ok(callers),
        Err(OpenFault::BadPasses(_)) => bail!("bad passes"),
        Err(OpenFault::NoMemory) => bail!("no memory"),
    }
}

// Runs the part of a thread, by the number of its caller.
fn play<R: Wait + Clock>(rt: &R, mut caller: Caller<Gated>, hall: &Hall<'_>) -> u32 {
    let number = caller.number();
    if number > CALLERS {
        return seen_to_wait(rt, &mut caller, hall);
    }
    await_admission(rt, hall, number);
    match caller.submit(rt, HOLDS + u32::from(number)) {
        Ok(place) => place,
        Err(_) => u32::MAX,
    }
}

// Admits the callers, each once the one before waits, and then releases the holder. Returns how many were seen to wait.
fn seen_to_wait<R: Clock>(rt: &R, caller: &mut Caller<Gated>, hall: &Hall<'_>) -> u32 {
    let mut seen = 0u32;
    if is_held(rt, hall.gate) {
        for number in 1..=CALLERS {
            hall.let_in.store(usize::from(number), Ordering::SeqCst);
            if !is_drawn(rt, caller, u64::from(number) + 1) {
                break;
            }
            seen = seen.saturating_add(1);
        }
    }
    hall.let_in.store(usize::from(CALLERS), Ordering::SeqCst);
    hall.gate.open();
    seen
}

// Waits, for a bounded time, until this many drawn tickets are not served. Returns `true` if they are drawn.
fn is_drawn<R: Clock>(rt: &R, caller: &mut Caller<Gated>, tickets: u64) -> bool {
    for _ in 0..MOST_LOOKS {
        if let Err(CallFault::Busy { at, found, .. }) = caller.try_submit(u32::MAX)
            && found.saturating_sub(at) >= tickets
        {
            return true;
        }
        thread::sleep(rt, Duration::from_millis(1));
    }
    false
}

// Waits, for a bounded time, until this caller may arrive.
fn await_admission<R: Clock>(rt: &R, hall: &Hall<'_>, number: u8) {
    for _ in 0..MOST_LOOKS {
        if hall.let_in.load(Ordering::SeqCst) >= usize::from(number) {
            return;
        }
        thread::sleep(rt, Duration::from_millis(1));
    }
}

// Waits, for a bounded time, until the lock is held. Returns `true` if it is held.
fn is_held<R: Clock>(rt: &R, gate: &Gate) -> bool {
    for _ in 0..MOST_LOOKS {
        if gate.is_held() {
            return true;
        }
        thread::sleep(rt, Duration::from_millis(1));
    }
    false
}
