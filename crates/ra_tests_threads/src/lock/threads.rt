//! Calls from several threads. They are written for `Tally`, since the check does not cover the generic form.
ghost use Rattle.std.specs.Prelude.{All};
ghost use Rattle.ra_ticket.specs.Passes.{IsPassOf};

use super::halt::{is_raised_in_time, raise};
use super::tally::Tally;
use ra_ticket::{CallFault, Journal, Pass, TicketLock};
use std::alloc::{AllocError, Global};
use std::process::Abort;
use std::sync::Wait;
use std::sync::atomic::{AtomicU64, AtomicUsize, Ordering};
use std::thread;
use std::thread::Threads;

// The number of times that a thread looks whether all have started.
const MOST_LOOKS: u32 = 1_000_000;

/// Waits until `count` threads have arrived, for a bounded time, since some may be unable to run beside this one.
pub fn start_together(started: &AtomicUsize, count: usize) {
    started.fetch_add(1, Ordering::SeqCst);
    for _ in 0..MOST_LOOKS {
        if started.load(Ordering::SeqCst) >= count {
            return;
        }
        thread::yield_now();
    }
}

/// Removes the last of the passes and returns it.
pub fn last_pass<M: Journal>(
    rt: &impl Abort,
    lock: &TicketLock<M>,
    passes: &mut Vec<Pass<M>>,
) -> Pass<M>
    requires { All (IsPassOf lock.now) passes.old.items }
    ensures others { All (IsPassOf lock.now) passes.new.items }
    ensures last { IsPassOf lock.now result }
{
    match passes.pop() {
        Some(pass) => pass,
        None => panic!(rt; "too few passes"),
    }
}

/// The results of a pass while another one's call is in progress.
#[derive(Debug, PartialEq, Eq, Drop)]
pub struct Found {
    pub call: Result<u32, CallFault<u32>>,
    pub calls: u32,
}

// Once `inside` is raised, tries a call and a glance with the pass, and raises `go_on`.
fn look_on(
    lock: &TicketLock<Tally>,
    pass: &mut Pass<Tally>,
    inside: &AtomicU64,
    go_on: &AtomicU64,
) -> Option<Found>
    requires { IsPassOf lock.now pass.old }
    ensures { IsPassOf lock.now pass.new }
{
    if !is_raised_in_time(inside) {
        return None;
    }
    let call = lock.try_submit(pass, 7);
    let calls = lock.glance(pass).calls;
    raise(go_on);
    Some(Found { call, calls })
}

/// Calls with one pass while another one looks on. When the call is over, the other one glances and tries once more.
pub fn call_and_look_on<R: Threads + Wait + Sync>(
    rt: &R,
    lock: &TicketLock<Tally>,
    mut pass: Pass<Tally>,
    mut other: Pass<Tally>,
    inside: &AtomicU64,
    go_on: &AtomicU64,
) -> (Result<u32, CallFault<u32>>, Option<Found>, Found)
    requires { IsPassOf lock.now pass × IsPassOf lock.now other }
{
    let (reply, (mut other, found)) = thread::join(
        rt,
        move || -> Result<u32, CallFault<u32>>
            requires { IsPassOf lock.now pass }
        { lock.submit(rt, &mut pass, 5) },
        move || -> (Pass<Tally>, Option<Found>)
            requires { IsPassOf lock.now other }
            ensures { IsPassOf lock.entry.now result.0 }
        {
            let found = look_on(lock, &mut other, inside, go_on);
            (other, found)
        },
    );
    let calls = lock.glance(&mut other).calls;
    let call = lock.try_submit(&mut other, 7);
    (reply, found, Found { call, calls })
}

// Makes a call, or an attempt, that adds one.
fn call<R: Wait>(
    rt: &R,
    lock: &TicketLock<Tally>,
    pass: &mut Pass<Tally>,
    waits: bool,
) -> Result<u32, CallFault<u32>>
    requires { IsPassOf lock.now pass.old }
    ensures { IsPassOf lock.now pass.new }
{
    if waits {
        lock.submit(rt, pass, 1)
    } else {
        lock.try_submit(pass, 1)
    }
}

/// Makes calls or attempts that each add one, and appends the replies of those that were answered.
pub fn replies<R: Wait>(
    rt: &R,
    lock: &TicketLock<Tally>,
    mut pass: Pass<Tally>,
    calls: u32,
    waits: bool,
    replies: &mut Vec<u32>,
) -> Result<(), AllocError>
    requires { IsPassOf lock.now pass }
{
    for _ in 0..calls {
        if let Ok(reply) = call(rt, lock, &mut pass, waits) {
            replies.push(reply)?;
        }
    }
    Ok(())
}

/// Makes `calls` calls that add one with each pass, on a thread of its own; the threads start together. Returns the
/// replies of each thread, in the order of its calls.
pub fn replies_of_threads<R: Threads + Wait + Sync>(
    rt: &R,
    alloc: Global,
    lock: &TicketLock<Tally>,
    passes: Vec<Pass<Tally>>,
    calls: u32,
) -> Result<Vec<Vec<u32>>, AllocError>
    requires { All (IsPassOf lock.now) passes.items }
{
    let started = AtomicUsize::new(0);
    let count = passes.len();
    let answers = thread::map_vec(
        rt,
        passes,
        &|pass: Pass<Tally>| -> Result<Vec<u32>, AllocError>
            requires { IsPassOf lock.now pass }
        {
            start_together(&started, count);
            let mut answers = Vec::new(alloc);
            replies(rt, lock, pass, calls, true, &mut answers)?;
            Ok(answers)
        },
    )?;
    let mut all = Vec::new(alloc);
    for answer in answers {
        all.push(answer?)?;
    }
    Ok(all)
}

/// Returns the numbers from 1 to `last`.
pub fn counted(rt: &impl Abort, alloc: Global, last: u32) -> Vec<u32> {
    let mut numbers = Vec::new(alloc);
    for n in 0..last {
        assert!(rt; numbers.push(n + 1).is_ok());
    }
    numbers
}
