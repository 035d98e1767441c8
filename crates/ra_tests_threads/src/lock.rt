//! The lock over the toy journal `Tally`.
ghost use Rattle.std.specs.Prelude.{◌≡◌, ◌<◌, ◌≤◌, [], All};
ghost use Rattle.ra_ticket.specs.Passes.{IsPassOf, IsSamePass};

mod halt;
mod tally;
pub mod threads;

use halt::{Flag, Halt, is_raised_in_time, lowered, raise, shared};
use ra_ticket::{
    CallFault, Caller, Glance, Journal, MOST_ENTRIES, OpenFault, Pass, StepFault, TicketLock,
};
use std::alloc::Global;
use std::process::Abort;
use std::sync::Wait;
use std::sync::atomic::{AtomicU64, Ordering};
use std::thread;
use std::thread::Threads;
use tally::Tally;
use threads::{Found, call_and_look_on, counted, last_pass, replies, replies_of_threads};

/// The last ticket that can be drawn, 2^64 - 2.
pub const GREATEST: u64 = 18_446_744_073_709_551_614;

fn is_shared<T: Send + Sync>(_value: &T) {}

fn is_sent<T: Send>(_value: &T) {}

// Makes a call, by the generic bound alone.
fn call<M: Journal, R: Wait>(
    rt: &R,
    lock: &TicketLock<M>,
    pass: &mut Pass<M>,
    command: M::Command,
) -> Result<M::Reply, CallFault<M::Command>>
    requires { IsPassOf lock.now pass.old }
    ensures { IsSamePass pass.old pass.new }
{
    is_shared(lock);
    is_sent(pass);
    lock.submit(rt, pass, command)
}

// Asserts that the call has this result.
fn is_answered<R: Wait + Abort>(
    rt: &R,
    lock: &TicketLock<Tally>,
    pass: &mut Pass<Tally>,
    command: u32,
    wanted: Result<u32, CallFault<u32>>,
)
    requires { IsPassOf lock.now pass.old }
    ensures { IsSamePass pass.old pass.new }
{
    let answer = call(rt, lock, pass, command);
    assert_eq!(rt; answer, wanted);
}

// Returns the journal's own values, by the generic bound alone.
fn told<M: Journal>(journal: &M) -> (u32, u32, Option<u32>, Option<u64>) {
    (
        journal.limit(),
        journal.calls(),
        journal.fault(),
        journal.last_ticket(),
    )
}

// Asserts that the tally has a limit of two, this many calls, this last ticket, and no fault.
fn tells(rt: &impl Abort, tally: &Tally, calls: u32, last: Option<u64>) {
    assert_eq!(rt; told(tally), (2, calls, None, last));
}

fn is_stepped(
    rt: &impl Abort,
    answer: Result<u32, StepFault<u32>>,
    wanted: Result<u32, StepFault<u32>>,
) {
    assert_eq!(rt; answer, wanted);
}

// Creates a tally whose drops are not counted.
fn tally_of(rt: &impl Abort, alloc: Global, limit: u32) -> Tally
    requires { (0 < limit) × (limit ≤ MOST_ENTRIES) }
    ensures { result.log.items ≡ [] }
{
    Tally::new(alloc, limit, lowered(rt, alloc))
}

// A test that owns a lock has one exit, since a proof unfolds all of the lock's fields at each. What can fail panics in
// a `match`; the `else` of a `let` would drop everything before it.

// Opens a lock over the tally, and returns it with its passes.
fn opened(
    rt: &impl Abort,
    alloc: Global,
    tally: Tally,
    passes: u8,
    first: u64,
) -> (TicketLock<Tally>, Vec<Pass<Tally>>)
    requires { tally.log.items ≡ [] }
    ensures { All (IsPassOf result.0) result.1.items }
{
    match TicketLock::open(alloc, tally, passes, first) {
        Ok(opened) => opened,
        Err(_) => panic!(rt; "no lock"),
    }
}

#[test]
fn a_tally_replies_its_total_and_logs_each_step(rt: HostRuntime) {
    let mut tally = tally_of(&rt, rt.alloc(), 2);
    tells(&rt, &tally, 0, None);
    is_stepped(&rt, tally.step(3, 0, 4_294_967_295), Ok(4_294_967_295));
    tells(&rt, &tally, 1, Some(0));
    is_stepped(&rt, tally.step(1, 9, 5), Ok(4));
    is_stepped(&rt, tally.step(1, 10, 6), Err(StepFault::Full(6)));
    tells(&rt, &tally, 2, Some(9));
}

#[test]
fn threads_that_start_together_take_turns(rt: HostRuntime) {
    for count in [2, 4, 8] {
        let tally = tally_of(&rt, rt.alloc(), 1_048_576);
        let (lock, passes) = opened(&rt, rt.alloc(), tally, count, 7);
        take_turns(
            &rt,
            rt.alloc(),
            &lock,
            passes,
            25_000,
            u32::from(count) * 25_000,
        );
    }
}

// The replies, sorted, are 1 to 200, each once.
#[test]
fn two_threads_make_a_hundred_calls_each(rt: HostRuntime) {
    let tally = tally_of(&rt, rt.alloc(), 1_000);
    let (lock, passes) = opened(&rt, rt.alloc(), tally, 2, 0);
    take_turns(&rt, rt.alloc(), &lock, passes, 100, 200);
}

// Makes this many calls with each pass on a thread of its own. Asserts that each call is replied to in its turn, up to
// the last one.
fn take_turns<R: Abort + Threads + Wait + Sync>(
    rt: &R,
    alloc: Global,
    lock: &TicketLock<Tally>,
    passes: Vec<Pass<Tally>>,
    calls: u32,
    last: u32,
)
    requires { All (IsPassOf lock.now) passes.items }
{
    match replies_of_threads(rt, alloc, lock, passes, calls) {
        Ok(answers) => are_in_turn(rt, alloc, answers, last),
        Err(_) => panic!(rt; "no memory"),
    }
}

// Asserts that each thread's replies ascend, and that all together are the numbers from 1 to the last one.
fn are_in_turn(rt: &impl Abort, alloc: Global, answers: Vec<Vec<u32>>, last: u32) {
    let mut all = Vec::new(alloc);
    for replies in &answers {
        assert!(rt; replies.as_slice().is_sorted(), "to {last}");
        assert!(rt; all.extend_from_slice(replies.as_slice()).is_ok());
    }
    assert!(rt; all.sort().is_ok());
    assert_eq!(rt; all.as_slice(), counted(rt, alloc, last).as_slice());
}

#[test]
fn the_greatest_ticket_is_served_and_then_the_lock_is_worn(rt: HostRuntime) {
    let tally = tally_of(&rt, rt.alloc(), 1_000);
    let (lock, mut passes) = opened(&rt, rt.alloc(), tally, 2, GREATEST);
    let mut other = last_pass(&rt, &lock, &mut passes);
    let mut pass = last_pass(&rt, &lock, &mut passes);
    is_answered(&rt, &lock, &mut pass, 5, Ok(5));
    is_answered(&rt, &lock, &mut other, 6, Err(CallFault::Worn(6)));
    is_answered(&rt, &lock, &mut pass, 7, Err(CallFault::Worn(7)));
}

// No pass, and more passes than the largest number.
#[test]
fn bad_numbers_of_passes_give_the_journal_back(rt: HostRuntime) {
    for passes in [0, 65, 255] {
        let tally = tally_of(&rt, rt.alloc(), 9);
        match TicketLock::open(rt.alloc(), tally, passes, 0) {
            Err(OpenFault::BadPasses(back)) => {
                assert_eq!(rt; told(&back), (9, 0, None, None), "{passes} passes")
            }
            _ => panic!(rt; "{passes} passes"),
        }
    }
}

// One pass makes two thousand entries. The largest number of passes makes more together, by calls or by attempts.
#[test]
fn passes_are_served_in_order(rt: HostRuntime) {
    for (count, calls, waits) in [(1, 2_000, true), (64, 40, true), (64, 40, false)] {
        let tally = tally_of(&rt, rt.alloc(), 4_000);
        let (lock, passes) = opened(&rt, rt.alloc(), tally, count, 3);
        assert_eq!(rt; passes.len(), usize::from(count));
        let mut served = Vec::new(rt.alloc());
        for pass in passes {
            let before = u32::from(pass.number()).wrapping_mul(calls);
            assert_eq!(rt; served.len(), before as usize);
            assert!(rt; replies(&rt, &lock, pass, calls, waits, &mut served).is_ok());
        }
        let last = u32::from(count).wrapping_mul(calls);
        assert_eq!(rt;
            served.as_slice(),
            counted(&rt, rt.alloc(), last).as_slice()
        );
    }
}

#[test]
fn a_full_log_hands_the_command_back_and_the_next_pass_is_served(rt: HostRuntime) {
    let (lock, passes) = opened(&rt, rt.alloc(), tally_of(&rt, rt.alloc(), 2), 3, 0);
    for mut pass in passes {
        let replies = [
            call(&rt, &lock, &mut pass, 5),
            call(&rt, &lock, &mut pass, 6),
        ];
        if pass.number() == 0 {
            assert_eq!(rt; replies, [Ok(5), Ok(11)]);
        } else {
            assert_eq!(rt; replies, [Err(CallFault::Full(5)), Err(CallFault::Full(6))]);
        }
    }
}

// Glances, by the generic bound alone.
fn calls_seen<M: Journal>(lock: &TicketLock<M>, pass: &mut Pass<M>) -> Glance
    requires { IsPassOf lock.now pass.old }
    ensures { IsSamePass pass.old pass.new }
{
    lock.glance(pass)
}

#[test]
fn a_pass_that_has_seen_nothing_glances_each_call(rt: HostRuntime) {
    let (lock, mut passes) = opened(&rt, rt.alloc(), tally_of(&rt, rt.alloc(), 9), 2, 0);
    let mut other = last_pass(&rt, &lock, &mut passes);
    let mut pass = last_pass(&rt, &lock, &mut passes);
    let none = Glance {
        calls: 0,
        fault: None,
    };
    let one = Glance { calls: 1, ..none };
    assert_eq!(rt; calls_seen(&lock, &mut pass), none);
    is_answered(&rt, &lock, &mut pass, 5, Ok(5));
    assert_eq!(rt; calls_seen(&lock, &mut pass), one);
    assert_eq!(rt; calls_seen(&lock, &mut other), one);
}

#[test]
fn a_dropped_pass_harms_nobody(rt: HostRuntime) {
    let (lock, mut passes) = opened(&rt, rt.alloc(), tally_of(&rt, rt.alloc(), 9), 2, 0);
    let mut other = last_pass(&rt, &lock, &mut passes);
    let mut pass = last_pass(&rt, &lock, &mut passes);
    is_answered(&rt, &lock, &mut pass, 1, Ok(1));
    drop(pass);
    is_answered(&rt, &lock, &mut other, 2, Ok(3));
}

// A lock that is not opened, one that is never used, and one that is used until it is full or worn.
#[test]
fn the_journal_is_dropped_once(rt: HostRuntime) {
    for (count, first, calls) in [
        (0, 0, 0),
        (65, 0, 0),
        (2, 0, 0),
        (3, 0, 2),
        (3, GREATEST, 2),
    ] {
        let drops = lowered(&rt, rt.alloc());
        let tally = Tally::new(rt.alloc(), 2, shared(&rt, &drops));
        match TicketLock::open(rt.alloc(), tally, count, first) {
            Ok((lock, passes)) => use_and_drop(&rt, rt.alloc(), lock, passes, calls, &drops),
            Err(fault) => {
                assert_eq!(rt; drops.load(Ordering::SeqCst), 0);
                drop(fault);
            }
        }
        let dropped = drops.load(Ordering::SeqCst);
        assert_eq!(rt; dropped, 1, "{count} passes, {calls} calls");
    }
}

// Makes calls with all passes but one. Nothing is dropped before the lock, which the last pass outlives.
fn use_and_drop<R: Abort + Wait>(
    rt: &R,
    alloc: Global,
    lock: TicketLock<Tally>,
    mut passes: Vec<Pass<Tally>>,
    calls: u32,
    drops: &AtomicU64,
)
    requires { All (IsPassOf lock) passes.items }
{
    let outlives = last_pass(rt, &lock, &mut passes);
    let mut served = Vec::new(alloc);
    for pass in passes {
        assert!(rt; replies(rt, &lock, pass, calls, true, &mut served).is_ok());
    }
    assert_eq!(rt; drops.load(Ordering::SeqCst), 0);
    drop(lock);
    drop(outlives);
}

// Returns a tally whose steps halt, and the flags of the halt.
fn halting_tally(rt: &impl Abort, alloc: Global) -> (Tally, Flag, Flag)
    ensures { result.0.log.items ≡ [] }
{
    let inside = lowered(rt, alloc);
    let go_on = lowered(rt, alloc);
    let halt = Halt {
        inside: shared(rt, &inside),
        go_on: shared(rt, &go_on),
    };
    (tally_of(rt, alloc, 9).halting(halt), inside, go_on)
}

#[test]
fn a_call_under_way_keeps_others_out_and_lets_them_glance(rt: HostRuntime) {
    let (tally, inside, go_on) = halting_tally(&rt, rt.alloc());
    let (lock, mut passes) = opened(&rt, rt.alloc(), tally, 2, 10);
    let other = last_pass(&rt, &lock, &mut passes);
    let pass = last_pass(&rt, &lock, &mut passes);
    let (reply, found, then) = call_and_look_on(&rt, &lock, pass, other, &inside, &go_on);
    let busy = CallFault::Busy {
        at: 10,
        found: 11,
        command: 7,
    };
    let meanwhile = Found {
        call: Err(busy),
        calls: 0,
    };
    let afterwards = Found {
        call: Ok(12),
        calls: 1,
    };
    assert_eq!(rt; (reply, found, then), (Ok(5), Some(meanwhile), afterwards));
}

// Returns the first two callers of a lock over the tally.
fn two_callers(rt: &impl Abort, alloc: Global, tally: Tally) -> (Caller<Tally>, Caller<Tally>)
    requires { tally.log.items ≡ [] }
{
    let mut callers = match Caller::open(alloc, tally, 2) {
        Ok(callers) => callers,
        Err(_) => panic!(rt; "no lock"),
    };
    let second = last_caller(rt, &mut callers);
    (last_caller(rt, &mut callers), second)
}

fn last_caller(rt: &impl Abort, callers: &mut Vec<Caller<Tally>>) -> Caller<Tally> {
    match callers.pop() {
        Some(caller) => caller,
        None => panic!(rt; "too few callers"),
    }
}

// A call in progress, found by a caller, which has its lock with it.
#[test]
fn a_caller_finds_a_call_under_way(rt: HostRuntime) {
    let (tally, inside, go_on) = halting_tally(&rt, rt.alloc());
    let (mut caller, mut other) = two_callers(&rt, rt.alloc(), tally);
    let (reply, found) = thread::join(
        &rt,
        || caller.submit(&rt, 5),
        || try_inside(&mut other, &inside, &go_on),
    );
    let busy = CallFault::Busy {
        at: 0,
        found: 1,
        command: 7,
    };
    assert_eq!(rt; (reply, found), (Ok(5), Some(Err(busy))));
    assert_eq!(rt; other.try_submit(7), Ok(12));
}

// Once `inside` is raised, tries a call with the caller, and raises `go_on`.
fn try_inside(
    caller: &mut Caller<Tally>,
    inside: &AtomicU64,
    go_on: &AtomicU64,
) -> Option<Result<u32, CallFault<u32>>> {
    if !is_raised_in_time(inside) {
        return None;
    }
    let found = caller.try_submit(7);
    raise(go_on);
    Some(found)
}
