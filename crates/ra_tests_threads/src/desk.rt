//! A monitor behind the ticket lock.

ghost use Rattle.ra_ticket.specs.Passes.{IsPassOf};

use crate::desks::{
    are_found, count, counted, got_the_first, increment, is_full, is_told, is_worn, last, opened,
    opened_again, reply_in, write,
};
use crate::lock::GREATEST;
use crate::lock::threads::last_pass;
use ra_desk::Desk;
use ra_labels::{Cause, Command, Reply};
use ra_monitor::Monitor;
use ra_ticket::Pass;
use std::process::Abort;
use std::sync::Wait;

// Returns the reply of the desk, or `None` if the command is handed back.
fn submitted<R: Wait>(
    rt: &R,
    desk: &Desk,
    pass: &mut Pass<Monitor>,
    command: Command,
) -> Option<Reply>
    requires { IsPassOf desk.now pass.old }
    ensures { IsPassOf desk.now pass.new }
{
    reply_in(desk.submit(rt, pass, command))
}

// Returns the reply of the desk to one attempt, or `None` if the command is handed back.
fn attempted(desk: &Desk, pass: &mut Pass<Monitor>, command: Command) -> Option<Reply>
    requires { IsPassOf desk.now pass.old }
    ensures { IsPassOf desk.now pass.new }
{
    reply_in(desk.try_submit(pass, command))
}

#[test]
fn a_desk_answers_as_the_monitor(rt: HostRuntime) {
    let (desk, passes) = opened(&rt, rt.alloc(), 3, 4, 0);
    for mut pass in passes {
        let number = pass.number();
        let (command, wanted) = match number {
            0 => (write(0, 7), Some(Reply::Ok(0))),
            1 => (got_the_first(1), Some(Reply::Got(0))),
            2 => (last(1, 7), Some(Reply::Ok(1))),
            _ => (Command::Verdict, None),
        };
        match wanted {
            Some(wanted) => is_told(&rt, submitted(&rt, &desk, &mut pass, command), wanted),
            None => assert!(rt; is_full(desk.submit(&rt, &mut pass, command))),
        }
    }
}

#[test]
fn one_pass_fills_a_desk_at_once(rt: HostRuntime) {
    let (desk, mut passes) = counted(&rt, rt.alloc(), 2, 1, 0);
    let mut pass = last_pass(&rt, &desk, &mut passes);
    let first = attempted(&desk, &mut pass, Command::Verdict);
    let second = attempted(&desk, &mut pass, Command::Verdict);
    is_told(&rt, first, Reply::Yes(0));
    is_told(&rt, second, Reply::Yes(0));
    assert!(rt; is_full(desk.try_submit(&mut pass, Command::Verdict)));
}

// The third pass never calls, so it and the first one learn of the second one's calls only by a look at the log.
#[test]
fn passes_that_meet_see_what_neither_had_seen(rt: HostRuntime) {
    let (desk, mut passes) = counted(&rt, rt.alloc(), 100, 3, 0);
    let third = last_pass(&rt, &desk, &mut passes);
    let mut second = last_pass(&rt, &desk, &mut passes);
    let mut first = last_pass(&rt, &desk, &mut passes);
    one_call_and_a_glance(&rt, &desk, &mut first);
    two_attempts(&rt, &desk, &mut second);
    let (first, third, calls) = desk.meet(first, third);
    assert!(rt; calls == 3 && first.number() == 0 && third.number() == 2);
    match desk.close(third) {
        Ok(monitor) => assert_eq!(rt; monitor.log().len(), 3),
        Err(_) => panic!(rt; "not settled"),
    }
}

fn one_call_and_a_glance<R: Abort + Wait>(rt: &R, desk: &Desk, pass: &mut Pass<Monitor>)
    requires { IsPassOf desk.now pass.old }
    ensures { IsPassOf desk.now pass.new }
{
    is_told(rt, submitted(rt, desk, pass, increment(0)), Reply::Ok(0));
    are_found(rt, desk.glance(pass), 1, None);
}

fn two_attempts(rt: &impl Abort, desk: &Desk, pass: &mut Pass<Monitor>)
    requires { IsPassOf desk.now pass.old }
{
    let first = attempted(desk, pass, got_the_first(1));
    let second = attempted(desk, pass, count(1, 1));
    is_told(rt, first, Reply::Got(0));
    is_told(rt, second, Reply::Ok(1));
}

// A worn desk still answers a glance.
#[test]
fn a_desk_is_worn_after_the_greatest_ticket(rt: HostRuntime) {
    let (desk, mut passes) = counted(&rt, rt.alloc(), 100, 3, GREATEST);
    let mut pass = last_pass(&rt, &desk, &mut passes);
    let reply = submitted(&rt, &desk, &mut pass, Command::Verdict);
    is_told(&rt, reply, Reply::Yes(0));
    are_worn(&rt, &desk, &mut pass);
    are_found(&rt, desk.glance(&mut pass), 1, None);
}

// Asserts that a call and an attempt find the desk worn.
fn are_worn<R: Abort + Wait>(rt: &R, desk: &Desk, pass: &mut Pass<Monitor>)
    requires { IsPassOf desk.now pass.old }
    ensures { IsPassOf desk.now pass.new }
{
    let call = desk.submit(rt, pass, Command::Verdict);
    let attempt = desk.try_submit(pass, Command::Verdict);
    assert!(rt; is_worn(call) && is_worn(attempt));
}

#[test]
fn a_glance_tells_the_label_of_a_fault(rt: HostRuntime) {
    let (desk, mut passes) = opened(&rt, rt.alloc(), 100, 2, 7);
    let mut other = last_pass(&rt, &desk, &mut passes);
    let mut pass = last_pass(&rt, &desk, &mut passes);
    fail(&rt, &desk, &mut pass);
    are_found(&rt, desk.glance(&mut other), 2, Some(1));
}

// Reports a read of an update that was not delivered to its replica.
fn fail<R: Abort + Wait>(rt: &R, desk: &Desk, pass: &mut Pass<Monitor>)
    requires { IsPassOf desk.now pass.old }
{
    is_told(rt, submitted(rt, desk, pass, write(0, 7)), Reply::Ok(0));
    let no = Reply::No {
        label: 1,
        cause: Cause::Query,
    };
    is_told(rt, submitted(rt, desk, pass, last(1, 7)), no);
}

// Writes by a call that waits, or by an attempt. Returns `true` if the write was accepted.
fn is_written<R: Wait>(
    rt: &R,
    desk: &Desk,
    pass: &mut Pass<Monitor>,
    clock: u32,
    waits: bool,
) -> bool
    requires { IsPassOf desk.now pass.old }
    ensures { IsPassOf desk.now pass.new }
{
    let reply = if waits {
        submitted(rt, desk, pass, write(0, clock))
    } else {
        attempted(desk, pass, write(0, clock))
    };
    matches!(reply, Some(Reply::Ok(_)))
}

// Writes, once more if an allocation fails. The desk must then be as before, and the other pass must be able to
// proceed.
fn write_again<R: Abort + Wait>(
    rt: &R,
    desk: &Desk,
    pass: &mut Pass<Monitor>,
    other: &mut Pass<Monitor>,
    clock: u32,
    waits: bool,
)
    requires { IsPassOf desk.now pass.old × IsPassOf desk.now other.old }
    ensures { IsPassOf desk.now pass.new × IsPassOf desk.now other.new }
{
    let before = desk.glance(pass);
    if is_written(rt, desk, pass, clock, waits) {
        return;
    }
    are_found(rt, desk.glance(pass), before.calls, before.fault);
    are_found(rt, desk.glance(other), before.calls, before.fault);
    let went_on = submitted(rt, desk, other, Command::Verdict);
    assert!(rt; matches!(went_on, Some(Reply::Yes(_))));
    assert!(rt; is_written(rt, desk, pass, clock, waits));
}

// Makes this many writes by two passes in turn, each a call and an attempt.
fn write_in_turn<R: Abort + Wait>(
    rt: &R,
    desk: &Desk,
    pass: &mut Pass<Monitor>,
    other: &mut Pass<Monitor>,
    turns: u32,
)
    requires { IsPassOf desk.now pass.old × IsPassOf desk.now other.old }
    ensures { IsPassOf desk.now pass.new × IsPassOf desk.now other.new }
{
    for turn in 0..turns {
        let clock = turn.wrapping_mul(2);
        write_again(rt, desk, pass, other, clock.wrapping_add(1), true);
        write_again(rt, desk, other, pass, clock.wrapping_add(2), false);
    }
}

// Three passes, of which one never calls. `tests/program/alloc_failures` lets each allocation fail in turn; if none
// fails, each call is made once.
#[test]
fn a_refused_call_leaves_the_desk(rt: HostRuntime) {
    let (desk, mut passes) = opened_again(&rt, rt.alloc(), 1_000, 3);
    let mut other = last_pass(&rt, &desk, &mut passes);
    let mut pass = last_pass(&rt, &desk, &mut passes);
    write_in_turn(&rt, &desk, &mut pass, &mut other, 300);
    let glance = desk.glance(&mut other);
    assert!(rt; glance.calls >= 600 && glance.fault.is_none());
}
