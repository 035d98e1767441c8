//! A pass with its plan and its record, and its turns, alone or beside another pass.
ghost use Rattle.std.specs.Prelude.{◌≡◌, IfSome};
ghost use Rattle.ra_ticket.specs.Passes.{IsPassOf};

use crate::plan::{Act, Plan};
use crate::record::{Answer, Event, Record};
use ra_desk::Desk;
use ra_labels::{Command, NoMemory};
use ra_monitor::Monitor;
use ra_ticket::Pass;
use std::alloc::Global;
use std::sync::Wait;
use std::sync::atomic::AtomicU32;

/// A pass with its plan and its record.
#[derive(Drop)]
pub struct Player {
    /// The pass, until it is dropped.
    pub pass: Option<Pass<Monitor>>,
    /// Its plan.
    pub plan: Plan,
    /// The record of its replies.
    pub record: Record,
}

/// Takes one turn. A pass that would meet another one glances instead.
pub fn take_turn<R: Wait>(
    rt: &R,
    alloc: Global,
    desk: &Desk,
    clock: &AtomicU32,
    player: &mut Player,
) -> Result<(), NoMemory>
    requires { IfSome player.old.pass (IsPassOf desk.now) }
    ensures { IfSome player.new.pass (IsPassOf desk.now) }
{
    let act = player.plan.next(alloc, clock)?;
    do_alone(rt, desk, player, act)
}

/// Takes one turn of the first of two passes.
pub fn take_turn_beside<R: Wait>(
    rt: &R,
    alloc: Global,
    desk: &Desk,
    clock: &AtomicU32,
    player: &mut Player,
    other: &mut Player,
) -> Result<(), NoMemory>
    requires player { IfSome player.old.pass (IsPassOf desk.now) }
    requires other { IfSome other.old.pass (IsPassOf desk.now) }
    ensures player { IfSome player.new.pass (IsPassOf desk.now) }
    ensures other { IfSome other.new.pass (IsPassOf desk.now) }
{
    match player.plan.next(alloc, clock)? {
        Act::Meet => meet(desk, player, other),
        act => do_alone(rt, desk, player, act),
    }
}

fn do_alone<R: Wait>(rt: &R, desk: &Desk, player: &mut Player, act: Act) -> Result<(), NoMemory>
    requires { IfSome player.old.pass (IsPassOf desk.now) }
    ensures { IfSome player.new.pass (IsPassOf desk.now) }
{
    match act {
        Act::Call { command, waits } => call(rt, desk, player, command, waits),
        Act::Glance | Act::Meet => glance(desk, player),
        Act::Leave => {
            player.pass = None;
            Ok(())
        }
    }
}

// Makes a call, or an attempt, with the pass, if it was not dropped.
fn call<R: Wait>(
    rt: &R,
    desk: &Desk,
    player: &mut Player,
    command: Command,
    waits: bool,
) -> Result<(), NoMemory>
    requires { IfSome player.old.pass (IsPassOf desk.now) }
    ensures { IfSome player.new.pass (IsPassOf desk.now) }
{
    let kept = command.clone()?;
    match player.pass.take() {
        Some(pass) => {
            let mut pass = pass;
            let answer = answer_to(rt, desk, &mut pass, command, waits);
            player.pass = Some(pass);
            record_reply(player, kept, answer)
        }
        None => Ok(()),
    }
}

fn answer_to<R: Wait>(
    rt: &R,
    desk: &Desk,
    pass: &mut Pass<Monitor>,
    command: Command,
    waits: bool,
) -> Answer
    requires { IsPassOf desk.now pass.old }
    ensures { IsPassOf desk.now pass.new }
{
    if waits {
        desk.submit(rt, pass, command)
    } else {
        desk.try_submit(pass, command)
    }
}

// Passes the answer on to the plan and the record.
fn record_reply(player: &mut Player, command: Command, answer: Answer) -> Result<(), NoMemory>
    ensures { player.new.pass ≡ player.old.pass }
{
    match player.record.reply_in(answer) {
        Some(reply) => {
            player.plan.answered(&command, reply)?;
            player.record.answered(command, reply)
        }
        None => Ok(()),
    }
}

fn glance(desk: &Desk, player: &mut Player) -> Result<(), NoMemory>
    requires { IfSome player.old.pass (IsPassOf desk.now) }
    ensures { IfSome player.new.pass (IsPassOf desk.now) }
{
    match player.pass.take() {
        Some(pass) => {
            let mut pass = pass;
            let seen = Event::Glanced(desk.glance(&mut pass));
            player.pass = Some(pass);
            player.record.looked(seen)
        }
        None => Ok(()),
    }
}

// Lets two passes meet, if both exist.
fn meet(desk: &Desk, player: &mut Player, other: &mut Player) -> Result<(), NoMemory>
    requires player { IfSome player.old.pass (IsPassOf desk.now) }
    requires other { IfSome other.old.pass (IsPassOf desk.now) }
    ensures player { IfSome player.new.pass (IsPassOf desk.now) }
    ensures other { IfSome other.new.pass (IsPassOf desk.now) }
{
    let (one, two, calls) = met(desk, player.pass.take(), other.pass.take());
    player.pass = one;
    other.pass = two;
    if let Some(calls) = calls {
        player.record.looked(Event::Met(calls))?;
        other.record.looked(Event::Met(calls))?;
    }
    Ok(())
}

// Returns both passes, with the number of calls if both exist.
fn met(
    desk: &Desk,
    one: Option<Pass<Monitor>>,
    two: Option<Pass<Monitor>>,
) -> (Option<Pass<Monitor>>, Option<Pass<Monitor>>, Option<u32>)
    requires { IfSome one (IsPassOf desk.now) × IfSome two (IsPassOf desk.now) }
    ensures one { IfSome result.0 (IsPassOf desk.now) }
    ensures two { IfSome result.1 (IsPassOf desk.now) }
{
    match (one, two) {
        (Some(one), Some(two)) => {
            let (one, two, calls) = desk.meet(one, two);
            (Some(one), Some(two), Some(calls))
        }
        (one, two) => (one, two, None),
    }
}
