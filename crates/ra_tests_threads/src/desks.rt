//! Desks of a register or a counter at three replicas, with their reports and replies.

ghost use Rattle.std.specs.Prelude.{◌≡◌, [], All, IfSome};
ghost use Rattle.ra_ticket.specs.Passes.{IsPassOf};

use ra_desk::Desk;
use ra_labels::{Command, Kind, Op, Reply};
use ra_monitor::Monitor;
use ra_ticket::{CallFault, Glance, Pass, TicketLock};
use std::alloc::Global;
use std::process::Abort;

/// Returns a write, whose value is its clock.
pub fn write(replica: u8, clock: u32) -> Command {
    Command::Operate {
        replica,
        op: Op::Write(clock),
        stamp: Some(clock),
    }
}

/// Returns a read.
pub fn last(replica: u8, value: u32) -> Command {
    bare(replica, Op::Last(Some(value)))
}

/// Returns an increment of a counter.
pub fn increment(replica: u8) -> Command {
    bare(replica, Op::Inc)
}

/// Returns a read of a counter.
pub fn count(replica: u8, value: i32) -> Command {
    bare(replica, Op::Count(value))
}

// Returns an operation without a clock.
fn bare(replica: u8, op: Op) -> Command {
    Command::Operate {
        replica,
        op,
        stamp: None,
    }
}

/// Returns the delivery of the first label.
pub fn got_the_first(replica: u8) -> Command {
    Command::Deliver { replica, label: 0 }
}

/// Creates a monitor with this limit on its log.
pub fn register_of(rt: &impl Abort, alloc: Global, limit: u32) -> Monitor
    ensures { result.log ≡ [] }
{
    match Monitor::new(alloc, Kind::Register, 3, limit) {
        Ok(monitor) => monitor,
        Err(_) => panic!(rt; "no monitor"),
    }
}

/// Asserts that this is the reply. Replies are compared here alone, since every further comparison would be proved
/// again.
pub fn is_told(rt: &impl Abort, reply: Option<Reply>, wanted: Reply) {
    assert_eq!(rt; reply, Some(wanted));
}

/// Asserts that a glance found this many calls and this fault.
pub fn are_found(rt: &impl Abort, found: Glance, calls: u32, fault: Option<u32>) {
    assert_eq!(rt; found, Glance { calls, fault });
}

/// Opens a desk with this limit on its log, and returns it with its passes.
pub fn opened(
    rt: &impl Abort,
    alloc: Global,
    limit: u32,
    passes: u8,
    first: u64,
) -> (Desk, Vec<Pass<Monitor>>)
    ensures { All (IsPassOf result.0) result.1.items }
{
    match TicketLock::open(alloc, register_of(rt, alloc, limit), passes, first) {
        Ok(opened) => opened,
        Err(_) => panic!(rt; "no desk"),
    }
}

/// Opens a desk as `opened` does, once more if an allocation fails.
pub fn opened_again(
    rt: &impl Abort,
    alloc: Global,
    limit: u32,
    passes: u8,
) -> (Desk, Vec<Pass<Monitor>>)
    ensures { All (IsPassOf result.0) result.1.items }
{
    for _ in 0..2 {
        if let Some(opened) = opened_if_possible(alloc, limit, passes) {
            return opened;
        }
    }
    panic!(rt; "no desk")
}

fn opened_if_possible(alloc: Global, limit: u32, passes: u8) -> Option<(Desk, Vec<Pass<Monitor>>)>
    ensures { IfSome result (λ opened. All (IsPassOf opened.0) opened.1.items) }
{
    match Monitor::new(alloc, Kind::Register, 3, limit) {
        Ok(monitor) => TicketLock::open(alloc, monitor, passes, 0).ok(),
        Err(_) => None,
    }
}

/// Opens a desk of a counter with this limit on its log, and returns it with its passes.
pub fn counted(
    rt: &impl Abort,
    alloc: Global,
    limit: u32,
    passes: u8,
    first: u64,
) -> (Desk, Vec<Pass<Monitor>>)
    ensures { All (IsPassOf result.0) result.1.items }
{
    let monitor = match Monitor::new(alloc, Kind::Counter, 3, limit) {
        Ok(monitor) => monitor,
        Err(_) => panic!(rt; "no monitor"),
    };
    match TicketLock::open(alloc, monitor, passes, first) {
        Ok(opened) => opened,
        Err(_) => panic!(rt; "no desk"),
    }
}

// Tests on an answer take it by value: a proof unfolds the fields of what is dropped once, and not at each comparison.

/// The result of a command.
pub type Answer = Result<Reply, CallFault<Command>>;

/// The outcome of a command.
#[derive(Clone, Copy)]
pub enum Outcome {
    /// The reply.
    Replied(Reply),
    /// A verdict is handed back because the log is full.
    Full,
    /// A verdict is handed back because all tickets are drawn.
    Worn,
    /// A command is handed back for another reason.
    HandedBack,
}

/// Returns the outcome of a command.
pub fn outcome_of(answer: Answer) -> Outcome {
    match &answer {
        Ok(reply) => Outcome::Replied(*reply),
        Err(fault) => handed_back_for(fault),
    }
}

fn handed_back_for(fault: &CallFault<Command>) -> Outcome {
    match fault {
        CallFault::Full(Command::Verdict) => Outcome::Full,
        CallFault::Worn(Command::Verdict) => Outcome::Worn,
        _ => Outcome::HandedBack,
    }
}

/// Returns the reply, or `None` if the command is handed back.
pub fn reply_in(answer: Answer) -> Option<Reply> {
    match outcome_of(answer) {
        Outcome::Replied(reply) => Some(reply),
        Outcome::Full | Outcome::Worn | Outcome::HandedBack => None,
    }
}

/// Returns `true` if a verdict is handed back because the log is full.
pub fn is_full(answer: Answer) -> bool {
    matches!(outcome_of(answer), Outcome::Full)
}

/// Returns `true` if a verdict is handed back because all tickets are drawn.
pub fn is_worn(answer: Answer) -> bool {
    matches!(outcome_of(answer), Outcome::Worn)
}
