//! Short constructors of commands, and calls that apply them.

ghost use Rattle.std.specs.Prelude.{◌≡◌, []};
ghost use Rattle.ra_labels.specs.Specification.{initial_state};

use ra_journal::{Journal, StepFault};
use ra_labels::{Command, Elements, Kind, Op, Reply};
use ra_monitor::{Monitor, PartRef, Report, Reporter};
use ra_seqspec::State;
use std::alloc::Global;
use std::process::Abort;

/// Returns the report of an operation without a clock.
pub fn bare(replica: u8, op: Op) -> Command {
    Command::Operate {
        replica,
        op,
        stamp: None,
    }
}

/// Returns the report of an operation with this clock.
pub fn stamped(replica: u8, op: Op, clock: u32) -> Command {
    Command::Operate {
        replica,
        op,
        stamp: Some(clock),
    }
}

/// Returns the report of an increment.
pub fn increment(replica: u8) -> Command {
    bare(replica, Op::Inc)
}

/// Returns the report of a counter's read.
pub fn read(replica: u8, answer: i32) -> Command {
    bare(replica, Op::Count(answer))
}

/// Returns the report of a delivery.
pub fn got(replica: u8, label: u32) -> Command {
    Command::Deliver { replica, label }
}

/// The number of attempts of a call whose allocation may fail. `tests/program/alloc_failures` lets each allocation fail
/// in turn, one in a run, and the second attempt then has to be answered as usual.
const ATTEMPTS: u32 = 2;

/// Creates a monitor of a counter at this many replicas, with this limit on its log.
pub fn counter_of(rt: &impl Abort, alloc: Global, replicas: u8, limit: u32) -> Monitor
    ensures { result.log ≡ [] }
{
    match Monitor::new(alloc, Kind::Counter, replicas, limit) {
        Ok(monitor) => monitor,
        Err(_) => panic!(rt; "no monitor"),
    }
}

/// Creates a reporter of a monitor of this kind at this many replicas, with this limit on its log.
pub fn reporter_of(
    rt: &impl Abort,
    alloc: Global,
    kind: Kind,
    replicas: u8,
    limit: u32,
) -> Reporter {
    for _attempt in 0..ATTEMPTS {
        match Reporter::new(alloc, kind, replicas, limit) {
            Ok(reporter) => return reporter,
            Err(_) => {}
        }
    }
    panic!(rt; "no monitor")
}

/// Returns the result of one step of this pass, whose ticket has to be above the last one.
pub fn step_by(
    rt: &impl Abort,
    monitor: &mut Monitor,
    pass: u8,
    ticket: u64,
    command: Command,
) -> Result<Reply, StepFault<Command>> {
    match monitor.last_ticket() {
        Some(last) => {
            assert!(rt; last < ticket);
            monitor.step(pass, ticket, command)
        }
        None => monitor.step(pass, ticket, command),
    }
}

/// Returns the reply to such a step, or `None` if the command is handed back.
pub fn stepped(
    rt: &impl Abort,
    monitor: &mut Monitor,
    pass: u8,
    ticket: u64,
    command: Command,
) -> Option<Reply> {
    step_by(rt, monitor, pass, ticket, command).ok()
}

// Returns what the monitor reports without allocating: its report, the numbers of replicas, entries and steps, and the
// last ticket.
fn told(monitor: &Monitor) -> (Report, u8, usize, u64, Option<u64>) {
    (
        monitor.report(),
        monitor.replicas(),
        monitor.log().len(),
        monitor.steps(),
        monitor.last_ticket(),
    )
}

/// Returns the reply to one command. If an allocation fails, the monitor must report the same as before, and is asked
/// again.
pub fn reply_to(rt: &impl Abort, reporter: &mut Reporter, command: Command) -> Reply {
    reply_behind(rt, reporter, command, None)
}

/// Returns the reply to one command as `reply_to` does, where the monitor's sequence consists of these parts.
pub fn reply_behind(
    rt: &impl Abort,
    reporter: &mut Reporter,
    command: Command,
    sequence: Option<&[PartRef]>,
) -> Reply {
    let before = told(reporter.monitor());
    let mut command = command;
    for _attempt in 0..ATTEMPTS {
        match reporter.tell(command) {
            Ok(reply) => return reply,
            Err(StepFault::Full(_)) => panic!(rt; "full"),
            Err(StepFault::NoMemory(back)) => command = back,
        }
        assert_eq!(rt; told(reporter.monitor()), before);
        if let Some(parts) = sequence {
            let same = sequence_of(rt, reporter.monitor());
            assert_eq!(rt; same.as_slice(), parts);
        }
    }
    panic!(rt; "no memory")
}

/// Asserts that the command has this reply.
pub fn is_told(rt: &impl Abort, reporter: &mut Reporter, command: Command, want: Reply) {
    let reply = reply_to(rt, reporter, command);
    assert_eq!(rt; reply, want);
}

/// Returns `true` if a verdict is handed back because the log is full.
pub fn is_full(answer: Result<Reply, StepFault<Command>>) -> bool {
    matches!(&answer, Err(StepFault::Full(Command::Verdict)))
}

/// Returns the monitor's sequence.
pub fn sequence_of(rt: &impl Abort, monitor: &Monitor) -> Vec<PartRef> {
    for _attempt in 0..ATTEMPTS {
        if let Ok(sequence) = monitor.sequence() {
            return sequence;
        }
    }
    panic!(rt; "no memory")
}

/// Returns the monitor's order of the elements of a list.
pub fn list_order_of(rt: &impl Abort, monitor: &Monitor) -> Option<Vec<u32>> {
    for _attempt in 0..ATTEMPTS {
        if let Ok(order) = monitor.list_order() {
            return order;
        }
    }
    panic!(rt; "no memory")
}

/// Creates the list of these elements.
pub fn elements_of(rt: &impl Abort, alloc: Global, list: &[u32]) -> Elements {
    for _attempt in 0..ATTEMPTS {
        if let Ok(items) = Vec::from_slice(alloc, list) {
            return Elements::new(items);
        }
    }
    panic!(rt; "no memory")
}

/// Creates the state of an object of this kind before any update.
pub fn state_of(rt: &impl Abort, alloc: Global, kind: Kind) -> State
    ensures { result ≡ initial_state kind }
{
    match State::new(alloc, kind) {
        Ok(state) => state,
        Err(_) => panic!(rt; "no memory"),
    }
}

/// Returns a copy of the state.
pub fn copy_of(rt: &impl Abort, state: &State) -> State
    ensures { result ≡ state.now }
{
    match state.copy() {
        Ok(copy) => copy,
        Err(_) => panic!(rt; "no memory"),
    }
}
