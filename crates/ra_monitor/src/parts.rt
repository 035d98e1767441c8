//! The parts of a monitor, which share one box, and the step of a monitor on them.
ghost use Rattle.std.specs.Prelude.{◌≡◌, ◌<◌, ◌≤◌, ◌++◌, ◌∷◌, [], cond, vec_len, vec_capacity, IfOk, IsOk, OnOk};
ghost use Rattle.ra_monitor.specs.History.{Represents, history_in};
ghost use Rattle.ra_monitor.specs.Kept.{monitor_of, MonitorKept};
ghost use Rattle.ra_monitor.specs.Monitor.{IsNextTicket};
ghost use Rattle.ra_monitor.specs.Replies.{is_refused};
ghost use Rattle.ra_monitor.specs.Steps.{IsStep};

use crate::history::TrackedHistory;
use crate::setup::Setup;
use ra_journal::{Entry, StepFault};
use ra_labels::{Command, NoMemory, Reply};
use std::alloc::Global;

/// The parts of a monitor.
pub(crate) struct Parts {
    /// The values with which the monitor was created.
    pub(crate) setup: Setup,
    /// The log, the oldest entry first.
    pub(crate) log: Vec<Entry<Command, Reply>>,
    /// The representation of the accepted commands.
    pub(crate) history: TrackedHistory,
    /// The number of rejections in the log.
    pub(crate) refused: u32,
}

impl Drop for Parts {
    // Written out, so that code that drops the parts calls this function, instead of the drop of each.
    fn drop(self) {
        let Parts {
            setup: _,
            log: _,
            history: _,
            refused: _,
        } = self;
    }
}

impl Parts {
    /// Creates the parts of a monitor with an empty log.
    ///
    /// # Errors
    ///
    /// `NoMemory` if allocation fails.
    pub(crate) fn new(alloc: Global, setup: &Setup) -> Result<Box<Parts>, NoMemory>
        ensures setup { IfOk result (λ parts. parts.value.setup ≡ setup.now) }
        ensures log { IfOk result (λ parts. parts.value.log.items ≡ []) }
        ensures history { IfOk result (λ parts. Represents parts.value.history (history_in setup.now [])) }
        ensures refused { IfOk result (λ parts. parts.value.refused ≡ 0) }
    {
        let history = TrackedHistory::new(alloc, setup)?;
        let parts = Parts {
            setup: *setup,
            log: Vec::new(alloc),
            history,
            refused: 0,
        };
        Ok(Box::new(alloc, parts)?)
    }

    /// Returns the log, and drops the other parts.
    pub(crate) fn into_log(self) -> Vec<Entry<Command, Reply>>
        ensures { result ≡ self.log }
    {
        let Parts {
            setup: _,
            log,
            history: _,
            refused: _,
        } = self;
        log
    }

    /// Answers a command, as `Monitor::step` does.
    ///
    /// # Errors
    ///
    /// As `Monitor::step`.
    #[inline(always)]
    pub(crate) fn step(
        &mut self,
        pass: u8,
        ticket: u64,
        command: Command,
    ) -> Result<Reply, StepFault<Command>>
        requires kept { MonitorKept self.old }
        requires next { IsNextTicket (monitor_of self.old) ticket }
        ensures kept { MonitorKept self.new }
        ensures step { IsStep (monitor_of self.old) (monitor_of self.new) pass ticket command result }
    {
        if self.log.len() == self.setup.limit as usize {
            return Err(StepFault::Full(command));
        }
        if reserve_one(&mut self.log).is_err() {
            return Err(StepFault::NoMemory(command));
        }
        let mut command = command;
        match self.history.answer(&self.setup, &mut command) {
            Ok(reply) => {
                self.refused += refusals(reply);
                let entry = Entry {
                    pass,
                    ticket,
                    command,
                    reply,
                };
                append(&mut self.log, entry);
                Ok(reply)
            }
            Err(NoMemory) => Err(StepFault::NoMemory(command)),
        }
    }
}

// Returns the number of rejections in the reply: one or none.
fn refusals(reply: Reply) -> u32
    ensures { result ≡ cond (is_refused reply) 1 0 }
{
    match reply {
        Reply::Refused(_) => 1,
        Reply::Ok(_) | Reply::Got(_) | Reply::Joined(_) | Reply::Yes(_) | Reply::No { .. } => 0,
    }
}

// Reserves room for one more entry, unless there is some.
fn reserve_one(log: &mut Vec<Entry<Command, Reply>>) -> Result<(), NoMemory>
    ensures items { log.new.items ≡ log.old.items }
    ensures room { OnOk result (vec_len log.new < vec_capacity log.new) }
    ensures there { vec_len log.old < vec_capacity log.old
        → IsOk result × (vec_capacity log.new ≡ vec_capacity log.old) }
    ensures capacity { vec_capacity log.old ≤ vec_capacity log.new }
{
    if log.len() == log.capacity() {
        log.reserve(1)?;
    }
    Ok(())
}

// Appends the entry within the reserved room.
fn append(log: &mut Vec<Entry<Command, Reply>>, entry: Entry<Command, Reply>)
    requires { vec_len log.old < vec_capacity log.old }
    ensures items { log.new.items ≡ log.old.items ++ entry ∷ [] }
    ensures capacity { vec_capacity log.new ≡ vec_capacity log.old }
{
    log.push_reserved(entry);
}
