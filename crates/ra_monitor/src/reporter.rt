//! A monitor with its tickets, for programs that prove nothing about tickets themselves.
ghost use Rattle.std.specs.Prelude.{◌≡◌, ◌-◌, ◌≤◌, ◌↔◌, [], length, min, IfOk, IsOk, OnOk, IsErrOf};
ghost use Rattle.ra_monitor.specs.Limits.{AreReplicas, IsLimit};
ghost use Rattle.ra_monitor.specs.Steps.{IsStep};

use crate::faults::NewFault;
use crate::monitor::Monitor;
use ra_journal::{Journal, StepFault};
use ra_labels::{Command, Kind, NoMemory, Reply};
use std::alloc::Global;
use std::marker::Model;

/// A monitor to which one thread reports each command in turn. It manages the monitor's tickets: the ticket of an entry
/// is the number of entries before it.
#[derive(Drop)]
pub struct Reporter {
    monitor: Monitor,
}

impl Model for Reporter {
    ghost use Rattle.ra_monitor.specs.Monitor as model;

    ghost Value = { model.Monitor };

    ghost use Rattle.ra_monitor.specs.Reporter.{reported_to, ReporterKept};

    ghost view = { λ r. reported_to r };

    ghost invariant = { λ r. ReporterKept r };
}

impl Reporter {
    /// Creates a reporter with a monitor of a history of this kind, with the given number of initial replicas and the
    /// largest number of entries of its log.
    ///
    /// # Errors
    ///
    /// `BadReplicas` if the number of replicas is not in 1 to 64, then `BadLimit` if the limit is not in 1 to
    /// 1,048,576. Both are tested before any allocation. `NoMemory` if allocation fails.
    pub fn new(alloc: Global, kind: Kind, replicas: u8, limit: u32) -> Result<Reporter, NewFault>
        // The new monitor's log is empty.
        ensures log { IfOk result (λ reporter. reporter.log ≡ []) }
        // The new monitor has the given kind.
        ensures kind { IfOk result (λ reporter. reporter.setup.kind ≡ kind) }
        // The new monitor has the given number of initial replicas.
        ensures replicas { IfOk result (λ reporter. reporter.setup.replicas ≡ replicas) }
        // The new monitor's log has the given limit.
        ensures limit { IfOk result (λ reporter. reporter.setup.limit ≡ limit) }
        // `BadReplicas` is returned exactly if the number of replicas is not from 1 to 64.
        ensures bad_replicas { IsErrOf result NewFault.BadReplicas ↔ (AreReplicas replicas → ⊥) }
        // `BadLimit` is returned exactly if the number of replicas is allowed and the limit is not from 1 to 1,048,576.
        ensures bad_limit { IsErrOf result NewFault.BadLimit ↔ (AreReplicas replicas × (IsLimit limit → ⊥)) }
    {
        let monitor = Monitor::new(alloc, kind, replicas, limit)?;
        Ok(Reporter { monitor })
    }

    /// Reports a command to the monitor and returns its reply, which is logged under pass 0.
    ///
    /// # Errors
    ///
    /// `Full` exactly if the log has reached its limit, which is tested first; `NoMemory` if allocation fails. Both
    /// return the command, and leave the log unchanged.
    ///
    /// # Complexity
    ///
    /// As `Monitor::step`.
    pub fn tell(&mut self, command: Command) -> Result<Reply, StepFault<Command>>
        // The call returns what every report to a monitor does: of the reply, the log, errors and room. The entry has
        // pass 0, and the number of entries before it as its ticket.
        ensures step { IsStep self.old self.new 0 (length self.old.log) command result }
    {
        let ticket = u64::from(self.monitor.calls());
        self.monitor.step(0, ticket, command)
    }

    /// Reserves room for this many entries, as `Monitor::reserve` does.
    ///
    /// # Errors
    ///
    /// As `Monitor::reserve`.
    ///
    /// # Complexity
    ///
    /// As `Monitor::reserve`.
    pub fn reserve(&mut self, entries: u32) -> Result<(), NoMemory>
        // After success there is room for the requested number of entries, or for as many as the limit leaves.
        ensures room { OnOk result (min entries (self.old.setup.limit - length self.old.log) ≤ self.new.room) }
        // If that room already exists, the call succeeds.
        ensures there { min entries (self.old.setup.limit - length self.old.log) ≤ self.old.room → IsOk result }
        // The room never decreases, even after a failure.
        ensures kept_room { self.old.room ≤ self.new.room }
        // The log is unchanged, even after a failure.
        ensures log { self.new.log ≡ self.old.log }
        // The setup never changes.
        ensures same_setup { self.new.setup ≡ self.old.setup }
    {
        self.monitor.reserve(entries)
    }

    /// Returns the monitor, for its log, its sequence and its report.
    pub fn monitor(&self) -> &Monitor
        // The result is the reporter's monitor as it is.
        ensures { result.now ≡ self.now }
    {
        &self.monitor
    }

    /// Returns the monitor, and consumes `self`.
    pub fn into_monitor(self) -> Monitor
        // The result is the reporter's monitor as it is.
        ensures { result ≡ self }
    {
        let Reporter { monitor } = self;
        monitor
    }
}
