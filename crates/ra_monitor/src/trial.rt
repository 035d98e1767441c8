//! The trial: a monitor without a log, for the answers to a changed history.
ghost use Rattle.std.specs.Prelude.{◌≡◌, ◌++◌, ◌∷◌, [], List, IfOk, OnErr};
ghost use Rattle.ra_labels.specs.declared.command.Command.{Command};
ghost use Rattle.ra_labels.specs.Answer.{answer_of, records_after_all};
ghost use Rattle.ra_monitor.specs.Trial.{HasAnswered, HasAnsweredSome};

use crate::history::TrackedHistory;
use crate::setup::Setup;
use ra_labels::{Command, NoMemory, Reply};
use ra_visibility::MOST_LABELS;
use std::alloc::Global;

/// A monitor without a log. It answers what a monitor would have answered to a changed history, and needs the memory of
/// a monitor apart from the log.
pub struct Trial {
    setup: Setup,
    history: TrackedHistory,
}

impl Drop for Trial {
    // Written out, so that code that drops a trial calls this function, instead of the drop of each part.
    fn drop(self) {
        let Trial {
            setup: _,
            history: _,
        } = self;
    }
}

impl Trial {
    /// Creates a trial of a history with this setup, to which nothing was reported. The setup's limit has no effect.
    ///
    /// # Errors
    ///
    /// `NoMemory` if allocation fails.
    pub fn new(alloc: Global, setup: &Setup) -> Result<Trial, NoMemory>
        // The new trial represents a history to which no command was reported.
        ensures told { IfOk result (λ trial. HasAnswered trial []) }
        // The trial has the given setup.
        ensures setup { IfOk result (λ trial. trial.setup ≡ setup.now) }
    {
        Ok(Trial {
            setup: *setup,
            history: TrackedHistory::new(alloc, setup)?,
        })
    }

    /// Reports a command to the trial, and returns what a monitor with the same reports would answer.
    ///
    /// # Errors
    ///
    /// `NoMemory` if allocation fails, or if the trial has 1,048,576 labels, the largest number of a log's entries; the
    /// trial represents the same reports as before.
    ///
    /// # Complexity
    ///
    /// As `Monitor::step`, without the log.
    pub fn tell(&mut self, command: Command) -> Result<Reply, NoMemory>
        // The trial represents the history after some commands.
        requires { HasAnsweredSome self.old }
        // The reply is the single-threaded monitor's answer after the commands reported so far, and the trial then
        // represents these and this one.
        ensures told { (commands : List Command) → HasAnswered self.old commands → IfOk result (λ reply.
            (reply ≡ answer_of self.old.setup.kind self.old.setup.replicas
            (records_after_all self.old.setup.kind self.old.setup.replicas [] commands) command)
            × HasAnswered self.new (commands ++ command ∷ [])) }
        // After `NoMemory`, the trial represents the same commands as before.
        ensures same { (commands : List Command) → HasAnswered self.old commands
            → OnErr result (HasAnswered self.new commands) }
        // The setup never changes.
        ensures same_setup { self.new.setup ≡ self.old.setup }
    {
        if self.history.labels == MOST_LABELS {
            return Err(NoMemory);
        }
        let mut command = command;
        let answer = self.history.answer(&self.setup, &mut command);
        // Dropped by a call, so that the proof covers the command's parts there, and not at each return.
        drop(command);
        answer
    }
}
