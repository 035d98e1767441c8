//! A recorded history: its commands, with the monitor that answers them.
ghost use Rattle.std.specs.Prelude.{◌≡◌, ◌+◌, ◌++◌, [], length, IfOk, IfErr, OnOk};
ghost use Rattle.ra_labels.specs.declared.command.Command.{Command};
ghost use Rattle.ra_history_lines.specs.Grammar.{AreNames, Spells};
ghost use Rattle.ra_history_lines.specs.Names.{MayJoin};
ghost use Rattle.ra_history_lines.specs.declared.format.Format.TheVariants.{Rah2};
ghost use Rattle.ra_monitor.specs.Monitor.{commands_of};
ghost use Rattle.ra_history_text.specs.Output.{IsReportOf};
ghost use Rattle.ra_history_text.specs.Recording.{RecordsCommand, TakesCommand, StopsAnswering, HasFewNames, LacksName, fault_at, with_name};

use crate::fault::CheckFault;
use crate::limits::{LINES_BEFORE_COMMANDS, MOST_COMMANDS};
use ra_history_lines::command::new_name;
use ra_history_lines::{Format, Names, NamesFault};
use ra_journal::{Journal, StepFault};
use ra_labels::{Command, Kind, NoMemory, Reply};
use ra_monitor::{Monitor, Report};
use std::alloc::Global;
use std::marker::Model;

/// A history of one kind at named replicas, whose commands a monitor answers. The names of replicas that joined follow
/// those of the initial ones.
#[derive(Drop)]
pub struct Recording {
    format: Format,
    kind: Kind,
    names: Names,
    monitor: Monitor,
}

impl Model for Recording {
    ghost use Rattle.ra_history_text.specs.Recording as model;

    ghost Value = { model.Recording };

    ghost use Rattle.ra_history_text.specs.RecordingKept.{recording_of, RecordingKept};

    ghost view = { λ h. recording_of h };

    ghost invariant = { λ h. RecordingKept h };
}

impl Recording {
    /// Creates an empty history of this kind, at replicas with these names.
    ///
    /// # Errors
    ///
    /// `NoMemory` if an allocation fails.
    pub fn new(
        alloc: Global,
        format: Format,
        kind: Kind,
        names: Names,
    ) -> Result<Recording, NoMemory>
        requires { AreNames format names }
        ensures format { IfOk result (λ history. history.format ≡ format) }
        ensures kind { IfOk result (λ history. history.kind ≡ kind) }
        ensures first { IfOk result (λ history. history.first ≡ names) }
        ensures joined { IfOk result (λ history. history.joined ≡ []) }
        ensures commands { IfOk result (λ history. history.commands ≡ []) }
    {
        match Monitor::new(alloc, kind, names.count(), MOST_COMMANDS) {
            Ok(monitor) => Ok(Recording {
                format,
                kind,
                names,
                monitor,
            }),
            // There are 1 to 64 names, and the limit is the largest one, so only an allocation can fail.
            Err(_) => Err(NoMemory),
        }
    }

    /// Returns the format of its text.
    pub fn format(&self) -> Format
        ensures { result ≡ self.now.format }
    {
        self.format
    }

    /// Returns its kind.
    pub fn kind(&self) -> Kind
        ensures { result ≡ self.now.kind }
    {
        self.kind
    }

    /// Returns the names of its replicas.
    pub fn names(&self) -> &Names
        ensures { result.now ≡ self.now.first ++ self.now.joined }
    {
        &self.names
    }

    /// Returns the number of the next line.
    pub fn line(&self) -> u32
        ensures { result ≡ length self.now.commands + 3 }
    {
        self.monitor.log().len() as u32 + LINES_BEFORE_COMMANDS + 1
    }

    /// Answers the command that this line encodes, and records it. A replica that joins gets the line's new name.
    ///
    /// # Errors
    ///
    /// `Full` at the largest number of commands; `NoMemory` if an allocation fails. After an error the history must not
    /// be used again.
    pub fn take(&mut self, line: &[u8], command: Command) -> Result<Reply, CheckFault>
        requires { Spells self.old.format self.old.kind (self.old.first ++ self.old.joined) line.now command }
        ensures taken { IfOk result (TakesCommand self.old self.new line.now command) }
        ensures fault { IfErr result (StopsAnswering self.old) }
    {
        self.has_few_names();
        let reply = self.answer(command)?;
        if let Reply::Joined(_) = reply {
            self.add_name(new_name(line))?;
        }
        Ok(reply)
    }

    // Answers the command and records it. Its pass is 0, and its ticket is the number of commands before it.
    fn answer(&mut self, command: Command) -> Result<Reply, CheckFault>
        ensures answered { IfOk result (λ reply. RecordsCommand self.old self.new command reply) }
        ensures full { IfErr result (StopsAnswering self.old) }
    {
        let number = self.line();
        let ticket = self.monitor.log().len() as u64;
        match self.monitor.step(0, ticket, command) {
            Ok(reply) => Ok(reply),
            Err(fault) => Err(fault_at(number, fault)),
        }
    }

    // Exposes to the caller's proof that there are at most as many names as replicas.
    fn has_few_names(&self)
        ensures { HasFewNames self.now }
    {
        let _ = &self.names;
    }

    // Adds the name of a replica that joined.
    fn add_name(&mut self, name: &[u8]) -> Result<(), NoMemory>
        requires new { MayJoin Rah2 (self.old.first ++ self.old.joined) name.now }
        requires lacks { LacksName self.old }
        ensures { OnOk result (self.new ≡ with_name self.old name.now) }
    {
        match self.names.add(name) {
            Ok(()) => Ok(()),
            Err(NamesFault::NoMemory) => Err(NoMemory),
            Err(NamesFault::BadName(_)) => unreachable!(),
            Err(NamesFault::BadCount) => unreachable!(),
        }
    }

    /// Returns the monitor that answered its commands.
    pub fn monitor(&self) -> &Monitor
        ensures kind { result.now.setup.kind ≡ self.now.kind }
        ensures replicas { result.now.setup.replicas ≡ length self.now.first }
        ensures commands { commands_of result.now.log ≡ self.now.commands }
    {
        &self.monitor
    }

    /// Returns the monitor that answered its commands, and the names. Consumes `self`.
    pub fn into_parts(self) -> (Monitor, Names)
        ensures kind { result.0.setup.kind ≡ self.kind }
        ensures replicas { result.0.setup.replicas ≡ length self.first }
        ensures commands { commands_of result.0.log ≡ self.commands }
        ensures names { result.1 ≡ self.first ++ self.joined }
    {
        let Recording {
            format: _,
            kind: _,
            names,
            monitor,
        } = self;
        (monitor, names)
    }

    /// Returns the summary of the history.
    pub fn report(&self) -> Report
        ensures { IsReportOf self.now.kind self.now.first self.now.commands result }
    {
        self.monitor.report()
    }
}

// Returns the error of a text whose command at this line the monitor handed back.
fn fault_at(line: u32, fault: StepFault<Command>) -> CheckFault
    ensures { result ≡ fault_at line fault }
{
    match fault {
        StepFault::Full(_) => CheckFault::Full(line),
        StepFault::NoMemory(_) => CheckFault::NoMemory,
    }
}
