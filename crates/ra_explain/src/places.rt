//! The indices of labels in a log.
ghost use Rattle.std.specs.Prelude.{◌≡◌, ◌≤◌, IfOk, MatchOption, None, Some, length};
ghost use Rattle.std.specs.List.{slice_get};
ghost use Rattle.ra_explain.specs.Places as places;
ghost use Rattle.ra_explain.specs.Places.{entry_at, places_in};

use ra_accepted_commands::{is_accepting_reply, is_no};
use ra_journal::Entry;
use ra_labels::{Command, NoMemory, Reply};
use ra_monitor::Monitor;
use std::alloc::Global;
use std::marker::Model;

/// The index of each label in a monitor's log, by the label's number.
#[derive(Drop)]
pub struct Places {
    places: Vec<u32>,
}

impl Model for Places {
    ghost use Rattle.std.specs.Prelude.{ℕ, List, ◌≤◌, length};

    ghost Value = { List ℕ };

    ghost view = { λ p. p.places.items };

    ghost invariant = { λ p. length p.places.items ≤ 4294967295 };
}

impl Places {
    /// Returns the indices of the labels in the monitor's log.
    ///
    /// # Errors
    ///
    /// `NoMemory` if an allocation fails.
    ///
    /// # Complexity
    ///
    /// O(number of entries), and 4 bytes for each label.
    pub fn of(alloc: Global, monitor: &Monitor) -> Result<Places, NoMemory>
        // The places are the indices of the labels in the monitor's log, by their numbers.
        ensures { IfOk result (λ places. places ≡ places_in monitor.now.log) }
    {
        let log = monitor.log();
        let mut places = Vec::new(alloc);
        let mut failed = false;
        let mut place = 0;
        for entry in log {
            if is_operation(&entry.command) && is_accepting_reply(failed, entry.reply) {
                places.push(place)?;
            }
            failed = failed || is_no(entry.reply);
            place += 1;
        }
        Ok(Places { places })
    }

    /// Returns the number of labels.
    pub fn count(&self) -> u32
        // The result is the number of labels.
        ensures { result ≡ length self.now }
    {
        self.places.len() as u32
    }

    /// Returns the log's entry of this label, or `None` if there is no such label.
    pub fn entry<'a>(
        &self,
        log: &'a [Entry<Command, Reply>],
        label: u32,
    ) -> Option<&'a Entry<Command, Reply>>
        // The result is the entry of the log at the label's place, or `None` exactly if there is no such label.
        ensures { MatchOption result (entry_at log.now self.now label ≡ None)
            (λ entry. entry_at log.now self.now label ≡ Some entry.now) }
    {
        entry_at(log, self.at(label)?)
    }

    /// Returns the index of the label, from 0, or `None` if there is no such label.
    pub fn at(&self, label: u32) -> Option<u32>
        // The result is the index of the label's entry, or `None` if there is no such label.
        ensures { result ≡ slice_get self.now label }
    {
        self.places.get(label as usize).copied()
    }
}

/// Returns the entry at this index of the log, or `None` if there is none.
pub fn entry_at(log: &[Entry<Command, Reply>], place: u32) -> Option<&Entry<Command, Reply>>
    ensures { MatchOption result (slice_get log.now place ≡ None)
        (λ entry. slice_get log.now place ≡ Some entry.now) }
{
    log.get(place as usize)
}

// Returns `true` if the command is an operation.
fn is_operation(command: &Command) -> bool
    ensures { result ≡ places.is_operation command.now }
{
    match command {
        Command::Operate { .. } => true,
        Command::Deliver { .. } | Command::Join { .. } | Command::Verdict => false,
    }
}
