//! A journal that answers each command with the number of those before it.
ghost use Rattle.std.specs.Prelude.{◌≡◌, ◌≤◌, [], length, None};
ghost use Rattle.ra_journal.specs.declared.journal.TheConstants.{MOST_ENTRIES};

use ra_ticket::{Entry, Journal, MOST_ENTRIES, StepFault};
use std::alloc::Global;
use std::thread;

/// The entry of a call.
pub type Call = Entry<u32, u32>;

/// A log of calls.
#[derive(Drop)]
pub struct Log {
    entries: Vec<Call>,
    // Whether a step yields the processor, so that others find the lock held.
    yields: bool,
    ghost within: { length entries.items ≤ MOST_ENTRIES },
}

impl Log {
    /// Creates an empty log. If it `yields`, each step yields the processor.
    pub fn new(alloc: Global, yields: bool) -> Log
        ensures { result.entries.items ≡ [] }
    {
        Log {
            entries: Vec::new(alloc),
            yields,
        }
    }
}

impl Journal for Log {
    type Command = u32;

    type Reply = u32;

    type Setup = u32;

    ghost setup = { λ _. MOST_ENTRIES };

    ghost log = { λ log. log.entries.items };

    ghost reply_of = { λ _ log _. length log };

    ghost fault_of = { λ _ _. None };

    ghost limit_of = { λ limit. limit };

    fn limit(&self) -> u32 {
        MOST_ENTRIES
    }

    fn calls(&self) -> u32 {
        self.entries.len() as u32
    }

    fn fault(&self) -> Option<u32> {
        None
    }

    fn last_ticket(&self) -> Option<u64> {
        self.entries.last().map(|entry| entry.ticket)
    }

    fn step(&mut self, pass: u8, ticket: u64, command: u32) -> Result<u32, StepFault<u32>> {
        if self.yields {
            thread::yield_now();
        }
        let reply = self.entries.len() as u32;
        if reply == MOST_ENTRIES {
            return Err(StepFault::Full(command));
        }
        let entry = Entry {
            pass,
            ticket,
            command,
            reply,
        };
        match self.entries.push(entry) {
            Ok(()) => Ok(reply),
            Err(_) => Err(StepFault::NoMemory(command)),
        }
    }
}
