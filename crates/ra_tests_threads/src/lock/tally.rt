//! A journal that adds each number to a wrapping total, replies with the total, and counts how often it is dropped.
ghost use Rattle.std.specs.Prelude.{◌≡◌, ◌<◌, ◌≤◌, ◌+◌, ◌%◌, ◌^◌, [], length, sum_by, None};
ghost use Rattle.ra_journal.specs.declared.journal.TheConstants.{MOST_ENTRIES};

use super::halt::Halt;
use ra_ticket::{Entry, Journal, MOST_ENTRIES, StepFault};
use std::alloc::Global;
use std::sync::Arc;
use std::sync::atomic::{AtomicU64, Ordering};

/// A tally. Its setup is its limit.
pub struct Tally {
    limit: u32,
    total: u32,
    log: Vec<Entry<u32, u32>>,
    drops: Arc<AtomicU64, Global>,
    halt: Option<Halt>,
    ghost in_range: { (0 < limit) × (limit ≤ MOST_ENTRIES) },
    ghost within: { length log.items ≤ limit },
    ghost totals: { total ≡ sum_by (λ e. e.command) log.items % 2 ^ 32 },
}

impl Tally {
    /// Creates an empty tally for 1 to `MOST_ENTRIES` entries, which adds one to `drops` when it is dropped.
    pub fn new(alloc: Global, limit: u32, drops: Arc<AtomicU64, Global>) -> Tally
        requires { (0 < limit) × (limit ≤ MOST_ENTRIES) }
        ensures { (result.limit ≡ limit) × (result.log.items ≡ []) }
    {
        Tally {
            limit,
            total: 0,
            log: Vec::new(alloc),
            drops,
            halt: None,
        }
    }

    /// Returns the tally with a halt, at which each step waits before it answers.
    pub fn halting(self, halt: Halt) -> Tally
        requires { self.log.items ≡ [] }
        ensures { result.log.items ≡ [] }
    {
        let Self {
            limit,
            total,
            log,
            drops,
            halt: _,
        } = self;
        Tally {
            limit,
            total,
            log,
            drops,
            halt: Some(halt),
        }
    }
}

impl Drop for Tally {
    fn drop(self) {
        let Self {
            limit: _,
            total: _,
            log: _,
            drops,
            halt: _,
        } = self;
        drops.fetch_add(1, Ordering::SeqCst);
    }
}

impl Journal for Tally {
    type Command = u32;

    type Reply = u32;

    type Setup = u32;

    ghost setup = { λ t. t.limit };

    ghost log = { λ t. t.log.items };

    ghost reply_of = { λ _ log command. (sum_by (λ e. e.command) log + command) % 2 ^ 32 };

    ghost fault_of = { λ _ _. None };

    ghost limit_of = { λ limit. limit };

    fn limit(&self) -> u32 {
        self.limit
    }

    fn calls(&self) -> u32 {
        self.log.len() as u32
    }

    fn fault(&self) -> Option<u32> {
        None
    }

    fn last_ticket(&self) -> Option<u64> {
        self.log.last().map(|entry| entry.ticket)
    }

    fn step(&mut self, pass: u8, ticket: u64, command: u32) -> Result<u32, StepFault<u32>> {
        if self.log.len() == self.limit as usize {
            return Err(StepFault::Full(command));
        }
        if let Some(halt) = &self.halt {
            halt.halt();
        }
        let reply = self.total.wrapping_add(command);
        let entry = Entry {
            pass,
            ticket,
            command,
            reply,
        };
        if self.log.push(entry).is_err() {
            return Err(StepFault::NoMemory(command));
        }
        self.total = reply;
        Ok(reply)
    }
}
