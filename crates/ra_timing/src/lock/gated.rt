//! A journal whose first command keeps the lock until a gate is opened.
ghost use Rattle.std.specs.Prelude.{◌≡◌, [], None, length};
ghost use Rattle.ra_journal.specs.declared.journal.TheConstants.{MOST_ENTRIES};

use super::journal::Log;
use ra_ticket::{Journal, StepFault};
use std::alloc::{AllocError, Global};
use std::hint;
use std::sync::Arc;
use std::sync::atomic::{AtomicUsize, Ordering};

/// The command whose step ends when the gate is open.
pub const HOLDS: u32 = 0;

// The states of a gate's word.
const IS_SHUT: usize = 0;

const IS_HELD: usize = 1;

const IS_OPEN: usize = 2;

/// A gate, which keeps the holder of the lock until another thread opens it.
#[derive(Drop)]
pub struct Gate {
    word: Arc<AtomicUsize, Global>,
}

impl Gate {
    /// Creates a gate that is shut, with nobody at it.
    pub fn new(alloc: Global) -> Result<Gate, AllocError> {
        let word = Arc::new(alloc, AtomicUsize::new(IS_SHUT))?;
        Ok(Gate { word })
    }

    /// Returns another reference to the gate, for another thread.
    pub fn share(&self) -> Result<Gate, AllocError> {
        let word = Arc::try_clone(&self.word)?;
        Ok(Gate { word })
    }

    /// Returns `true` if the holder of the lock is at the gate.
    pub fn is_held(&self) -> bool {
        self.word.load(Ordering::SeqCst) == IS_HELD
    }

    /// Lets the holder of the lock proceed.
    pub fn open(&self) {
        self.word.store(IS_OPEN, Ordering::SeqCst);
    }

    // Waits at the gate until it is open. It spins, since tests/program/fairness counts the yields of those that wait
    // for the lock.
    fn wait(&self) {
        let _was = self
            .word
            .compare_exchange(IS_SHUT, IS_HELD, Ordering::SeqCst, Ordering::SeqCst);
        for _ in 0..u64::MAX {
            if self.word.load(Ordering::SeqCst) == IS_OPEN {
                return;
            }
            hint::spin_loop();
        }
    }
}

/// A log of calls behind a gate.
#[derive(Drop)]
pub struct Gated {
    log: Log,
    gate: Gate,
}

impl Gated {
    /// Creates an empty log.
    pub fn new(alloc: Global, gate: Gate) -> Gated
        ensures { result.log.entries.items ≡ [] }
    {
        Gated {
            log: Log::new(alloc, false),
            gate,
        }
    }
}

impl Journal for Gated {
    type Command = u32;

    type Reply = u32;

    type Setup = u32;

    ghost setup = { λ _. MOST_ENTRIES };

    ghost log = { λ gated. gated.log.entries.items };

    ghost reply_of = { λ _ log _. length log };

    ghost fault_of = { λ _ _. None };

    ghost limit_of = { λ limit. limit };

    fn limit(&self) -> u32 {
        self.log.limit()
    }

    fn calls(&self) -> u32 {
        self.log.calls()
    }

    fn fault(&self) -> Option<u32> {
        self.log.fault()
    }

    fn last_ticket(&self) -> Option<u64> {
        self.log.last_ticket()
    }

    fn step(&mut self, pass: u8, ticket: u64, command: u32) -> Result<u32, StepFault<u32>> {
        if command == HOLDS {
            self.gate.wait();
        }
        self.log.step(pass, ticket, command)
    }
}
