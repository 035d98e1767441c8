//! The backoff of a waiting call.
use std::{hint, thread};

// The binary logarithm of the longest spin.
const LAST_SPIN: u32 = 6;

/// A backoff: each wait spins twice as long as the one before, up to 64 spins. After that it yields the processor.
#[derive(Drop)]
pub(crate) struct Backoff {
    waits: u32,
}

impl Backoff {
    /// Creates a backoff whose first wait is one spin.
    pub(crate) fn new() -> Backoff {
        Backoff { waits: 0 }
    }

    /// Waits once.
    pub(crate) fn wait(&mut self) {
        if self.waits > LAST_SPIN {
            thread::yield_now();
            return;
        }
        for _ in 0..1u32 << self.waits {
            hint::spin_loop();
        }
        self.waits += 1;
    }
}
