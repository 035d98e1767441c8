//! A halt inside a step: it signals its arrival, and waits until it may proceed.

use std::alloc::Global;
use std::process::Abort;
use std::sync::Arc;
use std::sync::atomic::{AtomicU64, Ordering};
use std::thread;

// The number of times that one side looks for the other and yields its processor: 12 seconds on an idle machine, so
// that they run out only where the other side never arrives, and not where a busy machine starts its thread late.
const MOST_LOOKS: u32 = 50_000_000;

/// A flag that threads share.
pub type Flag = Arc<AtomicU64, Global>;

/// Creates a flag that is not raised, or a count of zero.
pub fn lowered(rt: &impl Abort, alloc: Global) -> Flag {
    match Arc::new(alloc, AtomicU64::new(0)) {
        Ok(flag) => flag,
        Err(_) => panic!(rt; "no memory"),
    }
}

/// Returns another reference to the flag.
pub fn shared(rt: &impl Abort, flag: &Flag) -> Flag {
    match Arc::try_clone(flag) {
        Ok(flag) => flag,
        Err(_) => panic!(rt; "too many"),
    }
}

/// Raises the flag.
pub fn raise(flag: &AtomicU64) {
    flag.fetch_add(1, Ordering::SeqCst);
}

/// Waits until the flag is raised, for a bounded time. Returns `true` if it was raised.
pub fn is_raised_in_time(flag: &AtomicU64) -> bool {
    for _ in 0..MOST_LOOKS {
        if flag.load(Ordering::SeqCst) > 0 {
            return true;
        }
        thread::yield_now();
    }
    false
}

/// A halt, which ends once `go_on` is raised.
#[derive(Drop)]
pub struct Halt {
    pub inside: Flag,
    pub go_on: Flag,
}

impl Halt {
    /// Raises `inside` and waits for `go_on`.
    pub fn halt(&self) {
        raise(&self.inside);
        is_raised_in_time(&self.go_on);
    }
}
