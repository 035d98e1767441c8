//! The command-line argument.

use crate::lock::Asked;
use anyhow::{Result, bail};
use std::alloc::AllocGlobal;
use std::env;
use std::env::Env;

/// The measurement.
#[derive(Clone, Copy)]
pub enum Word {
    /// The lock beside a Mutex.
    Lock,
    /// A monitor behind the lock, beside one behind a Mutex.
    Monitor,
    /// The number of calls that each of several threads completes at the lock and at a Mutex.
    Asked(Asked),
    /// The order in which waiting callers are served.
    Order,
    /// The room that a monitor reserves.
    Room,
    /// The check of a text beside a plain loop.
    Text,
    /// That loop, on standard input.
    Loop,
}

/// Returns the measurement that the first argument names, or `None` if there is no argument.
pub fn word_of<R: Env + AllocGlobal>(rt: &R) -> Result<Option<Word>> {
    match env::args(rt)?.nth(1) {
        Some(word) => match named(word.as_str()) {
            Some(word) => Ok(Some(word)),
            None => bail!(
                "ra_timing lock|monitor|calls|yields|alone|attempts|glances|order|room|text|loop"
            ),
        },
        None => Ok(None),
    }
}

fn named(word: &str) -> Option<Word> {
    Some(match word {
        "lock" => Word::Lock,
        "monitor" => Word::Monitor,
        "calls" => Word::Asked(Asked::Calls),
        "yields" => Word::Asked(Asked::Yields),
        "alone" => Word::Asked(Asked::Alone),
        "attempts" => Word::Asked(Asked::Attempts),
        "glances" => Word::Asked(Asked::Glances),
        "order" => Word::Order,
        "room" => Word::Room,
        "text" => Word::Text,
        "loop" => Word::Loop,
        _ => return None,
    })
}
