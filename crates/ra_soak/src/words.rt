//! The command-line arguments.
use anyhow::{Result, bail};
use std::alloc::AllocGlobal;
use std::env;
use std::env::Env;

/// The duration of a soak test, and the seed of all its choices.
#[derive(Clone, Copy)]
pub struct Words {
    /// The duration in seconds.
    pub seconds: u64,
    /// The first seed.
    pub seed: u64,
}

/// Returns the parsed arguments, or `None` if there are none.
pub fn words_of<R: Env + AllocGlobal>(rt: &R) -> Result<Option<Words>> {
    let mut words = env::args(rt)?;
    let _program = words.next();
    let Some(seconds) = words.next() else {
        return Ok(None);
    };
    let (Some(seed), None) = (words.next(), words.next()) else {
        bail!("ra_soak SECONDS SEED");
    };
    let (Ok(seconds), Ok(seed)) = (seconds.parse::<u64>(), seed.parse::<u64>()) else {
        bail!("ra_soak SECONDS SEED, which are numbers");
    };
    Ok(Some(Words { seconds, seed }))
}
