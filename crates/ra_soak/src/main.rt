//! A soak test of the desk, round after round, each on a desk of the next kind. 64 threads with one pass each, and then
//! 32 threads with two each, make reports that depend on a seed and on the replies. Each closed log is compared with
//! the replies to each pass.
//!
//!     ra_soak SECONDS SEED
//!
//! It prints a line for each round and one at the end. Its exit status is 0 if nothing was found, 1 if something was,
//! and 2 if it could not continue. Without arguments it prints nothing, since the gate runs it so.
#![tactic(auto)]

mod chance;
mod check;
mod finding;
mod held;
mod pairs;
mod plan;
mod player;
mod record;
mod round;
mod soak;
mod threads;
mod words;

use crate::soak::soak;
use crate::words::words_of;
use std::process::ExitCode;

fn main(rt: HostRuntime) -> ExitCode {
    let ended = match words_of(&rt) {
        Ok(Some(words)) => soak(&rt, rt.alloc(), words),
        Ok(None) => Ok(true),
        Err(why) => Err(why),
    };
    match ended {
        Ok(true) => ExitCode::from(0),
        Ok(false) => ExitCode::from(1),
        Err(why) => {
            let _said = eprintln!(rt; "{why}");
            ExitCode::from(2)
        }
    }
}
