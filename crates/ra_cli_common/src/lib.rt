//! The run of a check, and how each program ends.
//!
//! The contract for the layers above: `run_check` checks a text and ends with that check's status, or with 2 if the
//! report cannot be written (`specs/Check`). `usage`, `stop` and `stop_unasked` write one line to standard error and
//! end with status 2 (`specs/Endings`). `run_main` runs a program on the arguments and streams of the process.
#![tactic(auto)]

mod check;
mod console;
mod ending;
mod report;

pub use check::run_check;
pub use console::{Console, run_main};
pub use ending::{Ending, stop, stop_unasked, usage};
pub use report::write_report;
