//! The command-line arguments of the programs that check histories and run benches.
//!
//! The contract for the layers above: `run_of` returns the run that the arguments ask for. `specs/Arguments` states
//! their table twice, as a parser and as the arguments of each run. `run_asked_by` is the same for the arguments as
//! `words_of` reads them from the process.
#![tactic(auto)]

mod arguments;

pub use arguments::{Run, Words, WordsFault, run_asked_by, run_of, run_of_kept, words_of};
