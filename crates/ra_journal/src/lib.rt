//! A journal: a state machine that answers commands one after another and logs each reply.
//!
//! Contract for the crates above: a step of a `Journal` gives the reply that its setup, its log so far and the command
//! determine, and logs it. `specs/Log` defines a legal log. A monitor is a journal, and the ticket lock guards any
//! journal.
#![tactic(auto)]

mod entry;
mod journal;

pub use entry::Entry;
pub use journal::{Journal, MOST_ENTRIES, StepFault};
