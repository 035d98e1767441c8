//! The accepted commands of a log, found by their replies alone.
//!
//! Contract for the crates above: `is_accepting_reply` decides whether a reply accepts its command (`specs/Accepted`).
//! The commands of a legal log whose replies do are its records (`theorems`). Proofs of the crates above cite this
//! theorem from `proofs/TheoremIndex`.
#![tactic(auto)]

mod accepted;
pub mod theorems;

pub use accepted::{is_accepting_reply, is_no};
