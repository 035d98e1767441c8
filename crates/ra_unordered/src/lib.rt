//! Decides the two kinds that are judged by what each read sees, whatever the order of the updates: an object of any
//! type, and a multi-value register.
//!
//! Contract for the crates above: `Unordered` represents a history of one of these kinds that meets the condition of
//! its kind (`is_explained` of `ra_labels`). `add` adds the next label, or returns `false` if the condition fails with
//! it: a read returned another value than an earlier one that sees the same updates, or not the values of the siblings.
#![tactic(auto)]

mod first_reads;
mod register;
mod unordered;

pub use unordered::Unordered;
