//! The first read of each distinct set of visible updates, found by the counts of the set.
//!
//! Contract for the crates above: `find` returns the first read that was added with these counts, and `add` adds one. A
//! count for each replica says how many of its updates a read saw, and trailing zeros do not matter. So two reads saw
//! the same updates exactly if their counts are the same, and a read disagrees with an earlier one exactly if the
//! first with its counts has another value.
#![tactic(auto)]

mod first;
mod reads;
pub mod theorems;
mod trimming;

pub use first::First;
pub use reads::AnyReads;
