//! The timestamp order: labels by their timestamps, then by their numbers.
//!
//! Contract for the crates above: a `TimeOrder` is a `NamedOrder` (`ra_visibility`) of each kind whose labels rank by
//! their timestamps. A label without its own stamp has the greatest stamp that it sees. To find it from the counts of
//! what the label sees, the order stores running maxima. For each replica and each `n`, they have the greatest own
//! stamp among the replica's first `n` updates. The module `theorems` states which kinds stand in this order.
//!
//! In a `TimeOrder` the labels stand in runs with room for 256, so that a late label moves few others. A `TimeRanks`
//! represents the same histories, but keeps no positions: it says whether the next label fits, and sorts when asked.
#![tactic(auto)]

mod chunk;
mod entry;
mod label_ranks;
mod run;
mod running_maxima;
mod running_maximum;
mod sorted;
pub mod theorems;
mod time_order;
mod time_ranks;

pub use time_order::TimeOrder;
pub use time_ranks::TimeRanks;
