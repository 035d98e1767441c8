//! The edges that the operations of a list require of its kept order.
//!
//! Contract for the crates above: `add_read` and `add_part` add an edge from each listed element to the next one, and
//! `add_insertion` those of a new element and its neighbours. Each adds all of its edges; or it returns a cycle of them
//! and the earlier ones, and changes nothing but the order. So does a failed allocation.
#![tactic(auto)]

mod pairs;
mod placing;
mod read;

pub use placing::{Placement, add_insertion};
pub use read::{add_part, add_read};
