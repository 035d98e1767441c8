//! The effects of the operations of a list: what one more operation, delivery or join changes.
//!
//! Contract for the crates above: `ListEffects` represents the state of the list after all updates, the state of each
//! replica after those that it has, and the edges of all operations (`specs/Past`). `test` returns the reason for which
//! an operation fails by the free specification, and `add` adds it with its edges, or returns a cycle.
#![tactic(auto)]

mod list_effects;

pub use list_effects::{Change, Found, ListEffects};
