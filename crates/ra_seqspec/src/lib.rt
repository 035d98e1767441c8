//! The sequential specification of each kind, as a state that updates change and queries are compared with.
//!
//! Contract for the crates above: `State::apply` and `State::admits` compute the specification's step and answer
//! (`ra_labels/specs/Specification`).
#![tactic(auto)]

mod list;
mod pairs;
mod rga;
mod state;
pub mod theorems;

pub use state::State;

/// The largest absolute value of a counter's number. An update that exceeds it must not be applied.
pub const FARTHEST_COUNT: u32 = 1_048_576;
