//! What replicas reported, whatever the monitor answered.
//!
//! After a violation the monitor answers each command with it. Here the commands are read again and none is judged:
//! each is accepted unless a reason to reject it applies (`specs/Reported`). So one can ask of the whole history
//! whether another order explains it (`ra_any_order`).
//!
//! Contract for the crates above: `Reported::of` returns a tracker that represents what these labels see, and the place
//! of each label's operation in the log. Up to the violation the labels are those of the monitor (`theorems`).
#![tactic(auto)]

mod reading;
mod reported;
pub mod theorems;

pub use reported::Reported;
