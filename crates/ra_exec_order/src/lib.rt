//! The execution order: labels by their numbers.
//!
//! Contract for the crates above: an `ExecOrder` is a `NamedOrder` (`ra_visibility`) of each kind in which all labels
//! have the lowest rank. It stores only the number of labels. The module `theorems` states which kinds these are, and
//! that this order extends visibility for all records.
#![tactic(auto)]

mod exec_order;
pub mod theorems;

pub use exec_order::ExecOrder;
