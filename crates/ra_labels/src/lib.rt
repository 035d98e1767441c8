//! The vocabulary shared by all crates: what replicas report, and what the monitor answers.
//!
//! The types are kinds, operations, labels, commands and replies. The definitions of their meaning are in `specs/`, and
//! docs/explanation/model.md explains them in words. They comprise the sequential specification, records and
//! visibility, the rewriting, RA-linearization, the named sequence, the fault, and the single-threaded monitor's
//! answer. They follow Wang, Enea, Mutluergil and Petri, "Replication-Aware Linearizability" (PLDI 2019).
//!
//! Contract for the crates above: `fits` returns the first reason to reject a command because of its own form. Theorems
//! about the definitions, and worked examples, are in `ra_theorems`; theorems about lists are in `lists`.
#![tactic(auto)]

mod command;
mod edge;
mod elements;
mod insertion;
mod kind;
mod label;
mod limits;
mod list_operation;
pub mod lists;
mod memory;
mod operation;
mod refusal;
mod reply;

pub use command::Command;
pub use edge::Edge;
pub use elements::Elements;
pub use insertion::Insertion;
pub use kind::Kind;
pub use label::{LOWEST, Label, Stamp};
pub use limits::MOST_REPLICAS;
pub use list_operation::{ListOp, ListQuery, ListUpdate};
pub use memory::NoMemory;
pub use operation::{Op, Query, Update};
pub use refusal::{Refusal, fits};
pub use reply::{Cause, Fault, Reply};
