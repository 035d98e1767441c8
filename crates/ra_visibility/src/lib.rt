//! Visibility as counts: which updates were delivered to which replica, and which a label sees.
//!
//! Accepted deliveries are causal, so the updates of one replica that were delivered to another are its first ones. A
//! count for each pair of replicas represents them: a version vector. A label sees what was delivered to its replica,
//! so it has a row of counts. Labels of a replica between two deliveries to it share one row.
//!
//! Contract for the crates above: a `Tracker` represents the visibility of records, as defined in `specs/Tracked`.
//! `issue`, `deliver` and `join` add a record, and `withdraw` undoes the last one. A delivery to a known replica is
//! rejected exactly if the definitions reject it (`ra_labels/specs/Answer`), so records stay causal. `sees` and `vis`
//! return what the definitions say (`ra_labels/specs/Visibility`). The module `theorems` relates the tracker's terms to
//! the records.
//!
//! A `NamedOrder` finds the position of each label in the named order of its kind, as defined in `specs/Order`. Its
//! implementations are crates of their own.
#![tactic(auto)]

mod fault;
mod last_change;
mod limits;
mod newest;
mod order;
mod replica;
mod row;
mod seen;
mod stored;
pub mod theorems;
mod tracked;
mod tracker;

pub use fault::DeliverFault;
pub use limits::MOST_LABELS;
pub use newest::newest_updates;
pub use order::{NamedOrder, Place};
pub use seen::Seen;
pub use tracker::Tracker;
