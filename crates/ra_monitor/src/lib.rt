//! The single-threaded monitor: it accepts what replicas report, and answers whether the history so far is
//! RA-linearizable by the named order of its kind.
//!
//! Contract for the crates above: `Monitor::step` gives the answer of the single-threaded monitor as defined in
//! `ra_labels/specs/Answer`, after the records of its log, and appends the entry. The log of every monitor is legal,
//! and a `Yes` in it implies an RA-linearization of the records up to there. A monitor is a journal, so the ticket lock
//! can guard it (`ra_desk`); `theorems` states what its replies mean there. A `Reporter` manages the tickets, so that a
//! loop that reports needs no proof. A `Trial` answers as a monitor does, and logs nothing.
//!
//! The data structures follow the definitions. A `Tracker` represents visibility (`ra_visibility`). The order of the
//! kind says whether a label fits, and sorts all labels (`order`). The witness decides whether the records still hold
//! with a new label (`ra_witness`).
#![tactic(auto)]

mod faults;
mod history;
mod monitor;
mod order;
mod parts;
mod report;
mod reporter;
mod setup;
pub mod theorems;
mod trial;
pub mod used_keys;

pub use faults::NewFault;
pub use monitor::Monitor;
/// The largest number of replicas of a history.
pub use ra_labels::MOST_REPLICAS;
pub use report::Report;
pub use reporter::Reporter;
pub use setup::Setup;
pub use trial::Trial;
/// References to the parts of the named sequence, by label number.
pub use ra_witness::{Half, PartRef};
