//! The explanation of a monitor's history as plain data.
//!
//! The contract for the layers above: `Explanation::of` consumes a monitor and returns its log, what was not delivered,
//! and the first violation with its reasons and remedies (`specs/Explains`). The expected answer is computed from the
//! log, the named sequence and the plain specification (`ra_seqspec`), without a second witness (`specs/Expected`).
//! Whether another order explains the violation, and what its read can return, is asked of `ra_another_order`
//! (`specs/Opinions`, `specs/PossibleAnswers`).
//! Remedies are changes of deliveries with which a trial of `ra_monitor` accepts the label (`specs/Changes`).
//! `labels_with` returns the labels of one sort among those of a log.
#![tactic(auto)]

mod agreement;
mod certificate;
mod changes;
mod conflict;
mod cycle;
mod difference;
mod edges;
mod expected;
mod explanation;
mod findings;
mod label_filter;
mod links;
mod one_list;
mod opinion;
mod ordering;
mod origin;
mod places;
mod possible;
mod rejected;
mod remedies;
mod replica_state;
mod spans;
pub mod theorems;
mod tree;
mod undelivered;
mod unmet;
mod unordered;
mod violation;

pub use agreement::Disagreement;
pub use certificate::{Because, Claim};
pub use changes::{Change, would_hold};
pub use conflict::Conflict;
pub use cycle::shortest_cycle;
pub use difference::Difference;
pub use explanation::{Explanation, Purpose};
pub use label_filter::{LabelsWith, labels_with};
pub use ordering::positions_of;
pub use origin::{Origin, operation_in};
pub use places::Places;
pub use remedies::Remedies;
pub use undelivered::{Share, Undelivered};
pub use unmet::{Unmet, named_by, needed_by};
pub use unordered::{earlier_read, siblings_before};
pub use violation::Violation;
