//! The rewriting of labels into parts: the query and the update of each label.
//!
//! Contract for the crates above: `parts` returns the parts of a label, and `parts_of` those of an operation, as
//! defined in `ra_labels/specs/Rewriting`. An OR-Set's removal, and an insertion into a list or a removal from it, is a
//! query and an update at once, so it is split into a query half and an update half. Every other label is one part.
#![tactic(auto)]

mod part;
mod rewriting;

pub use part::{Part, Parts};
pub use rewriting::{parts, parts_of};
