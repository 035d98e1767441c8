//! The witness: the labels in their named order, and the state of each replica, both maintained incrementally.
//!
//! The labels are never sorted again, and the history is never replayed. A delivery is one step of the receiver's
//! state, however late its update is in the named order; an RGA's may be none or several:
//!
//! - For a counter or an OR-Set it is the update's own step, since a late update has the effect of the last one
//!   (`commuting`).
//! - For a register or an LWW set it is the step of the delivered update or of the last one on the same element,
//!   whichever stands later (`overriding`).
//! - For an RGA it marks the update's element as present or no longer shown (`rga`): the order of the elements is that
//!   of the list of all elements, in which each replica shows a part. An update whose anchor or element is missing is
//!   pending and takes no step. A delivered insertion may settle pending updates: those that wait for its element, then
//!   those that wait for theirs, each by one more step.
//! - For a list it is the update's own step, a mark of its element (`kept_list`). One order of all elements is kept
//!   besides (`ra_list_effects`), which extends the edges that the labels require.
//!
//! A replica that joins starts with a copy of the other one's state.
//!
//! Contract for the crates above: `Witness::offer` returns the cause of the violation at the new label, with a cycle
//! for the order of a list, and `None` exactly if there is none. The module `theorems` states what one more label or
//! delivery changes in the witness.
#![tactic(auto)]

mod commuting;
mod effects;
mod failure;
mod kept_list;
mod label_order;
mod overriding;
mod part_ref;
mod queries;
mod rga;
mod sequence;
mod states;
pub mod theorems;
mod witness;

pub use failure::Failure;
pub use label_order::LabelOrder;
pub use part_ref::{Half, PartRef};
pub use witness::Witness;
