//! The list of one replica of an RGA: the elements after its settled updates, and its pending updates.
//!
//! Contract for the crates above: a `ReplicaList` represents what was delivered to a replica in records (`IsListOf`).
//! Its elements are those after the settled updates in the named order; all other updates are pending. With a label
//! that is issued or delivered, it becomes the list of the records with this label.
//!
//! The order of the elements is that of the list of all elements (`ra_rga_elements`), so a replica keeps only which of
//! them are present and which are shown, by their numbers. An update that does not wait is one step, however late it
//! is: it marks its element. The pending updates that wait for an inserted element follow it, each by one more step. An
//! update that waits takes no step until then.
#![tactic(auto)]

mod cascade;
mod edit;
mod number_set;
mod pending;
mod put;
mod replica_list;
mod shown;
pub mod theorems;

pub use edit::Edit;
pub use replica_list::ReplicaList;
