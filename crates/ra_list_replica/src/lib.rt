//! The elements of a list by number, and one replica's view of them.
//!
//! Contract for the crates above: `ElementNumbers` numbers the elements of a list in the order of their insertion. A
//! `ReplicaView` knows which of them a replica has and which of those were removed. `check_read` compares a list that
//! a replica returned with the elements that the view shows: it returns the elements' numbers exactly if the list has
//! each shown element once and nothing else. `check_part` does so for a part of a list, which may leave elements out.
#![tactic(auto)]

mod element_numbers;
mod finding;
mod listing;
mod mark;
mod replica_view;

pub use element_numbers::ElementNumbers;
pub use finding::Listed;
pub use mark::Mark;
pub use replica_view::ReplicaView;
