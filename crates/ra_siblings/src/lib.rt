//! The siblings of each replica of a multi-value register.
//!
//! Contract for the crates above: `Siblings` keeps what each label wrote and which siblings it replaced, and of each
//! replica its siblings. A write replaces the siblings of its replica. A delivery adds its label to the receiver's
//! siblings and takes out those that the label replaced. `is_right_read` returns whether a list has exactly the values
//! of a replica's siblings. Nothing walks over all labels.
#![tactic(auto)]

mod issued;
mod label_set;
mod siblings;

pub use issued::Issued;
pub use label_set::LabelSet;
pub use siblings::Siblings;
