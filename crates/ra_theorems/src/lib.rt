//! The theorems about the definitions of `ra_labels`, and worked examples.
//!
//! Each theorem is the clause of a function that does nothing: if the function is proved, the theorem holds. Proofs of
//! the crates above cite the theorems under these names from `proofs/TheoremIndex`. The module `worked` answers small
//! histories by evaluating the definitions.
#![tactic(auto)]

pub mod theorems;
pub mod worked;
