//! The model of an object of any type: deterministic specifications, and the theorems that the kind `any` rests on.
//!
//! A history of such an object says nothing of what its updates mean, only which value each read returned. The reads
//! agree (`reads_agree` of `ra_labels`) if two that see the same updates return the same value. The theorems of
//! `theorems` say that this is so exactly if some deterministic specification and some sequence explain the records.
//! So a disagreement is final: no deterministic replicated data type returns these values, in any order of its updates.
//! The module `worked` answers small histories by evaluating the definitions.
#![tactic(auto)]

pub mod theorems;
pub mod worked;
