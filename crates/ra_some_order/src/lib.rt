//! The question whether some sequence explains the records of a register or an LWW set.
//!
//! The labels place conditions on an order of the updates (`specs/UpdateConditions`), besides plain conditions that no
//! order can change (`specs/PlainConditions`). The theorems of `theorems` say that both decide whether some sequence
//! is an RA-linearization.
#![tactic(auto)]

pub mod theorems;
pub mod worked;
