//! The model of a multi-value register: the theorems about its siblings, and its specification.
//!
//! A write replaces the values that its replica shows, its siblings. Writes that do not see each other stay siblings
//! (`specs/Siblings` of `ra_labels`). The theorems of `theorems` say how each accepted command changes the siblings of
//! a replica, which is what a checker has to do. They also say that any sequence of the labels which extends visibility
//! leads to the same siblings, so that a violation is final.
#![tactic(auto)]

pub mod theorems;
pub mod worked;
