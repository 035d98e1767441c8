//! The order of an RGA's elements as that of a tree.
//!
//! Each element stands under its anchor. By the theorem `later_child_first` one comparison decides the order of two
//! elements, neither of which stands under the other one. Both stand under children of their last common ancestor, and
//! the element under the child that was inserted later comes first.
#![tactic(auto)]

pub mod theorems;
pub mod worked;
