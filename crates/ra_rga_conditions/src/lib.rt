//! Which orders explain the records of an RGA.
//!
//! An update stands behind those that it sees, and behind the insertion of the element that it needs. A read that lists
//! two elements together says which of two insertions is the later one (`ra_rga_forks`). All these are edges between
//! two updates. By the theorem `some_order_iff` some sequence explains the records exactly if some order of the updates
//! keeps these edges and the records meet plain conditions, which no order can change.
#![tactic(auto)]

pub mod theorems;
