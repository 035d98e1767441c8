//! A total order of elements that extends a growing list of edges.
//!
//! Contract for the crates above: contracts see a `ListOrder` as its elements in order, each once, and its edges, each
//! from an element to a later one. `put` inserts an element next to a neighbour. `add` either adds an edge, and moves
//! elements so that the order extends it, or returns a cycle of edges; by the theorem `no_order_extends_cycle` no order
//! extends those edges.
#![tactic(auto)]

mod chunk;
mod chunks;
mod cut;
mod edge_pool;
mod gathering;
mod groups;
mod list_order;
mod numbers;
mod parts;
mod search;
mod sequence;
mod sweep;
pub mod theorems;
mod way;

pub use list_order::ListOrder;
