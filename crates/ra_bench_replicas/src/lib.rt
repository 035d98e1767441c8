//! Replicas that represent real editors. Each has data of its own, makes updates, reads, and applies what others send
//! once its causes are applied.
//!
//! They are written apart from the monitor, as an independent implementation of the eight data types. They use neither
//! the sequential specification, nor the witness or the orders, nor any crate that does.
//!
//! The contract for the layers above: contracts view a `Replica` as its kind, its number, the number of replicas, the
//! greatest clock that it saw, the counts of applied updates, and the messages that it holds. What its data type makes
//! of them is tested only.
//!
//! To add a further data type, write a module beside `counter` with `new`, `update` (its update of a round) and `read`
//! (the query with its answer). It needs a method for each kind of update. Then add its lines in `data`, `stamped`,
//! `specs/Data` and `specs/Turn`.
#![tactic(auto)]

mod any_object;
mod counter;
mod counts;
mod data;
mod fugue_list;
mod lww_set;
mod message;
mod mv_register;
mod or_set;
mod register;
mod replica;
mod rga;
mod rising;
mod stamped;
mod turn;

pub use counts::Counts;
pub use message::{Made, Message};
pub use replica::Replica;
