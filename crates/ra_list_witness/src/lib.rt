//! The witness of a list: its elements, the view of each replica, and one order that explains all operations so far.
//!
//! Contract for the crates above: `find_placement`, `find`, `check_read` and `check_part` tell whether an operation
//! fits what its replica has. `insert`, `read` and `read_part` then add the edges of the operation: all of them, or
//! none, and they return a cycle. By the theorems of `ra_list_order` the kept order extends all edges, and no order
//! extends those of a cycle. Deliveries and joins change the view of one replica.
#![tactic(auto)]

mod finding;
mod list_witness;
mod named;

pub use list_witness::ListWitness;
