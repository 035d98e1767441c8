//! An order of labels that meets conditions of the form "each of these labels stands before at least one of those", or
//! a set of labels that rules out every order.  With one label on each side a condition is an edge. With several it
//! leaves a choice, as in "one of these writes was the last". Read from the end of the order, these are AND/OR
//! precedence constraints (Möhring, Skutella and Stork, SIAM J. Comput. 33, 2004).  Contract for the crates above:
//! `order_of` returns an order that meets all conditions, or a stuck set: labels none of which can be the last one of
//! them. By the theorem `no_order_meets_stuck` there is no order then. `stuck_set` adds reasons that show it.
//! `is_order` and `is_valid_stuck_set` check an order and a stuck set. A `Solver` says which labels of a set can be the
//! last one of it.
#![tactic(auto)]

mod certificates;
mod checking;
mod condition;
mod open;
mod ordering;
mod placing;
mod reasons;
mod solver;
mod subsets;
pub mod theorems;
mod uses;

pub use certificates::is_valid_stuck_set;
pub use checking::{is_before_by_position, is_order, positions_of};
pub use condition::{Condition, are_below, name_only_below};
pub use ordering::{Solution, order_of};
pub use reasons::{Held, StuckSet, stuck_set};
pub use solver::Solver;
