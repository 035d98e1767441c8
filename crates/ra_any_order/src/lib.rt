//! Whether any order of the labels explains the records of a register or an LWW set: an order, or why there is none.
//!
//! Each label comes after the newest update that it sees of each replica, and after the previous label of its replica.
//! The last of the newest visible writes is one of the value that a register's read returned. For an LWW set, the last
//! of an element's newest visible updates is an addition exactly if the read lists the element. These conditions are
//! few, and an order of the labels meets them exactly if the parts of the labels in this order are an RA-linearization
//! (`ra_some_order`).
//!
//! Contract for the crates above: `some_order` returns such an order, or a refutation by which no sequence at all is an
//! RA-linearization (`specs/Answers`). `linearizes` and `refutes` check an order and a refutation. `possible_values`
//! and `possible_elements` return what the next read of a replica can return.
#![tactic(auto)]

mod answer;
mod changes;
mod checks;
mod conditions;
mod elements;
mod label_order;
mod next_elements;
mod next_read;
mod operations;
mod ordering;
mod outcome;
mod previous;
mod reads;
mod seen_updates;
mod standings;
mod values;
mod views;

pub use answer::{AnyOrder, Refutation};
pub use checks::{linearizes, refutes};
pub use label_order::is_order_of_labels;
pub use next_elements::{MOST_ASKED, PossibleElements, possible_elements};
pub use next_read::possible_values;
pub use ordering::some_order;
