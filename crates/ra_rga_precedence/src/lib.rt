//! Whether any order of the labels explains the records of an RGA: such an order, or why there is none.
//!
//! An update comes after the newest update that it sees of each replica, and after the insertion of its anchor or of
//! the element that it removes. Two adjacent elements of a read show which of two insertions came later. These
//! conditions are edges between labels. An order meets them exactly if it keeps the precedence of the records
//! (`ra_rga_conditions`). Reads fit into each such order: a read stands directly before the next update of its replica,
//! or at the end.
//!
//! Contract for the crates above: `demands_of` returns such conditions, or a refutation by which no sequence at all is
//! an RA-linearization; `some_order` returns an order in which the parts of all labels are one, or a refutation
//! (`specs/Answers`). `meets_demands` and `refutes` check an order and a refutation. `nearest_list` returns an answer
//! of a replica's next read that some order explains (`specs/Nearest`).
#![tactic(auto)]

mod answer;
mod arrangement;
mod beginning;
mod checks;
mod complete;
mod demands;
mod inserters;
mod insertions;
mod label_order;
mod marks;
mod nearest;
mod needs;
mod neighbors;
mod next_read;
mod operations;
mod ordering;
mod pairs;
mod ranks;
mod reads;
mod relations;
mod reported;
mod turned;
mod undecided;
mod update_conditions;
mod view;

pub use answer::{AnyOrder, Refutation};
pub use checks::{meets_demands, refutes};
pub use complete::complete_counts;
pub use nearest::{NearestList, nearest_list};
pub use ordering::{Demands, demands_of, some_order};
pub use undecided::MOST_ASKED;
