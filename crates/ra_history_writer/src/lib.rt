//! A writer of a monitor's history as a text.
//!
//! `specs/Spelling` defines the line of a command and the text of a history, and `specs/Writing` what is written of a
//! monitor, or why it is not. `put_command` appends the line that encodes a command to a buffer, and `line_size`
//! computes its length without allocating.
//!
//! The contract for the layers above: on success, `write_history` has written a text that has a regular end and says
//! the monitor's kind, its replicas' names and its accepted commands, in order. The functions of `theorems` state the
//! theorems about the definitions; proofs of the crates above cite them from `proofs/TheoremIndex`.
#![tactic(auto)]

mod fault;
pub mod size;
pub mod spelling;
pub mod theorems;
mod writing;

pub use fault::WriteFault;
pub use writing::write_history;
