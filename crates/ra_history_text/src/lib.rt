//! The check of a history's text, RAH 1 or RAH 2: how the text ends, and what is written for it.
//!
//! The first line of a text names the format and the kind, and the second lists the names of the initial replicas. Each
//! later line is a command; only RAH 2 has joins. `ra_history_lines` parses the lines; its `Names` and `Reading` are
//! re-exported here. `specs/Text` computes from a text's bytes how it ends and what its lines say, and `specs/Output`
//! what is written for it.
//!
//! The contract for the layers above: `check` writes `output_of` the text that it reads, and returns the text's own
//! ending, unless the reader, the writer or an allocation fails, or the input is endless. A `Session` does the same for
//! a caller that has the text piece by piece, and `check_session` for one that inspects its monitor afterwards. The
//! functions of `theorems` state the theorems about the definitions; proofs of the crates above cite them from
//! `proofs/TheoremIndex`.
#![tactic(auto)]

mod fault;
pub mod limits;
mod line;
mod outcome;
mod recording;
mod run;
mod session;
pub mod theorems;
mod write;

pub use fault::CheckFault;
pub use line::write_line;
pub use outcome::{Outcome, status};
pub use ra_history_lines::{Format, Header, Item, LineFault, Names, NamesFault, Reading};
pub use run::{check, check_session};
pub use session::Session;
pub use write::{Unwritten, write_out};
