//! The lines of a history's text: the kind, the replicas' names, the commands, and the lines of replies.
//!
//! `specs/Grammar` states the grammar as equations between the fields of a line and words, names and digits;
//! docs/reference/text_format.md describes it in prose. `specs/Reading` computes what a line encodes, field by field,
//! and `specs/Replies` the line of a reply.
//!
//! The contract for the layers above: where allocation succeeds, `command` returns the command that a line encodes, and
//! `None` exactly if it encodes none. `Reading::line` returns the kind, the number of names or the command that the
//! next line encodes; its error `Syntax` implies that the line encodes none. `Names::new` creates the names of a
//! history from another source. The functions of `theorems` state the theorems about the definitions; proofs of the
//! crates above cite them from `proofs/TheoremIndex`.
#![tactic(auto)]

pub mod command;
mod fault;
pub mod fields;
mod format;
pub mod kind_line;
pub mod limits;
mod list;
mod name;
pub mod number;
mod operation;
mod reading;
pub mod reply;
pub mod theorems;
mod word;

pub use fault::{LineFault, NamesFault};
pub use format::Format;
pub use name::Names;
pub use reading::{Header, Item, Reading};
