//! The explanation of a text with a fault: the line, its first bytes, the first field that cannot be parsed and what is
//! valid there. It is written as a page, as a JSON object, or as an HTML document.
//!
//! The contract for the layer above: each call returns, and the error `NoMemory` means that an allocation failed. The
//! line and the reason come from the check, which has clauses. The bytes of the line come from `Session::line_so_far`;
//! no clause states what it returns after an error. The text and the notes on likely causes are tested only: against
//! stored pages and against the model (`tests/explanations`).
#![tactic(auto)]

mod expected;
mod field;
mod hint;
mod rule;
mod shown;
mod stop;

pub use stop::Stop;
