//! Renderers of an explanation: words, a JSON object, and the sequence that linearizes the history.
//!
//! The contract for the layers above: each call returns, and the error `NoMemory` means that an allocation failed.
//! `put_json` appends exactly the object of the explanation (`specs/Json`). `put_words` appends its text
//! (`specs/Words`), all of which follows from the explanation but for notes on the reasons of a violation.
//! `put_document` appends exactly the document of its arguments (`specs/Document`). No clause states what the notes say
//! or what `put_sequence` appends; stored pages and the model test that (`tests/explanations`).
#![tactic(auto)]

mod causes;
mod certificate;
mod conflict;
mod document;
mod elements;
mod json;
mod json_certificate;
mod json_conflict;
mod json_possible;
mod layout;
mod list_elements;
mod notes;
mod opinion;
mod page;
mod pass;
mod possible;
mod query;
mod quotes;
mod rejected;
mod remedies;
mod sequence;
mod shares;
mod unmet;
mod unordered;
mod view;

pub use document::{put_document, put_escaped};
pub use json::put_json;
pub use layout::{behind, put, put_count, put_cut, put_head, put_padded, put_size, small};
pub use notes::put_printable;
pub use page::put_words;
pub use quotes::{put_line, put_name, trimmed};
pub use remedies::shown;
pub use sequence::put_sequence;
pub use view::View;
