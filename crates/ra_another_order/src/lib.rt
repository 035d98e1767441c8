//! Whether another order explains what a log reports of a register, an LWW set or an RGA.
//!
//! The monitor judges these kinds by the order of their timestamps. If another order explains a violation, suspect a
//! clock, a tie-break, a misreported delivery, or a type that does not order updates by clocks. If none does, an
//! answer, a report or the type is wrong, whatever the clocks are. The question is asked of the labels that a log
//! reports (`ra_reported`), and decided for the kind (`ra_any_order`, `ra_rga_precedence`).
//!
//! Contract for the crates above: `another_order` returns an order that explains the labels, or a reason why no
//! sequence at all is an RA-linearization (`specs/Answers`). `second_opinion` returns this answer about the labels up
//! to a violation, and the longest prefix of all labels that some order explains (`specs/Opinions`, `specs/Extent`).
//! `linearizes` and `refutes` check an order and a reason. `possible_answers` returns what the next read can return so
//! that some order explains it (`specs/PossibleAnswers`).
#![tactic(auto)]

mod answer;
mod checks;
mod ends;
mod extent;
mod known;
mod labels;
mod operations;
mod opinion;
mod possible;
mod question;
mod reasons;
mod search;
mod values;

pub use answer::{Answer, Reason};
pub use checks::{linearizes, refutes};
pub use extent::Extent;
pub use opinion::{SecondOpinion, second_opinion};
pub use possible::{PossibleAnswers, possible_answers};
pub use question::another_order;
pub use values::PossibleValues;
