//! Theorems about the definitions. Each is the clause of a function that does nothing. Proofs of the crates above cite
//! them under these names from `proofs/TheoremIndex`.
pub mod acts;
pub mod answer;
pub mod any_order;
pub mod arriving;
pub mod commuting;
pub mod counts;
pub mod fault;
pub mod identifiers;
pub mod insertion;
pub mod joins;
pub mod late;
pub mod linearization;
pub mod one_state;
pub mod one_step;
pub mod or_set;
pub mod ordered_lists;
pub mod overriding;
pub mod passing;
pub mod records;
pub mod rga;
pub mod sequence;
pub mod settled;
pub mod specification;
pub mod timestamps;
pub mod visibility;
pub mod waiting;
