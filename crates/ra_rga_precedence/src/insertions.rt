//! What is known of the insertions of an RGA.

use std::collections::BTreeMap;

/// What is known of the insertions of an RGA.
#[derive(Drop)]
pub struct Insertions {
    /// The label that inserts the element, by element.
    pub inserters: BTreeMap<u32, u32>,
    /// The label that inserts what the label needs, if it needs an element, by label.
    pub needed: Vec<Option<u32>>,
    /// The place of the label in an order in which what a label needs comes before it, by label.
    pub ranks: Vec<usize>,
}
