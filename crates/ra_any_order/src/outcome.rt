//! What was found of a label.

/// What was found of a label.
#[derive(Drop)]
pub enum Outcome {
    /// Some visible update can lead to its answer, or it is no read.
    Possible,
    /// It is a read that no visible update can lead to, of an LWW set for this element.
    Impossible(Option<u32>),
}
