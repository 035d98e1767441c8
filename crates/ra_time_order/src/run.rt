use crate::chunk::Chunk;
use ra_labels::Stamp;

/// Adjacent labels of the order.
#[derive(Drop)]
pub struct Run {
    /// A bound: no label before the run has a greater rank, and none from its start on has a smaller one.
    pub first: Stamp,
    pub chunk: Chunk,
}
