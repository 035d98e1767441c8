/// An edge: in the kept order, one element is somewhere before another one. The label says which operation requires it.
#[derive(Clone, Copy, Debug, PartialEq, Eq)]
pub struct Edge {
    /// The earlier element.
    pub before: u32,
    /// The later element.
    pub after: u32,
    /// The label of the operation that requires the edge.
    pub label: u32,
}
