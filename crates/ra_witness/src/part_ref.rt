/// Which part of a label: the whole label, or one of the halves into which the rewriting splits it.
#[derive(Clone, Copy, Debug, PartialEq, Eq)]
pub enum Half {
    /// The whole label, which is an update or a query.
    Whole,
    /// The query half, which stands before the update half.
    QueryHalf,
    /// The update half.
    UpdateHalf,
}

/// A reference to a part of a rewritten history, by label number.
#[derive(Clone, Copy, Debug, PartialEq, Eq)]
pub struct PartRef {
    /// The label's number.
    pub label: u32,
    /// Which part of the label.
    pub half: Half,
}
