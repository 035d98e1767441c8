use ra_labels::Stamp;

/// The data of an element. Its number is its index.
#[derive(Clone, Copy)]
pub struct Element {
    pub element: u32,
    pub stamp: Stamp,
    /// The number of its anchor.
    pub anchor: u32,
    /// The number of the element directly before it. That of the root is never followed.
    pub before: u32,
    /// The group that the elements of its chunk share.
    pub group: usize,
}
