/// An insertion into a list. A neighbour is an element that the replica has, or 0 where none is named.
#[derive(Clone, Copy, Debug, PartialEq, Eq)]
pub struct Insertion {
    /// The element that the new one is behind, or 0.
    pub left: u32,
    /// The new element.
    pub element: u32,
    /// The element that the new one is before, or 0.
    pub right: u32,
}
