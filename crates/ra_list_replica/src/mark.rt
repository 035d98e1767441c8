/// What a replica's view says of an element.
#[derive(Clone, Copy, Debug, PartialEq, Eq)]
pub enum Mark {
    /// The replica does not have the element's insertion.
    Missing,
    /// The replica has the insertion and no removal of the element: a read shows it.
    Shown,
    /// The replica has the insertion and a removal.
    Removed,
}
