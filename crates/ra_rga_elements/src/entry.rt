use ra_labels::Stamp;

/// An element as a chunk stores it: 12 bytes.
#[derive(Clone, Copy)]
pub struct Entry {
    /// Its number.
    pub number: u32,
    /// Its stamp.
    pub stamp: Stamp,
}
