use ra_labels::Stamp;

/// A label with its rank: 12 bytes.
#[derive(Clone, Copy, PartialEq, Eq, PartialOrd, Ord)]
pub struct Entry {
    /// Its timestamp.
    pub rank: Stamp,
    /// Its number.
    pub label: u32,
}
