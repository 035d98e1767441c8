/// The first read of a set of visible updates.
#[derive(Clone, Copy, Debug, PartialEq, Eq)]
pub struct First {
    /// The value that it returned.
    pub value: u32,
    /// Its label.
    pub label: u32,
}
