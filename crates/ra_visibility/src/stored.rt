/// The location of a replica's counts in the table of stored counts: 8 bytes.
#[derive(Clone, Copy)]
pub struct Stored {
    /// The index of the first count.
    pub at: u32,
    /// The number of counts: one for each replica that existed then.
    pub width: u8,
}
