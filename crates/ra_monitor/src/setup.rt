use ra_labels::Kind;

/// The values with which a monitor was created. No step changes them.
#[derive(Clone, Copy, Debug, PartialEq, Eq)]
pub struct Setup {
    /// The kind of the history.
    pub kind: Kind,
    /// The number of initial replicas, from 1 to 64.
    pub replicas: u8,
    /// The largest number of entries of the log, from 1 to 1,048,576.
    pub limit: u32,
}
