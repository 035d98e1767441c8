/// The data of a label: 12 bytes.
#[derive(Clone, Copy)]
pub struct Row {
    /// The replica that issued it.
    pub replica: u8,
    /// Whether it is an update.
    pub is_update: bool,
    /// The number of its counts: one for each replica that existed when they were stored. It sees nothing of replicas
    /// that joined later.
    pub width: u8,
    /// The number of updates that its replica issued before it.
    pub place: u32,
    /// The index of its first count in the table of stored counts. For its own replica, `place` is the count instead.
    pub counts: u32,
}
