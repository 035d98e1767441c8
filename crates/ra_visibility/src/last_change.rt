use crate::stored::Stored;

/// The last change of a tracker, with what is needed to undo it.
#[derive(Clone, Copy)]
pub enum LastChange {
    /// No change, or the last one was undone.
    Nothing,
    /// A label was issued.
    Issue {
        /// Whether the counts of its replica were stored for it.
        was_stored: bool,
    },
    /// A label was delivered.
    Delivery {
        /// The receiving replica.
        to: u8,
        /// The replica that issued the label.
        from: u8,
        /// Where the receiver's counts were stored before.
        stored: Option<Stored>,
    },
    /// A replica joined: the last one.
    Join,
}
