use ra_labels::{Stamp, Update};

/// The data of a label that has an update.
#[derive(Drop)]
pub struct Written {
    /// The update.
    pub update: Update,
    /// The label's own stamp.
    pub stamp: Stamp,
    /// The number of the update's element.
    pub on: u32,
}
