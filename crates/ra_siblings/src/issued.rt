use crate::label_set::LabelSet;

/// What a label wrote, and which labels it replaced.
#[derive(Drop)]
pub struct Issued {
    /// The value that it wrote, or `None` if it is no write.
    pub value: Option<u32>,
    /// The siblings that its replica had when it issued the label, if it is a write; otherwise none.
    pub replaced: LabelSet,
}
