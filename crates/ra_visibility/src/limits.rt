/// The largest number of labels of a tracker.
pub const MOST_LABELS: u32 = 1_048_576;
