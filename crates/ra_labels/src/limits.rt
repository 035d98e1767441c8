/// The largest number of replicas of a history, those that join included.
pub const MOST_REPLICAS: u8 = 64;
