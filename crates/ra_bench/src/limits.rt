//! The limits of a bench.

/// The largest number of replicas of a bench.
pub const MOST_BENCH_REPLICAS: u8 = 16;

/// The largest number of rounds in which each replica makes an update.
pub const MOST_ROUNDS: u32 = 1_000;
