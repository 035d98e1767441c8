//! The limits of a text and of its check.

pub use ra_history_lines::limits::{
    LINES_BEFORE_COMMANDS, LONGEST_LINE, LONGEST_NAME, MOST_COMMANDS, MOST_NAMES,
    MOST_NAMES_IN_RAH_1,
};

/// The largest number of reads of one check, including the one that finds the end.
pub const MOST_READS: u64 = 4_294_967_296;

/// The largest number of bytes that one read requests.
pub const PIECE: usize = 4_096;
