//! The limits of lines.

/// The largest length of a line in bytes, excluding its line feed.
pub const LONGEST_LINE: usize = 1_048_576;

/// The largest number of commands of a text.
pub const MOST_COMMANDS: u32 = 1_048_576;

/// The largest number of replicas of a history, including those that join.
pub const MOST_NAMES: usize = 64;

/// The largest number of replicas of a text in `RAH 1`.
pub const MOST_NAMES_IN_RAH_1: usize = 16;

/// The largest length of a name in bytes.
pub const LONGEST_NAME: usize = 16;

/// The number of lines of a text before its first command: the format with the kind, and the names.
pub const LINES_BEFORE_COMMANDS: u32 = 2;
