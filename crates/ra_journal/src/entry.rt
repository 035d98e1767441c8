//! An entry of a journal's log.

/// A command with its reply.
#[derive(Debug, PartialEq, Eq, Drop)]
pub struct Entry<C, R> {
    /// The ticket under which the call was served.
    pub ticket: u64,
    /// The command.
    pub command: C,
    /// The reply.
    pub reply: R,
    /// The number of the pass that made the call. It is the last field, so that it fits into the padding behind the
    /// reply.
    pub pass: u8,
}
