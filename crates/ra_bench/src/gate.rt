//! The gate that decides when a replica proceeds.

/// A gate that admits replicas, one round at a time. A test uses it to hold one back while others proceed.
pub trait Gate {
    /// Returns `true` if the replica may begin the round. The replica's thread calls it once, before its first call of
    /// the round. After `false` the replica makes no further call, and the run ends with `Stalled` when the other
    /// threads have ended.
    fn enter(&self, replica: u8, round: u32) -> bool;

    /// Receives the notice that the replica has finished the round. The replica's thread calls it once, after the reply
    /// to its last call of the round, unless a call failed.
    fn left(&self, replica: u8, round: u32);
}

/// A gate that is always open.
#[derive(Clone, Copy, Debug, PartialEq, Eq)]
pub struct OpenGate;

impl Gate for OpenGate {
    /// Returns `true` at once.
    fn enter(&self, _replica: u8, _round: u32) -> bool {
        true
    }

    /// Does nothing.
    fn left(&self, _replica: u8, _round: u32) {}
}
