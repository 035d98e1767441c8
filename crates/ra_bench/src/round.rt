//! The work of each replica in a round.
use crate::lie::Lie;

/// One round of a run. Rounds count from 0. In the first `rounds` of them each replica makes an update and reads. In
/// the next one it only applies what arrives, and in the last one it applies what arrives and reads.
#[derive(Clone, Copy)]
pub struct Round {
    /// The number of this round.
    pub number: u32,
    /// The number of rounds with an update.
    pub rounds: u32,
    /// The read that is reported falsely, if there is one.
    pub lie: Option<Lie>,
}

impl Round {
    /// Returns `true` if each replica makes an update.
    pub fn has_update(&self) -> bool {
        self.number < self.rounds
    }

    /// Returns `true` if each replica reads.
    pub fn has_read(&self) -> bool {
        self.number != self.rounds
    }

    /// Returns `true` if this replica reports its read falsely.
    pub fn is_lie_of(&self, replica: u8) -> bool {
        match self.lie {
            Some(lie) => lie.replica == replica && lie.round == self.number,
            None => false,
        }
    }
}
