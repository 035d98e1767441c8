//! The updates on their way from one replica to another.
ghost use Rattle.std.specs.Prelude.{◌≡◌, IfOk};

use crate::counts::Counts;
use ra_labels::{NoMemory, Op};

/// An update as its replica made it.
#[derive(Debug, Drop)]
pub struct Made {
    /// The update.
    pub op: Op,
    /// The clock of its stamp, if it has one. The stamp's replica is the one that made the update.
    pub clock: Option<u32>,
    /// How many updates of each replica its replica had applied before it.
    pub had: Counts,
}

/// An update on its way to another replica.
#[derive(Debug, Drop)]
pub struct Message {
    /// The label number that the monitor gave to the update.
    pub label: u32,
    /// The replica that made it.
    pub from: u8,
    /// The update.
    pub made: Made,
}

impl Message {
    /// Returns a copy of the message.
    ///
    /// # Errors
    ///
    /// `NoMemory` if an allocation fails.
    ///
    /// # Complexity
    ///
    /// O(total length of its lists).
    pub fn copy(&self) -> Result<Message, NoMemory>
        // The copy equals the message.
        ensures { IfOk result (λ copy. copy ≡ self.now) }
    {
        let made = Made {
            op: self.made.op.clone()?,
            clock: self.made.clock,
            had: self.made.had.copy()?,
        };
        Ok(Message {
            label: self.label,
            from: self.from,
            made,
        })
    }
}
