//! The running maximum of one replica: the greatest own stamp among its first updates, for each number of them.
ghost use Rattle.std.specs.Prelude.{◌≡◌, ◌<◌, [], IfOk, OnOk};
ghost use Rattle.ra_time_order.specs.RunningMaximum.{greatest_among, with_stamp};

use ra_labels::{LOWEST, NoMemory, Stamp};
use std::alloc::Global;
use std::marker::Model;

/// The greatest own stamp among a replica's first updates, for each number of them.
#[derive(Drop)]
pub struct RunningMaximum {
    stamps: Vec<Stamp>,
}

impl Model for RunningMaximum {
    ghost use Rattle.std.specs.Prelude.{◌-◌, vec_len, vec_capacity};
    ghost use Rattle.ra_time_order.specs.RunningMaximum.{RunningMaximum};

    ghost Value = { RunningMaximum };

    ghost view = { λ a. record { stamps = a.stamps.items; room = vec_capacity a.stamps - vec_len a.stamps } };
}

impl RunningMaximum {
    /// Creates the maximum of no updates, with room for one.
    ///
    /// # Errors
    ///
    /// `NoMemory` if allocation fails.
    pub fn new(alloc: Global) -> Result<RunningMaximum, NoMemory>
        ensures stamps { IfOk result (λ made. made.stamps ≡ []) }
        ensures room { IfOk result (λ made. 0 < made.room) }
    {
        Ok(RunningMaximum {
            stamps: Vec::with_capacity(alloc, 1)?,
        })
    }

    /// Reserves room for one more update.
    ///
    /// # Errors
    ///
    /// `NoMemory` if allocation fails; the stamps are unchanged.
    pub fn reserve(&mut self) -> Result<(), NoMemory>
        ensures stamps { self.new.stamps ≡ self.old.stamps }
        ensures room { OnOk result (0 < self.new.room) }
    {
        self.stamps.reserve(1)?;
        Ok(())
    }

    /// Returns the greatest own stamp among the given number of first updates, or the lowest rank if there is none.
    pub fn among(&self, count: u32) -> Stamp
        ensures { result ≡ greatest_among self.now.stamps count }
    {
        let count = (count as usize).min(self.stamps.len());
        if count == 0 {
            return LOWEST;
        }
        self.stamps[count - 1]
    }

    /// Adds the next update, with its own stamp if it has one. Does not allocate.
    pub fn push(&mut self, own: Option<Stamp>)
        requires { 0 < self.old.room }
        ensures { self.new.stamps ≡ with_stamp self.old.stamps own }
    {
        let before = match self.stamps.last() {
            Some(stamp) => *stamp,
            None => LOWEST,
        };
        let next = match own {
            Some(stamp) if before < stamp => stamp,
            _ => before,
        };
        self.stamps.push_reserved(next);
    }
}
