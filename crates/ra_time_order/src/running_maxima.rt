//! The greatest own stamp that a label sees, from the number of updates of each replica that it sees.
ghost use Rattle.std.specs.Prelude.{◌≡◌, ◌<◌, true, [], length, replicate, unwrap_or, IfOk, OnOk};
ghost use Rattle.ra_visibility.specs.Seen.{count_in};
ghost use Rattle.ra_time_order.specs.Stamps.{greatest_in, stamps_with};

use crate::running_maximum::RunningMaximum;
use ra_labels::{LOWEST, NoMemory, Stamp};
use ra_visibility::Seen;
use std::alloc::Global;
use std::marker::Model;

/// The running maxima of all replicas: the greatest own stamp among the first updates, for each number of them.
/// Replicas that may join later have a member too.
#[derive(Drop)]
pub struct RunningMaxima {
    members: Vec<RunningMaximum>,
    /// The member that was extended last. All others have room for one more update.
    newest: usize,
    /// A bound: no member with this index or a greater one has updates.
    used: usize,
}

impl Model for RunningMaxima {
    ghost use Rattle.ra_time_order.specs.RunningMaxima.{RunningMaxima, stamps_of, have_room, RunningMaximaKept};

    ghost Value = { RunningMaxima };

    ghost view = { λ a. record { stamps = stamps_of a.members.items; has_room = have_room a.members.items } };

    ghost invariant = { λ a. RunningMaximaKept a.members.items a.newest a.used };
}

impl RunningMaxima {
    /// Creates the maxima of the given number of replicas without updates, each with room for one.
    ///
    /// # Errors
    ///
    /// `NoMemory` if allocation fails.
    pub fn new(alloc: Global, replicas: u8) -> Result<RunningMaxima, NoMemory>
        requires { 0 < replicas }
        ensures { IfOk result (λ made. made.stamps ≡ replicate replicas []) }
    {
        let mut members = Vec::with_capacity(alloc, replicas as usize)?;
        for _ in 0..replicas {
            members.push(RunningMaximum::new(alloc)?)?;
        }
        Ok(RunningMaxima {
            members,
            newest: 0,
            used: 0,
        })
    }

    /// Reserves room for one more update of any replica. Only the member that was extended last may lack it.
    ///
    /// # Errors
    ///
    /// `NoMemory` if allocation fails; the stamps are unchanged.
    ///
    /// # Complexity
    ///
    /// Amortized O(1).
    pub fn reserve(&mut self) -> Result<(), NoMemory>
        ensures stamps { self.new.stamps ≡ self.old.stamps }
        ensures room { OnOk result (self.new.has_room ≡ true) }
    {
        let newest = self.newest;
        self.members[newest].reserve()
    }

    /// Returns the greatest own stamp of the updates in the set, or the lowest rank if there is none.
    ///
    /// # Complexity
    ///
    /// O(u), where `u - 1` is the highest number of a replica with updates.
    pub fn greatest(&self, seen: &Seen<'_>) -> Stamp
        ensures { result ≡ greatest_in self.now.stamps (count_in seen.now) (length self.now.stamps) }
    {
        let mut greatest = LOWEST;
        for (replica, member) in self.members.as_slice()[..self.used].iter().enumerate() {
            greatest = greatest.greater(member.among(seen.count(replica as u8)));
        }
        greatest
    }

    /// Returns the label's own stamp, or the greatest one that it sees.
    ///
    /// # Complexity
    ///
    /// O(1) if the label has a stamp; otherwise as `greatest`.
    pub fn rank(&self, own: Option<Stamp>, seen: &Seen<'_>) -> Stamp
        ensures { result ≡ unwrap_or own (greatest_in self.now.stamps (count_in seen.now) (length self.now.stamps)) }
    {
        match own {
            Some(stamp) => stamp,
            None => self.greatest(seen),
        }
    }

    /// Adds the next label of the replica, an update or not, with its own stamp if it has one. Does not allocate.
    pub fn push(&mut self, replica: u8, update: bool, own: Option<Stamp>)
        requires { self.old.has_room ≡ true }
        ensures { self.new.stamps ≡ stamps_with self.old.stamps replica update own }
    {
        let at = replica as usize;
        if update && at < self.members.len() {
            self.members[at].push(own);
            self.newest = at;
            self.used = self.used.max(at + 1);
        }
    }
}
