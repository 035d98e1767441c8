//! The data of one replica: its updates, and how many updates of each replica were delivered to it.
ghost use Rattle.std.specs.Prelude.{◌≡◌, ◌<◌, IfOk, OnOk, OnErr, Option, None, true, length, get_or};
ghost use Rattle.ra_visibility.specs.Replica.{new_replica, joined_from, with_own, without_own, stored_at, with_next, without_last};

use crate::stored::Stored;
use ra_labels::NoMemory;
use std::alloc::Global;
use std::marker::Model;

/// The data of one replica.
#[derive(Drop)]
pub struct Replica {
    /// The number of updates of each replica that were delivered to it, its own included. It has entries for replicas
    /// that may join later.
    counts: Vec<u32>,
    /// The labels of its own updates, in their order.
    issued: Vec<u32>,
    /// Where its counts are stored, if nothing was delivered to it since they were.
    stored: Option<Stored>,
}

impl Model for Replica {
    ghost use Rattle.ra_visibility.specs.Replica.{Replica};

    ghost Value = { Replica };

    ghost view = { λ a. record { counts = a.counts.items; issued = a.issued.items; stored = a.stored } };
}

impl Replica {
    /// Creates a replica without updates, with this number of counts.
    ///
    /// # Errors
    ///
    /// `NoMemory` if allocation fails.
    pub fn new(alloc: Global, places: u8) -> Result<Replica, NoMemory>
        ensures { IfOk result (λ replica. replica ≡ new_replica places) }
    {
        Ok(Replica {
            counts: vec![in alloc; 0; places as usize]?,
            issued: Vec::new(alloc),
            stored: None,
        })
    }

    /// Returns a replica that joins from this one: the same updates were delivered to it, and it issued none.
    ///
    /// # Errors
    ///
    /// `NoMemory` if allocation fails.
    pub fn joined(&self) -> Result<Replica, NoMemory>
        ensures { IfOk result (λ replica. replica ≡ joined_from self.now) }
    {
        // The stored row lacks the source's own count, so the two cannot share it.
        let stored = None;
        Ok(Replica {
            counts: self.counts.clone()?,
            issued: Vec::new(*self.counts.allocator()),
            stored,
        })
    }

    /// Returns the number of updates of each replica that were delivered to it.
    pub fn counts(&self) -> &[u32]
        ensures { result.now ≡ self.now.counts }
    {
        self.counts.as_slice()
    }

    /// Returns the labels of its own updates.
    pub fn issued(&self) -> &[u32]
        ensures { result.now ≡ self.now.issued }
    {
        self.issued.as_slice()
    }

    /// Returns where its counts are stored, if they are.
    pub fn stored(&self) -> Option<Stored>
        ensures { result ≡ self.now.stored }
    {
        self.stored
    }

    /// Sets where its counts are stored.
    pub fn store_at(&mut self, at: Option<Stored>)
        ensures { self.new ≡ stored_at self.old at }
    {
        self.stored = at;
    }

    /// Adds its own next label, an update or not.
    ///
    /// # Errors
    ///
    /// `NoMemory` if allocation fails; the replica is unchanged.
    pub fn issue(&mut self, own: u8, update: bool, label: u32) -> Result<(), NoMemory>
        requires own { own < length self.old.counts }
        requires room { get_or self.old.counts own 0 < 4294967295 }
        ensures issued { OnOk result (self.new ≡ with_own self.old own update label) }
        ensures same { OnErr result (self.new ≡ self.old) }
    {
        if update {
            self.issued.push(label)?;
            self.counts[own as usize] += 1;
        }
        Ok(())
    }

    /// Undoes its own last label.
    pub fn take_issue_back(&mut self, own: u8, update: bool)
        requires own { own < length self.old.counts }
        requires some { update ≡ true → 0 < get_or self.old.counts own 0 }
        ensures { self.new ≡ without_own self.old own update }
    {
        if update {
            self.issued.pop();
            self.counts[own as usize] -= 1;
        }
    }

    /// Adds the delivery of the next update of another replica.
    pub fn record_delivery(&mut self, from: u8)
        requires from { from < length self.old.counts }
        requires room { get_or self.old.counts from 0 < 4294967295 }
        ensures { self.new ≡ with_next self.old from }
    {
        self.counts[from as usize] += 1;
        self.stored = None;
    }

    /// Undoes the last delivery from another replica.
    pub fn take_delivery_back(&mut self, from: u8, stored: Option<Stored>)
        requires from { from < length self.old.counts }
        requires some { 0 < get_or self.old.counts from 0 }
        ensures { self.new ≡ without_last self.old from stored }
    {
        self.counts[from as usize] -= 1;
        self.stored = stored;
    }
}
