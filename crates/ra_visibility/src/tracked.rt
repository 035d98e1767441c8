//! The counts that represent which updates were delivered to replicas and which labels see.
ghost use Rattle.std.specs.Prelude.{◌≡◌, ◌<◌, IfOk, OnOk, OnErr, None, true, is_none, replicate};
ghost use Rattle.ra_visibility.specs.Replica.{new_replica};
ghost use Rattle.ra_visibility.specs.Tracked.{replicas_in, labels_in, replica_at, row_at, delivered_count, has_delivered_in, seen_in, first_missing_in, refusal_in};
ghost use Rattle.ra_visibility.specs.Least.{lesser_of};
ghost use Rattle.ra_visibility.specs.Changes.{places_for, nothing_in, with_label, with_delivery, with_joined, without_label, without_delivery, without_joined};
ghost use Rattle.ra_visibility.specs.Kept.{TrackedKept};
ghost use Rattle.ra_visibility.specs.Newest.{newest_seen_in};

use crate::limits::MOST_LABELS;
use crate::replica::Replica;
use crate::row::Row;
use crate::seen::Seen;
use crate::stored::Stored;
use ra_labels::{MOST_REPLICAS, NoMemory, Refusal};
use std::alloc::Global;
use std::marker::Model;

/// The updates that were delivered to replicas and that labels see, as counts.
#[derive(Drop)]
pub struct Tracked {
    replicas: Vec<Replica>,
    rows: Vec<Row>,
    /// The stored counts, row behind row. A row has one count for each replica that existed when it was stored.
    stored: Vec<u32>,
}

impl Model for Tracked {
    ghost use Rattle.ra_visibility.specs.Tracked.{Tracked};

    ghost Value = { Tracked };

    ghost view = { λ a. record { replicas = a.replicas.items; rows = a.rows.items; stored = a.stored.items } };
}

impl Tracked {
    /// Creates the counts of a history without labels, with the given number of replicas.
    ///
    /// # Errors
    ///
    /// `NoMemory` if allocation fails.
    pub fn new(alloc: Global, replicas: u8) -> Result<Tracked, NoMemory>
        ensures { IfOk result (λ tracked. tracked ≡ nothing_in replicas) }
    {
        Ok(Tracked {
            replicas: new_replicas(alloc, replicas, places_for(replicas))?,
            rows: Vec::new(alloc),
            stored: Vec::new(alloc),
        })
    }

    /// Returns the number of labels.
    pub fn labels(&self) -> u32
        requires { TrackedKept self.now }
        ensures { result ≡ labels_in self.now }
    {
        self.rows.len() as u32
    }

    /// Returns the number of replicas.
    pub fn replicas(&self) -> u8
        requires { TrackedKept self.now }
        ensures { result ≡ replicas_in self.now }
    {
        self.replicas.len() as u8
    }

    /// Adds the next label of the replica, and returns whether its counts were stored for it.
    ///
    /// # Errors
    ///
    /// `NoMemory` if allocation fails; nothing changes.
    pub fn issue(&mut self, replica: u8, update: bool) -> Result<bool, NoMemory>
        requires kept { TrackedKept self.old }
        requires replica { replica < replicas_in self.old }
        requires room { labels_in self.old < MOST_LABELS }
        ensures issued { IfOk result (λ was_stored. self.new ≡ with_label self.old replica update) }
        ensures stored { IfOk result (λ was_stored. was_stored ≡ is_none (replica_at self.old replica).stored) }
        ensures same { OnErr result (self.new ≡ self.old) }
    {
        let label = self.rows.len() as u32;
        let at = self.stored.len() as u32;
        let width = self.replicas.len();
        self.rows.reserve(1)?;
        self.stored.reserve(width)?;
        let member = &mut self.replicas[replica as usize];
        let place = member.issued().len() as u32;
        let was = member.stored();
        member.issue(replica, update, label)?;
        let stored = match was {
            Some(there) => there,
            None => {
                self.stored.extend_from_slice(&member.counts()[..width])?;
                Stored {
                    at,
                    width: width as u8,
                }
            }
        };
        member.store_at(Some(stored));
        self.rows.push_reserved(Row {
            replica,
            is_update: update,
            width: stored.width,
            place,
            counts: stored.at,
        });
        Ok(was.is_none())
    }

    /// Returns `true` if the label was delivered to the replica.
    pub fn sees(&self, replica: u8, label: u32) -> bool
        requires kept { TrackedKept self.now }
        requires replica { replica < replicas_in self.now }
        ensures { result ≡ has_delivered_in self.now replica label }
    {
        match self.rows.get(label as usize) {
            Some(row) => {
                let counts = self.replica(replica).counts();
                row.is_update && row.place < counts[row.replica as usize]
            }
            None => false,
        }
    }

    /// Returns what the label sees.
    pub fn vis(&self, label: u32) -> Seen<'_>
        requires kept { TrackedKept self.now }
        requires label { label < labels_in self.now }
        ensures { result ≡ seen_in self.now label }
    {
        let row = self.rows[label as usize];
        let start = row.counts as usize;
        let counts = &self.stored.as_slice()[start..start + row.width as usize];
        Seen::new(self.rows.as_slice(), row.replica, row.place, counts)
    }

    /// Returns the newest update of the replica that the label sees.
    pub fn newest_seen(&self, label: u32, replica: u8) -> Option<u32>
        requires kept { TrackedKept self.now }
        requires label { label < labels_in self.now }
        ensures { result ≡ newest_seen_in self.now label replica }
    {
        let count = self.vis(label).count(replica);
        if count == 0 {
            return None;
        }
        Some(self.replicas[replica as usize].issued()[count as usize - 1])
    }

    /// Returns the updates of the replica, oldest first.
    pub fn issued(&self, replica: u8) -> &[u32]
        requires { replica < replicas_in self.now }
        ensures { result.now ≡ (replica_at self.now replica).issued }
    {
        self.replicas[replica as usize].issued()
    }

    /// Returns the replica that issued the label.
    pub fn issuer(&self, label: u32) -> u8
        requires { label < labels_in self.now }
        ensures { result ≡ (row_at self.now label).replica }
    {
        self.rows[label as usize].replica
    }

    /// Returns the reason to reject the delivery of the label to the replica, if any.
    pub fn refusal(&self, replica: u8, label: u32) -> Option<Refusal>
        requires kept { TrackedKept self.now }
        requires replica { replica < replicas_in self.now }
        ensures { result ≡ refusal_in self.now replica label }
    {
        let Some(row) = self.rows.get(label as usize) else {
            return Some(Refusal::UnknownLabel);
        };
        if !row.is_update {
            return Some(Refusal::NotAnUpdate);
        }
        if self.sees(replica, label) {
            return Some(Refusal::AlreadySeen);
        }
        if self.is_next_of_run(replica, label) {
            return None;
        }
        match self.first_missing(replica, label) {
            Some(missing) => Some(Refusal::NotCausal(missing)),
            None => None,
        }
    }

    // Returns `true` only if nothing that the label sees is missing at the replica. It holds of the issuer's next
    // update there if this shares its stored counts with the update before it, and needs no comparison of counts.
    fn is_next_of_run(&self, replica: u8, label: u32) -> bool
        requires kept { TrackedKept self.now }
        requires replica { replica < replicas_in self.now }
        requires label { label < labels_in self.now }
        ensures { result ≡ true → first_missing_in self.now replica label ≡ None }
    {
        let row = self.row(label);
        let had = self.replica(replica).counts()[row.replica as usize];
        if had != row.place || had == 0 {
            return false;
        }
        let before = self.replica(row.replica).issued()[had as usize - 1];
        let earlier = self.row(before);
        earlier.counts == row.counts && earlier.width == row.width
    }

    // Returns the smallest label that this one sees and that was not delivered to the replica.
    fn first_missing(&self, replica: u8, label: u32) -> Option<u32>
        requires kept { TrackedKept self.now }
        requires replica { replica < replicas_in self.now }
        requires label { label < labels_in self.now }
        ensures { result ≡ first_missing_in self.now replica label }
    {
        let seen = self.vis(label);
        let had = self.replica(replica).counts();
        let mut least: Option<u32> = None;
        for from in 0..self.replicas.len() as u8 {
            let count = had[from as usize];
            if count < seen.count(from) {
                let missing = self.replica(from).issued()[count as usize];
                least = Some(lesser(least, missing));
            }
        }
        least
    }

    // Returns the data of the label.
    fn row(&self, label: u32) -> &Row
        requires { label < labels_in self.now }
        ensures { result.now ≡ row_at self.now label }
    {
        &self.rows[label as usize]
    }

    // Returns the data of the replica.
    fn replica(&self, replica: u8) -> &Replica
        requires { replica < replicas_in self.now }
        ensures { result.now ≡ replica_at self.now replica }
    {
        &self.replicas[replica as usize]
    }

    /// Adds the delivery of the label to the replica. Returns the issuer, and where the receiver's counts were stored.
    pub fn deliver(&mut self, replica: u8, label: u32) -> (u8, Option<Stored>)
        requires kept { TrackedKept self.old }
        requires replica { replica < replicas_in self.old }
        requires label { label < labels_in self.old }
        ensures delivered { self.new ≡ with_delivery self.old replica label }
        ensures from { result.0 ≡ (row_at self.old label).replica }
        ensures stored { result.1 ≡ (replica_at self.old replica).stored }
    {
        let from = self.rows[label as usize].replica;
        let member = &mut self.replicas[replica as usize];
        let stored = member.stored();
        member.record_delivery(from);
        (from, stored)
    }

    /// Undoes the last label.
    pub fn take_label_back(&mut self, was_stored: bool)
        requires kept { TrackedKept self.old }
        requires some { 0 < labels_in self.old }
        ensures { self.new ≡ without_label self.old was_stored }
    {
        let Some(row) = self.rows.pop() else {
            return;
        };
        let member = &mut self.replicas[row.replica as usize];
        member.take_issue_back(row.replica, row.is_update);
        if was_stored {
            member.store_at(None);
            self.stored.truncate(row.counts as usize);
        }
    }

    /// Undoes a delivery.
    pub fn take_delivery_back(&mut self, to: u8, from: u8, stored: Option<Stored>)
        requires kept { TrackedKept self.old }
        requires to { to < replicas_in self.old }
        requires from { from < replicas_in self.old }
        requires some { 0 < delivered_count self.old to from }
        ensures { self.new ≡ without_delivery self.old to from stored }
    {
        let member = &mut self.replicas[to as usize];
        member.take_delivery_back(from, stored);
    }

    /// Adds a replica to which the same updates were delivered as to the other one.
    ///
    /// # Errors
    ///
    /// `NoMemory` if allocation fails; nothing changes.
    pub fn join(&mut self, from: u8) -> Result<(), NoMemory>
        requires { from < replicas_in self.old }
        ensures joined { OnOk result (self.new ≡ with_joined self.old from) }
        ensures same { OnErr result (self.new ≡ self.old) }
    {
        self.replicas.reserve(1)?;
        let joined = self.replica(from).joined()?;
        self.replicas.push_reserved(joined);
        Ok(())
    }

    /// Undoes the last join.
    pub fn take_join_back(&mut self)
        ensures { self.new ≡ without_joined self.old }
    {
        self.replicas.pop();
    }
}

// Returns the given number of replicas without updates, each with the given number of counts.
fn new_replicas(alloc: Global, replicas: u8, places: u8) -> Result<Vec<Replica>, NoMemory>
    ensures { IfOk result (λ made. made.items ≡ replicate replicas (new_replica places)) }
{
    let mut members = Vec::with_capacity(alloc, replicas as usize)?;
    for _ in 0..replicas {
        members.push(Replica::new(alloc, places)?)?;
    }
    Ok(members)
}

// Returns the number of counts that each replica has from the start, so that a join need not extend those of others.
fn places_for(replicas: u8) -> u8
    ensures { result ≡ places_for replicas }
{
    replicas.max(MOST_REPLICAS)
}

// Returns the smaller of two labels, the first of which may be absent.
fn lesser(least: Option<u32>, label: u32) -> u32
    ensures { result ≡ lesser_of least label }
{
    match least {
        Some(other) => other.min(label),
        None => label,
    }
}
