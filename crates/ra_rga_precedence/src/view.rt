//! What the reads of one replica see: each read looks only at updates that are new since the last one.
ghost use Rattle.std.specs.Prelude.{◌≡◌, ◌<◌, ◌≤◌, ℕ, true, length, get_or, IfOk, OnOk};
ghost use Rattle.ra_visibility.specs.Seen.{count_in};
ghost use Rattle.ra_visibility.specs.Tracked.{replicas_in, labels_in};
ghost use Rattle.ra_visibility.specs.Kept.{issued_count};
ghost use Rattle.ra_rga_precedence.specs.Situation.{operations_in};
ghost use Rattle.ra_rga_precedence.specs.Marks.{removal_at, with_mark};
ghost use Rattle.ra_rga_precedence.specs.UpdateConditions.{AreBelow};
ghost use Rattle.ra_rga_precedence.specs.Views.{IsNewView, IsView, with_insertion, IsTakenUp, IsBroughtUp, IsBehind};

use crate::marks::lacks_need;
use crate::operations::operation_at;
use ra_labels::{NoMemory, Op};
use ra_visibility::{Seen, Tracker};
use std::alloc::Global;

/// What the last read of a replica sees. It takes O(n) words, where `n` is the number of labels.
#[derive(Drop)]
pub struct View {
    /// How many updates of each replica it sees, by replica.
    pub taken: Vec<u32>,
    /// Marks of the labels whose elements these updates remove.
    pub removed: Vec<bool>,
    /// The insertions among these updates, at least those whose elements they do not remove.
    pub present: Vec<u32>,
}

impl View {
    /// Creates the view of a replica without reads.
    ///
    /// # Errors
    ///
    /// `NoMemory` if allocation fails.
    ///
    /// # Complexity
    ///
    /// O(n + r), where `n` is the number of labels and `r` that of replicas.
    pub fn new(alloc: Global, replicas: u8, labels: u32) -> Result<View, NoMemory>
        ensures { IfOk result (IsNewView replicas labels) }
    {
        let mut taken = Vec::new(alloc);
        taken.resize(replicas as usize, 0)?;
        let mut removed = Vec::new(alloc);
        removed.resize(labels as usize, false)?;
        Ok(View {
            taken,
            removed,
            present: Vec::new(alloc),
        })
    }

    /// Adds to the view the updates that the read sees and the view lacks. Returns one of them that needs what the read
    /// does not see, if there is one.
    ///
    /// # Errors
    ///
    /// `NoMemory` if allocation fails.
    ///
    /// # Complexity
    ///
    /// O(r + k), where `r` is the number of replicas and `k` that of these updates. O(n + r) if the view has an update
    /// that the read does not see, since it is then made anew. A later read of the same replica never sees less.
    pub fn bring_up(
        &mut self,
        alloc: Global,
        tracker: &Tracker,
        operations: &[&Op],
        needed: &[Option<u32>],
        seen: &Seen<'_>,
    ) -> Result<Option<u32>, NoMemory>
        requires len { length needed.now ≡ labels_in tracker.now.now }
        requires below { AreBelow (labels_in tracker.now.now) needed.now }
        requires rows { seen.now.rows ≡ tracker.now.now.rows }
        requires counts { (k : ℕ) → count_in seen.now k ≤ issued_count tracker.now.now k }
        requires view { IsView tracker.now.now (operations_in operations.now) needed.now self.old }
        ensures { IfOk result
            (IsBroughtUp tracker.now.now (operations_in operations.now) needed.now seen.now self.new) }
    {
        if !self.is_behind(seen, tracker.replicas()) {
            *self = View::new(alloc, tracker.replicas(), tracker.labels())?;
        }
        self.take_new(tracker, operations, needed, seen)
    }

    // Returns `true` if the view has taken no more updates of each replica than the read sees.
    fn is_behind(&self, seen: &Seen<'_>, replicas: u8) -> bool
        requires { length self.now.taken.items ≡ replicas }
        ensures behind { result ≡ true → IsBehind seen.now self.now }
        ensures all { IsBehind seen.now self.now → result ≡ true }
    {
        for replica in 0..replicas {
            if self.taken[replica as usize] > seen.count(replica) {
                return false;
            }
        }
        true
    }

    // Adds the updates that the read sees and the view lacks. Returns one that needs what the read does not see.
    fn take_new(
        &mut self,
        tracker: &Tracker,
        operations: &[&Op],
        needed: &[Option<u32>],
        seen: &Seen<'_>,
    ) -> Result<Option<u32>, NoMemory>
        requires len { length needed.now ≡ labels_in tracker.now.now }
        requires below { AreBelow (labels_in tracker.now.now) needed.now }
        requires rows { seen.now.rows ≡ tracker.now.now.rows }
        requires counts { (k : ℕ) → count_in seen.now k ≤ issued_count tracker.now.now k }
        requires view { IsView tracker.now.now (operations_in operations.now) needed.now self.old }
        requires behind { IsBehind seen.now self.old }
        ensures { IfOk result
            (IsBroughtUp tracker.now.now (operations_in operations.now) needed.now seen.now self.new) }
    {
        for replica in 0..tracker.replicas() {
            if let Some(label) = self.take_of(tracker, operations, needed, seen, replica)? {
                return Ok(Some(label));
            }
        }
        Ok(None)
    }

    // Adds those of one replica.
    fn take_of(
        &mut self,
        tracker: &Tracker,
        operations: &[&Op],
        needed: &[Option<u32>],
        seen: &Seen<'_>,
        replica: u8,
    ) -> Result<Option<u32>, NoMemory>
        requires replica { replica < replicas_in tracker.now.now }
        requires len { length needed.now ≡ labels_in tracker.now.now }
        requires below { AreBelow (labels_in tracker.now.now) needed.now }
        requires rows { seen.now.rows ≡ tracker.now.now.rows }
        requires counts { (k : ℕ) → count_in seen.now k ≤ issued_count tracker.now.now k }
        requires wide { replica < length self.old.taken.items }
        requires removed { length self.old.removed.items ≡ length needed.now }
        requires behind { get_or self.old.taken.items replica 0 ≤ count_in seen.now replica }
        ensures { IfOk result (IsTakenUp tracker.now.now (operations_in operations.now) needed.now seen.now replica
            self.old self.new) }
    {
        let issued = tracker.issued(replica);
        for place in self.taken[replica as usize]..seen.count(replica) {
            let label = issued[place as usize];
            if lacks_need(needed, seen, label) {
                return Ok(Some(label));
            }
            self.take(operations, needed, label)?;
            self.taken[replica as usize] = place + 1;
        }
        Ok(None)
    }

    // Adds what the update inserts or removes.
    fn take(
        &mut self,
        operations: &[&Op],
        needed: &[Option<u32>],
        label: u32,
    ) -> Result<(), NoMemory>
        requires label { label < length needed.now }
        requires below { AreBelow (length needed.now) needed.now }
        requires removed { length self.old.removed.items ≡ length needed.now }
        ensures taken { OnOk result (self.new.taken ≡ self.old.taken) }
        ensures removed { OnOk result (self.new.removed.items
            ≡ with_mark self.old.removed.items (removal_at (operations_in operations.now) needed.now label)) }
        ensures present { OnOk result (self.new.present.items
            ≡ with_insertion (operations_in operations.now) self.old.present.items label) }
    {
        match operation_at(operations, label) {
            Some(Op::RgaRemove(_)) => if let Some(inserter) = needed[label as usize] {
                self.removed[inserter as usize] = true;
            },
            Some(Op::After { .. }) => self.present.push(label)?,
            _ => {}
        }
        Ok(())
    }
}
