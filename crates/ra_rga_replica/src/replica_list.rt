//! The list of one replica of an RGA, with its pending updates.
ghost use Rattle.std.specs.Prelude.{◌≡◌, ℕ, ◌+◌, ◌<◌, ◌≤◌, ◌^◌, Bool, true, false, List, ◌++◌, ◌∷◌, [], length, Option, Some, None, IfOk, OnErr, if◌then◌else◌};
ghost use Rattle.ra_labels.specs.declared.kind.Kind.TheVariants.{Rga};
ghost use Rattle.ra_labels.specs.declared.operation.Update.TheVariants.{After, RgaRemove};
ghost use Rattle.ra_labels.specs.declared.command.Command.TheVariants.{Deliver};
ghost use Rattle.ra_labels.specs.Records.{Records, label_count};
ghost use Rattle.ra_labels.specs.Visibility.{has_delivered};
ghost use Rattle.ra_labels.specs.Specification.{is_answered_after};
ghost use Rattle.ra_labels.specs.Linearization.{extends_visibility, updates_admitted};
ghost use Rattle.ra_labels.specs.NamedOrder.{greater_of, named_sequence};
ghost use Rattle.ra_labels.specs.TheoremTerms.{StampsAreUnique};
ghost use Rattle.ra_labels.specs.Insertion.{delivered_updates, HasUpdate};
ghost use Rattle.ra_labels.specs.HistorySoFar.{NextOperation, operate, label_of};
ghost use Rattle.ra_rga_elements.specs.ElementList.{Arrival, ElementList, root, arrival_at, is_marked};
ghost use Rattle.ra_rga_replica.specs.declared.edit.Edit.{Edit};
ghost use Rattle.ra_rga_replica.specs.declared.edit.Edit.TheVariants.{PutsIn, Removes};
ghost use Rattle.ra_rga_replica.specs.Edits.{edit_at, element_at, AreElementsOf, AreEditsOf};
ghost use Rattle.ra_rga_replica.specs.ReplicaList.{IsListBy, IsListOf, MayReceive, settled_count};
ghost use Rattle.ra_rga_replica.specs.Cascade.{IsListWithAfter, LeadsTo, AreAlike};

use crate::cascade::{free, free_all};
use crate::edit::Edit;
use crate::number_set::NumberSet;
use crate::pending::PendingLabels;
use crate::put::put_in;
use crate::shown::ShownElements;
use ra_labels::{LOWEST, NoMemory, Query, Stamp};
use ra_rga_elements::{ElementList, ROOT};
use std::alloc::Global;
use std::marker::Model;

/// The data of one replica: its elements after its settled updates, and its pending updates.
#[derive(Drop)]
pub struct ReplicaList {
    alloc: Global,
    /// The elements that are in the list, by their numbers.
    there: NumberSet,
    /// The elements that a read shows, by their numbers.
    shown: ShownElements,
    /// The greatest stamp among the labels that were delivered to it.
    greatest: Stamp,
    waiting: PendingLabels,
}

impl Model for ReplicaList {
    ghost use Rattle.ra_rga_replica.specs.ReplicaList as specs;

    ghost Value = { specs.ReplicaList };

    ghost view = { λ a. record {
      marks = a.there.marks.items;
      shown = a.shown;
      greatest = a.greatest;
      waiting = a.waiting;
    } };
}

impl ReplicaList {
    /// Creates the list of a replica without updates.
    ///
    /// # Errors
    ///
    /// `NoMemory` if allocation fails.
    pub fn new(alloc: Global) -> Result<ReplicaList, NoMemory>
        // The new list represents any replica of the empty history.
        ensures { (replica : ℕ) → IfOk result (λ list. IsListOf list (root ∷ []) [] [] replica) }
    {
        let mut there = NumberSet::new(alloc);
        there.reserve(ROOT)?;
        there.put(ROOT);
        Ok(ReplicaList {
            alloc,
            there,
            shown: ShownElements::new(alloc),
            greatest: LOWEST,
            waiting: PendingLabels::new(alloc),
        })
    }

    /// Returns an equal list that owns its memory, with the same pending updates.
    ///
    /// # Errors
    ///
    /// `NoMemory` if allocation fails.
    ///
    /// # Complexity
    ///
    /// O(w + n), where `w` is the number of pending updates, and `n` the greatest element number for which room was
    /// reserved.
    pub fn copy(&self) -> Result<ReplicaList, NoMemory>
        // The copy equals the list, pending updates included.
        ensures { IfOk result (λ copy. copy ≡ self.now) }
    {
        Ok(ReplicaList {
            alloc: self.alloc,
            there: self.there.copy()?,
            shown: self.shown.copy()?,
            greatest: self.greatest,
            waiting: self.waiting.copy()?,
        })
    }

    /// Returns `true` if the query has the right answer after all updates that were delivered to the replica. Returns
    /// `false` if it has not, if one of the updates is pending, or if the query is of another kind.
    ///
    /// # Complexity
    ///
    /// O(n), where `n` is the length of the list that the query shows, whatever was removed.
    pub fn admits(&self, all: &ElementList, query: &Query) -> bool
        // If the list represents the replica in a history, the result is `true` exactly if the query is answered after
        // all updates delivered to the replica, in the named order.
        ensures { (edits : List (Option Edit)) (records : Records) (replica : ℕ)
            → AreElementsOf all.now edits records → IsListOf self.now all.now.arrivals edits records replica
            → result ≡ is_answered_after Rga (delivered_updates Rga records replica) query.now }
    {
        match query {
            Query::RgaRead(listed) => {
                self.waiting.is_empty() && self.shown.are(all, listed.as_slice())
            }
            _ => false,
        }
    }

    /// Returns the greatest stamp among the labels that were delivered to the replica, or the lowest rank.
    pub fn greatest(&self) -> Stamp
        // The result is the greatest stamp that the list records, or the lowest rank if it records none.
        ensures { result ≡ self.now.greatest }
    {
        self.greatest
    }

    /// Adds the replica's own next label, which inserts a new element behind the anchor with this number. Returns the
    /// number of updates that it settles: 1, or 0 if the anchor is not present.
    ///
    /// # Errors
    ///
    /// `NoMemory` if allocation fails; the list represents the same records as before.
    ///
    /// # Complexity
    ///
    /// O(1) unless the update is pending, which is a hash map operation. The marks are extended to the element's number
    /// if necessary.
    pub fn put_own(
        &mut self,
        all: &ElementList,
        label: u32,
        stamp: Stamp,
        anchor: u32,
    ) -> Result<u64, NoMemory>
        // Fewer than 2^32 elements have arrived.
        requires few { length all.now.arrivals < 2 ^ 32 }
        // The anchor exists.
        requires anchor { anchor < length all.now.arrivals }
        // If the list represented the replica, and its own next label inserts an element there and keeps the
        // linearization conditions, the list represents it with the label. The result is the number of updates that
        // this settles.
        ensures put { IfOk result (λ steps. (edits : List (Option Edit)) (records : Records) (next : NextOperation)
            (element : ℕ) → AreElementsOf all.now edits records
            → (was : IsListOf self.old all.now.arrivals edits records next.by)
            → label ≡ label_count records → HasUpdate next.op (After (element_at all.now.arrivals anchor) element)
            → (label_of records next).stamp ≡ Some stamp
            → let now = operate next ∷ records in
            extends_visibility now (named_sequence Rga now) ≡ true
            → updates_admitted Rga (named_sequence Rga now) ≡ true
            → (is : IsListOf self.new
            (all.now.arrivals ++ record { element = element; stamp = stamp; anchor = anchor } ∷ [])
            (edits ++ Some (PutsIn (length all.now.arrivals)) ∷ []) now next.by)
            × (settled_count is ≡ settled_count was + steps)) }
        // The label settles at most one update.
        ensures steps { IfOk result (λ steps. steps ≤ 1) }
        // If allocation fails, the list represents the same replica and records as before.
        ensures err { OnErr result ((arrivals : List Arrival) (edits : List (Option Edit)) (records : Records)
            (replica : ℕ) → IsListOf self.old arrivals edits records replica
            → IsListOf self.new arrivals edits records replica) }
    {
        if !self.there.has(anchor) {
            self.waiting.add(anchor, label)?;
            self.observe_stamp(stamp);
            return Ok(0);
        }
        let number = all.len() as u32;
        put_in(&mut self.there, &mut self.shown, number)?;
        self.observe_stamp(stamp);
        Ok(1)
    }

    /// Adds the replica's own next label, which removes the element with this number. Returns the number of updates
    /// that it settles: 1, or 0 if the element is not present.
    ///
    /// # Errors
    ///
    /// `NoMemory` if allocation fails; the list represents the same records as before.
    ///
    /// # Complexity
    ///
    /// O(1) unless the update is pending, which is a hash map operation.
    pub fn remove_own(&mut self, label: u32, number: u32) -> Result<u64, NoMemory>
        // If the list represented the replica, and its own next label removes this element, which exists, and keeps the
        // linearization conditions, the list represents it with the label. The result is the number of updates that
        // this settles.
        ensures removed { IfOk result (λ steps. (all : ElementList) (edits : List (Option Edit)) (records : Records)
            (next : NextOperation) → number < length all.arrivals → AreElementsOf all edits records
            → (was : IsListOf self.old all.arrivals edits records next.by)
            → label ≡ label_count records → HasUpdate next.op (RgaRemove (element_at all.arrivals number))
            → next.clock ≡ None
            → let now = operate next ∷ records in
            extends_visibility now (named_sequence Rga now) ≡ true
            → updates_admitted Rga (named_sequence Rga now) ≡ true
            → (is : IsListOf self.new all.arrivals (edits ++ Some (Removes number) ∷ []) now next.by)
            × (settled_count is ≡ settled_count was + steps)) }
        // The label settles at most one update.
        ensures steps { IfOk result (λ steps. steps ≤ 1) }
        // If allocation fails, the list represents the same replica and records as before.
        ensures err { OnErr result ((arrivals : List Arrival) (edits : List (Option Edit)) (records : Records)
            (replica : ℕ) → IsListOf self.old arrivals edits records replica
            → IsListOf self.new arrivals edits records replica) }
    {
        self.remove(label, number)
    }

    /// Adds the delivery of the label, which has this effect. Returns the number of updates that it settles: 0 if its
    /// own anchor or element is not present, otherwise 1 and one more for each pending update that follows.
    ///
    /// # Errors
    ///
    /// `NoMemory` if allocation fails; the list represents the same records as before.
    ///
    /// # Complexity
    ///
    /// A constant number of hash map operations for each settled update. The marks are extended to the greatest element
    /// number if necessary. If pending updates follow, their labels are sorted.
    pub fn deliver(
        &mut self,
        all: &ElementList,
        edits: &[Option<Edit>],
        label: u32,
        edit: Edit,
    ) -> Result<u64, NoMemory>
        // The label has this edit and, in a history that the list represents, was not delivered to the replica.
        requires { MayReceive self.old all.now edits.now label edit }
        // If the list represented the replica and stamps are unique, it represents the replica with the delivery. The
        // result is the number of updates that the delivery settles.
        ensures got { IfOk result (λ steps. (records : Records) (to : ℕ) → AreElementsOf all.now edits.now records
            → (was : IsListOf self.old all.now.arrivals edits.now records to)
            → edit_at edits.now label ≡ Some edit → has_delivered records to label ≡ false → StampsAreUnique records
            → (is : IsListOf self.new all.now.arrivals edits.now (Deliver to label ∷ records) to)
            × (settled_count is ≡ settled_count was + steps)) }
        // If allocation fails, the list represents the same replica and records as before.
        ensures err { OnErr result ((arrivals : List Arrival) (edits : List (Option Edit)) (records : Records)
            (replica : ℕ) → IsListOf self.old arrivals edits records replica
            → IsListOf self.new arrivals edits records replica) }
    {
        match edit {
            Edit::PutsIn(number) => {
                let steps = self.put_in(all, edits, label, number)?;
                self.observe_stamp(all.stamp(number));
                Ok(steps)
            }
            Edit::Removes(number) => self.remove(label, number),
        }
    }

    // Adds the label that inserts the element, but not its stamp.
    fn put_in(
        &mut self,
        all: &ElementList,
        edits: &[Option<Edit>],
        label: u32,
        number: u32,
    ) -> Result<u64, NoMemory>
        requires { MayReceive self.old all.now edits.now label (PutsIn number) }
        ensures got { IfOk result (λ steps.
            LeadsTo self.old self.new all.now edits.now label (PutsIn number) steps) }
        ensures greatest { self.new.greatest ≡ self.old.greatest }
        ensures err { OnErr result (AreAlike self.old self.new) }
    {
        let anchor = all.anchor(number);
        if !self.there.has(anchor) {
            self.waiting.add(anchor, label)?;
            return Ok(0);
        }
        if !self.waiting.under(number).is_empty() {
            return self.put_in_with_waiting(edits, label, number);
        }
        put_in(&mut self.there, &mut self.shown, number)?;
        Ok(1)
    }

    // Adds the label that removes the element, issued or delivered.
    fn remove(&mut self, label: u32, number: u32) -> Result<u64, NoMemory>
        ensures got { IfOk result (λ steps. (arrivals : List Arrival) (edits : List (Option Edit)) (records : Records)
            (has_delivered : ℕ → Bool) → AreEditsOf arrivals edits records
            → (held : IsListBy self.old arrivals edits records has_delivered)
            → edit_at edits label ≡ Some (Removes number) → has_delivered label ≡ false
            → IsListWithAfter (λ n. is_marked self.new.shown n) self.new.marks self.new.waiting arrivals edits records
            has_delivered held.settled label steps) }
        ensures steps { IfOk result (λ steps. steps ≤ 1) }
        ensures counted { IfOk result (λ steps. steps ≡ (if is_marked self.old.marks number then 1 else 0)) }
        ensures greatest { self.new.greatest ≡ self.old.greatest }
        ensures err { OnErr result (AreAlike self.old self.new) }
    {
        if self.there.has(number) {
            self.shown.hide(number);
            return Ok(1);
        }
        self.waiting.add(number, label)?;
        Ok(0)
    }

    // Applies the label's insertion, and the pending updates that follow it.
    fn put_in_with_waiting(
        &mut self,
        edits: &[Option<Edit>],
        label: u32,
        number: u32,
    ) -> Result<u64, NoMemory>
        requires { (all : ElementList) × MayReceive self.old all edits.now label (PutsIn number)
            × (is_marked self.old.marks (arrival_at all.arrivals number).anchor ≡ true) }
        ensures got { IfOk result (λ steps. (all : ElementList)
            → is_marked self.old.marks (arrival_at all.arrivals number).anchor ≡ true
            → LeadsTo self.old self.new all edits.now label (PutsIn number) steps) }
        ensures greatest { self.new.greatest ≡ self.old.greatest }
        ensures err { OnErr result (AreAlike self.old self.new) }
    {
        let freed = free(
            self.alloc,
            &mut self.there,
            &mut self.shown,
            &self.waiting,
            edits,
            label,
        )?;
        free_all(&mut self.waiting, edits, freed.as_slice());
        Ok(freed.len() as u64)
    }

    // Notes that a label with this stamp was issued or delivered.
    fn observe_stamp(&mut self, stamp: Stamp)
        ensures { self.new ≡ record self.old { greatest = greater_of self.old.greatest stamp } }
    {
        self.greatest = self.greatest.greater(stamp);
    }
}
