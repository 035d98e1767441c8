//! The effects of an RGA's labels: each replica shows a part of the list of all elements.
ghost use Rattle.std.specs.Prelude.{◌≡◌, ◌↔◌, ℕ, ◌<◌, ◌≤◌, ◌^◌, ◌∷◌, [], true, length, Option, Some, None, if◌then◌else◌, vec_len, vec_capacity, is_some, IsTrue, IfSome, IfOk, OnOk, OnErr};
ghost use Rattle.ra_labels.specs.declared.kind.Kind.TheVariants as kinds;
ghost use Rattle.ra_labels.specs.declared.operation.Op.TheVariants as ops;
ghost use Rattle.ra_labels.specs.declared.label.Label.{Label};
ghost use Rattle.ra_labels.specs.declared.label.Stamp.{Stamp};
ghost use Rattle.ra_labels.specs.declared.command.Command.TheVariants.{Deliver, Join};
ghost use Rattle.ra_labels.specs.Records.{Records, replica_count};
ghost use Rattle.ra_labels.specs.Visibility.{has_delivered};
ghost use Rattle.ra_labels.specs.Rewriting.{acts_of};
ghost use Rattle.ra_labels.specs.NamedOrder.{named_sequence};
ghost use Rattle.ra_labels.specs.Linearization.{updates_admitted};
ghost use Rattle.ra_labels.specs.Fault.{sequence_cause};
ghost use Rattle.ra_labels.specs.declared.reply.Cause.TheVariants as cause;
ghost use Rattle.ra_labels.specs.Specification.{state_after, is_admitted, is_answered_after};
ghost use Rattle.ra_labels.specs.Insertion.{delivered_updates};
ghost use Rattle.ra_labels.specs.HistorySoFar.{history_of, NextOperation, operate};
ghost use Rattle.ra_rewrite.specs.Parts.{acts_in};
ghost use Rattle.ra_seqspec.specs.Asked.{asks_rising};
ghost use Rattle.std.specs.List.{list_all};
ghost use Rattle.std.specs.Result.{result_err};
ghost use Rattle.ra_rga_replica.specs.Edits.{element_at};
ghost use Rattle.ra_witness.specs.Labels.{queries_in, cause_in};
ghost use Rattle.ra_witness.specs.Settled.{SettlesMore};
ghost use Rattle.ra_witness.specs.Rga.{IsRgaOf, IsFoundBy, IsFoundFor, MayGrow, MayReceive};
ghost use Rattle.ra_witness.specs.Offered.{IsOffered, IsDelivered, IsJoinedFrom};

use ra_labels::{Cause, Label, NoMemory, Op, Query, Stamp};
use ra_rewrite::{Part, Parts};
use ra_rga_elements::{ElementList, ROOT};
use ra_rga_replica::{Edit, ReplicaList};
use std::alloc::Global;

/// The effects of the labels, the list of all elements, and each replica's list.
#[derive(Drop)]
pub struct Rga {
    /// The effect of each label, if it has one.
    pub edits: Vec<Option<Edit>>,
    /// The elements of all labels.
    pub all: ElementList,
    /// The list of each replica.
    pub lists: Vec<ReplicaList>,
}

/// What the test of a label found, by number, so that nothing is looked up again when the label is added.
#[derive(Clone, Copy)]
pub enum Found {
    /// Nothing: the label has no update.
    Nothing,
    /// The anchor of an insertion.
    Anchor {
        /// The number of the anchor.
        behind: u32,
        /// The new element.
        element: u32,
        /// The stamp of the insertion.
        stamp: Stamp,
    },
    /// The element that a removal takes out.
    Element(u32),
}

impl Rga {
    /// Creates the effects of no labels, with the given number of replicas.
    ///
    /// # Errors
    ///
    /// `NoMemory` if allocation fails.
    pub fn new(alloc: Global, replicas: u8) -> Result<Rga, NoMemory>
        ensures { IfOk result (λ kept. IsRgaOf kept replicas []) }
    {
        let mut lists = Vec::with_capacity(alloc, replicas as usize)?;
        for _ in 0..replicas {
            lists.push(ReplicaList::new(alloc)?)?;
        }
        Ok(Rga {
            edits: Vec::new(alloc),
            all: ElementList::new(alloc)?,
            lists,
        })
    }

    /// Returns what the next label names, which has these parts, if it is admitted.
    ///
    /// # Errors
    ///
    /// The first condition, apart from the order, that fails with the label.
    pub fn admit(&self, label: &Label, parts: &Parts) -> Result<Found, Cause>
        requires replica { label.now.replica < vec_len self.now.lists }
        requires rising { list_all asks_rising (queries_in (acts_in parts.now)) ≡ true }
        ensures cause { (initial_replicas : ℕ) (records : Records) (next : NextOperation)
            → IsRgaOf self.now initial_replicas records
            → IsOffered (history_of kinds.Rga initial_replicas records) next label.now
            → acts_in parts.now ≡ acts_of next.op
            → result_err result ≡ sequence_cause kinds.Rga (operate next ∷ records) }
        ensures found { IfOk result (IsFoundFor self.now label.now) }
    {
        match &label.op {
            Op::After { anchor, element } => {
                let insertion = self.admit_insertion(*anchor, *element, label.stamp);
                insertion.ok_or(Cause::Update)
            }
            Op::RgaRemove(element) => {
                let removal = self.admit_removal(label.replica, *element);
                removal.ok_or(Cause::Update)
            }
            _ => match self.cause_of_query(label.replica, parts) {
                Some(cause) => Err(cause),
                None => Ok(Found::Nothing),
            },
        }
    }

    // Returns the anchor if the insertion is admitted: if the anchor has a smaller stamp, and the element is new.
    fn admit_insertion(&self, anchor: u32, element: u32, stamp: Option<Stamp>) -> Option<Found>
        ensures exactly { (initial_replicas : ℕ) (records : Records) (next : NextOperation) (label : Label)
            → IsRgaOf self.now initial_replicas records
            → IsOffered (history_of kinds.Rga initial_replicas records) next label → next.op ≡ ops.After anchor element
            → label.stamp ≡ stamp → IsTrue (is_some result)
            ↔ (updates_admitted kinds.Rga (named_sequence kinds.Rga (operate next ∷ records)) ≡ true) }
        ensures found { IfSome result (IsFoundBy self.now (ops.After anchor element) stamp) }
    {
        let Some(behind) = self.all.number_of(anchor) else {
            return None;
        };
        let Some(stamp) = stamp else {
            return None;
        };
        if !self.all.stamp(behind).is_below(stamp) {
            return None;
        }
        match self.all.number_of(element) {
            Some(_) => None,
            None => Some(Found::Anchor {
                behind,
                element,
                stamp,
            }),
        }
    }

    // Returns the element if its removal is admitted: if it has no greater stamp than the replica's greatest one, and
    // is not the root.
    fn admit_removal(&self, replica: u8, element: u32) -> Option<Found>
        requires { replica < vec_len self.now.lists }
        ensures exactly { (initial_replicas : ℕ) (records : Records) (next : NextOperation) (label : Label)
            → IsRgaOf self.now initial_replicas records
            → IsOffered (history_of kinds.Rga initial_replicas records) next label → next.by ≡ replica
            → next.op ≡ ops.RgaRemove element → IsTrue (is_some result)
            ↔ (updates_admitted kinds.Rga (named_sequence kinds.Rga (operate next ∷ records)) ≡ true) }
        ensures found { (stamp : Option Stamp) → IfSome result (IsFoundBy self.now (ops.RgaRemove element) stamp) }
    {
        let Some(number) = self.all.number_of(element) else {
            return None;
        };
        if number == ROOT {
            return None;
        }
        let greatest = self.lists[replica as usize].greatest();
        if !self.all.stamp(number).is_at_most(greatest) {
            return None;
        }
        Some(Found::Element(number))
    }

    // Returns the cause if a query of the replica fails: its list does not answer it, or one of its updates is pending.
    fn cause_of_query(&self, replica: u8, parts: &Parts) -> Option<Cause>
        requires { replica < vec_len self.now.lists }
        ensures { (initial_replicas : ℕ) (records : Records) → IsRgaOf self.now initial_replicas records
            → result
            ≡ cause_in (state_after kinds.Rga (delivered_updates kinds.Rga records replica)) (acts_in parts.now) }
    {
        match parts {
            Parts::One(Part::Update(_)) => None,
            Parts::One(Part::Query(query)) | Parts::Two(query, _) => {
                self.unless_answered(replica, query)
            }
        }
    }

    fn unless_answered(&self, replica: u8, query: &Query) -> Option<Cause>
        requires { replica < vec_len self.now.lists }
        ensures { (initial_replicas : ℕ) (records : Records) → IsRgaOf self.now initial_replicas records
            → result ≡ (if is_answered_after kinds.Rga (delivered_updates kinds.Rga records replica) query.now
            then None else Some cause.Query) }
    {
        if self.lists[replica as usize].admits(&self.all, query) {
            None
        } else {
            Some(Cause::Query)
        }
    }

    /// Adds the next label, which was admitted with what it names, and returns the number of steps, at most 1.
    ///
    /// # Errors
    ///
    /// `NoMemory` if allocation fails; the same history is represented.
    pub fn add(&mut self, label: &Label, found: Found) -> Result<u64, NoMemory>
        requires may { MayGrow self.old label.now }
        requires found { IsFoundFor self.old label.now found }
        ensures taken { (initial_replicas : ℕ) (records : Records) (next : NextOperation)
            → IsRgaOf self.old initial_replicas records
            → IsOffered (history_of kinds.Rga initial_replicas records) next label.now
            → updates_admitted kinds.Rga (named_sequence kinds.Rga (operate next ∷ records)) ≡ true
            → IfOk result (λ steps. IsRgaOf self.new initial_replicas (operate next ∷ records)
            × SettlesMore records (operate next) next.by steps) }
        ensures step { IfOk result (λ steps. steps ≤ 1) }
        ensures same { (initial_replicas : ℕ) (records : Records) → IsRgaOf self.old initial_replicas records
            → OnErr result (IsRgaOf self.new initial_replicas records) }
    {
        self.edits.reserve(1)?;
        match found {
            Found::Anchor {
                behind,
                element,
                stamp,
            } => self.put_in(label, behind, element, stamp),
            Found::Element(number) => self.remove(label, number),
            Found::Nothing => {
                self.edits.push_reserved(None);
                Ok(0)
            }
        }
    }

    // Adds the next label, which inserts the element behind the one with this number.
    fn put_in(
        &mut self,
        label: &Label,
        behind: u32,
        element: u32,
        stamp: Stamp,
    ) -> Result<u64, NoMemory>
        requires room { vec_len self.old.edits < vec_capacity self.old.edits }
        requires replica { label.now.replica < vec_len self.old.lists }
        requires few { length self.old.all.arrivals < 2 ^ 32 }
        requires there { behind < length self.old.all.arrivals }
        requires new { (n : ℕ) → n < length self.old.all.arrivals → ¬ (element_at self.old.all.arrivals n ≡ element) }
        ensures taken { (initial_replicas : ℕ) (records : Records) (next : NextOperation)
            → IsRgaOf self.old initial_replicas records
            → IsOffered (history_of kinds.Rga initial_replicas records) next label.now
            → updates_admitted kinds.Rga (named_sequence kinds.Rga (operate next ∷ records)) ≡ true
            → next.op ≡ ops.After (element_at self.old.all.arrivals behind) element → label.now.stamp ≡ Some stamp
            → IfOk result (λ steps. IsRgaOf self.new initial_replicas (operate next ∷ records)
            × SettlesMore records (operate next) next.by steps) }
        ensures step { IfOk result (λ steps. steps ≤ 1) }
        ensures same { (initial_replicas : ℕ) (records : Records) → IsRgaOf self.old initial_replicas records
            → OnErr result (IsRgaOf self.new initial_replicas records) }
    {
        self.all.reserve()?;
        let number = self.all.len() as u32;
        let list = &mut self.lists[label.replica as usize];
        let steps = list.put_own(&self.all, label.number, stamp, behind)?;
        self.all.insert(element, stamp, behind);
        self.edits.push_reserved(Some(Edit::PutsIn(number)));
        Ok(steps)
    }

    // Adds the next label, which removes the element with this number.
    fn remove(&mut self, label: &Label, number: u32) -> Result<u64, NoMemory>
        requires room { vec_len self.old.edits < vec_capacity self.old.edits }
        requires replica { label.now.replica < vec_len self.old.lists }
        requires there { number < length self.old.all.arrivals }
        ensures taken { (initial_replicas : ℕ) (records : Records) (next : NextOperation)
            → IsRgaOf self.old initial_replicas records
            → IsOffered (history_of kinds.Rga initial_replicas records) next label.now
            → updates_admitted kinds.Rga (named_sequence kinds.Rga (operate next ∷ records)) ≡ true
            → next.op ≡ ops.RgaRemove (element_at self.old.all.arrivals number)
            → IfOk result (λ steps. IsRgaOf self.new initial_replicas (operate next ∷ records)
            × SettlesMore records (operate next) next.by steps) }
        ensures step { IfOk result (λ steps. steps ≤ 1) }
        ensures same { (initial_replicas : ℕ) (records : Records) → IsRgaOf self.old initial_replicas records
            → OnErr result (IsRgaOf self.new initial_replicas records) }
    {
        let list = &mut self.lists[label.replica as usize];
        let steps = list.remove_own(label.number, number)?;
        self.edits.push_reserved(Some(Edit::Removes(number)));
        Ok(steps)
    }

    /// Adds the delivery of the label to the replica, and returns the number of steps: the number of updates that it
    /// settles.
    ///
    /// # Errors
    ///
    /// `NoMemory` if allocation fails; the same history is represented.
    pub fn deliver(&mut self, replica: u8, label: u32) -> Result<u64, NoMemory>
        requires { MayReceive self.old replica label }
        ensures delivered { (initial_replicas : ℕ) (records : Records) → IsRgaOf self.old initial_replicas records
            → IsDelivered (history_of kinds.Rga initial_replicas records) replica label
            → IfOk result (λ steps. IsRgaOf self.new initial_replicas (Deliver replica label ∷ records)
            × SettlesMore records (Deliver replica label) replica steps) }
        ensures same { (initial_replicas : ℕ) (records : Records) → IsRgaOf self.old initial_replicas records
            → OnErr result (IsRgaOf self.new initial_replicas records) }
    {
        let edits = self.edits.as_slice();
        let Some(edit) = edits[label as usize] else {
            unreachable!()
        };
        self.lists[replica as usize].deliver(&self.all, edits, label, edit)
    }

    /// Adds the next replica, with a copy of this one's list.
    ///
    /// # Errors
    ///
    /// `NoMemory` if allocation fails; the same history is represented.
    ///
    /// # Complexity
    ///
    /// O(n), where `n` is the number of elements and pending updates.
    pub fn join(&mut self, from: u8) -> Result<(), NoMemory>
        requires { from < vec_len self.old.lists }
        ensures joined { (initial_replicas : ℕ) (records : Records) → IsRgaOf self.old initial_replicas records
            → IsJoinedFrom (history_of kinds.Rga initial_replicas records) from
            → OnOk result
            (IsRgaOf self.new initial_replicas (Join (replica_count initial_replicas records) from ∷ records)) }
        ensures same { (initial_replicas : ℕ) (records : Records) → IsRgaOf self.old initial_replicas records
            → OnErr result (IsRgaOf self.new initial_replicas records) }
    {
        let list = self.lists[from as usize].copy()?;
        self.lists.push(list)?;
        Ok(())
    }

    /// Returns the allocator of the collections.
    pub fn allocator(&self) -> Global {
        *self.edits.allocator()
    }
}
