//! The effects of a list's labels: a late update has the effect of the last one, and one order of the elements is kept.
ghost use Rattle.std.specs.Prelude.{◌≡◌, ℕ, ◌≤◌, ◌∷◌, [], true, false, length, None, IfOk, OnOk, OnErr, MatchResult};
ghost use Rattle.std.specs.List.{slice_get};
ghost use Rattle.std.specs.Result.{result_err};
ghost use Rattle.ra_labels.specs.declared.kind.Kind.TheVariants as kinds;
ghost use Rattle.ra_labels.specs.declared.label.Label.{Label};
ghost use Rattle.ra_labels.specs.declared.command.Command.TheVariants.{Deliver, Join};
ghost use Rattle.ra_labels.specs.Explained.{is_explained};
ghost use Rattle.ra_labels.specs.Records.{Records, replica_count};
ghost use Rattle.ra_labels.specs.Fault.{sequence_cause};
ghost use Rattle.ra_labels.specs.HistorySoFar.{history_of, NextOperation, operate};
ghost use Rattle.ra_witness.specs.Labels.{update_in, updates_by_number};
ghost use Rattle.ra_witness.specs.States.{steps_of};
ghost use Rattle.ra_witness.specs.Sequence.{has_query_half};
ghost use Rattle.ra_witness.specs.Failure.{IsUnexplained};
ghost use Rattle.ra_witness.specs.KeptList.{IsListOf, IsFoundFor, MayTake, MayReceive, MayCopy};
ghost use Rattle.ra_witness.specs.ListOrder.{Explains};
ghost use Rattle.ra_witness.specs.Offered.{IsOffered, IsDelivered, IsJoinedFrom};

use crate::failure::Failure;
use ra_labels::{Cause, Label, NoMemory, Op};
use ra_list_effects::{Found, ListEffects};
use std::alloc::Global;

/// The effects of the labels, and the state of each replica.
#[derive(Drop)]
pub struct KeptList {
    /// The effects of the labels' operations.
    pub effects: ListEffects,
}

impl KeptList {
    /// Creates the effects of no labels, with the given number of replicas.
    ///
    /// # Errors
    ///
    /// `NoMemory` if allocation fails.
    pub fn new(alloc: Global, replicas: u8) -> Result<KeptList, NoMemory>
        ensures { IfOk result (λ kept. IsListOf kept replicas []) }
    {
        Ok(KeptList {
            effects: ListEffects::new(alloc, replicas)?,
        })
    }

    /// Returns what the next label names, or the first condition that the named sequence fails with it, apart from its
    /// order.
    ///
    /// # Errors
    ///
    /// `NoMemory` if allocation fails; nothing changes.
    pub fn find(&mut self, label: &Label) -> Result<Result<Found, Cause>, NoMemory>
        requires { MayTake self.old label.now }
        ensures cause { (initial_replicas : ℕ) (records : Records) (next : NextOperation)
            → IsListOf self.old initial_replicas records
            → IsOffered (history_of kinds.List initial_replicas records) next label.now
            → IfOk result (λ tested. result_err tested ≡ sequence_cause kinds.List (operate next ∷ records)) }
        ensures found { IfOk result (λ tested. IfOk tested (IsFoundFor self.old label.now)) }
        ensures same { self.new ≡ self.old }
    {
        let Op::List(op) = &label.op else {
            unreachable!()
        };
        let alloc = self.allocator();
        self.effects.test(alloc, label.replica, op)
    }

    /// Adds the next label, with what its test found, and returns the number of steps: 1 if it has an update. If no
    /// order of the elements explains it with the label, returns this failure with a cycle of the edges that the labels
    /// require, and the same history is represented.
    ///
    /// # Errors
    ///
    /// `NoMemory` if allocation fails; the same history is represented.
    pub fn add(&mut self, label: &Label, found: Found) -> Result<Result<u64, Failure>, NoMemory>
        requires may { MayTake self.old label.now }
        requires found { IsFoundFor self.old label.now found }
        ensures taken { (initial_replicas : ℕ) (records : Records) (next : NextOperation)
            → IsListOf self.old initial_replicas records
            → IsOffered (history_of kinds.List initial_replicas records) next label.now
            → sequence_cause kinds.List (operate next ∷ records) ≡ None
            → IfOk result (λ added. MatchResult added
            (λ steps. IsListOf self.new initial_replicas (operate next ∷ records)
            × (is_explained kinds.List (operate next ∷ records) ≡ true))
            (λ failure. IsListOf self.new initial_replicas records
            × IsUnexplained kinds.List (operate next ∷ records) failure)) }
        ensures unchanged { (initial_replicas : ℕ) (records : Records) → IsListOf self.old initial_replicas records
            → IfOk result (λ added. OnErr added (IsListOf self.new initial_replicas records)) }
        ensures counted { IfOk result (λ added. IfOk added (λ steps. steps ≡ steps_of (update_in label.now.op))) }
        ensures same { (initial_replicas : ℕ) (records : Records) → IsListOf self.old initial_replicas records
            → OnErr result (IsListOf self.new initial_replicas records) }
    {
        let Op::List(op) = &label.op else {
            unreachable!()
        };
        let alloc = self.allocator();
        match self
            .effects
            .add(alloc, label.replica, op, found, label.number)?
        {
            Some(cycle) => Ok(Err(Failure::of_elements(cycle))),
            None => {
                // Some order extends the edges of all labels: it is the order that explains them.
                self.effects.invariant();
                Ok(Ok(u64::from(op.is_update())))
            }
        }
    }

    /// Adds the delivery of the label to the replica.
    ///
    /// # Errors
    ///
    /// `NoMemory` if allocation fails; the same history is represented.
    pub fn deliver(&mut self, replica: u8, label: u32) -> Result<(), NoMemory>
        requires { MayReceive self.old replica label }
        ensures delivered { (initial_replicas : ℕ) (records : Records) → IsListOf self.old initial_replicas records
            → IsDelivered (history_of kinds.List initial_replicas records) replica label
            → OnOk result (IsListOf self.new initial_replicas (Deliver replica label ∷ records)) }
        ensures same { (initial_replicas : ℕ) (records : Records) → IsListOf self.old initial_replicas records
            → OnErr result (IsListOf self.new initial_replicas records) }
    {
        self.effects.deliver(replica, label)
    }

    /// Adds the next replica, to which the same updates were delivered as to this one.
    ///
    /// # Errors
    ///
    /// `NoMemory` if allocation fails; the same history is represented.
    pub fn join(&mut self, from: u8) -> Result<(), NoMemory>
        requires { MayCopy self.old from }
        ensures joined { (initial_replicas : ℕ) (records : Records) → IsListOf self.old initial_replicas records
            → IsJoinedFrom (history_of kinds.List initial_replicas records) from
            → OnOk result (IsListOf self.new initial_replicas
            (Join (replica_count initial_replicas records) from ∷ records)) }
        ensures same { (initial_replicas : ℕ) (records : Records) → IsListOf self.old initial_replicas records
            → OnErr result (IsListOf self.new initial_replicas records) }
    {
        self.effects.join(from)
    }

    /// Returns the inserted elements, removed ones too, in the kept order.
    ///
    /// # Errors
    ///
    /// `NoMemory` if allocation fails.
    pub fn list_order(&self) -> Result<Vec<u32>, NoMemory>
        ensures { (initial_replicas : ℕ) (records : Records) → IsListOf self.now initial_replicas records
            → IfOk result (λ order. Explains order.items records) }
    {
        self.effects.list_order(self.allocator())
    }

    /// Returns `true` if the label has an update, and so two halves.
    pub fn has_update(&self, label: u32) -> bool
        ensures { (initial_replicas : ℕ) (records : Records) → IsListOf self.now initial_replicas records
            → result ≡ has_query_half (slice_get (updates_by_number records) label) }
    {
        self.effects.has_update(label)
    }

    /// Returns the allocator of the collections.
    pub fn allocator(&self) -> Global {
        self.effects.allocator()
    }
}
