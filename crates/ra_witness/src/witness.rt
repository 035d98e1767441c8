//! The witness: an order of labels, and the state of each replica.
ghost use Rattle.std.specs.Prelude.{◌≡◌, ℕ, ◌+◌, ◌<◌, ◌≤◌, ◌++◌, ◌∷◌, true, List, length, map, min, Option, None, Ok, option_map, IfOk, IfSome, OnOk, OnErr, MatchOption};
ghost use Rattle.ra_labels.specs.declared.kind.Kind.{Kind};
ghost use Rattle.ra_labels.specs.declared.kind.Kind.TheVariants as kinds;
ghost use Rattle.ra_labels.specs.declared.label.Label.{Label};
ghost use Rattle.ra_labels.specs.declared.command.Command.TheVariants.{Deliver, Join};
ghost use Rattle.ra_labels.specs.Visibility.{has_delivered};
ghost use Rattle.ra_labels.specs.NamedOrder.{named_labels, named_sequence};
ghost use Rattle.ra_labels.specs.Fault.{cause_of};
ghost use Rattle.ra_labels.specs.Specification.{is_admitted};
ghost use Rattle.ra_labels.specs.Insertion.{updates_among, delivered_updates};
ghost use Rattle.ra_labels.specs.HistorySoFar.{History, replicas_of, empty_history, history_with, IsAccepted, NextOperation, operate};
ghost use Rattle.ra_witness.specs.Labels.{update_in};
ghost use Rattle.ra_witness.specs.States.{steps_of};
ghost use Rattle.ra_witness.specs.Settled.{SettlesMore};
ghost use Rattle.ra_witness.specs.Sequence.{ref_of};
ghost use Rattle.ra_witness.specs.Failure.{ShowsCycle};
ghost use Rattle.ra_witness.specs.ListOrder.{Explains};
ghost use Rattle.ra_witness.specs.Witness.{IsWitnessOf, MayOffer, MayDeliver, MayJoin};
ghost use Rattle.ra_visibility.specs.Order.{ComesNext};

use crate::effects::Effects;
use crate::failure::Failure;
use crate::label_order::LabelOrder;
use crate::part_ref::PartRef;
use crate::sequence::part_refs;
use ra_labels::{Cause, Kind, Label, NoMemory};
use ra_rewrite::parts;
use ra_visibility::Seen;
use std::alloc::Global;

/// The labels in the named order of their kind, and the state of each replica after the updates delivered to it.
#[derive(Drop)]
pub struct Witness<O: LabelOrder> {
    order: O,
    kept: Effects,
    steps: u64,
}

impl<O: LabelOrder> Witness<O> {
    /// Creates the witness of no labels, with the given number of replicas. The order has to be that of the empty
    /// history.
    ///
    /// # Errors
    ///
    /// `NoMemory` if allocation fails.
    ///
    /// # Complexity
    ///
    /// O(r), where `r` is the number of replicas.
    pub fn new(alloc: Global, kind: Kind, replicas: u8, order: O) -> Result<Witness<O>, NoMemory>
        // With the order of the empty history, the new witness represents the empty history of this kind and number of
        // replicas.
        ensures stands { O.stands_for order (empty_history kind replicas) → IfOk result (λ witness.
            IsWitnessOf O.stands_for witness (empty_history kind replicas)) }
        // The new witness has taken no step.
        ensures steps { IfOk result (λ witness. witness.steps ≡ 0) }
    {
        let kept = Effects::new(alloc, kind, replicas)?;
        Ok(Witness {
            order,
            kept,
            steps: 0,
        })
    }

    /// Adds the next label, with what it sees, by at most one step, and returns `None`. If a condition fails with the
    /// label, returns the first such condition, and the witness represents the same history as before. If that is the
    /// order of a list, a cycle that shows it is returned too.
    ///
    /// # Errors
    ///
    /// `NoMemory` if allocation fails; the same history is represented.
    ///
    /// # Complexity
    ///
    /// One `fits` and one `put` of the order; for a query one `State::admits`, for an update one `State::apply`. An
    /// RGA's insertion is inserted into the list of all elements besides. A replica's array by element number
    /// (`LastUpdates`, or the marks of an RGA) is extended if necessary. For a list that of `ListEffects::test` and
    /// `ListEffects::add`; for any type and a multi-value register that of `Unordered::add`.
    pub fn offer(&mut self, label: &Label, seen: &Seen<'_>) -> Result<Option<Failure>, NoMemory>
        // The label comes next after a history that the witness represents and that has fewer than `MOST_LABELS`
        // labels.
        requires { MayOffer O.stands_for self.old label.now seen.now }
        // If the call succeeds, the result has the first linearization condition that fails with the label, or is
        // `None` exactly if the history with the label has no violation.
        ensures cause { (past : History) (next : NextOperation) → IsWitnessOf O.stands_for self.old past
            → ComesNext past next label.now seen.now → IfOk result (λ found. option_map (λ failure. failure.cause) found
            ≡ cause_of past.kind (operate next ∷ past.records)) }
        // If the condition is the order of a list, and only then, the result has a cycle of the edges that the labels
        // require with this one.
        ensures cycle { (past : History) (next : NextOperation) → IsWitnessOf O.stands_for self.old past
            → ComesNext past next label.now seen.now → IfOk result (λ found. IfSome found (λ failure.
            ShowsCycle past.kind (operate next ∷ past.records) failure.cause failure.cycle)) }
        // If no condition fails, the witness represents the history with the label.
        ensures taken { (past : History) (next : NextOperation) → IsWitnessOf O.stands_for self.old past
            → ComesNext past next label.now seen.now → result ≡ Ok None
            → IsWitnessOf O.stands_for self.new (history_with past (operate next)) }
        // If a condition fails or allocation fails, the witness represents the same history as before.
        ensures same { (past : History) → IsWitnessOf O.stands_for self.old past → ¬ (result ≡ Ok None)
            → IsWitnessOf O.stands_for self.new past }
        // If a condition fails or allocation fails, the number of steps is unchanged.
        ensures steps { ¬ (result ≡ Ok None) → self.new.steps ≡ self.old.steps }
        // The number of steps never decreases.
        ensures grows { self.old.steps ≤ self.new.steps }
        // The label takes at most one step.
        ensures one_step { self.new.steps ≤ self.old.steps + 1 }
        // For all kinds except RGA, an accepted label with an update takes exactly one step and one without takes none,
        // while the number is below 2^64 - 1.
        ensures counted { (past : History) (next : NextOperation) → IsWitnessOf O.stands_for self.old past
            → ComesNext past next label.now seen.now → ¬ (past.kind ≡ kinds.Rga) → result ≡ Ok None
            → self.old.steps < 18446744073709551615 → self.new.steps ≡ self.old.steps + steps_of (update_in next.op) }
        // For an RGA, an accepted label takes one step for each update of its replica that it settles, up to 2^64 - 1
        // steps in total.
        ensures settled { (past : History) (next : NextOperation) → IsWitnessOf O.stands_for self.old past
            → ComesNext past next label.now seen.now → past.kind ≡ kinds.Rga → result ≡ Ok None
            → (more : ℕ) × SettlesMore past.records (operate next) next.by more
            × (self.new.steps ≡ min (self.old.steps + more) 18446744073709551615) }
    {
        if !self.order.fits(label, seen) {
            return Ok(Some(Failure::of(Cause::Order)));
        }
        let parts = parts(label)?;
        let admitted = match self.kept.admit(label, parts)? {
            Ok(admitted) => admitted,
            Err(cause) => return Ok(Some(Failure::of(cause))),
        };
        self.order.spare()?;
        let steps = match self.kept.add(label, seen, admitted)? {
            Ok(steps) => steps,
            Err(failure) => return Ok(Some(failure)),
        };
        self.order.put(label, seen);
        self.steps = self.steps.saturating_add(steps);
        Ok(None)
    }

    /// Adds the delivery of the label to the replica. If afterwards none of the replica's updates is pending, it takes
    /// at least one step.
    ///
    /// # Errors
    ///
    /// `NoMemory` if allocation fails; the same history is represented.
    ///
    /// # Complexity
    ///
    /// One `State::apply` for all kinds except RGA and list, however late the label is; for a list one mark of an
    /// element. For an RGA one step of the state, and a walk back to the nearest present element, for each update that
    /// the delivery settles. A replica's array by element number (`LastUpdates`, or the marks of an RGA or a list) is
    /// extended if necessary.
    pub fn deliver(&mut self, replica: u8, label: u32) -> Result<(), NoMemory>
        // The delivery is accepted after a history that the witness represents.
        requires { MayDeliver O.stands_for self.old replica label }
        // If the call succeeds, the witness represents the history with the delivery.
        ensures delivered { (past : History) → IsWitnessOf O.stands_for self.old past
            → IsAccepted past (Deliver replica label)
            → OnOk result (IsWitnessOf O.stands_for self.new (history_with past (Deliver replica label))) }
        // If allocation fails, the witness represents the same history as before.
        ensures same { (past : History) → IsWitnessOf O.stands_for self.old past
            → OnErr result (IsWitnessOf O.stands_for self.new past) }
        // If allocation fails, the number of steps is unchanged.
        ensures steps { OnErr result (self.new.steps ≡ self.old.steps) }
        // The delivery takes at most 64 steps, and one more for each update delivered to the receiver before that
        // stands behind the delivered one in the named order.
        ensures few_steps { (past : History) (before behind : List Label) (it : Label)
            → IsWitnessOf O.stands_for self.old past → IsAccepted past (Deliver replica label)
            → named_labels past.kind past.records ≡ before ++ it ∷ behind → it.number ≡ label
            → OnOk result (self.new.steps ≤ self.old.steps + 64 + length (updates_among
            (has_delivered past.records replica) behind)) }
        // The delivery takes at most one step, and one more for each update delivered to the receiver before that
        // stands behind the delivered one in the named order.
        ensures one_each { (past : History) (before behind : List Label) (it : Label)
            → IsWitnessOf O.stands_for self.old past → IsAccepted past (Deliver replica label)
            → named_labels past.kind past.records ≡ before ++ it ∷ behind → it.number ≡ label
            → OnOk result (self.new.steps ≤ self.old.steps + 1 + length (updates_among
            (has_delivered past.records replica) behind)) }
        // The number of steps never decreases.
        ensures grows { self.old.steps ≤ self.new.steps }
        // If the updates delivered to the receiver are admitted before and after, so that none is pending, the delivery
        // takes exactly one step, while the number is below 2^64 - 1.
        ensures one_step { (past : History) → IsWitnessOf O.stands_for self.old past
            → IsAccepted past (Deliver replica label)
            → is_admitted past.kind (delivered_updates past.kind past.records replica) ≡ true
            → is_admitted past.kind (delivered_updates past.kind (Deliver replica label ∷ past.records) replica) ≡ true
            → self.old.steps < 18446744073709551615 → OnOk result (self.new.steps ≡ self.old.steps + 1) }
        // For all kinds except RGA, the delivery takes exactly one step, while the number is below 2^64 - 1.
        ensures counted { (past : History) → IsWitnessOf O.stands_for self.old past
            → IsAccepted past (Deliver replica label) → ¬ (past.kind ≡ kinds.Rga)
            → self.old.steps < 18446744073709551615 → OnOk result (self.new.steps ≡ self.old.steps + 1) }
        // For an RGA, the delivery takes one step for each update that it settles at the receiver, up to 2^64 - 1 steps
        // in total.
        ensures settled { (past : History) → IsWitnessOf O.stands_for self.old past
            → IsAccepted past (Deliver replica label) → past.kind ≡ kinds.Rga
            → OnOk result ((more : ℕ) × SettlesMore past.records (Deliver replica label) replica more
            × (self.new.steps ≡ min (self.old.steps + more) 18446744073709551615)) }
        // If the updates delivered to the receiver are admitted afterwards, so that none is pending, the delivery takes
        // at least one step, while the number is below 2^64 - 1.
        ensures some_step { (past : History) → IsWitnessOf O.stands_for self.old past
            → IsAccepted past (Deliver replica label)
            → is_admitted past.kind (delivered_updates past.kind (Deliver replica label ∷ past.records) replica) ≡ true
            → self.old.steps < 18446744073709551615 → OnOk result (self.old.steps < self.new.steps) }
    {
        let steps = self.kept.deliver(replica, label)?;
        self.steps = self.steps.saturating_add(steps);
        Ok(())
    }

    /// Adds the next replica, to which the same updates were delivered as to this one. It takes no step.
    ///
    /// # Errors
    ///
    /// `NoMemory` if allocation fails; the same history is represented.
    ///
    /// # Complexity
    ///
    /// O(n), where `n` is the size of this replica's data. It consists of its state; for a register or an LWW set, the
    /// last label of each element; for an RGA, a mark for each element, and the pending updates; for a list, a mark for
    /// each element, and the last read.
    pub fn join(&mut self, from: u8) -> Result<(), NoMemory>
        // The join of the next replica from this one is accepted after a history that the witness represents.
        requires { MayJoin O.stands_for self.old from }
        // If the call succeeds, the witness represents the history with the join.
        ensures joined { (past : History) → IsWitnessOf O.stands_for self.old past
            → let join = Join (replicas_of past) from in IsAccepted past join
            → OnOk result (IsWitnessOf O.stands_for self.new (history_with past join)) }
        // If allocation fails, the witness represents the same history as before.
        ensures same { (past : History) → IsWitnessOf O.stands_for self.old past
            → OnErr result (IsWitnessOf O.stands_for self.new past) }
        // The number of steps is unchanged.
        ensures steps { self.new.steps ≡ self.old.steps }
    {
        self.kept.join(from)
    }

    /// Returns the number of steps so far: the updates that calls which changed the witness applied to a replica's
    /// state. The clauses state this number (`counted`, and `settled` for an RGA), but not that it counts applied
    /// updates. It stops growing at 2^64 - 1. Does not allocate.
    pub fn steps(&self) -> u64
        // The result is the number of steps taken so far.
        ensures { result ≡ self.now.steps }
    {
        self.steps
    }

    /// Returns all parts in the named order.
    ///
    /// # Errors
    ///
    /// `NoMemory` if allocation fails.
    ///
    /// # Complexity
    ///
    /// O(n) and one call of `LabelOrder::numbers`, where `n` is the number of labels.
    pub fn sequence(&self) -> Result<Vec<PartRef>, NoMemory>
        // If the call succeeds, the result is the named sequence of the labels: all their parts, in the named order.
        ensures { (past : History) → IsWitnessOf O.stands_for self.now past
            → IfOk result (λ parts. parts.items ≡ map ref_of (named_sequence past.kind past.records)) }
    {
        part_refs(self.kept.allocator(), &self.order, &self.kept)
    }

    /// Returns the elements of a list, removed ones too, in the kept order; `None` for another kind.
    ///
    /// # Errors
    ///
    /// `NoMemory` if allocation fails.
    ///
    /// # Complexity
    ///
    /// O(n) with `n` elements.
    pub fn list_order(&self) -> Result<Option<Vec<u32>>, NoMemory>
        // The result is an order exactly if the kind is a list. The order has the inserted elements, each once, and
        // extends the edges that the labels require.
        ensures { (past : History) → IsWitnessOf O.stands_for self.now past → IfOk result (λ found.
            MatchOption found (¬ (past.kind ≡ kinds.List))
            (λ order. (past.kind ≡ kinds.List) × Explains order.items past.records)) }
    {
        self.kept.list_order()
    }
}
