//! The effects of labels and the states of replicas, represented by how a kind treats late updates.
ghost use Rattle.std.specs.Prelude.{◌≡◌, ℕ, ◌+◌, ◌≤◌, ◌++◌, ◌∷◌, true, false, List, length, None, IfOk, OnOk, OnErr, MatchOption, MatchResult, if◌then◌else◌};
ghost use Rattle.std.specs.Result.{result_err};
ghost use Rattle.std.specs.List.{slice_get};
ghost use Rattle.std.specs.Option.{option_to_list};
ghost use Rattle.ra_labels.specs.declared.kind.Kind.{Kind};
ghost use Rattle.ra_labels.specs.declared.kind.Kind.TheVariants as kinds;
ghost use Rattle.ra_labels.specs.declared.label.Label.{Label};
ghost use Rattle.ra_labels.specs.declared.command.Command.TheVariants.{Deliver, Join};
ghost use Rattle.ra_labels.specs.Visibility.{has_delivered};
ghost use Rattle.ra_labels.specs.Rewriting.{acts_of};
ghost use Rattle.ra_labels.specs.NamedOrder.{named_labels, named_sequence};
ghost use Rattle.ra_labels.specs.Linearization.{updates_admitted};
ghost use Rattle.ra_labels.specs.Fault.{sequence_cause};
ghost use Rattle.ra_labels.specs.Explained.{is_explained};
ghost use Rattle.ra_labels.specs.TheoremTerms.{EachLabelIsWellFormed};
ghost use Rattle.ra_labels.specs.Specification.{is_admitted};
ghost use Rattle.ra_labels.specs.Insertion.{updates_among, delivered_updates};
ghost use Rattle.ra_labels.specs.HistorySoFar.{History, replicas_of, empty_history, history_with, NextOperation, operate};
ghost use Rattle.ra_rewrite.specs.Parts.{acts_in};
ghost use Rattle.ra_witness.specs.Labels.{update_in, updates_in, updates_by_number};
ghost use Rattle.ra_witness.specs.States.{steps_of};
ghost use Rattle.ra_witness.specs.Settled.{SettlesMore};
ghost use Rattle.ra_visibility.specs.Order.{ComesNext};
ghost use Rattle.ra_unordered.specs.Unordered as may_be;
ghost use Rattle.ra_unordered.specs.Unordered.{IsKeptOf, IsNext};
ghost use Rattle.ra_witness.specs.Failure.{IsUnexplained};
ghost use Rattle.ra_witness.specs.ListOrder.{Explains};
ghost use Rattle.ra_witness.specs.Sequence.{has_query_half};
ghost use Rattle.ra_witness.specs.Offered.{IsOffered, IsDelivered, IsJoinedFrom};
ghost use Rattle.ra_witness.specs.Effects.{AreEffectsOf, IsOverridingOf, IsFoundIn, MayMeet, MayAdd, MayWrite, MayDeliver, MayJoinFrom};

use crate::commuting::Commuting;
use crate::failure::Failure;
use crate::kept_list::KeptList;
use crate::overriding::Overriding;
use crate::rga::{self, Rga};
use ra_labels::{Cause, Kind, Label, NoMemory, Update};
use ra_list_effects::Found as FoundInList;
use ra_rewrite::Parts;
use ra_unordered::Unordered;
use ra_visibility::Seen;
use std::alloc::Global;

/// The effects of labels and the states of replicas, by how the kind treats late updates.
#[derive(Drop)]
pub enum Effects {
    /// Counter and OR-Set: a late update has the effect of the last one.
    Commuting(Commuting),
    /// Register and LWW set: a later update of the same element overrides a late one.
    Overriding(Overriding),
    /// RGA: a late element goes behind the nearest present element before it.
    Rga(Rga),
    /// List: a late update has the effect of the last one, and one order of the elements is kept.
    List(KeptList),
    /// Any type and multi-value register: no update is applied, and reads are judged by what they see.
    Unordered(Unordered),
}

/// What a label names, by number, so that nothing is looked up again when the label is added.
#[derive(Drop)]
pub enum Found {
    /// Nothing that is kept by number.
    Nothing,
    /// What a label of an RGA names.
    InRga(rga::Found),
    /// What a label of a list names.
    InList(FoundInList),
}

/// What the test of a label found, so that nothing is looked up again when the label is added.
#[derive(Drop)]
pub struct Admitted {
    /// The label's update, if it has one.
    pub update: Option<Update>,
    /// What the label names.
    pub found: Found,
}

impl Effects {
    /// Creates the effects of no labels, with the given number of replicas.
    ///
    /// # Errors
    ///
    /// `NoMemory` if allocation fails.
    pub fn new(alloc: Global, kind: Kind, replicas: u8) -> Result<Effects, NoMemory>
        ensures { IfOk result (λ kept. AreEffectsOf kept (empty_history kind replicas)) }
    {
        match kind {
            Kind::Counter | Kind::OrSet => Ok(Effects::Commuting(Commuting::new(
                alloc, kind, replicas,
            )?)),
            Kind::Register | Kind::LwwSet => Ok(Effects::Overriding(Overriding::new(
                alloc, kind, replicas,
            )?)),
            Kind::Rga => Ok(Effects::Rga(Rga::new(alloc, replicas)?)),
            Kind::List => Ok(Effects::List(KeptList::new(alloc, replicas)?)),
            Kind::Any | Kind::MvRegister => Ok(Effects::Unordered(Unordered::new(
                alloc, kind, replicas,
            )?)),
        }
    }

    /// Returns the update of the next label, if it has one, and what it names. The label has these parts. Consumes
    /// them, so that they are dropped in one place. Or returns the first condition that the named sequence fails with
    /// the label, apart from its order.
    ///
    /// # Errors
    ///
    /// `NoMemory` if allocation fails; nothing changes.
    pub fn admit(
        &mut self,
        label: &Label,
        parts: Parts,
    ) -> Result<Result<Admitted, Cause>, NoMemory>
        requires { MayMeet self.old label.now (acts_in parts) }
        ensures cause { (past : History) (next : NextOperation) → AreEffectsOf self.old past
            → IsOffered past next label.now
            → acts_in parts ≡ acts_of next.op
            → IfOk result (λ tested. result_err tested ≡ sequence_cause past.kind (operate next ∷ past.records)) }
        ensures update { IfOk result (λ tested. IfOk tested (λ admitted.
            option_to_list admitted.update ≡ updates_in (acts_in parts))) }
        ensures found { IfOk result (λ tested. IfOk tested (λ admitted.
            IsFoundIn self.old label.now admitted.found)) }
        ensures same { self.new ≡ self.old }
    {
        match self.find(label, &parts)? {
            Err(cause) => Ok(Err(cause)),
            Ok(found) => Ok(Ok(Admitted {
                update: parts.into_update(),
                found,
            })),
        }
    }

    // Returns what the next label names, which has these parts, or the first condition that the named sequence fails
    // with it, apart from its order.
    fn find(&mut self, label: &Label, parts: &Parts) -> Result<Result<Found, Cause>, NoMemory>
        requires { MayMeet self.old label.now (acts_in parts.now) }
        ensures cause { (past : History) (next : NextOperation) → AreEffectsOf self.old past
            → IsOffered past next label.now
            → acts_in parts.now ≡ acts_of next.op
            → IfOk result (λ tested. result_err tested ≡ sequence_cause past.kind (operate next ∷ past.records)) }
        ensures found { IfOk result (λ tested. IfOk tested (IsFoundIn self.old label.now)) }
        ensures same { self.new ≡ self.old }
    {
        match self {
            Effects::Commuting(kept) => Ok(nothing_unless(kept.cause(label.replica, parts))),
            Effects::Overriding(kept) => Ok(nothing_unless(kept.cause(label.replica, parts))),
            Effects::Rga(kept) => match kept.admit(label, parts) {
                Ok(found) => Ok(Ok(Found::InRga(found))),
                Err(cause) => Ok(Err(cause)),
            },
            Effects::List(kept) => match kept.find(label)? {
                Ok(found) => Ok(Ok(Found::InList(found))),
                Err(cause) => Ok(Err(cause)),
            },
            Effects::Unordered(_) => Ok(Ok(Found::Nothing)),
        }
    }

    /// Adds the next label, with what it sees and what its test found, and returns the number of steps, at most 1. If
    /// the records with it do not meet the condition of their kind, returns this failure, for a list with a cycle of
    /// the edges that the labels require, and the same history is represented.
    ///
    /// # Errors
    ///
    /// `NoMemory` if allocation fails; the same history is represented.
    #[inline(always)]
    pub fn add(
        &mut self,
        label: &Label,
        seen: &Seen<'_>,
        admitted: Admitted,
    ) -> Result<Result<u64, Failure>, NoMemory>
        requires may { MayAdd self.old label.now seen.now admitted.update }
        requires found { IsFoundIn self.old label.now admitted.found }
        ensures taken { (past : History) (next : NextOperation) → AreEffectsOf self.old past
            → IsOffered past next label.now
            → ComesNext past next label.now seen.now
            → sequence_cause past.kind (operate next ∷ past.records) ≡ None
            → admitted.update ≡ update_in next.op
            → IfOk result (λ added. MatchResult added
            (λ steps. AreEffectsOf self.new (history_with past (operate next))
            × (is_explained past.kind (operate next ∷ past.records) ≡ true))
            (λ failure. AreEffectsOf self.new past × IsUnexplained past.kind (operate next ∷ past.records) failure)) }
        ensures unchanged { (past : History) → AreEffectsOf self.old past
            → IfOk result (λ added. OnErr added (AreEffectsOf self.new past)) }
        ensures step { IfOk result (λ added. IfOk added (λ steps. steps ≤ 1)) }
        ensures counted { (past : History) → AreEffectsOf self.old past → ¬ (past.kind ≡ kinds.Rga)
            → IfOk result (λ added. IfOk added (λ steps. steps ≡ steps_of admitted.update)) }
        ensures settled { (past : History) (next : NextOperation) → AreEffectsOf self.old past
            → IsOffered past next label.now
            → updates_admitted past.kind (named_sequence past.kind (operate next ∷ past.records)) ≡ true
            → past.kind ≡ kinds.Rga
            → IfOk result (λ added. IfOk added (SettlesMore past.records (operate next) next.by)) }
        ensures same { (past : History) → AreEffectsOf self.old past → OnErr result (AreEffectsOf self.new past) }
    {
        let Admitted { update, found } = admitted;
        match self {
            Effects::Commuting(kept) => Ok(Ok(kept.add(label.replica, update)?)),
            Effects::Overriding(kept) => Ok(Ok(add_write(kept, label, update)?)),
            Effects::Rga(kept) => match found {
                Found::InRga(found) => Ok(Ok(kept.add(label, found)?)),
                _ => unreachable!(),
            },
            Effects::List(kept) => match found {
                Found::InList(found) => kept.add(label, found),
                _ => unreachable!(),
            },
            Effects::Unordered(kept) => Ok(add_unordered(kept, label, seen, update.is_some())?),
        }
    }

    /// Adds the delivery of the label to the replica, and returns the number of steps: 1, or for an RGA the number of
    /// updates that it settles.
    ///
    /// # Errors
    ///
    /// `NoMemory` if allocation fails; the same history is represented.
    pub fn deliver(&mut self, replica: u8, label: u32) -> Result<u64, NoMemory>
        requires { MayDeliver self.old replica label }
        ensures delivered { (past : History) → AreEffectsOf self.old past → IsDelivered past replica label
            → OnOk result (AreEffectsOf self.new (history_with past (Deliver replica label))) }
        ensures few_steps { (past : History) (before behind : List Label) (it : Label) → AreEffectsOf self.old past
            → IsDelivered past replica label → named_labels past.kind past.records ≡ before ++ it ∷ behind
            → it.number ≡ label
            → IfOk result (λ steps. steps ≤ 1 + length (updates_among (has_delivered past.records replica) behind)) }
        ensures some_step { (past : History) → AreEffectsOf self.old past → IsDelivered past replica label
            → is_admitted past.kind (delivered_updates past.kind (Deliver replica label ∷ past.records) replica) ≡ true
            → IfOk result (λ steps. 1 ≤ steps) }
        ensures one_step { (past : History) → AreEffectsOf self.old past → IsDelivered past replica label
            → is_admitted past.kind (delivered_updates past.kind past.records replica) ≡ true
            → is_admitted past.kind (delivered_updates past.kind (Deliver replica label ∷ past.records) replica) ≡ true
            → IfOk result (λ steps. steps ≡ 1) }
        ensures counted { (past : History) → AreEffectsOf self.old past → IsDelivered past replica label
            → ¬ (past.kind ≡ kinds.Rga) → IfOk result (λ steps. steps ≡ 1) }
        ensures settled { (past : History) → AreEffectsOf self.old past → IsDelivered past replica label
            → past.kind ≡ kinds.Rga → IfOk result (SettlesMore past.records (Deliver replica label) replica) }
        ensures same { (past : History) → AreEffectsOf self.old past → OnErr result (AreEffectsOf self.new past) }
    {
        match self {
            Effects::Commuting(kept) => kept.deliver(replica, label),
            Effects::Overriding(kept) => {
                kept.deliver(replica, label)?;
                Ok(1)
            }
            Effects::Rga(kept) => kept.deliver(replica, label),
            Effects::List(kept) => match kept.deliver(replica, label) {
                Ok(()) => Ok(1),
                Err(refused) => Err(refused),
            },
            Effects::Unordered(kept) => match kept.deliver(replica, label) {
                Ok(()) => Ok(1),
                Err(refused) => Err(refused),
            },
        }
    }

    /// Adds the next replica, which joins from this one.
    ///
    /// # Errors
    ///
    /// `NoMemory` if allocation fails; the same history is represented.
    pub fn join(&mut self, from: u8) -> Result<(), NoMemory>
        requires { MayJoinFrom self.old from }
        ensures joined { (past : History) → AreEffectsOf self.old past → IsJoinedFrom past from
            → OnOk result (AreEffectsOf self.new (history_with past (Join (replicas_of past) from))) }
        ensures same { (past : History) → AreEffectsOf self.old past → OnErr result (AreEffectsOf self.new past) }
    {
        match self {
            Effects::Commuting(kept) => kept.join(from),
            Effects::Overriding(kept) => kept.join(from),
            Effects::Rga(kept) => kept.join(from),
            Effects::List(kept) => kept.join(from),
            Effects::Unordered(kept) => kept.join(from),
        }
    }

    /// Returns `true` if the label has two halves.
    pub fn has_halves(&self, label: u32) -> bool
        ensures { (past : History) → AreEffectsOf self.now past
            → EachLabelIsWellFormed past.kind past.initial_replicas past.records
            → result ≡ has_query_half (slice_get (updates_by_number past.records) label) }
    {
        match self {
            Effects::Commuting(kept) => has_query_half(&kept.updates, label),
            Effects::Overriding(_) | Effects::Rga(_) | Effects::Unordered(_) => false,
            Effects::List(kept) => kept.has_update(label),
        }
    }

    /// Returns the elements of a list, removed ones too, in the kept order; `None` for another kind.
    ///
    /// # Errors
    ///
    /// `NoMemory` if allocation fails.
    pub fn list_order(&self) -> Result<Option<Vec<u32>>, NoMemory>
        ensures { (past : History) → AreEffectsOf self.now past → IfOk result (λ found.
            MatchOption found (¬ (past.kind ≡ kinds.List))
            (λ order. (past.kind ≡ kinds.List) × Explains order.items past.records)) }
    {
        match self {
            Effects::List(kept) => Ok(Some(kept.list_order()?)),
            Effects::Commuting(_)
            | Effects::Overriding(_)
            | Effects::Rga(_)
            | Effects::Unordered(_) => Ok(None),
        }
    }

    /// Returns the allocator of the collections.
    pub fn allocator(&self) -> Global {
        match self {
            Effects::Commuting(kept) => *kept.updates.allocator(),
            Effects::Overriding(kept) => *kept.writes.allocator(),
            Effects::Rga(kept) => kept.allocator(),
            Effects::List(kept) => kept.allocator(),
            Effects::Unordered(kept) => kept.allocator(),
        }
    }
}

// Returns `true` if the label, whose update is in this list, has two halves.
fn has_query_half(updates: &[Option<Update>], label: u32) -> bool
    ensures { result ≡ has_query_half (slice_get updates.now label) }
{
    match updates.get(label as usize) {
        Some(Some(Update::TakeOut { .. } | Update::List(_))) => true,
        _ => false,
    }
}

// Returns the cause if there is one, and else that nothing was found.
fn nothing_unless(cause: Option<Cause>) -> Result<Found, Cause>
    ensures { result_err result ≡ cause }
{
    match cause {
        Some(cause) => Err(cause),
        None => Ok(Found::Nothing),
    }
}

// Adds the next label of an object of any type or a multi-value register, and returns the number of steps: 1 if it is
// an update. No state is kept, so that no step is taken but this one.
fn add_unordered(
    kept: &mut Unordered,
    label: &Label,
    seen: &Seen<'_>,
    is_update: bool,
) -> Result<Result<u64, Failure>, NoMemory>
    requires { may_be.MayAdd kept.old label.now seen.now }
    ensures taken { (past : History) (next : NextOperation) → IsKeptOf kept.old past
        → IsNext past next label.now seen.now
        → IfOk result (λ added. MatchResult added
        (λ steps. IsKeptOf kept.new (history_with past (operate next))
        × (is_explained past.kind (operate next ∷ past.records) ≡ true))
        (λ failure. IsKeptOf kept.new past × IsUnexplained past.kind (operate next ∷ past.records) failure)) }
    ensures unchanged { IfOk result (λ added. OnErr added (kept.new ≡ kept.old)) }
    ensures counted { IfOk result (λ added. IfOk added (λ steps. steps ≡ (if is_update then 1 else 0))) }
    ensures same { OnErr result (kept.new ≡ kept.old) }
{
    if kept.add(label, seen)? {
        Ok(Ok(u64::from(is_update)))
    } else {
        Ok(Err(Failure::of(Cause::Query)))
    }
}

// Adds the next label of a register or an LWW set.
fn add_write(kept: &mut Overriding, label: &Label, update: Option<Update>) -> Result<u64, NoMemory>
    requires { MayWrite kept.old label.now update }
    ensures taken { (past : History) (next : NextOperation) → IsOverridingOf kept.old past
        → IsOffered past next label.now
        → update ≡ update_in next.op → OnOk result (IsOverridingOf kept.new (history_with past (operate next))) }
    ensures counted { IfOk result (λ steps. steps ≡ steps_of update) }
    ensures same { (past : History) → IsOverridingOf kept.old past → OnErr result (IsOverridingOf kept.new past) }
{
    let Some(update) = update else {
        kept.add_query()?;
        return Ok(0);
    };
    let Some(stamp) = label.stamp else {
        unreachable!()
    };
    kept.add(label.replica, update, stamp)?;
    Ok(1)
}
