//! The effects of a register's or an LWW set's labels: the last update of each element determines the state.
ghost use Rattle.std.specs.Prelude.{◌≡◌, ◌==◌, ◌+◌, ◌<◌, ◌^◌, ◌++◌, ◌∷◌, [], ℕ, true, nat_eq, replicate, get_or, set, vec_len, Option, Some, None, IfOk, IfSome, OnOk, OnErr, if◌then◌else◌};
ghost use Rattle.std.specs.List.{list_all};
ghost use Rattle.std.specs.HashMap.{get, hash_map_len};
ghost use Rattle.ra_labels.specs.declared.label.Stamp.{Stamp};
ghost use Rattle.ra_labels.specs.Specification.{initial_state};
ghost use Rattle.ra_seqspec.specs.Asked.{asks_rising};
ghost use Rattle.ra_rewrite.specs.Parts.{acts_in};
ghost use Rattle.ra_witness.specs.Labels.{queries_in, cause_in};
ghost use Rattle.ra_witness.specs.States.{state_at, update_at, after_step, CanStep, states_after};
ghost use Rattle.ra_witness.specs.ElementNumbers.{element_of, number_with, count_with};
ghost use Rattle.ra_witness.specs.Overriding.{label_on, updates_written, write_of, write_at, later_of, is_above, labels_in, last_label, counting, last_with};
ghost use Rattle.ra_witness.specs.declared.overriding.written.Written.{Written};

mod element_numbers;
mod last_updates;
mod written;

use crate::overriding::element_numbers::ElementNumbers;
use crate::overriding::last_updates::{LastUpdates, no_lasts};
use crate::overriding::written::Written;
use crate::queries;
use crate::states::{copy_state, first_states};
use ra_labels::{Cause, Kind, NoMemory, Stamp, Update};
use ra_rewrite::Parts;
use ra_seqspec::State;
use std::alloc::Global;

/// The updates of the labels, and the state of each replica after those that were delivered to it.
#[derive(Drop)]
pub struct Overriding {
    /// The update of each label, if it has one, the oldest label first.
    pub writes: Vec<Option<Written>>,
    pub numbers: ElementNumbers,
    /// The state of each replica.
    pub states: Vec<State>,
    /// For each replica and element, the label of the last update of the element that was delivered to the replica.
    pub lasts: Vec<LastUpdates>,
}

impl Overriding {
    /// Creates the effects of no labels, with the given number of replicas.
    ///
    /// # Errors
    ///
    /// `NoMemory` if allocation fails.
    ///
    /// # Complexity
    ///
    /// O(r), where `r` is the number of replicas.
    pub fn new(alloc: Global, kind: Kind, replicas: u8) -> Result<Overriding, NoMemory>
        ensures writes { IfOk result (λ kept. kept.writes.items ≡ []) }
        ensures states { IfOk result (λ kept. kept.states.items ≡ replicate replicas (initial_state kind)) }
        ensures lasts { IfOk result (λ kept. labels_in kept.lasts.items ≡ replicate replicas []) }
        ensures numbers { IfOk result (λ kept. (x : ℕ) → get nat_eq kept.numbers.numbers x ≡ None) }
        ensures none { IfOk result (λ kept. hash_map_len kept.numbers.numbers ≡ 0) }
    {
        let lasts = match no_lasts(alloc, replicas) {
            Ok(lasts) => lasts,
            Err(refused) => return Err(refused),
        };
        match first_states(alloc, kind, replicas) {
            Ok(states) => Ok(Overriding {
                writes: Vec::new(alloc),
                numbers: ElementNumbers::new(alloc),
                states,
                lasts,
            }),
            Err(refused) => Err(refused),
        }
    }

    /// Returns the cause if a label of the replica with these parts fails because of its query, or `None`.
    pub fn cause(&self, replica: u8, parts: &Parts) -> Option<Cause>
        requires replica { replica < vec_len self.now.states }
        requires rising { list_all asks_rising (queries_in (acts_in parts.now)) ≡ true }
        ensures { result ≡ cause_in (Some (state_at self.now.states.items replica)) (acts_in parts.now) }
    {
        queries::cause(&self.states[replica as usize], parts)
    }

    /// Adds the next label, which has no update.
    ///
    /// # Errors
    ///
    /// `NoMemory` if allocation fails; nothing changes.
    pub fn add_query(&mut self) -> Result<(), NoMemory>
        ensures writes { OnOk result (self.new.writes.items ≡ self.old.writes.items ++ None ∷ []) }
        ensures err { OnErr result (self.new.writes.items ≡ self.old.writes.items) }
        ensures same { self.new ≡ record self.old { writes = self.new.writes } }
    {
        self.writes.push(None)?;
        Ok(())
    }

    /// Adds the next label of this replica, with this update and stamp. The update becomes the last one of its element
    /// at the replica.
    ///
    /// # Errors
    ///
    /// `NoMemory` if allocation fails; the same effects are represented.
    pub fn add(&mut self, replica: u8, update: Update, stamp: Stamp) -> Result<(), NoMemory>
        requires state { replica < vec_len self.old.states }
        requires last { replica < vec_len self.old.lasts }
        requires few { vec_len self.old.writes < 2 ^ 32 }
        requires known { hash_map_len self.old.numbers.numbers < 2 ^ 32 }
        requires can { CanStep (state_at self.old.states.items replica) (Some update) }
        ensures writes { OnOk result (self.new.writes.items ≡ self.old.writes.items
            ++ Some (write_of self.old.numbers update stamp) ∷ []) }
        ensures states { OnOk result (self.new.states.items
            ≡ states_after self.old.states.items replica (Some update)) }
        ensures lasts { OnOk result ((q c : ℕ) → last_label (labels_in self.new.lasts.items) q c
            ≡ last_with (labels_in self.old.lasts.items) replica (write_of self.old.numbers update stamp).on
            (vec_len self.old.writes) q c) }
        ensures numbers { OnOk result ((x : ℕ) → get nat_eq self.new.numbers.numbers x
            ≡ number_with (get nat_eq self.old.numbers.numbers) (element_of update)
            (write_of self.old.numbers update stamp).on x) }
        ensures count { OnOk result (hash_map_len self.new.numbers.numbers
            ≡ count_with (get nat_eq self.old.numbers.numbers) (hash_map_len self.old.numbers.numbers)
            (element_of update)) }
        ensures replicas { vec_len self.new.lasts ≡ vec_len self.old.lasts }
        ensures same_writes { OnErr result (self.new.writes.items ≡ self.old.writes.items) }
        ensures same_states { OnErr result (self.new.states.items ≡ self.old.states.items) }
        ensures same_lasts { OnErr result ((q c : ℕ) → last_label (labels_in self.new.lasts.items) q c
            ≡ last_label (labels_in self.old.lasts.items) q c) }
        ensures same_numbers { OnErr result ((x : ℕ) → get nat_eq self.new.numbers.numbers x
            ≡ get nat_eq self.old.numbers.numbers x) }
        ensures same_count { OnErr result (hash_map_len self.new.numbers.numbers
            ≡ hash_map_len self.old.numbers.numbers) }
    {
        let label = self.writes.len() as u32;
        let on = self.numbers.of(&update);
        self.writes.reserve(1)?;
        self.numbers.reserve()?;
        let state = &mut self.states[replica as usize];
        let last = &mut self.lasts[replica as usize];
        apply_own(state, last, &update, on, label)?;
        self.numbers.keep(&update, on);
        self.writes
            .push_reserved(Some(Written { update, stamp, on }));
        Ok(())
    }

    /// Adds the delivery of the label to the replica. A label without an update changes nothing.
    ///
    /// # Errors
    ///
    /// `NoMemory` if allocation fails; the same effects are represented.
    pub fn deliver(&mut self, replica: u8, label: u32) -> Result<(), NoMemory>
        requires state { replica < vec_len self.old.states }
        requires last { replica < vec_len self.old.lasts }
        requires label { label < vec_len self.old.writes }
        requires can { IfSome (write_at self.old.writes.items label) (λ written.
            CanStep (state_at self.old.states.items replica) (update_at (updates_written self.old.writes.items)
            (counting self.old.writes.items (labels_in self.old.lasts.items) replica label written))) }
        ensures writes { self.new.writes ≡ self.old.writes }
        ensures numbers { self.new.numbers ≡ self.old.numbers }
        ensures replicas { vec_len self.new.lasts ≡ vec_len self.old.lasts }
        ensures states { IfSome (write_at self.old.writes.items label) (λ written. OnOk result (self.new.states.items
            ≡ states_after self.old.states.items replica (update_at (updates_written self.old.writes.items)
            (counting self.old.writes.items (labels_in self.old.lasts.items) replica label written)))) }
        ensures lasts { IfSome (write_at self.old.writes.items label) (λ written. OnOk result ((q c : ℕ)
            → last_label (labels_in self.new.lasts.items) q c
            ≡ last_with (labels_in self.old.lasts.items) replica written.on
            (counting self.old.writes.items (labels_in self.old.lasts.items) replica label written) q c)) }
        ensures same_states { OnErr result (self.new.states.items ≡ self.old.states.items) }
        ensures same_lasts { OnErr result ((q c : ℕ) → last_label (labels_in self.new.lasts.items) q c
            ≡ last_label (labels_in self.old.lasts.items) q c) }
    {
        let writes = self.writes.as_slice();
        let Some(written) = &writes[label as usize] else {
            return Ok(());
        };
        let state = &mut self.states[replica as usize];
        let last = &mut self.lasts[replica as usize];
        apply_delivered(state, last, writes, label, written)
    }

    /// Adds the next replica, with a copy of this one's state and last labels.
    ///
    /// # Errors
    ///
    /// `NoMemory` if allocation fails; the same effects are represented.
    ///
    /// # Complexity
    ///
    /// O(n + e), where `n` is the size of the state and `e` the number of elements for which the last labels have room.
    pub fn join(&mut self, from: u8) -> Result<(), NoMemory>
        requires state { from < vec_len self.old.states }
        requires last { from < vec_len self.old.lasts }
        ensures writes { self.new.writes ≡ self.old.writes }
        ensures numbers { self.new.numbers ≡ self.old.numbers }
        ensures states { OnOk result (self.new.states.items
            ≡ self.old.states.items ++ state_at self.old.states.items from ∷ []) }
        ensures lasts { OnOk result (labels_in self.new.lasts.items ≡ labels_in self.old.lasts.items
            ++ get_or (labels_in self.old.lasts.items) from [] ∷ []) }
        ensures same_states { OnErr result (self.new.states.items ≡ self.old.states.items) }
        ensures same_lasts { OnErr result (self.new.lasts.items ≡ self.old.lasts.items) }
    {
        let last = match self.lasts[from as usize].copy() {
            Ok(last) => last,
            Err(refused) => return Err(refused),
        };
        self.lasts.reserve(1)?;
        match copy_state(&mut self.states, from) {
            Ok(()) => {
                self.lasts.push_reserved(last);
                Ok(())
            }
            Err(refused) => Err(refused),
        }
    }
}

// Applies the update of the delivered label or of the last label of its element, whichever stands later.
fn apply_delivered(
    state: &mut State,
    last: &mut LastUpdates,
    writes: &[Option<Written>],
    label: u32,
    written: &Written,
) -> Result<(), NoMemory>
    requires { CanStep state.old (update_at (updates_written writes.now)
        (later_of writes.now (label_on last.old.labels.items written.now.on) label written.now.stamp)) }
    ensures state { OnOk result (state.new ≡ after_step state.old (update_at (updates_written writes.now)
        (later_of writes.now (label_on last.old.labels.items written.now.on) label written.now.stamp))) }
    ensures last { OnOk result ((c : ℕ) → label_on last.new.labels.items c
        ≡ (if c == written.now.on then
        Some (later_of writes.now (label_on last.old.labels.items written.now.on) label written.now.stamp)
        else label_on last.old.labels.items c)) }
    ensures same_state { OnErr result (state.new ≡ state.old) }
    ensures same_last { OnErr result ((c : ℕ) → label_on last.new.labels.items c ≡ label_on last.old.labels.items c) }
{
    last.reserve(written.on)?;
    let later = later_of(writes, last.on(written.on), label, written.stamp);
    apply_label(state, writes, later)?;
    last.put(written.on, later);
    Ok(())
}

// Applies the update of the replica's own label, as the last one of the element.
fn apply_own(
    state: &mut State,
    last: &mut LastUpdates,
    update: &Update,
    on: u32,
    label: u32,
) -> Result<(), NoMemory>
    requires { CanStep state.old (Some update.now) }
    ensures state { OnOk result (state.new ≡ after_step state.old (Some update.now)) }
    ensures last { OnOk result ((c : ℕ) → label_on last.new.labels.items c
        ≡ (if c == on then Some label else label_on last.old.labels.items c)) }
    ensures same_state { OnErr result (state.new ≡ state.old) }
    ensures same_last { OnErr result ((c : ℕ) → label_on last.new.labels.items c ≡ label_on last.old.labels.items c) }
{
    last.reserve(on)?;
    state.apply(update)?;
    last.put(on, label);
    Ok(())
}

// Returns the later one of a label with this stamp and the last label of its element.
fn later_of(writes: &[Option<Written>], last: Option<u32>, label: u32, stamp: Stamp) -> u32
    ensures { result ≡ later_of writes.now last label stamp }
{
    match last {
        Some(other) if is_above(writes, stamp, other) => other,
        _ => label,
    }
}

// Returns `true` if the label's stamp is greater than this one.
fn is_above(writes: &[Option<Written>], stamp: Stamp, label: u32) -> bool
    ensures { result ≡ is_above writes.now stamp label }
{
    match writes.get(label as usize) {
        Some(Some(other)) => stamp < other.stamp,
        _ => false,
    }
}

// Applies the label's update, if it has one.
fn apply_label(state: &mut State, writes: &[Option<Written>], label: u32) -> Result<(), NoMemory>
    requires { CanStep state.old (update_at (updates_written writes.now) label) }
    ensures made { OnOk result (state.new ≡ after_step state.old (update_at (updates_written writes.now) label)) }
    ensures same { OnErr result (state.new ≡ state.old) }
{
    if let Some(Some(written)) = writes.get(label as usize) {
        state.apply(&written.update)?;
    }
    Ok(())
}
