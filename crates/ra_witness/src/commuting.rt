//! The effects of a counter's or an OR-Set's labels: a late update has the effect of the last one.
ghost use Rattle.std.specs.Prelude.{◌≡◌, ◌<◌, ◌++◌, ◌∷◌, [], true, replicate, vec_len, IfOk, OnOk, OnErr};
ghost use Rattle.std.specs.List.{list_all};
ghost use Rattle.ra_labels.specs.Specification.{initial_state};
ghost use Rattle.ra_seqspec.specs.Asked.{asks_rising};
ghost use Rattle.ra_rewrite.specs.Parts.{acts_in};
ghost use Rattle.ra_witness.specs.Labels.{queries_in, cause_in};
ghost use Rattle.ra_witness.specs.States.{state_at, update_at, after_step, CanStep, states_after, steps_of};

use crate::queries;
use crate::states::{copy_state, first_states};
use ra_labels::{Cause, Kind, NoMemory, Update};
use ra_rewrite::Parts;
use ra_seqspec::State;
use std::alloc::Global;

/// The updates of the labels, and the state of each replica after those that were delivered to it.
#[derive(Drop)]
pub struct Commuting {
    /// The update of each label, if it has one, the oldest label first.
    pub updates: Vec<Option<Update>>,
    /// The state of each replica.
    pub states: Vec<State>,
}

impl Commuting {
    /// Creates the effects of no labels, with the given number of replicas.
    ///
    /// # Errors
    ///
    /// `NoMemory` if allocation fails.
    ///
    /// # Complexity
    ///
    /// O(r), where `r` is the number of replicas.
    pub fn new(alloc: Global, kind: Kind, replicas: u8) -> Result<Commuting, NoMemory>
        ensures updates { IfOk result (λ kept. kept.updates.items ≡ []) }
        ensures states { IfOk result (λ kept. kept.states.items ≡ replicate replicas (initial_state kind)) }
    {
        match first_states(alloc, kind, replicas) {
            Ok(states) => Ok(Commuting {
                updates: Vec::new(alloc),
                states,
            }),
            Err(refused) => Err(refused),
        }
    }

    /// Returns the cause if a label of the replica with these parts fails because of its query, or `None`.
    pub fn cause(&self, replica: u8, parts: &Parts) -> Option<Cause>
        requires replica { replica < vec_len self.now.states }
        requires rising { list_all asks_rising (queries_in (acts_in parts.now)) ≡ true }
        ensures { result ≡ cause_in (Some (state_at self.now.states.items replica)) (acts_in parts.now) }
    {
        queries::cause(&self.states[replica as usize], parts)
    }

    /// Adds the next label of this replica, with its update if it has one, and returns the number of steps: 1 or 0.
    ///
    /// # Errors
    ///
    /// `NoMemory` if allocation fails; nothing changes.
    pub fn add(&mut self, replica: u8, update: Option<Update>) -> Result<u64, NoMemory>
        requires replica { replica < vec_len self.old.states }
        requires can { CanStep (state_at self.old.states.items replica) update }
        ensures updates { OnOk result (self.new.updates.items ≡ self.old.updates.items ++ update ∷ []) }
        ensures states { OnOk result (self.new.states.items ≡ states_after self.old.states.items replica update) }
        ensures steps { IfOk result (λ steps. steps ≡ steps_of update) }
        ensures same_updates { OnErr result (self.new.updates.items ≡ self.old.updates.items) }
        ensures same_states { OnErr result (self.new.states.items ≡ self.old.states.items) }
    {
        self.updates.reserve(1)?;
        let steps = step(&mut self.states[replica as usize], &update)?;
        self.updates.push_reserved(update);
        Ok(steps)
    }

    /// Adds the delivery of the label to the replica, and returns the number of steps: 1 if the label has an update.
    ///
    /// # Errors
    ///
    /// `NoMemory` if allocation fails; nothing changes.
    pub fn deliver(&mut self, replica: u8, label: u32) -> Result<u64, NoMemory>
        requires replica { replica < vec_len self.old.states }
        requires label { label < vec_len self.old.updates }
        requires can { CanStep (state_at self.old.states.items replica) (update_at self.old.updates.items label) }
        ensures updates { self.new.updates ≡ self.old.updates }
        ensures states { OnOk result (self.new.states.items
            ≡ states_after self.old.states.items replica (update_at self.old.updates.items label)) }
        ensures steps { IfOk result (λ steps. steps ≡ steps_of (update_at self.old.updates.items label)) }
        ensures same_states { OnErr result (self.new.states.items ≡ self.old.states.items) }
    {
        step(
            &mut self.states[replica as usize],
            &self.updates[label as usize],
        )
    }

    /// Adds the next replica with a copy of this one's state.
    ///
    /// # Errors
    ///
    /// `NoMemory` if allocation fails; nothing changes.
    ///
    /// # Complexity
    ///
    /// O(n), where `n` is the size of the state.
    pub fn join(&mut self, from: u8) -> Result<(), NoMemory>
        requires { from < vec_len self.old.states }
        ensures updates { self.new.updates ≡ self.old.updates }
        ensures states { OnOk result (self.new.states.items
            ≡ self.old.states.items ++ state_at self.old.states.items from ∷ []) }
        ensures same_states { OnErr result (self.new.states.items ≡ self.old.states.items) }
    {
        copy_state(&mut self.states, from)
    }
}

// Applies the update, if there is one, and returns the number of steps.
#[inline(always)]
fn step(state: &mut State, update: &Option<Update>) -> Result<u64, NoMemory>
    requires { CanStep state.old update.now }
    ensures made { OnOk result (state.new ≡ after_step state.old update.now) }
    ensures steps { IfOk result (λ steps. steps ≡ steps_of update.now) }
    ensures same { OnErr result (state.new ≡ state.old) }
{
    match update {
        Some(update) => {
            state.apply(update)?;
            Ok(1)
        }
        None => Ok(0),
    }
}
