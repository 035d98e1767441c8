//! The states of the replicas.
ghost use Rattle.std.specs.Prelude.{◌≡◌, ◌<◌, ◌++◌, ◌∷◌, [], replicate, vec_len, IfOk, OnOk, OnErr};
ghost use Rattle.ra_labels.specs.Specification.{initial_state};
ghost use Rattle.ra_witness.specs.States.{state_at};

use ra_labels::{Kind, NoMemory};
use ra_seqspec::State;
use std::alloc::Global;

/// Returns the initial state of the kind for each of the given number of replicas.
///
/// # Errors
///
/// `NoMemory` if allocation fails.
pub fn first_states(alloc: Global, kind: Kind, replicas: u8) -> Result<Vec<State>, NoMemory>
    ensures { IfOk result (λ states. states.items ≡ replicate replicas (initial_state kind)) }
{
    let mut states = Vec::with_capacity(alloc, replicas as usize)?;
    for _ in 0..replicas {
        states.push(State::new(alloc, kind)?)?;
    }
    Ok(states)
}

/// Appends a copy of this replica's state.
///
/// # Errors
///
/// `NoMemory` if allocation fails; the states are unchanged.
pub fn copy_state(states: &mut Vec<State>, from: u8) -> Result<(), NoMemory>
    requires { from < vec_len states.old }
    ensures copied { OnOk result (states.new.items ≡ states.old.items ++ state_at states.old.items from ∷ []) }
    ensures same { OnErr result (states.new.items ≡ states.old.items) }
{
    let state = states[from as usize].copy()?;
    states.push(state)?;
    Ok(())
}
