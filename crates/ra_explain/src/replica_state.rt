//! The state that the updates delivered to a replica lead to.
ghost use Rattle.std.specs.Prelude.{◌≡◌, ◌∷◌, [], IfOk, IfSome, is_some, unwrap_or};
ghost use Rattle.std.specs.Option.{option_to_list};
ghost use Rattle.ra_labels.specs.Rewriting.{Part};
ghost use Rattle.ra_monitor.specs.Monitor.{records_before_fault_in};
ghost use Rattle.ra_witness.specs.Sequence.{ref_of};
ghost use Rattle.ra_explain.specs.Places.{places_in};
ghost use Rattle.ra_explain.specs.ReplicaState as seen;
ghost use Rattle.ra_explain.specs.ReplicaState.{IsKnown, after_one, replica_state, updates_among};
ghost use Rattle.ra_seqspec.specs.Range.{IsInRange};

use crate::places::Places;
use ra_journal::Entry;
use ra_labels::{Command, NoMemory, Reply, Update};
use ra_monitor::{Half, Monitor, PartRef};
use ra_rewrite::parts_of;
use ra_seqspec::State;
use std::alloc::Global;

/// Returns the state after the updates that precede the fault and were delivered to the replica so far, in the named
/// order. Returns `None` if one of them is not admitted.
///
/// # Errors
///
/// `NoMemory` if an allocation fails.
///
/// # Complexity
///
/// One `apply` for each of these updates, and one lookup for each part of the named sequence.
pub fn replica_state(
    alloc: Global,
    monitor: &Monitor,
    places: &Places,
    replica: u8,
) -> Result<Option<State>, NoMemory>
    requires { places.now ≡ places_in monitor.now.log }
    ensures { IfOk result (λ state. state ≡ replica_state monitor.now.setup monitor.now.log replica) }
{
    let log = monitor.log();
    let parts = monitor.sequence()?;
    let mut state = State::new(alloc, monitor.report().kind)?;
    for part in parts.as_slice() {
        let update = update_had(monitor, log, places, replica, *part)?;
        if !make(&mut state, update)? {
            return Ok(None);
        }
    }
    Ok(Some(state))
}

// Applies the update, if there is one. Returns `false` and leaves the state unchanged if the state does not admit it.
fn make(state: &mut State, update: Option<Update>) -> Result<bool, NoMemory>
    requires { IfSome (after_one state.old update) IsInRange }
    ensures admitted { IfOk result (λ is_made. is_made ≡ is_some (after_one state.old update)) }
    ensures made { IfOk result (λ is_made. state.new ≡ unwrap_or (after_one state.old update) state.old) }
{
    match update {
        Some(update) => Ok(state.apply(&update)?),
        None => Ok(true),
    }
}

// Returns the update of the part, if it has one that was delivered to the replica.
fn update_had(
    monitor: &Monitor,
    log: &[Entry<Command, Reply>],
    places: &Places,
    replica: u8,
    part: PartRef,
) -> Result<Option<Update>, NoMemory>
    requires log { log.now ≡ monitor.now.log }
    requires places { places.now ≡ places_in monitor.now.log }
    ensures { (p : Part) → IsKnown monitor.now.setup monitor.now.log replica p → ref_of p ≡ part
        → IfOk result (λ update. option_to_list update
        ≡ updates_among (records_before_fault_in monitor.now.setup monitor.now.log) replica (p ∷ [])) }
{
    if part.half == Half::QueryHalf || !monitor.has_delivered(replica, part.label) {
        return Ok(None);
    }
    update_at(log, places, part.label)
}

// Returns the update of the label, if it has one.
fn update_at(
    log: &[Entry<Command, Reply>],
    places: &Places,
    label: u32,
) -> Result<Option<Update>, NoMemory>
    ensures { IfOk result (λ update. update ≡ seen.update_at log.now places.now label) }
{
    match places.entry(log, label) {
        Some(entry) => update_by(&entry.command),
        None => Ok(None),
    }
}

// Returns the update of the command, if it has one.
fn update_by(command: &Command) -> Result<Option<Update>, NoMemory>
    ensures { IfOk result (λ update. update ≡ seen.update_by command.now) }
{
    match command {
        Command::Operate { op, .. } => Ok(parts_of(op)?.into_update()),
        Command::Deliver { .. } | Command::Join { .. } | Command::Verdict => Ok(None),
    }
}
