//! What was not delivered: to each replica at the end, and to the violating label's replica of each replica's updates.
ghost use Rattle.std.specs.Prelude.{◌≡◌, IfOk, map};
ghost use Rattle.std.specs.List.{range_with_len};
ghost use Rattle.ra_explain.specs.Places.{places_in};
ghost use Rattle.ra_explain.specs.Undelivered.{undelivered_at};
ghost use Rattle.ra_labels.specs.Records.{replica_count};
ghost use Rattle.ra_monitor.specs.Monitor.{records_of};

use crate::label_filter::{LabelFilter, find_labels};
use crate::origin::origin_of;
use crate::places::Places;
use ra_journal::Entry;
use ra_labels::{Command, NoMemory, Reply};
use ra_monitor::Monitor;
use std::alloc::Global;

/// The updates that were not delivered to a replica.
#[derive(Clone, Copy, Debug, PartialEq, Eq)]
pub struct Undelivered {
    /// The replica.
    pub replica: u8,
    /// Their number.
    pub updates: usize,
    /// The oldest of them, if there is one.
    pub oldest: Option<u32>,
}

/// Returns, for each replica by its number, what was not delivered to it at the end.
///
/// # Errors
///
/// `NoMemory` if an allocation fails.
///
/// # Complexity
///
/// One lookup for each label and replica.
pub fn undelivered_at_end(
    alloc: Global,
    monitor: &Monitor,
    places: &Places,
) -> Result<Vec<Undelivered>, NoMemory>
    requires { places.now ≡ places_in monitor.now.log }
    ensures { IfOk result (λ all. all.items ≡ map (undelivered_at monitor.now.setup monitor.now.log)
        (range_with_len 0 (replica_count monitor.now.setup.replicas
        (records_of monitor.now.setup monitor.now.log)))) }
{
    let mut all = Vec::new(alloc);
    for replica in 0..monitor.replicas() {
        all.push(undelivered_to(alloc, monitor, places, replica)?)?;
    }
    Ok(all)
}

fn undelivered_to(
    alloc: Global,
    monitor: &Monitor,
    places: &Places,
    replica: u8,
) -> Result<Undelivered, NoMemory>
    requires { places.now ≡ places_in monitor.now.log }
    ensures { IfOk result (λ lack. lack ≡ undelivered_at monitor.now.setup monitor.now.log replica) }
{
    let lacking = find_labels(alloc, monitor, places, LabelFilter::MissingAt(replica))?;
    Ok(Undelivered {
        replica,
        updates: lacking.len(),
        oldest: lacking.first().copied(),
    })
}

/// The number of a replica's updates before a label, and the number of those that the label's replica lacks.
#[derive(Clone, Copy, Debug, PartialEq, Eq)]
pub struct Share {
    /// The number of the replica's updates.
    pub all: u32,
    /// The number of those that were not delivered.
    pub lacking: u32,
}

/// Returns, for each of the given number of replicas, how many updates it issued before the label, and how many of
/// those are among the missing ones.
///
/// # Errors
///
/// `NoMemory` if an allocation fails.
///
/// # Complexity
///
/// One lookup for each label.
pub fn shares_of(
    alloc: Global,
    log: &[Entry<Command, Reply>],
    places: &Places,
    replicas: u8,
    label: u32,
    lacking: &[u32],
) -> Result<Vec<Share>, NoMemory> {
    let mut shares = Vec::new(alloc);
    for _ in 0..replicas {
        shares.push(Share { all: 0, lacking: 0 })?;
    }
    for number in 0..label {
        if let Some(share) = share_of(log, places, &mut shares, number) {
            share.all = share.all.saturating_add(1);
        }
    }
    for number in lacking {
        if let Some(share) = share_of(log, places, &mut shares, *number) {
            share.lacking = share.lacking.saturating_add(1);
        }
    }
    Ok(shares)
}

// Returns the count to which the label belongs, if it is an update.
fn share_of<'a>(
    log: &[Entry<Command, Reply>],
    places: &Places,
    shares: &'a mut Vec<Share>,
    label: u32,
) -> Option<&'a mut Share> {
    let origin = origin_of(log, places, label)?;
    if origin.is_update {
        shares.get_mut(origin.replica as usize)
    } else {
        None
    }
}
