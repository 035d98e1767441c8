//! The first rejected entries of a log.
ghost use Rattle.std.specs.Prelude.{◌≡◌, IfOk, OnOk};
ghost use Rattle.ra_explain.specs.Rejected.{first_rejected, with_rejected};

use ra_journal::Entry;
use ra_labels::{Command, NoMemory, Reply};
use ra_monitor::Monitor;
use std::alloc::Global;

/// The largest number of rejected entries that an explanation names.
pub const MOST_REJECTED: usize = 10;

/// Returns the indices of the first ten rejected entries of the monitor's log.
///
/// # Errors
///
/// `NoMemory` if an allocation fails.
///
/// # Complexity
///
/// O(number of entries).
pub fn first_rejected(alloc: Global, monitor: &Monitor) -> Result<Vec<u32>, NoMemory>
    ensures { IfOk result (λ places. places.items ≡ first_rejected monitor.now.log) }
{
    let log = monitor.log();
    let mut places = Vec::new(alloc);
    let mut place: u32 = 0;
    for entry in log {
        add_rejected(&mut places, place, entry)?;
        place += 1;
    }
    Ok(places)
}

// Adds the index if its entry is rejected and there is room.
fn add_rejected(
    places: &mut Vec<u32>,
    place: u32,
    entry: &Entry<Command, Reply>,
) -> Result<(), NoMemory>
    ensures { OnOk result (places.new.items ≡ with_rejected places.old.items place entry.now) }
{
    if let Reply::Refused(_) = entry.reply {
        if places.len() < MOST_REJECTED {
            places.push(place)?;
        }
    }
    Ok(())
}
