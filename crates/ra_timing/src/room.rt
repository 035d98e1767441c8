//! The room that a monitor reserves for log entries.

use anyhow::{Result, bail};
use ra_journal::MOST_ENTRIES;
use ra_labels::Kind;
use ra_monitor::Monitor;
use std::alloc::Global;
use std::io::Print;

/// The number of entries that are reserved, of the largest number that the log may have.
const ENTRIES: u32 = 1_000;

/// Reserves room in an empty log, and prints for how many entries it was requested and for how many there is room.
/// `tests/program/resource_bounds` counts the memory of this.
pub fn print_room(rt: &impl Print, alloc: Global) -> Result<()> {
    let Ok(mut monitor) = Monitor::new(alloc, Kind::Counter, 1, MOST_ENTRIES) else {
        bail!("no monitor");
    };
    if monitor.reserve(ENTRIES).is_err() {
        bail!("no memory");
    }
    println!(rt; "{ENTRIES} {}", monitor.room())?;
    Ok(())
}
