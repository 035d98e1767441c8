//! What a read of any type or of a multi-value register is compared with, found by replaying the deliveries of a log.

use crate::origin::origin_of;
use crate::places::Places;
use crate::violation::Violation;
use ra_any_reads::AnyReads;
use ra_journal::Entry;
use ra_labels::{Command, MOST_REPLICAS, NoMemory, Op, Reply};
use ra_siblings::Siblings;
use std::alloc::Global;

/// The largest number of replicas.
const REPLICAS: usize = MOST_REPLICAS as usize;

/// Of each replica, how many updates of each replica were delivered to it.
#[derive(Drop)]
struct Delivered {
    rows: Vec<[u32; REPLICAS]>,
}

impl Delivered {
    fn new(alloc: Global, replicas: u8) -> Result<Delivered, NoMemory> {
        let mut rows = Vec::new(alloc);
        for _ in 0..replicas {
            rows.push([0; REPLICAS])?;
        }
        Ok(Delivered { rows })
    }

    // Adds one more update of a replica to those of another one, or of its own.
    fn add(&mut self, to: u8, of: u8) {
        if let Some(row) = self.rows.get_mut(to as usize) {
            if let Some(count) = row.get_mut(of as usize) {
                *count = count.saturating_add(1);
            }
        }
    }

    fn join(&mut self, from: u8) -> Result<(), NoMemory> {
        let row = self.of(from);
        self.rows.push(row)?;
        Ok(())
    }

    fn of(&self, replica: u8) -> [u32; REPLICAS] {
        match self.rows.get(replica as usize) {
            Some(row) => *row,
            None => [0; REPLICAS],
        }
    }
}

/// Returns the earliest read of an object of any type that sees the same updates as the violating label, if there is
/// one.
///
/// # Errors
///
/// `NoMemory` if an allocation fails.
///
/// # Complexity
///
/// O(n log n) for `n` entries, with a constant number of words for each distinct set of updates that a read sees.
pub fn earlier_read(
    alloc: Global,
    replicas: u8,
    log: &[Entry<Command, Reply>],
    places: &Places,
    violation: &Violation,
) -> Result<Option<u32>, NoMemory> {
    let mut delivered = Delivered::new(alloc, replicas)?;
    let mut reads = AnyReads::new(alloc);
    for entry in log.iter().take(violation.place as usize) {
        match (&entry.command, entry.reply) {
            (
                Command::Operate {
                    replica,
                    op: Op::AnyRead(value),
                    ..
                },
                Reply::Ok(label),
            ) => {
                let row = delivered.of(*replica);
                if reads.find(&row).is_none() {
                    reads.add(&row, *value, label)?;
                }
            }
            (Command::Operate { replica, .. }, Reply::Ok(_)) => delivered.add(*replica, *replica),
            (Command::Deliver { replica, label }, Reply::Got(_)) => {
                if let Some(origin) = origin_of(log, places, *label) {
                    delivered.add(*replica, origin.replica);
                }
            }
            (Command::Join { from, .. }, Reply::Joined(_)) => delivered.join(*from)?,
            _ => {}
        }
    }
    match reads.find(&delivered.of(violation.replica)) {
        Some(first) => Ok(Some(first.label)),
        None => Ok(None),
    }
}

/// Returns the siblings of a multi-value register that the violating label's replica had before it: the writes
/// delivered to it that no other one of these saw.
///
/// # Errors
///
/// `NoMemory` if an allocation fails.
///
/// # Complexity
///
/// O(n s) for `n` entries and `s` siblings.
pub fn siblings_before(
    alloc: Global,
    replicas: u8,
    log: &[Entry<Command, Reply>],
    violation: &Violation,
) -> Result<Vec<u32>, NoMemory> {
    let mut siblings = Siblings::new(alloc, replicas)?;
    for entry in log.iter().take(violation.place as usize) {
        follow(&mut siblings, entry)?;
    }
    let mut labels = Vec::new(alloc);
    if (violation.replica as usize) < siblings.replica_count() {
        labels.extend_from_slice(siblings.labels(violation.replica))?;
    }
    Ok(labels)
}

// Takes the siblings behind one more entry.
fn follow(siblings: &mut Siblings, entry: &Entry<Command, Reply>) -> Result<(), NoMemory> {
    match (&entry.command, entry.reply) {
        (
            Command::Operate {
                replica,
                op: Op::MvWrite(value),
                ..
            },
            Reply::Ok(_),
        ) => write(siblings, *replica, *value),
        (Command::Operate { .. }, Reply::Ok(_)) => siblings.add_query(),
        (Command::Deliver { replica, label }, Reply::Got(_)) => deliver(siblings, *replica, *label),
        (Command::Join { from, .. }, Reply::Joined(_)) => join(siblings, *from),
        _ => Ok(()),
    }
}

fn write(siblings: &mut Siblings, replica: u8, value: u32) -> Result<(), NoMemory> {
    let few = siblings.label_count() < u32::MAX as usize;
    if few && (replica as usize) < siblings.replica_count() {
        siblings.write(replica, value)?;
    }
    Ok(())
}

fn deliver(siblings: &mut Siblings, replica: u8, label: u32) -> Result<(), NoMemory> {
    let known = (label as usize) < siblings.label_count();
    if known && (replica as usize) < siblings.replica_count() {
        if !siblings.is_sibling(replica, label) {
            siblings.deliver(replica, label)?;
        }
    }
    Ok(())
}

fn join(siblings: &mut Siblings, from: u8) -> Result<(), NoMemory> {
    if (from as usize) < siblings.replica_count() {
        siblings.join(from)?;
    }
    Ok(())
}
