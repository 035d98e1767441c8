//! The search for remedies: changes to deliveries with which a violating label would hold.
ghost use Rattle.std.specs.Prelude.{◌≡◌, [], IfOk};
ghost use Rattle.ra_explain.specs.Explanation.{HoldWith};

use crate::changes::{Change, changes_that_help, got_last};
use crate::origin::origin_of;
use crate::places::Places;
use crate::violation::Violation;
use ra_journal::Entry;
use ra_labels::{Command, Kind, NoMemory, Reply};
use ra_monitor::Setup;
use std::alloc::Global;

/// The largest number of changes of each sort that are tried for a list of either kind, whose reads are long.
const MOST_TRIES: u32 = 256;

/// The number of commands that are replayed for the changes of one sort: the largest number in a history.
const MOST_STEPS: u32 = 1_048_576;

/// The changes that were tried, and those that help.
#[derive(Drop)]
pub struct Remedies {
    /// The changes that were tried, in order: deliveries to add, deliveries to leave out, earlier positions; the latest
    /// first.
    pub tried: Vec<Change>,
    /// Those of the changes with which the label would have held, in the same order.
    pub found: Vec<Change>,
}

impl Remedies {
    /// Creates an empty list of changes.
    pub fn new(alloc: Global) -> Remedies
        // No change was tried.
        ensures tried { result.tried.items ≡ [] }
        // No remedy was found.
        ensures found { result.found.items ≡ [] }
    {
        Remedies {
            tried: Vec::new(alloc),
            found: Vec::new(alloc),
        }
    }

    /// Tries changes to what had been delivered to the replica when it issued its label. The changes are one delivery
    /// more, one delivery less, or none of the latest deliveries yet.
    ///
    /// The deliveries that can come next are one of each other replica's updates. For a counter all of these are tried,
    /// so none of them that helps is missed. Of all other changes the latest are tried, for a list at most 256 of each
    /// sort. In a long history they are fewer, so that about a million commands are replayed for each sort.
    ///
    /// # Errors
    ///
    /// `NoMemory` if an allocation fails.
    ///
    /// # Complexity
    ///
    /// About a million monitor steps for each sort of changes, with one exception. For a counter each possible next
    /// delivery is tried, whatever the number of steps: at most one for each other replica.
    pub fn of(
        alloc: Global,
        setup: &Setup,
        log: &[Entry<Command, Reply>],
        places: &Places,
        violation: &Violation,
    ) -> Result<Remedies, NoMemory>
        // The remedies are exactly those of the tried changes with which the violating label would hold.
        ensures holding { IfOk result (HoldWith setup.now log.now violation.now.place) }
    {
        let tried = changes_to_try(alloc, setup.kind, log, places, violation)?;
        let found = changes_that_help(alloc, setup, log, violation.place, &tried)?;
        Ok(Remedies { tried, found })
    }
}

fn changes_to_try(
    alloc: Global,
    kind: Kind,
    log: &[Entry<Command, Reply>],
    places: &Places,
    violation: &Violation,
) -> Result<Vec<Change>, NoMemory> {
    let most = most_tries(kind, violation.place) as usize;
    let mut changes = Vec::new(alloc);
    let next = next_among(alloc, log, places, &violation.lacking)?;
    let most_next = if kind == Kind::Counter {
        next.len()
    } else {
        most
    };
    for label in next.iter().rev().take(most_next) {
        changes.push(Change::Gets(*label))?;
    }
    if let Some(before) = log.get(..violation.place as usize) {
        let got = got_last(alloc, before, violation.replica)?;
        for at in got.iter().rev().take(most) {
            changes.push(Change::Misses(small(*at)))?;
        }
        for at in got.iter().rev().skip(1).take(most) {
            changes.push(Change::ComesBefore(small(*at)))?;
        }
    }
    Ok(changes)
}

fn most_tries(kind: Kind, place: u32) -> u32 {
    let most = MOST_STEPS / place.saturating_add(1);
    match kind {
        Kind::Rga | Kind::List => most.min(MOST_TRIES),
        Kind::Counter
        | Kind::Register
        | Kind::LwwSet
        | Kind::OrSet
        | Kind::Any
        | Kind::MvRegister => most,
    }
}

// Returns the index in 32 bits, as which each index of a log fits.
fn small(index: usize) -> u32 {
    index.min(u32::MAX as usize) as u32
}

// Returns the first update of each replica among the missing ones. Its other updates see that one, so none of them can
// be delivered before.
fn next_among(
    alloc: Global,
    log: &[Entry<Command, Reply>],
    places: &Places,
    lacking: &[u32],
) -> Result<Vec<u32>, NoMemory> {
    let mut issuers: Vec<u8> = Vec::new(alloc);
    let mut next = Vec::new(alloc);
    for label in lacking {
        if let Some(origin) = origin_of(log, places, *label) {
            if !issuers.contains(&origin.replica) {
                issuers.push(origin.replica)?;
                next.push(*label)?;
            }
        }
    }
    Ok(next)
}
