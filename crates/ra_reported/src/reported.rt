//! The labels that a log reports.
ghost use Rattle.std.specs.Prelude.{◌≡◌, ℕ, IfOk, Some, length, slice_get, option_map};
ghost use Rattle.ra_labels.specs.Records.{label_count, label_at};
ghost use Rattle.ra_visibility.specs.Tracked.{IsVisibilityOf};
ghost use Rattle.ra_reported.specs.Reported.{reported_in, operation_at, IsPlaceOf};

use crate::reading::Reading;
use ra_journal::Entry;
use ra_labels::{Command, Kind, NoMemory, Reply};
use ra_visibility::Tracker;
use std::alloc::Global;

/// The labels that a log reports, and what each one sees.
#[derive(Drop)]
pub struct Reported {
    /// What was delivered to each replica, and what each label sees.
    pub tracker: Tracker,
    /// The place of each label's operation in the log.
    pub places: Vec<u32>,
}

impl Reported {
    /// Returns the labels that the log reports in a history of this kind with this number of initial replicas. What
    /// the monitor replied is not read.
    ///
    /// # Errors
    ///
    /// `NoMemory` if allocation fails, or if there are more than 1,048,576 labels.
    ///
    /// # Complexity
    ///
    /// O(n · r) for `n` entries and `r` replicas, and the length of each list.
    pub fn of(
        alloc: Global,
        kind: Kind,
        replicas: u8,
        log: &[Entry<Command, Reply>],
    ) -> Result<Reported, NoMemory>
        // The tracker represents the visibility of the reported history.
        ensures visibility { IfOk result (λ it. IsVisibilityOf it.tracker.now (reported_in kind replicas log.now)) }
        // There is a place for each label.
        ensures count { IfOk result (λ it.
            length it.places.items ≡ label_count (reported_in kind replicas log.now).records) }
        // The entry at each label's place becomes this label.
        ensures places { IfOk result (λ it. (n place : ℕ) → slice_get it.places.items n ≡ Some place
            → IsPlaceOf kind replicas log.now n place) }
        // At the place of each label, and of no other number, the log has its operation.
        ensures operations { IfOk result (λ it. (n : ℕ) → operation_at log.now it.places.items n
            ≡ option_map (λ label. label.op) (label_at (reported_in kind replicas log.now).records n)) }
    {
        let mut reading = Reading::new(alloc, replicas)?;
        for at in 0..log.len() {
            let Ok(place) = u32::try_from(at) else {
                return Err(NoMemory);
            };
            reading.read(kind, &log[at].command, place)?;
        }
        let Reading {
            tracker,
            taken: _,
            places,
        } = reading;
        Ok(Reported { tracker, places })
    }
}
