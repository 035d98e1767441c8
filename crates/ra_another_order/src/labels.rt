//! The labels that a log reports, with their operations.
ghost use Rattle.std.specs.Prelude.{IfOk};
ghost use Rattle.ra_another_order.specs.Operations.{AreReported};

use crate::operations::operations_of;
use ra_journal::Entry;
use ra_labels::{Command, Kind, NoMemory, Op, Reply};
use ra_reported::Reported;
use ra_visibility::Tracker;
use std::alloc::Global;

/// The labels that a log reports, with their operations.
#[derive(Drop)]
pub struct Labels<'a> {
    /// What each label sees.
    pub tracker: Tracker,
    /// The place of each label's operation in the log.
    pub places: Vec<u32>,
    /// The operation of each label.
    pub operations: Vec<&'a Op>,
}

impl<'a> Labels<'a> {
    /// Returns the labels that the log reports in a history of this kind with this number of initial replicas. The
    /// monitor's replies are ignored.
    ///
    /// # Errors
    ///
    /// `NoMemory` if allocation fails, or if there are more than 1,048,576 labels.
    ///
    /// # Complexity
    ///
    /// That of `Reported::of`.
    pub fn of(
        alloc: Global,
        kind: Kind,
        replicas: u8,
        log: &'a [Entry<Command, Reply>],
    ) -> Result<Labels<'a>, NoMemory>
        // They are those of the reported history, with their places in the log.
        ensures { IfOk result (AreReported kind replicas log.now) }
    {
        let reported = Reported::of(alloc, kind, replicas, log)?;
        let operations = operations_of(alloc, log, reported.places.as_slice())?;
        let Reported { tracker, places } = reported;
        Ok(Labels {
            tracker,
            places,
            operations,
        })
    }
}
