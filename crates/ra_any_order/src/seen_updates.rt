//! The updates of each element of an LWW set that a label sees.
ghost use Rattle.std.specs.Prelude.{◌≡◌, ◌<◌, ℕ, true, IfOk};
ghost use Rattle.ra_labels.specs.HistorySoFar.{History};
ghost use Rattle.ra_labels.specs.Lists.{rises};
ghost use Rattle.ra_visibility.specs.Tracked.{labels_in};
ghost use Rattle.ra_any_order.specs.Changes.{AreChangesOf};
ghost use Rattle.ra_any_order.specs.Elements.{AreNewestOf};
ghost use Rattle.ra_any_order.specs.Situation.{operations_in};
ghost use Rattle.ra_any_order.specs.Standings.{AreBelow, AreSeenUpdates};

use crate::changes::find_changes;
use crate::elements::newest_of;
use crate::previous::previous_labels;
use crate::views::View;
use ra_labels::{NoMemory, Op};
use ra_visibility::Tracker;
use std::alloc::Global;
use std::collections::BTreeMap;

/// The newest updates of elements that a label sees.
#[derive(Drop)]
pub struct SeenUpdates {
    /// The elements that they add or remove, increasing.
    pub elements: Vec<u32>,
    /// For each element and replica, the newest update of the element by the replica.
    pub newest: BTreeMap<(u32, u8), u32>,
    /// The number of replicas.
    pub replicas: u8,
}

impl SeenUpdates {
    /// Finds the updates that the label sees. The operations are those of the labels before it.
    ///
    /// # Errors
    ///
    /// `NoMemory` if allocation fails.
    ///
    /// # Complexity
    ///
    /// O(n · log n), with `n` the number of labels and replicas.
    pub fn of_label(
        alloc: Global,
        tracker: &Tracker,
        operations: &[&Op],
        label: u32,
    ) -> Result<SeenUpdates, NoMemory>
        requires { label < labels_in tracker.now.now }
        ensures rising { IfOk result (λ seen. rises seen.elements.items ≡ true) }
        ensures below { IfOk result (AreBelow (labels_in tracker.now.now)) }
        ensures seen { IfOk result (λ seen. (past : History)
            → AreChangesOf tracker.now.now (operations_in operations.now) past
            → AreSeenUpdates past.records (operations_in operations.now) label seen) }
    {
        let previous = previous_labels(alloc, tracker)?;
        let mut view = View::new(alloc);
        let mut elements = find_changes(alloc, tracker, operations, &previous, &mut view, label)?;
        elements.sort_unstable();
        elements.dedup();
        Ok(SeenUpdates {
            elements,
            newest: view.newest,
            replicas: tracker.replicas(),
        })
    }

    /// Returns the newest updates of the element, one for each replica that has any.
    ///
    /// # Errors
    ///
    /// `NoMemory` if allocation fails.
    ///
    /// # Complexity
    ///
    /// O(r · log n), where `r` is the number of replicas and `n` that of updates.
    pub fn of_element(&self, alloc: Global, element: u32) -> Result<Vec<u32>, NoMemory>
        ensures { IfOk result (λ found. AreNewestOf self.now.newest element self.now.replicas found.items) }
    {
        newest_of(alloc, &self.newest, self.replicas, element)
    }
}
