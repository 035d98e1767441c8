//! What the renderers read: an explanation, and the names of its replicas.
ghost use Rattle.std.specs.Prelude.{◌≡◌, IfOk};
ghost use Rattle.ra_explain.specs.LabelFilter as explained;

use ra_explain::{Explanation, LabelsWith, labels_with};
use ra_history_lines::Names;
use ra_labels::NoMemory;
use std::alloc::Global;

/// An explanation, and the names of its replicas.
#[derive(Clone, Copy)]
pub struct View<'a> {
    /// The explanation.
    pub explanation: &'a Explanation,
    /// The names of the replicas.
    pub names: &'a Names,
}

impl View<'_> {
    /// Returns the labels with this unique key, in ascending order.
    ///
    /// # Errors
    ///
    /// `NoMemory` if an allocation fails.
    ///
    /// # Complexity
    ///
    /// One lookup for each label.
    pub fn labels(&self, alloc: Global, key: LabelsWith) -> Result<Vec<u32>, NoMemory>
        // The result has exactly the labels of the log with this unique key, in increasing order.
        ensures { IfOk result (λ labels. labels.items ≡ explained.labels_with self.now.explanation.now.log.items
            self.now.explanation.now.places key) }
    {
        labels_with(alloc, &self.explanation.log, &self.explanation.places, key)
    }
}
