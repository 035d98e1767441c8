//! The longest prefix of the labels that some order explains.
ghost use Rattle.std.specs.Prelude.{◌≡◌, ◌<◌, ℕ, List, false, IfOk, length};
ghost use Rattle.ra_theorems.specs.AnyOrder.{is_of_any_order};
ghost use Rattle.ra_labels.specs.declared.kind.Kind.{Kind};
ghost use Rattle.ra_monitor.specs.Monitor.{MonitorEntry, IsLegalLog};
ghost use Rattle.ra_another_order.specs.Operations.{AreReported};
ghost use Rattle.ra_another_order.specs.Extent.{records_at, IsExplained, HasExtent, CanBeSearched, AreBounds};

use crate::ends::ends_of;
use crate::known::{known_extent, place_of};
use crate::labels::Labels;
use crate::search::{Bounds, last_explained};
use ra_journal::Entry;
use ra_labels::{Command, NoMemory, Reply};
use ra_monitor::Setup;
use ra_rga_precedence::complete_counts;
use std::alloc::Global;

/// The longest prefix of the reported labels that some order explains.
#[derive(Drop)]
pub struct Extent {
    /// Its length.
    pub explained: u32,
    /// The place of the next label's operation in the log; `None` if the prefix has all labels.
    pub stop: Option<u32>,
}

/// Returns the longest prefix of the labels that some order explains. `labels` are those that a monitor's log reports,
/// and `is_explained` says whether some order explains those up to `end`.
///
/// # Errors
///
/// `NoMemory` if allocation fails, or if there are more than 1,048,576 labels.
///
/// # Complexity
///
/// O(1) if no entry follows `end` and the last one is the violation. Otherwise O(log n) times that of `another_order`,
/// where `n` is the number of labels. The first question is about all labels if some order explains those up to `end`,
/// and otherwise about those before the last of them; mostly it is the only one. If no order explains them either, two
/// more are usual (`last_explained`). No clause states how often the question is asked.
pub fn extent_of(
    alloc: Global,
    setup: &Setup,
    log: &[Entry<Command, Reply>],
    labels: &Labels<'_>,
    end: usize,
    is_explained: bool,
) -> Result<Extent, NoMemory>
    // The kind is a register, an LWW set or an RGA.
    requires asked { is_of_any_order setup.now.kind ≡ false }
    // A monitor of this setup recorded the log.
    requires legal { IsLegalLog setup.now log.now }
    // The labels are those that the log reports.
    requires labels { AreReported setup.now.kind setup.now.replicas log.now labels.now }
    // Some order explains the labels that the entries up to the end report, or none does.
    requires known { IsExplained setup.now.kind
        (records_at setup.now.kind setup.now.replicas log.now end) is_explained }
    // Some order explains the prefix of this length. No sequence at all linearizes a longer one, not even by visibility
    // alone. The next label's operation is at this place, if there is a next label.
    ensures { IfOk result (HasExtent setup.now.kind setup.now.replicas log.now) }
{
    match known_extent(setup, log, labels, end, is_explained) {
        Some(extent) => Ok(extent),
        None => searched_extent(alloc, setup, log, labels, end, is_explained),
    }
}

// Searches for the extent.
fn searched_extent(
    alloc: Global,
    setup: &Setup,
    log: &[Entry<Command, Reply>],
    labels: &Labels<'_>,
    end: usize,
    is_explained: bool,
) -> Result<Extent, NoMemory>
    requires asked { is_of_any_order setup.now.kind ≡ false }
    requires labels { AreReported setup.now.kind setup.now.replicas log.now labels.now }
    requires known { IsExplained setup.now.kind
        (records_at setup.now.kind setup.now.replicas log.now end) is_explained }
    ensures { IfOk result (HasExtent setup.now.kind setup.now.replicas log.now) }
{
    let places = labels.places.as_slice();
    let count = labels.tracker.labels();
    let counts = complete_counts(alloc, labels.operations.as_slice(), count)?;
    let ends = ends_of(alloc, places, &counts)?;
    let bounds = bounds_of(&ends, end, is_explained);
    let last = last_explained(
        alloc,
        setup.kind,
        setup.replicas,
        log,
        &ends,
        places,
        bounds,
    )?;
    let explained = counts[last];
    Ok(Extent {
        explained,
        stop: place_of(places, explained),
    })
}

// Returns bounds for the index of the last explained end, from what is known about `end`.
fn bounds_of(ends: &[usize], end: usize, is_explained: bool) -> Bounds
    requires { 0 < length ends.now }
    ensures { (kind : Kind) (replicas : ℕ) (log : List MonitorEntry) → CanBeSearched kind replicas log ends.now
        → IsExplained kind (records_at kind replicas log end) is_explained
        → AreBounds kind replicas log ends.now result }
{
    let at = ends.partition_point(|it| *it < end);
    if at == 0 || at >= ends.len() || ends[at] != end {
        Bounds {
            explained: 0,
            unexplained: ends.len(),
        }
    } else if is_explained {
        Bounds {
            explained: at,
            unexplained: ends.len(),
        }
    } else {
        Bounds {
            explained: 0,
            unexplained: at,
        }
    }
}
