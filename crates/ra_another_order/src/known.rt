//! The longest prefix of the labels that some order explains, if no further question is needed to know it.
ghost use Rattle.std.specs.Prelude.{◌≡◌, Some, IfSome, IsTrue, slice_get};
ghost use Rattle.ra_monitor.specs.Monitor.{MonitorEntry, IsLegalLog};
ghost use Rattle.ra_monitor.specs.Replies.{is_yes};
ghost use Rattle.ra_another_order.specs.Extent.{records_at, end_in, IsExplained, HasExtent};
ghost use Rattle.ra_another_order.specs.Operations.{AreReported};
ghost use Rattle.ra_some_order.specs.SomeOrder.{SomeOrderExplains};

use crate::extent::Extent;
use crate::labels::Labels;
use ra_journal::Entry;
use ra_labels::{Command, Reply};
use ra_monitor::Setup;

/// Returns the longest explained prefix of the labels, or `None` if another question has to decide it. No question is
/// needed if no entry follows the end, and either some order explains all labels, or the last entry is that of the last
/// label and the monitor answered `ok` to the label before it, if any. So none is needed for a log that ends with a
/// violation. No clause says when the result is `None`. Does not allocate.
pub fn known_extent(
    setup: &Setup,
    log: &[Entry<Command, Reply>],
    labels: &Labels<'_>,
    end: usize,
    is_explained: bool,
) -> Option<Extent>
    // A monitor of this setup recorded the log.
    requires legal { IsLegalLog setup.now log.now }
    // The labels are those that the log reports.
    requires labels { AreReported setup.now.kind setup.now.replicas log.now labels.now }
    // Some order explains the labels that the entries up to the end report, or none does.
    requires known { IsExplained setup.now.kind
        (records_at setup.now.kind setup.now.replicas log.now end) is_explained }
    // The extent is that of the log.
    ensures { IfSome result (HasExtent setup.now.kind setup.now.replicas log.now) }
{
    if end < log.len() {
        return None;
    }
    let count = labels.tracker.labels();
    if is_explained {
        return Some(Extent {
            explained: count,
            stop: None,
        });
    }
    if count == 0 {
        return None;
    }
    let before = count - 1;
    match place_of(labels.places.as_slice(), before) {
        Some(place) if place as usize + 1 == log.len() && is_answered(setup, log, labels, before) =>
            {
                Some(Extent {
                    explained: before,
                    stop: Some(place),
                })
            }
        _ => None,
    }
}

/// Returns the place of the label, or `None` if there is no such label.
pub fn place_of(places: &[u32], label: u32) -> Option<u32>
    // The place is that of the list, if it has one for the label.
    ensures { result ≡ slice_get places.now label }
{
    places.get(label as usize).copied()
}

// Returns `true` if there is no label before this one, or the monitor answered `ok` to the label before it.
fn is_answered(
    setup: &Setup,
    log: &[Entry<Command, Reply>],
    labels: &Labels<'_>,
    label: u32,
) -> bool
    requires legal { IsLegalLog setup.now log.now }
    requires labels { AreReported setup.now.kind setup.now.replicas log.now labels.now }
    ensures { IsTrue result → SomeOrderExplains setup.now.kind
        (records_at setup.now.kind setup.now.replicas log.now (end_in labels.now.places.items label)) }
{
    if label == 0 {
        return true;
    }
    match place_of(labels.places.as_slice(), label - 1) {
        Some(place) => is_yes_at(log, place),
        None => false,
    }
}

// Returns `true` if the reply at this place of the log states that there is no violation.
fn is_yes_at(log: &[Entry<Command, Reply>], place: u32) -> bool
    ensures { IsTrue result
        → (entry : MonitorEntry) × (slice_get log.now place ≡ Some entry) × IsTrue (is_yes entry.reply) }
{
    match log.get(place as usize) {
        Some(entry) => is_yes(entry.reply),
        None => false,
    }
}

// Returns `true` if the reply states that there is no violation.
fn is_yes(reply: Reply) -> bool
    ensures { result ≡ is_yes reply }
{
    match reply {
        Reply::Ok(_) | Reply::Yes(_) => true,
        Reply::No { .. } | Reply::Got(_) | Reply::Joined(_) | Reply::Refused(_) => false,
    }
}
