//! The visibility of labels, on a tracker alone.

ghost use Rattle.std.specs.Prelude.{◌≡◌, ◌+◌, ◌<◌};
ghost use Rattle.ra_visibility.specs.Tracked.{labels_in, replicas_in};

use ra_labels::Refusal;
use ra_visibility::{DeliverFault, MOST_LABELS, Tracker};
use std::alloc::Global;
use std::process::Abort;

// Returns which of the first three labels were delivered to each of the first three replicas.
fn had(tracker: &Tracker) -> [bool; 9]
    requires { 2 < replicas_in tracker.now.now }
{
    [
        tracker.sees(0, 0),
        tracker.sees(0, 1),
        tracker.sees(0, 2),
        tracker.sees(1, 0),
        tracker.sees(1, 1),
        tracker.sees(1, 2),
        tracker.sees(2, 0),
        tracker.sees(2, 1),
        tracker.sees(2, 2),
    ]
}

// Returns the number of this replica's next label, an update or not. If an allocation fails, everything must be as
// before, and the label is issued again.
fn issued(rt: &impl Abort, tracker: &mut Tracker, replica: u8, update: bool) -> u32
    requires replica { replica < replicas_in tracker.old.now }
    requires three { 2 < replicas_in tracker.old.now }
    requires room { labels_in tracker.old.now < MOST_LABELS }
    ensures labels { labels_in tracker.new.now ≡ labels_in tracker.old.now + 1 }
    ensures replicas { replicas_in tracker.new.now ≡ replicas_in tracker.old.now }
{
    let before = had(tracker);
    if let Ok(label) = tracker.issue(replica, update) {
        return label;
    }
    assert_eq!(rt; had(tracker), before);
    match tracker.issue(replica, update) {
        Ok(label) => label,
        Err(_) => panic!(rt; "no memory"),
    }
}

// Returns the result of the delivery, which is repeated if an allocation fails.
fn delivered(
    rt: &impl Abort,
    tracker: &mut Tracker,
    replica: u8,
    label: u32,
) -> Result<(), DeliverFault>
    requires replica { replica < replicas_in tracker.old.now }
    requires three { 2 < replicas_in tracker.old.now }
    ensures labels { labels_in tracker.new.now ≡ labels_in tracker.old.now }
    ensures replicas { replicas_in tracker.new.now ≡ replicas_in tracker.old.now }
{
    let before = had(tracker);
    match tracker.deliver(replica, label) {
        Err(DeliverFault::NoMemory) => {
            assert_eq!(rt; had(tracker), before);
            tracker.deliver(replica, label)
        }
        other => other,
    }
}

fn is_delivered(
    rt: &impl Abort,
    tracker: &mut Tracker,
    replica: u8,
    label: u32,
    wanted: Result<(), DeliverFault>,
)
    requires replica { replica < replicas_in tracker.old.now }
    requires three { 2 < replicas_in tracker.old.now }
    ensures labels { labels_in tracker.new.now ≡ labels_in tracker.old.now }
    ensures replicas { replicas_in tracker.new.now ≡ replicas_in tracker.old.now }
{
    let got = delivered(rt, tracker, replica, label);
    assert_eq!(rt; got, wanted);
}

fn tracker_of_three(rt: &impl Abort, alloc: Global) -> Tracker
    ensures labels { labels_in result.now ≡ 0 }
    ensures replicas { replicas_in result.now ≡ 3 }
{
    if let Ok(tracker) = Tracker::new(alloc, 3) {
        return tracker;
    }
    match Tracker::new(alloc, 3) {
        Ok(tracker) => tracker,
        Err(_) => panic!(rt; "no memory"),
    }
}

#[test]
fn a_label_sees_first_updates_of_each_replica(rt: HostRuntime) {
    let mut tracker = tracker_of_three(&rt, rt.alloc());
    assert!(rt; issued(&rt, &mut tracker, 0, true) == 0);
    is_delivered(&rt, &mut tracker, 1, 0, Ok(()));
    assert!(rt; issued(&rt, &mut tracker, 1, true) == 1);
    let early = DeliverFault::Refused(Refusal::NotCausal(0));
    is_delivered(&rt, &mut tracker, 2, 1, Err(early));
    is_delivered(&rt, &mut tracker, 2, 0, Ok(()));
    is_delivered(&rt, &mut tracker, 2, 1, Ok(()));
    assert!(rt; issued(&rt, &mut tracker, 2, false) == 2);
    let seen = tracker.vis(2);
    for (replica, count) in [(0, 1), (1, 1), (2, 0)] {
        assert_eq!(rt; seen.count(replica), count);
    }
    assert!(rt; seen.has(0) && seen.has(1) && !seen.has(2));
}
