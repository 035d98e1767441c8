//! The tracker: which updates were delivered to replicas and which labels see, with an undo of the last change.
ghost use Rattle.std.specs.Prelude.{◌≡◌, ℕ, ◌+◌, ◌<◌, ◌≤◌, ◌∷◌, IfOk, IfErr, OnErr, OnOk, IfSome, IsSome, Option, Some, None};
ghost use Rattle.ra_labels.specs.Visibility.{is_update, IsCausal};
ghost use Rattle.ra_labels.specs.declared.kind.Kind.{Kind};
ghost use Rattle.ra_labels.specs.declared.command.Command.TheVariants.{Deliver as Delivered, Join};
ghost use Rattle.ra_labels.specs.declared.limits.TheConstants.{MOST_REPLICAS};
ghost use Rattle.ra_labels.specs.declared.refusal.Refusal.{Refusal};
ghost use Rattle.ra_labels.specs.HistorySoFar.{History, empty_history, history_with, NextOperation, operate};
ghost use Rattle.ra_visibility.specs.declared.fault.DeliverFault.TheVariants.{Refused};
ghost use Rattle.ra_visibility.specs.Seen.{count_in};
ghost use Rattle.ra_labels.specs.Places.{issuer_of};
ghost use Rattle.ra_visibility.specs.Kept.{issued_count, AreIssued};
ghost use Rattle.ra_visibility.specs.Newest.{IsNewestSeen};
ghost use Rattle.ra_visibility.specs.Tracked.{replicas_in, labels_in, has_delivered_in, seen_in, refusal_in, IsVisibilityOf};

use crate::fault::DeliverFault;
use crate::last_change::LastChange;
use crate::limits::MOST_LABELS;
use crate::seen::Seen;
use crate::tracked::Tracked;
use ra_labels::NoMemory;
use std::alloc::Global;
use std::marker::Model;

/// Visibility represented by counts. The last change can be undone until the next one.
#[derive(Drop)]
pub struct Tracker {
    tracked: Tracked,
    last: LastChange,
}

impl Model for Tracker {
    ghost use Rattle.ra_visibility.specs.Tracker.{Tracker, TrackerKept, tracker_of};

    ghost Value = { Tracker };

    ghost view = { λ a. tracker_of a.tracked a.last };

    ghost invariant = { λ a. TrackerKept a.tracked a.last };
}

impl Tracker {
    /// Creates the tracker of an empty history with the given number of replicas.
    ///
    /// # Errors
    ///
    /// `NoMemory` if allocation fails.
    ///
    /// # Complexity
    ///
    /// O(r · max(r, 64)), where `r` is the number of replicas.
    pub fn new(alloc: Global, replicas: u8) -> Result<Tracker, NoMemory>
        // The new tracker represents the visibility of the empty history with this number of replicas, of every kind.
        ensures stands { IfOk result (λ tracker.
            (kind : Kind) → IsVisibilityOf tracker.now (empty_history kind replicas)) }
        // There is no change to undo.
        ensures before { IfOk result (λ tracker. tracker.before ≡ None) }
        // The tracker has the given number of replicas.
        ensures replicas { IfOk result (λ tracker. replicas_in tracker.now ≡ replicas) }
        // The tracker has no labels.
        ensures labels { IfOk result (λ tracker. labels_in tracker.now ≡ 0) }
    {
        let tracked = Tracked::new(alloc, replicas)?;
        Ok(Tracker {
            tracked,
            last: LastChange::Nothing,
        })
    }

    /// Adds a label of this replica, an update or not, and returns its number.
    ///
    /// # Errors
    ///
    /// `NoMemory` if allocation fails; the tracker is unchanged.
    ///
    /// # Complexity
    ///
    /// Amortized O(1), or O(r) with `r` replicas if this is the replica's first label or something was delivered to it
    /// since its last one.
    pub fn issue(&mut self, replica: u8, update: bool) -> Result<u32, NoMemory>
        // The replica exists.
        requires replica { replica < replicas_in self.old.now }
        // There are fewer than `MOST_LABELS` labels.
        requires room { labels_in self.old.now < MOST_LABELS }
        // The returned number is the next label's: the number of labels before.
        ensures number { IfOk result (λ label. label ≡ labels_in self.old.now) }
        // If the tracker represented the visibility of a history, it then represents that of the history with this
        // operation.
        ensures stands { OnOk result ((past : History) (next : NextOperation) → IsVisibilityOf self.old.now past
            → next.by ≡ replica → is_update next.op ≡ update
            → IsVisibilityOf self.new.now (history_with past (operate next))) }
        // The issue can be undone: the state to restore is the one before it.
        ensures before { OnOk result (self.new.before ≡ Some self.old.now) }
        // There is one more label.
        ensures labels { OnOk result (labels_in self.new.now ≡ labels_in self.old.now + 1) }
        // The number of replicas is unchanged.
        ensures replicas { replicas_in self.new.now ≡ replicas_in self.old.now }
        // If allocation fails, the tracker is unchanged.
        ensures same { OnErr result (self.new ≡ self.old) }
    {
        let label = self.tracked.labels();
        let was_stored = self.tracked.issue(replica, update)?;
        self.last = LastChange::Issue { was_stored };
        Ok(label)
    }

    /// Returns `true` if the label was delivered to the replica: it issued it, received it, or joined with it. Does not
    /// allocate.
    ///
    /// # Complexity
    ///
    /// O(1).
    pub fn sees(&self, replica: u8, label: u32) -> bool
        // The replica exists.
        requires { replica < replicas_in self.now.now }
        // The result is `true` exactly if the label is an update that was delivered to the replica.
        ensures { result ≡ has_delivered_in self.now.now replica label }
    {
        self.tracked.sees(replica, label)
    }

    /// Returns what the label sees: of each replica at most as many updates as it issued. Does not allocate.
    ///
    /// # Complexity
    ///
    /// O(1).
    pub fn vis(&self, label: u32) -> Seen<'_>
        // The label exists.
        requires { label < labels_in self.now.now }
        // The result is the set of updates that the label sees.
        ensures seen { result ≡ seen_in self.now.now label }
        // The set contains at most as many updates of a replica as the replica issued.
        ensures issued { (of : ℕ) → count_in result of ≤ issued_count self.now.now of }
    {
        self.tracked.vis(label)
    }

    /// Returns the number of labels. Does not allocate.
    pub fn labels(&self) -> u32
        // The result is the number of labels.
        ensures { result ≡ labels_in self.now.now }
    {
        self.tracked.labels()
    }

    /// Returns the number of replicas. Does not allocate.
    pub fn replicas(&self) -> u8
        // The result is the number of replicas.
        ensures number { result ≡ replicas_in self.now.now }
        // Each label was issued by one of these replicas.
        ensures issuers { (past : History) → IsVisibilityOf self.now.now past
            → (label : ℕ) → label < labels_in self.now.now → issuer_of past.records label < result }
    {
        self.tracked.replicas()
    }

    /// Returns the replica that issued the label. Does not allocate.
    ///
    /// # Complexity
    ///
    /// O(1).
    pub fn issuer(&self, label: u32) -> u8
        // The label exists.
        requires { label < labels_in self.now.now }
        // The replica exists.
        ensures replica { result < replicas_in self.now.now }
        // The result is the replica that issued the label.
        ensures issued { (past : History) → IsVisibilityOf self.now.now past
            → result ≡ issuer_of past.records label }
    {
        self.tracked.issuer(label)
    }

    /// Returns the updates of the replica, oldest first. A label sees the first ones of them, as many as it counts.
    /// Does not allocate.
    ///
    /// # Complexity
    ///
    /// O(1).
    pub fn issued(&self, replica: u8) -> &[u32]
        // The replica exists.
        requires { replica < replicas_in self.now.now }
        // The result has each update of the replica at its position, and nothing else.
        ensures { AreIssued self.now.now replica result.now }
    {
        self.tracked.issued(replica)
    }

    /// Returns the newest update of the replica that the label sees, or `None` if it sees none. Does not allocate.
    ///
    /// # Complexity
    ///
    /// O(1).
    pub fn newest_seen(&self, label: u32, replica: u8) -> Option<u32>
        // The label exists.
        requires { label < labels_in self.now.now }
        // The result is a label that exists.
        ensures below { IfSome result (λ newest. newest < labels_in self.now.now) }
        // The label sees the result, which the replica issued, and no later update of the replica.
        ensures newest { (past : History) → IsVisibilityOf self.now.now past
            → IsNewestSeen past.records label replica result }
    {
        self.tracked.newest_seen(label, replica)
    }

    /// Adds the delivery of the label to the replica. Does not allocate, and never returns `NoMemory`.
    ///
    /// # Errors
    ///
    /// `Refused` with the first reason that applies; the tracker is unchanged. The label does not exist; it is not an
    /// update; it was delivered to the replica before; or it sees a label that was not, of which the smallest is named.
    ///
    /// # Complexity
    ///
    /// O(r) with `r` replicas. O(1) if the label is the issuer's next update at the receiver, and nothing was delivered
    /// to the issuer between it and its update before.
    pub fn deliver(&mut self, replica: u8, label: u32) -> Result<(), DeliverFault>
        // The replica exists.
        requires { replica < replicas_in self.old.now }
        // The delivery is accepted only if no reason to reject it applies.
        ensures taken { OnOk result (refusal_in self.old.now replica label ≡ None) }
        // If the tracker represented the visibility of a history, it then represents that of the history with this
        // delivery.
        ensures stands { OnOk result ((past : History) → IsVisibilityOf self.old.now past
            → IsVisibilityOf self.new.now (history_with past (Delivered replica label))) }
        // An accepted delivery leaves a causal history causal.
        ensures causal { OnOk result ((past : History) → IsVisibilityOf self.old.now past → IsCausal past.records
            → IsCausal (Delivered replica label ∷ past.records)) }
        // The delivery can be undone: the state to restore is the one before it.
        ensures before { OnOk result (self.new.before ≡ Some self.old.now) }
        // An error is a rejection with the first reason that applies, in the order unknown label, not an update,
        // already seen, not causal. It is never `NoMemory`.
        ensures refused { IfErr result (λ fault. (why : Refusal) × (fault ≡ Refused why)
            × (refusal_in self.old.now replica label ≡ Some why)) }
        // The number of labels is unchanged.
        ensures labels { labels_in self.new.now ≡ labels_in self.old.now }
        // The number of replicas is unchanged.
        ensures replicas { replicas_in self.new.now ≡ replicas_in self.old.now }
        // If the delivery is rejected, the tracker is unchanged.
        ensures same { OnErr result (self.new ≡ self.old) }
    {
        if let Some(refusal) = self.tracked.refusal(replica, label) {
            return Err(DeliverFault::Refused(refusal));
        }
        let (from, stored) = self.tracked.deliver(replica, label);
        self.last = LastChange::Delivery {
            to: replica,
            from,
            stored,
        };
        Ok(())
    }

    /// Adds a replica to which the same updates were delivered as to the other one, and returns its number.
    ///
    /// # Errors
    ///
    /// `NoMemory` if allocation fails; the tracker is unchanged.
    ///
    /// # Complexity
    ///
    /// O(r), where `r` is the number of counts of a replica: 64, or the initial number of replicas if it is greater.
    pub fn join(&mut self, from: u8) -> Result<u8, NoMemory>
        // The replica to join from exists.
        requires from { from < replicas_in self.old.now }
        // There are fewer than `MOST_REPLICAS` replicas.
        requires room { replicas_in self.old.now < MOST_REPLICAS }
        // The returned number is the new replica's: the number of replicas before.
        ensures number { IfOk result (λ joined. joined ≡ replicas_in self.old.now) }
        // If the tracker represented the visibility of a history, it then represents that of the history with this
        // join.
        ensures stands { OnOk result ((past : History) → IsVisibilityOf self.old.now past
            → IsVisibilityOf self.new.now (history_with past (Join (replicas_in self.old.now) from))) }
        // The join can be undone: the state to restore is the one before it.
        ensures before { OnOk result (self.new.before ≡ Some self.old.now) }
        // The number of labels is unchanged.
        ensures labels { labels_in self.new.now ≡ labels_in self.old.now }
        // There is one more replica.
        ensures replicas { OnOk result (replicas_in self.new.now ≡ replicas_in self.old.now + 1) }
        // If allocation fails, the tracker is unchanged.
        ensures same { OnErr result (self.new ≡ self.old) }
    {
        let joined = self.tracked.replicas();
        self.tracked.join(from)?;
        self.last = LastChange::Join;
        Ok(joined)
    }

    /// Undoes the last issue, delivery or join. Does not allocate.
    ///
    /// # Complexity
    ///
    /// O(r), where `r` is the number of replicas.
    pub fn withdraw(&mut self)
        // There is an accepted issue, delivery or join that can be undone.
        requires { IsSome self.old.before }
        // The tracker is in the state before its last issue, delivery or join.
        ensures now { Some self.new.now ≡ self.old.before }
        // There is nothing left to undo.
        ensures before { self.new.before ≡ None }
    {
        match self.last {
            LastChange::Nothing => {}
            LastChange::Issue { was_stored } => self.tracked.take_label_back(was_stored),
            LastChange::Delivery { to, from, stored } => {
                self.tracked.take_delivery_back(to, from, stored);
            }
            LastChange::Join => self.tracked.take_join_back(),
        }
        self.last = LastChange::Nothing;
    }
}
