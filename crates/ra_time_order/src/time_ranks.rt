//! The timestamp order without positions: labels are sorted only when the order is asked for.
ghost use Rattle.std.specs.Prelude.{◌≡◌, ◌<◌, [], length, map, OnOk, IfOk};
ghost use Rattle.ra_labels.specs.declared.kind.Kind.{Kind};
ghost use Rattle.ra_labels.specs.HistorySoFar.{History, NextOperation, empty_history, history_with, operate};
ghost use Rattle.ra_visibility.specs.declared.limits.TheConstants.{MOST_LABELS};
ghost use Rattle.ra_visibility.specs.declared.order.Place.{Place};
ghost use Rattle.ra_visibility.specs.Order.{ComesNext, IsByTimestamp, IsPlaceOf};
ghost use Rattle.ra_time_order.specs.Standing.{IsTimeOrderOf};

use crate::label_ranks::LabelRanks;
use crate::running_maxima::RunningMaxima;
use ra_labels::{Label, MOST_REPLICAS, NoMemory};
use ra_visibility::Seen;
use std::alloc::Global;
use std::marker::Model;

/// Labels in timestamp order, as a `TimeOrder` has them; but it keeps no positions, and a label is added in O(1) steps
/// and a walk over the replicas, wherever it belongs.
#[derive(Drop)]
pub struct TimeRanks {
    ranks: LabelRanks,
    replicas: RunningMaxima,
}

impl Model for TimeRanks {
    ghost use Rattle.ra_time_order.specs.Standing.{TimeOrder, time_order_of};

    ghost Value = { TimeOrder };

    ghost view = { λ a. time_order_of a.ranks a.replicas };
}

impl TimeRanks {
    /// Creates the order without labels, of a history with this number of initial replicas. It allocates room for an
    /// update of each possible replica.
    ///
    /// # Errors
    ///
    /// `NoMemory` if allocation fails.
    pub fn new(alloc: Global, replicas: u8) -> Result<TimeRanks, NoMemory>
        // The new order has no labels.
        ensures listed { IfOk result (λ order. order.entries ≡ []) }
        // For a kind that is ordered by timestamps, the new order represents the empty history with this number of
        // replicas.
        ensures stands { IfOk result (λ order. (kind : Kind) → IsByTimestamp kind
            → IsTimeOrderOf order (empty_history kind replicas)) }
    {
        Ok(TimeRanks {
            ranks: LabelRanks::new(alloc),
            replicas: RunningMaxima::new(alloc, replicas.max(MOST_REPLICAS))?,
        })
    }

    /// Returns `true` if all labels that must precede the next label stand before its position. Does not allocate.
    ///
    /// # Complexity
    ///
    /// O(1) if the label has no stamp of its own, or if that is not less than any rank so far; otherwise O(u), where
    /// `u - 1` is the highest number of a replica with updates.
    pub fn fits(&self, label: &Label, seen: &Seen<'_>) -> bool
        // If the label comes next after the history that the order represents, the result is whether it fits at its
        // position in the named order.
        ensures { (past : History) (next : NextOperation) → IsTimeOrderOf self.now past
            → ComesNext past next label.now seen.now
            → (place : Place) × IsPlaceOf past.kind past.records next place × (place.fits ≡ result) }
    {
        let Some(stamp) = label.stamp else {
            return true;
        };
        if self.ranks.is_past_all(stamp) {
            return true;
        }
        self.replicas.greatest(seen).is_at_most(stamp)
    }

    /// Reserves room for one more label. The order does not change.
    ///
    /// # Errors
    ///
    /// `NoMemory` if allocation fails.
    ///
    /// # Complexity
    ///
    /// Amortized O(1).
    pub fn spare(&mut self) -> Result<(), NoMemory>
        // After success there is room for one more label.
        ensures room { OnOk result (0 < self.new.room) }
        // The labels are unchanged, even after a failure.
        ensures entries { self.new.entries ≡ self.old.entries }
        // The order represents the same histories as before, even after a failure.
        ensures stands { (past : History) → IsTimeOrderOf self.old past → IsTimeOrderOf self.new past }
    {
        self.replicas.reserve()?;
        self.ranks.reserve()
    }

    /// Adds the next label at its position. Does not allocate.
    ///
    /// # Complexity
    ///
    /// O(1) if the label has a stamp of its own; otherwise O(u), as for `fits`.
    pub fn put(&mut self, label: &Label, seen: &Seen<'_>)
        // There is room for one more label.
        requires room { 0 < self.old.room }
        // The order has fewer than `MOST_LABELS` labels.
        requires few { length self.old.entries < MOST_LABELS }
        // If the label comes next after the history that the order represented, the order then represents the history
        // with the label.
        ensures { (past : History) (next : NextOperation) → IsTimeOrderOf self.old past
            → ComesNext past next label.now seen.now → IsTimeOrderOf self.new (history_with past (operate next)) }
    {
        let rank = self.replicas.rank(label.stamp, seen);
        self.ranks.push(rank);
        self.replicas
            .push(label.replica, label.op.is_update(), label.stamp);
    }

    /// Returns the numbers of all labels, in the order.
    ///
    /// # Errors
    ///
    /// `NoMemory` if allocation fails.
    ///
    /// # Complexity
    ///
    /// O(n log n), where `n` is the number of labels.
    pub fn numbers(&self, alloc: Global) -> Result<Vec<u32>, NoMemory>
        // The numbers are those of all labels, in the order.
        ensures { IfOk result (λ numbers. numbers.items ≡ map (λ entry. entry.label) self.now.entries) }
    {
        self.ranks.numbers(alloc)
    }
}
