//! The named order of registers, LWW sets and RGAs: labels by timestamp, then by number.
ghost use Rattle.std.specs.Prelude.{◌≡◌, true, [], map, IfOk};
ghost use Rattle.ra_labels.specs.declared.kind.Kind.{Kind};
ghost use Rattle.ra_labels.specs.HistorySoFar.{empty_history};
ghost use Rattle.ra_visibility.specs.Order.{IsByTimestamp};
ghost use Rattle.ra_time_order.specs.Positions.{IsPastAll};

use crate::entry::Entry;
use crate::running_maxima::RunningMaxima;
use crate::sorted::Sorted;
use ra_labels::{Label, MOST_REPLICAS, NoMemory};
use ra_visibility::{NamedOrder, Place, Seen};
use std::alloc::Global;
use std::marker::Model;

/// Labels in timestamp order; labels with the same timestamp by their numbers.
#[derive(Drop)]
pub struct TimeOrder {
    sorted: Sorted,
    replicas: RunningMaxima,
}

impl Model for TimeOrder {
    ghost use Rattle.ra_time_order.specs.Standing.{TimeOrder, time_order_of};

    ghost Value = { TimeOrder };

    ghost view = { λ a. time_order_of a.sorted a.replicas };
}

impl TimeOrder {
    ghost use Rattle.ra_time_order.specs.Standing.{IsTimeOrderOf};

    /// Creates the order without labels, of a history with this number of initial replicas. It allocates one run, and
    /// room for an update of each possible replica.
    ///
    /// # Errors
    ///
    /// `NoMemory` if allocation fails.
    pub fn new(alloc: Global, replicas: u8) -> Result<TimeOrder, NoMemory>
        // The new order has no labels.
        ensures listed { IfOk result (λ order. ⟦<TimeOrder as NamedOrder>⟧.listed order ≡ []) }
        // For a kind that is ordered by timestamps, the new order represents the empty history with this number of
        // replicas.
        ensures stands { IfOk result (λ order. (kind : Kind) → IsByTimestamp kind
            → ⟦<TimeOrder as NamedOrder>⟧.stands_for order (empty_history kind replicas)) }
    {
        let replicas = RunningMaxima::new(alloc, replicas.max(MOST_REPLICAS))?;
        Ok(TimeOrder {
            sorted: Sorted::new(alloc)?,
            replicas,
        })
    }
}

impl NamedOrder for TimeOrder {
    ghost use Rattle.ra_time_order.specs.Standing.{IsTimeOrderOf};
    ghost use Rattle.ra_time_order.specs.NamedOrderTheorems.{listed-named, stands_joined, stands_delivered};

    ghost listed = { λ order. map (λ entry. entry.label) order.entries };

    ghost room = { λ order. order.room };

    ghost stands_for = { λ order past. IsTimeOrderOf order past };

    /// Returns the position of the next label, as the trait requires.
    ///
    /// # Complexity
    ///
    /// O(1) if the label's own stamp is not less than any rank so far. Otherwise O(u + r + log n). Here `u - 1` is the
    /// highest number of a replica with updates, `r` the number of runs behind the position, and `n` the length of a
    /// run.
    fn place(&self, label: &Label, seen: &Seen<'_>) -> Place {
        if is_past_all(&self.sorted, label) {
            return Place {
                at: self.sorted.len(),
                fits: true,
            };
        }
        let greatest = self.replicas.greatest(seen);
        let rank = label.stamp.unwrap_or(greatest);
        Place {
            at: self.sorted.position(rank),
            fits: greatest.is_at_most(rank),
        }
    }

    /// Reserves room for one more label, as the trait requires.
    ///
    /// # Complexity
    ///
    /// Amortized O(1). If the newest label filled its run, the run is split.
    fn spare(&mut self) -> Result<(), NoMemory> {
        self.replicas.reserve()?;
        self.sorted.reserve()
    }

    /// Adds the next label, as the trait requires.
    ///
    /// # Complexity
    ///
    /// O(r + n), where `r` is the number of runs behind the position and `n` the length of a run; for a label without a
    /// stamp of its own O(u) more, as for `place`.
    fn put(&mut self, label: &Label, seen: &Seen<'_>, _place: Place) {
        let rank = self.replicas.rank(label.stamp, seen);
        self.sorted.insert(Entry {
            rank,
            label: label.number,
        });
        self.replicas
            .push(label.replica, label.op.is_update(), label.stamp);
    }

    /// Returns the number of the label at a position, as the trait requires.
    ///
    /// # Complexity
    ///
    /// O(r), where `r` is the number of runs before the position.
    fn at(&self, position: usize) -> Option<u32> {
        self.sorted.at(position)
    }

    fn numbers(&self, alloc: Global) -> Result<Vec<u32>, NoMemory> {
        self.sorted.numbers(alloc)
    }

    ghost lists = { λ order past stands. listed-named order past stands };

    ghost keeps_joined = { λ order past joined from stands few. stands_joined order past joined from stands few };

    ghost keeps = { λ order past to n stands. stands_delivered order past to n stands };
}

// Returns `true` only if the label has a stamp of its own that is not less than any rank so far.
fn is_past_all(sorted: &Sorted, label: &Label) -> bool
    ensures { result ≡ true → IsPastAll sorted.now.entries label.now.stamp }
{
    match label.stamp {
        Some(stamp) => sorted.is_past_all(stamp),
        None => false,
    }
}
