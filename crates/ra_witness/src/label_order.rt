//! What the witness needs of the order of its labels.
ghost use Rattle.std.specs.Prelude.{◌≡◌, ℕ, ◌<◌, List, length, OnOk, IfOk};
ghost use Rattle.ra_labels.specs.declared.command.Command.TheVariants.{Deliver, Join};
ghost use Rattle.ra_labels.specs.declared.limits.TheConstants.{MOST_REPLICAS};
ghost use Rattle.ra_labels.specs.HistorySoFar.{History, history_with, replicas_of, NextOperation, operate};
ghost use Rattle.ra_visibility.specs.declared.limits.TheConstants.{MOST_LABELS};
ghost use Rattle.ra_visibility.specs.declared.order.Place.{Place};
ghost use Rattle.ra_visibility.specs.Order.{ComesNext, IsPlaceOf, numbers_in};

use ra_labels::{Label, NoMemory};
use ra_visibility::Seen;
use std::alloc::Global;

/// The labels in the named order of their kind, without positions: whether the next label fits, and all labels in the
/// order. Each `NamedOrder` provides this, but need not keep positions for it. Labels are added by increasing number,
/// each with what it sees.
pub trait LabelOrder: Drop + Send {
    // the numbers of its labels, in its order
    ghost listed: { Self → List ℕ };

    // the number of labels for which it has room
    ghost room: { Self → ℕ };

    // it is the order of the labels of this past
    ghost stands_for: { Self → History → Type 0 };

    /// Returns `true` if all labels that must precede the next label stand before its position. Does not allocate.
    fn fits(&self, label: &Label, seen: &Seen<'_>) -> bool
        // If the label comes next after the history that the order represents, the result is whether it fits at its
        // position in the named order.
        ensures { (past : History) (next : NextOperation) → stands_for self.now past
            → ComesNext past next label.now seen.now
            → (place : Place) × IsPlaceOf past.kind past.records next place × (place.fits ≡ result) };

    /// Reserves room for one more label. The order does not change.
    ///
    /// # Errors
    ///
    /// `NoMemory` if allocation fails.
    fn spare(&mut self) -> Result<(), NoMemory>
        // After success there is room for one more label.
        ensures room { OnOk result (0 < room self.new) }
        // The order of the labels is unchanged, even after a failure.
        ensures listed { listed self.new ≡ listed self.old }
        // The order represents the same histories as before, even after a failure.
        ensures stands { (past : History) → stands_for self.old past → stands_for self.new past };

    /// Adds the next label at its position. Does not allocate.
    fn put(&mut self, label: &Label, seen: &Seen<'_>)
        // There is room for one more label.
        requires room { 0 < room self.old }
        // The order has fewer than `MOST_LABELS` labels.
        requires few { length (listed self.old) < MOST_LABELS }
        // If the label comes next after the history that the order represented, the order then represents the history
        // with the label.
        ensures { (past : History) (next : NextOperation) → stands_for self.old past
            → ComesNext past next label.now seen.now → stands_for self.new (history_with past (operate next)) };

    /// Returns the numbers of all labels, in the order.
    ///
    /// # Errors
    ///
    /// `NoMemory` if allocation fails.
    ///
    /// # Complexity
    ///
    /// O(n log n), where `n` is the number of labels.
    fn numbers(&self, alloc: Global) -> Result<Vec<u32>, NoMemory>
        // The numbers are those of all labels, in the order.
        ensures { IfOk result (λ numbers. numbers.items ≡ listed self.now) };

    // The list of numbers is the named order of the labels of each history that the order represents.
    ghost lists: { (order : Self) (past : History) → stands_for order past
        → listed order ≡ numbers_in past.kind past.records };

    // Below `MOST_REPLICAS` replicas, an order that represents a history also represents it with one more join.
    ghost keeps_joined: { (order : Self) (past : History) (joined from : ℕ) → stands_for order past
        → replicas_of past < MOST_REPLICAS → stands_for order (history_with past (Join joined from)) };

    // An order that represents a history also represents it with one more delivery.
    ghost keeps: { (order : Self) (past : History) (to label : ℕ) → stands_for order past
        → stands_for order (history_with past (Deliver to label)) };
}
