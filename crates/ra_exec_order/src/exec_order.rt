//! The named order of counters, OR-Sets and lists: labels by their numbers.
ghost use Rattle.std.specs.Prelude.{◌≡◌, ℕ, [], IsOk};
ghost use Rattle.ra_labels.specs.declared.kind.Kind.{Kind};
ghost use Rattle.ra_labels.specs.Records.{label_count};
ghost use Rattle.ra_labels.specs.HistorySoFar.{empty_history};
ghost use Rattle.ra_visibility.specs.Order.{IsByExecution};

use ra_labels::{Label, NoMemory};
use ra_visibility::{NamedOrder, Place, Seen};
use std::alloc::Global;
use std::marker::Model;

/// Labels in execution order. Only `numbers` allocates, and every other call is O(1).
#[derive(Drop)]
pub struct ExecOrder {
    labels: u32,
}

impl Model for ExecOrder {
    ghost use Rattle.std.specs.Prelude.{ℕ};

    // the number of labels
    ghost Value = { ℕ };

    ghost view = { λ a. a.labels };
}

impl ExecOrder {
    /// Creates the order without labels.
    pub fn new() -> ExecOrder
        // The new order has no labels.
        ensures listed { ⟦<ExecOrder as NamedOrder>⟧.listed result ≡ [] }
        // For a kind that is ordered by execution, the new order represents the empty history with any number of
        // replicas.
        ensures stands { (kind : Kind) (initial_replicas : ℕ) → IsByExecution kind
            → ⟦<ExecOrder as NamedOrder>⟧.stands_for result (empty_history kind initial_replicas) }
    {
        ExecOrder { labels: 0 }
    }
}

impl NamedOrder for ExecOrder {
    ghost use Rattle.ra_exec_order.specs.NamedOrderTheorems.{first_numbers, first_numbers-listed};

    ghost listed = { λ order. first_numbers order };

    ghost room = { λ order. 1 };

    ghost stands_for = { λ order past. IsByExecution past.kind × (order ≡ label_count past.records) };

    fn place(&self, _label: &Label, _seen: &Seen<'_>) -> Place {
        Place {
            at: self.labels as usize,
            fits: true,
        }
    }

    /// Succeeds in every case and changes nothing.
    fn spare(&mut self) -> Result<(), NoMemory>
        // The call always succeeds.
        ensures made { IsOk result }
        // The order is unchanged.
        ensures same { self.new ≡ self.old }
    {
        Ok(())
    }

    fn put(&mut self, _label: &Label, _seen: &Seen<'_>, _place: Place) {
        self.labels += 1;
    }

    fn at(&self, position: usize) -> Option<u32> {
        if position < self.labels as usize {
            Some(position as u32)
        } else {
            None
        }
    }

    fn numbers(&self, alloc: Global) -> Result<Vec<u32>, NoMemory> {
        let mut numbers = Vec::new(alloc);
        for number in 0..self.labels {
            numbers.push(number)?;
        }
        Ok(numbers)
    }

    ghost lists = { λ order past stands. first_numbers-listed order past.kind past.records stands.0 stands.1 };

    ghost keeps_joined = { λ order past joined from stands few. stands };

    ghost keeps = { λ order past to label stands. stands };
}
