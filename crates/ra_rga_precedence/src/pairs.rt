//! The conditions by which labels are listed in an order, pair by pair.
ghost use Rattle.std.specs.Prelude.{◌≡◌, ◌<◌, ◌++◌, ℕ, List, length, Contains, IfOk, OnOk};
ghost use Rattle.ra_precedence.specs.Conditions.{Condition, no_condition};
ghost use Rattle.ra_rga_precedence.specs.Pairs.{ArePairs};
ghost use Rattle.ra_rga_precedence.specs.Ranks.{AreNeedRanks};
ghost use Rattle.ra_rga_precedence.specs.UpdateConditions.{AreBelow, NameBelow};

use crate::neighbors::edge;
use crate::relations::{Relation, relation_of};
use ra_labels::NoMemory;
use ra_precedence::Condition;
use std::alloc::Global;

/// Adds a condition for each pair of neighbours among the labels, up to the first pair that no order lists: its first
/// label stands under its second one. By the condition an order lists the pair as it is. It is `by` the number and the
/// place of the pair.
///
/// # Errors
///
/// `NoMemory` if allocation fails.
///
/// # Complexity
///
/// O(l · d), where `l` is the number of these labels and `d` the depth of the tree of insertions.
pub fn add_pairs(
    conditions: &mut Vec<Condition>,
    alloc: Global,
    needed: &[Option<u32>],
    ranks: &[usize],
    labels: &[u32],
    by: u32,
) -> Result<(), NoMemory>
    requires below { AreBelow (length needed.now) needed.now }
    requires ranks { AreNeedRanks needed.now ranks.now }
    requires labels { (m : ℕ) → Contains labels.now m → m < length needed.now }
    ensures named { OnOk result (NameBelow (length needed.now) conditions.old.items
        → NameBelow (length needed.now) conditions.new.items) }
    ensures pairs { OnOk result ((pairs : List Condition) × (conditions.new.items ≡ conditions.old.items ++ pairs)
        × ArePairs needed.now labels.now pairs) }
{
    let mut number = by;
    for place in 0..labels.len().saturating_sub(1) {
        match relation_of(needed, ranks, labels[place], labels[place + 1]) {
            Relation::Under => return Ok(()),
            Relation::Above => conditions.push(no_condition(alloc, number)?)?,
            Relation::Apart { left, right } => conditions.push(edge(alloc, number, right, left)?)?,
        }
        number = number.saturating_add(1);
    }
    Ok(())
}

// Returns a condition that each order meets.
fn no_condition(alloc: Global, by: u32) -> Result<Condition, NoMemory>
    ensures { IfOk result (λ condition. condition ≡ no_condition) }
{
    Condition::new(alloc, by, &[], &[])
}
