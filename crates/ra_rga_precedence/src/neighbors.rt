//! What the neighbours in a list demand of an order.
ghost use Rattle.std.specs.Prelude.{◌≡◌, ◌<◌, ℕ, length, Contains, IfOk};
ghost use Rattle.ra_rga_precedence.specs.Neighbors.{edge, AreNeighbors};
ghost use Rattle.ra_rga_precedence.specs.Ranks.{AreNeedRanks};
ghost use Rattle.ra_rga_precedence.specs.UpdateConditions.{AreBelow};

use crate::relations::{Relation, relation_of};
use ra_labels::NoMemory;
use ra_precedence::Condition;
use std::alloc::Global;

/// Adds the conditions of neighbours in a read's list, given the labels that insert its elements. Returns the place of
/// an element that stands under the next one, if there is one.
///
/// # Errors
///
/// `NoMemory` if allocation fails.
///
/// # Complexity
///
/// O(l · d), where `l` is the length of the list and `d` the depth of the tree of insertions.
pub fn add_neighbors(
    conditions: &mut Vec<Condition>,
    alloc: Global,
    needed: &[Option<u32>],
    ranks: &[usize],
    labels: &[u32],
    read: u32,
) -> Result<Option<usize>, NoMemory>
    requires below { AreBelow (length needed.now) needed.now }
    requires ranks { AreNeedRanks needed.now ranks.now }
    requires labels { (m : ℕ) → Contains labels.now m → m < length needed.now }
    ensures { IfOk result (AreNeighbors needed.now labels.now conditions.old.items conditions.new.items) }
{
    for place in 0..labels.len().saturating_sub(1) {
        match relation_of(needed, ranks, labels[place], labels[place + 1]) {
            Relation::Under => return Ok(Some(place)),
            Relation::Above => {}
            Relation::Apart { left, right } => {
                let condition = edge(alloc, read, right, left)?;
                conditions.push(condition)?;
            }
        }
    }
    Ok(None)
}

/// Returns the condition of a read that one label stands before another one.
///
/// # Errors
///
/// `NoMemory` if allocation fails.
pub fn edge(alloc: Global, read: u32, first: u32, second: u32) -> Result<Condition, NoMemory>
    ensures { IfOk result (λ condition. condition ≡ edge first second) }
{
    Condition::new(alloc, read, &[first], &[second])
}
