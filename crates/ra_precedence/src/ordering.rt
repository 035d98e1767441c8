//! The order that meets all conditions, or a stuck set.
ghost use Rattle.std.specs.Prelude.{◌<◌, ◌^◌, ◌↔◌, ℕ, length, get_or, Contains, IfOk};
ghost use Rattle.ra_precedence.specs.Conditions.{NameOnlyBelow};
ghost use Rattle.ra_precedence.specs.Solved.{IsSolution};

use crate::condition::Condition;
use crate::open::open_counts;
use crate::placing::place_all;
use crate::uses::Uses;
use ra_labels::NoMemory;
use std::alloc::Global;

/// What conditions on the order of some labels lead to.
#[derive(Drop)]
pub enum Solution {
    /// An order that meets them all.
    Order(Vec<u32>),
    /// A set of labels none of which can be the last one of them, the least one first.
    Stuck(Vec<u32>),
}

/// Returns an order of the labels below the count that meets all conditions, or a stuck set if there is none.
///
/// # Errors
///
/// `NoMemory` if allocation fails, if a label is in `before` of the conditions 2^32 times, or if there are more than
/// 2^32 conditions.
///
/// # Complexity
///
/// O(n), with `n` the count and the length of the conditions.
pub fn order_of(alloc: Global, count: u32, conditions: &[Condition]) -> Result<Solution, NoMemory>
    // The conditions name labels below the count.
    requires { NameOnlyBelow count conditions.now }
    // The order has each label once and meets all conditions; or the set is stuck, and has labels below the count.
    ensures { IfOk result (λ solution. IsSolution count conditions.now solution) }
{
    let mut numbers = open_counts(alloc, count as usize, conditions)?;
    let uses = Uses::of_conditions(alloc, count as usize, conditions)?;
    let mut placed = place_all(alloc, conditions, &uses, &mut numbers)?;
    let stuck = open_labels(alloc, numbers.as_slice())?;
    if !stuck.is_empty() {
        return Ok(Solution::Stuck(stuck));
    }
    placed.reverse();
    Ok(Solution::Order(placed))
}

// Returns the labels that are open in some condition.
fn open_labels(alloc: Global, numbers: &[u32]) -> Result<Vec<u32>, NoMemory>
    requires { length numbers.now < 2 ^ 32 }
    ensures { IfOk result (λ labels. (b : ℕ) → Contains labels.items b ↔ (0 < get_or numbers.now b 0)) }
{
    let mut labels = Vec::new(alloc);
    for (label, number) in numbers.iter().enumerate() {
        if *number > 0 {
            labels.push(label as u32)?;
        }
    }
    Ok(labels)
}
