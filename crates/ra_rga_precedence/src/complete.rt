//! The prefixes of the labels that insert all elements that they need.
ghost use Rattle.std.specs.Prelude.{IfOk};
ghost use Rattle.std.specs.Ordering.{nat_cmp};
ghost use Rattle.std.specs.BTreeMap.{get};
ghost use Rattle.ra_rga_precedence.specs.Situation.{operations_in};
ghost use Rattle.ra_rga_precedence.specs.Complete.{AreFirstInserters, AreCompleteCounts};

use crate::needs::{Need, need_of};
use crate::operations::element_inserted;
use ra_labels::{NoMemory, Op};
use std::alloc::Global;
use std::collections::BTreeMap;

/// Returns the length of each prefix of the labels that inserts all elements that its labels need, up to the count, in
/// ascending order. No order explains another prefix (`ra_rga_conditions`: `linearization_meets_plain_conditions`).
///
/// # Errors
///
/// `NoMemory` if allocation fails.
///
/// # Complexity
///
/// O(n · log n), where `n` is the count.
pub fn complete_counts(alloc: Global, operations: &[&Op], count: u32) -> Result<Vec<u32>, NoMemory>
    // The lengths ascend from zero; each is one of a prefix that inserts what it needs, and there is no other one.
    ensures { IfOk result (λ counts. AreCompleteCounts (operations_in operations.now) count counts.items) }
{
    let inserters = first_inserters(alloc, operations, count)?;
    let mut counts = Vec::new(alloc);
    counts.push(0)?;
    // the last label that one of the labels so far needs
    let mut last = 0;
    for label in 0..count {
        match need_of(operations, &inserters, label) {
            Need::Nothing => {}
            Need::Inserted(inserter) => if last < inserter {
                last = inserter;
            },
            Need::Absent => return Ok(counts),
        }
        if last <= label {
            counts.push(label + 1)?;
        }
    }
    Ok(counts)
}

// Returns which label below the count inserts each element first.
fn first_inserters(
    alloc: Global,
    operations: &[&Op],
    count: u32,
) -> Result<BTreeMap<u32, u32>, NoMemory>
    ensures { IfOk result (λ inserters.
        AreFirstInserters (operations_in operations.now) 0 count (get nat_cmp inserters)) }
{
    let mut inserters = BTreeMap::new(alloc);
    for behind in 0..count {
        let label = count - 1 - behind;
        if let Some(element) = element_inserted(operations, label) {
            inserters.insert(element, label)?;
        }
    }
    Ok(inserters)
}
