//! Which label inserts each element.
ghost use Rattle.std.specs.Prelude.{IfOk};
ghost use Rattle.ra_rga_precedence.specs.Situation.{operations_in};
ghost use Rattle.ra_rga_precedence.specs.Inserting.{IsInserted};

use crate::operations::element_inserted;
use ra_labels::{NoMemory, Op};
use std::alloc::Global;
use std::collections::BTreeMap;

/// Which label inserts each element, or why no sequence explains the insertions.
#[derive(Drop)]
pub enum Inserted {
    /// The label that inserts the element, by element.
    Each(BTreeMap<u32, u32>),
    /// Two labels that insert one element.
    Twice(u32, u32),
    /// A label that inserts the root.
    Root(u32),
}

/// Returns which label below the count inserts each element.
///
/// # Errors
///
/// `NoMemory` if allocation fails.
///
/// # Complexity
///
/// O(n · log n), where `n` is the count.
pub fn inserters_of(alloc: Global, operations: &[&Op], count: u32) -> Result<Inserted, NoMemory>
    ensures { IfOk result (IsInserted (operations_in operations.now) count) }
{
    let mut inserters = BTreeMap::new(alloc);
    for label in 0..count {
        if let Some(element) = element_inserted(operations, label) {
            if element == 0 {
                return Ok(Inserted::Root(label));
            }
            if let Some(first) = inserters.insert(element, label)? {
                return Ok(Inserted::Twice(first, label));
            }
        }
    }
    Ok(Inserted::Each(inserters))
}
