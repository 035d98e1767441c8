//! The positions of labels in an order.
ghost use Rattle.std.specs.Prelude.{IfOk};
ghost use Rattle.ra_precedence.specs.Conditions.{HasEachBelow};
ghost use Rattle.ra_rga_precedence.specs.Ranks.{AreRanks};

use ra_labels::NoMemory;
use std::alloc::Global;

/// Returns the position of each label below the count in the order, counted from 1.
///
/// # Errors
///
/// `NoMemory` if allocation fails.
///
/// # Complexity
///
/// O(n), where `n` is the count.
pub fn ranks_of(alloc: Global, count: u32, order: &[u32]) -> Result<Vec<usize>, NoMemory>
    requires { HasEachBelow count order.now }
    ensures { IfOk result (λ ranks. AreRanks count order.now ranks.items) }
{
    let mut ranks = Vec::new(alloc);
    ranks.resize(count as usize, 0)?;
    for (index, label) in order.iter().enumerate() {
        ranks[*label as usize] = index + 1;
    }
    Ok(ranks)
}
