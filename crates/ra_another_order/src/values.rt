//! The values that the next read of a register can return, in order.
ghost use Rattle.std.specs.Prelude.{◌≡◌, ◌↔◌, ℕ, true, Some, None, Contains, IfOk, IsTrue};
ghost use Rattle.std.specs.BTreeSet.{contains};
ghost use Rattle.std.specs.Ordering.{nat_cmp};

use ra_labels::NoMemory;
use std::alloc::Global;
use std::collections::BTreeSet;

/// The values that the next read of a register can return.
#[derive(Drop)]
pub struct PossibleValues {
    /// The written ones, increasing, each once.
    pub written: Vec<u32>,
    /// Whether the read can return no value.
    pub none: bool,
}

/// Returns the values in increasing order, each once.
///
/// # Errors
///
/// `NoMemory` if allocation fails.
///
/// # Complexity
///
/// O(n · log n), where `n` is the number of values.
pub fn in_order(alloc: Global, values: &[Option<u32>]) -> Result<PossibleValues, NoMemory>
    // The written values are the same.
    ensures written { IfOk result (λ it. (x : ℕ) → Contains it.written.items x ↔ Contains values.now (Some x)) }
    // There is none exactly if it is among them.
    ensures none { IfOk result (λ it. (it.none ≡ true) ↔ Contains values.now None) }
{
    let set = written_in(alloc, values)?;
    let written = listed(alloc, &set)?;
    Ok(PossibleValues {
        written,
        none: has_none(values),
    })
}

// Returns the written values.
fn written_in(alloc: Global, values: &[Option<u32>]) -> Result<BTreeSet<u32>, NoMemory>
    ensures { IfOk result (λ set. (x : ℕ) → IsTrue (contains nat_cmp set x) ↔ Contains values.now (Some x)) }
{
    let mut set = BTreeSet::new(alloc);
    for value in values {
        match value {
            Some(x) => {
                set.insert(*x)?;
            }
            None => {}
        }
    }
    Ok(set)
}

// Returns the values of the set in increasing order.
fn listed(alloc: Global, set: &BTreeSet<u32>) -> Result<Vec<u32>, NoMemory>
    ensures { IfOk result (λ list. list.items ≡ set.now.keys) }
{
    let mut list = Vec::new(alloc);
    for value in set {
        list.push(*value)?;
    }
    Ok(list)
}

// Returns `true` if none is among the values.
fn has_none(values: &[Option<u32>]) -> bool
    ensures { (result ≡ true) ↔ Contains values.now None }
{
    for value in values {
        if value.is_none() {
            return true;
        }
    }
    false
}
