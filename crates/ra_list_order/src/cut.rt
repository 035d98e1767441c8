//! A cut of a sequence in two, and the elements that are moved there.
ghost use Rattle.std.specs.Prelude.{◌≡◌, ◌≤◌, ◌++◌, not, length, take, drop, filter, is_some, IfOk, IfSome, OnOk};
ghost use Rattle.ra_labels.specs.Edges.{EachOnce};
ghost use Rattle.ra_list_order.specs.Gathering.{gathered, IsIndex};
ghost use Rattle.std.specs.BTreeMap.{get};
ghost use Rattle.std.specs.Ordering.{nat_cmp};

use ra_labels::NoMemory;
use std::alloc::Global;
use std::collections::BTreeMap;

/// Where an element is in a sequence, or where the sequence is cut in two: before this element.
#[derive(Clone, Copy, PartialEq, Eq, PartialOrd, Ord)]
pub struct Spot {
    /// The index of the chunk.
    pub chunk: usize,
    /// The index in the chunk.
    pub index: usize,
}

/// Returns the elements of a chunk with others moved to a cut of it.
///
/// # Errors
///
/// `NoMemory` if allocation fails.
///
/// # Complexity
///
/// O((c + k) log k) with `c` elements in the chunk and `k` that are moved.
pub fn gathered(
    alloc: Global,
    elements: &[u32],
    position: usize,
    moved: &[u32],
    index: &BTreeMap<u32, usize>,
) -> Result<Vec<u32>, NoMemory>
    requires within { position ≤ length elements.now }
    requires index { IsIndex (get nat_cmp index.now) moved.now }
    ensures { IfOk result (λ all.
        all.items ≡ gathered (take position elements.now) moved.now (drop position elements.now)) }
{
    let mut all = Vec::new(alloc);
    push_others(&mut all, &elements[..position], index)?;
    all.extend_from_slice(moved)?;
    push_others(&mut all, &elements[position..], index)?;
    Ok(all)
}

// Appends the elements that are not moved.
fn push_others(
    all: &mut Vec<u32>,
    elements: &[u32],
    index: &BTreeMap<u32, usize>,
) -> Result<(), NoMemory>
    ensures { OnOk result (all.new.items ≡ all.old.items
        ++ filter (λ x. not (is_some (get nat_cmp index.now x))) elements.now) }
{
    for element in elements {
        if !index.contains_key(element) {
            all.push(*element)?;
        }
    }
    Ok(())
}

/// Returns the index of each element, or `None` if one is there twice.
///
/// # Errors
///
/// `NoMemory` if allocation fails.
///
/// # Complexity
///
/// O(k log k) with `k` elements.
pub fn index_of(alloc: Global, elements: &[u32]) -> Result<Option<BTreeMap<u32, usize>>, NoMemory>
    ensures index { IfOk result (λ found. IfSome found (λ index. IsIndex (get nat_cmp index) elements.now)) }
    ensures once { IfOk result (λ found. IfSome found (λ index. EachOnce elements.now)) }
{
    let mut index = BTreeMap::new(alloc);
    for (i, element) in elements.iter().enumerate() {
        if index.insert(*element, i)?.is_some() {
            return Ok(None);
        }
    }
    Ok(Some(index))
}
