//! An order of elements that extends edges.
use ra_labels::{Edge, NoMemory};
use std::alloc::Global;
use std::collections::{BTreeMap, BTreeSet};

/// Returns the position of each element of the edges in an order that extends them: the one that always takes the
/// smallest element to which no edge leads from a remaining one. The elements of a cycle, and those behind one, have no
/// position.
///
/// # Errors
///
/// `NoMemory` if an allocation fails.
///
/// # Complexity
///
/// O(e log e) for `e` edges.
pub fn positions_of(alloc: Global, edges: &[Edge]) -> Result<BTreeMap<u32, usize>, NoMemory> {
    let mut waiting = incoming_edges(alloc, edges)?;
    let starts = edges_by_start(alloc, edges)?;
    let mut free = BTreeSet::new(alloc);
    for (element, edges) in waiting.iter() {
        if *edges == 0 {
            free.insert(*element)?;
        }
    }
    let mut positions = BTreeMap::new(alloc);
    for position in 0..waiting.len() {
        let Some(element) = free.pop_first() else {
            break;
        };
        positions.insert(element, position)?;
        let first = starts.partition_point(|start| start.0 < element);
        let end = starts.partition_point(|start| start.0 <= element);
        for (_, after) in starts.get(first..end).unwrap_or(&[]) {
            if is_freed(&mut waiting, *after) {
                free.insert(*after)?;
            }
        }
    }
    Ok(positions)
}

// Takes away one of the edges to the element. Returns `true` if it was the last one.
fn is_freed(waiting: &mut BTreeMap<u32, usize>, element: u32) -> bool {
    match waiting.get_mut(&element) {
        Some(edges) => {
            *edges = edges.saturating_sub(1);
            *edges == 0
        }
        None => false,
    }
}

// Returns the number of the edges to each element.
fn incoming_edges(alloc: Global, edges: &[Edge]) -> Result<BTreeMap<u32, usize>, NoMemory> {
    let mut incoming: BTreeMap<u32, usize> = BTreeMap::new(alloc);
    for edge in edges {
        let before = incoming.get(&edge.before).copied().unwrap_or(0);
        incoming.insert(edge.before, before)?;
        let after = incoming.get(&edge.after).copied().unwrap_or(0);
        incoming.insert(edge.after, after.saturating_add(1))?;
    }
    Ok(incoming)
}

// Returns the ends of each edge, in ascending order.
fn edges_by_start(alloc: Global, edges: &[Edge]) -> Result<Vec<(u32, u32)>, NoMemory> {
    let mut starts = Vec::new(alloc);
    for edge in edges {
        starts.push((edge.before, edge.after))?;
    }
    starts.sort_unstable();
    Ok(starts)
}
