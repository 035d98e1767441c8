//! The sweep: finds what is reachable from an element along edges, in one walk along the order.
ghost use Rattle.std.specs.Prelude.{◌≡◌, ℕ, ◌==◌, ◌||◌, IfOk, OnOk};
ghost use Rattle.std.specs.BTreeSet.{contains};
ghost use Rattle.std.specs.List.{list_any};
ghost use Rattle.std.specs.Ordering.{nat_cmp};
ghost use Rattle.ra_labels.specs.declared.edge.Edge.{Edge};
ghost use Rattle.ra_list_order.specs.Sweep.{IsSwept};

use crate::edge_pool::EdgePool;
use ra_labels::{Edge, NoMemory};
use std::alloc::Global;
use std::collections::BTreeSet;

/// A part of the order divided into two lists, each in the order of the part.
#[derive(Drop)]
pub struct Swept {
    /// The elements that are not marked.
    pub stays: Vec<u32>,
    /// The marked elements.
    pub moves: Vec<u32>,
    /// The edges from the marked elements.
    pub walked: Vec<Edge>,
}

/// Marks the start and what is reachable from it along edges, in one walk along a part of the order.
///
/// # Errors
///
/// `NoMemory` if allocation fails.
pub fn sweep(
    alloc: Global,
    stretch: &[u32],
    edges: &EdgePool,
    start: u32,
) -> Result<Swept, NoMemory>
    ensures { IfOk result (λ swept.
        IsSwept stretch.now edges.now start swept.stays.items swept.moves.items swept.walked.items) }
{
    let mut stays = Vec::new(alloc);
    let mut moves = Vec::new(alloc);
    let mut walked = Vec::new(alloc);
    let mut ends = BTreeSet::new(alloc);
    for element in stretch {
        if is_reached(start, &ends, *element) {
            moves.push(*element)?;
            let count = walked.len();
            edges.push_from(&mut walked, *element)?;
            add_ends(&mut ends, &walked[count..])?;
        } else {
            stays.push(*element)?;
        }
    }
    Ok(Swept {
        stays,
        moves,
        walked,
    })
}

// Returns `true` if the element is the start or among the ends.
fn is_reached(start: u32, ends: &BTreeSet<u32>, element: u32) -> bool
    ensures { result ≡ (element == start || contains nat_cmp ends.now element) }
{
    element == start || ends.contains(&element)
}

// Adds the ends of the edges.
fn add_ends(ends: &mut BTreeSet<u32>, edges: &[Edge]) -> Result<(), NoMemory>
    ensures { OnOk result ((x : ℕ) → contains nat_cmp ends.new x
        ≡ (contains nat_cmp ends.old x || list_any (λ (edge : Edge). edge.after == x) edges.now)) }
{
    for edge in edges {
        ends.insert(edge.after)?;
    }
    Ok(())
}
