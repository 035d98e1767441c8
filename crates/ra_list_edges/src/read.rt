//! The edges of a list that a replica returned.
ghost use Rattle.std.specs.Prelude.{◌≡◌, ℕ, Contains, IfOk, OnErr, MatchOption};
ghost use Rattle.std.specs.List.Sorted.{IsPermutation};
ghost use Rattle.ra_labels.specs.Edges.{IsCycle};
ghost use Rattle.ra_list_edges.specs.Pairs.{AddsPairs, HasEdgesBut, with_pairs};

use crate::pairs::{add_pairs, add_pairs_at};
use ra_labels::{Edge, NoMemory};
use ra_list_order::ListOrder;
use std::alloc::Global;

/// Adds the edges of a list, all of which are there except perhaps those to the elements at some indexes, and returns
/// `None`; or returns a cycle of these edges and the earlier ones.
///
/// # Errors
///
/// `NoMemory` if allocation fails; nothing is changed but the order.
///
/// # Complexity
///
/// O(log n) with `n` edges for each index, and one `ListOrder::add` for each edge that is added.
pub fn add_read(
    alloc: Global,
    order: &mut ListOrder,
    list: &[u32],
    places: &[usize],
    label: u32,
) -> Result<Option<Vec<Edge>>, NoMemory>
    // The listed elements are in the order.
    requires listed { (x : ℕ) → Contains list.now x → Contains order.old.order x }
    // Each listed element but the first has an edge from the one before it, except perhaps at the given indexes.
    requires others { HasEdgesBut order.old.edges list.now places.now }
    // The elements are the same; only their order may change.
    ensures elements { IsPermutation order.old.order order.new.order }
    // All edges are added; or the result is a cycle, and the edges are unchanged.
    ensures answer { IfOk result (λ found. MatchOption found (AddsPairs label list.now order.old.edges order.new.edges)
        (λ cycle. (order.new.edges ≡ order.old.edges)
        × IsCycle (with_pairs label list.now order.old.edges) cycle.items)) }
    // After a failed allocation the edges are unchanged.
    ensures failed { OnErr result (order.new.edges ≡ order.old.edges) }
{
    let count = order.edge_count();
    let added = add_pairs_at(alloc, order, list, places, label);
    if !matches!(added, Ok(None)) {
        order.keep_edges(count);
    }
    added
}

/// Adds an edge from each element of a part of a list to the next one, unless there is one, and returns `None`; or
/// returns a cycle of these edges and the earlier ones.
///
/// # Errors
///
/// `NoMemory` if allocation fails; nothing is changed but the order.
///
/// # Complexity
///
/// O(log n) with `n` edges for each listed element, and one `ListOrder::add` for each edge that is added.
pub fn add_part(
    alloc: Global,
    order: &mut ListOrder,
    list: &[u32],
    label: u32,
) -> Result<Option<Vec<Edge>>, NoMemory>
    // The listed elements are in the order.
    requires { (x : ℕ) → Contains list.now x → Contains order.old.order x }
    // The elements are the same; only their order may change.
    ensures elements { IsPermutation order.old.order order.new.order }
    // All edges are added; or the result is a cycle, and the edges are unchanged.
    ensures answer { IfOk result (λ found. MatchOption found (AddsPairs label list.now order.old.edges order.new.edges)
        (λ cycle. (order.new.edges ≡ order.old.edges)
        × IsCycle (with_pairs label list.now order.old.edges) cycle.items)) }
    // After a failed allocation the edges are unchanged.
    ensures failed { OnErr result (order.new.edges ≡ order.old.edges) }
{
    let count = order.edge_count();
    let added = add_pairs(alloc, order, list, label);
    if !matches!(added, Ok(None)) {
        order.keep_edges(count);
    }
    added
}
