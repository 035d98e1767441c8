//! The edges of an operation: each listed element is before the next one.
ghost use Rattle.std.specs.Prelude.{◌≡◌, ℕ, ◌⊎◌, ◌++◌, ◌∷◌, [], Contains, IfOk, MatchOption};
ghost use Rattle.std.specs.List.Sorted.{IsPermutation};
ghost use Rattle.ra_labels.specs.declared.edge.Edge.{Edge};
ghost use Rattle.ra_labels.specs.Edges.{HasEdge, IsCycle};
ghost use Rattle.ra_list_edges.specs.Pairs.{AddsPairs, AddsSome, HasEdgesBut, with_pairs};

use ra_labels::{Edge, NoMemory};
use ra_list_order::ListOrder;
use std::alloc::Global;

/// Adds an edge from each listed element to the next one, unless there is one, and returns `None`; or returns a cycle.
/// After a cycle, or after a failed allocation, some of the edges are added.
///
/// # Errors
///
/// `NoMemory` if allocation fails.
///
/// # Complexity
///
/// O(log n) with `n` edges for each listed element, and one `ListOrder::add` for each edge that is added.
pub fn add_pairs(
    alloc: Global,
    order: &mut ListOrder,
    list: &[u32],
    label: u32,
) -> Result<Option<Vec<Edge>>, NoMemory>
    requires { (x : ℕ) → Contains list.now x → Contains order.old.order x }
    ensures elements { IsPermutation order.old.order order.new.order }
    ensures some { AddsSome label list.now order.old.edges order.new.edges }
    ensures answer { IfOk result (λ found. MatchOption found (AddsPairs label list.now order.old.edges order.new.edges)
        (λ cycle. IsCycle (with_pairs label list.now order.old.edges) cycle.items)) }
{
    for i in 1..list.len() {
        if let Some(cycle) = add_edge(alloc, order, list[i - 1], list[i], label)? {
            return Ok(Some(cycle));
        }
    }
    Ok(None)
}

/// Adds the same edges to an order that has all of them, except perhaps those to the elements at these indexes: only
/// they are looked up. Returns `None`, or a cycle, as `add_pairs` does.
///
/// # Errors
///
/// `NoMemory` if allocation fails.
///
/// # Complexity
///
/// O(log n) with `n` edges for each index, and one `ListOrder::add` for each edge that is added.
pub fn add_pairs_at(
    alloc: Global,
    order: &mut ListOrder,
    list: &[u32],
    places: &[usize],
    label: u32,
) -> Result<Option<Vec<Edge>>, NoMemory>
    requires listed { (x : ℕ) → Contains list.now x → Contains order.old.order x }
    requires others { HasEdgesBut order.old.edges list.now places.now }
    ensures elements { IsPermutation order.old.order order.new.order }
    ensures some { AddsSome label list.now order.old.edges order.new.edges }
    ensures answer { IfOk result (λ found. MatchOption found (AddsPairs label list.now order.old.edges order.new.edges)
        (λ cycle. IsCycle (with_pairs label list.now order.old.edges) cycle.items)) }
{
    for place in places {
        let (before, after) = (list[*place - 1], list[*place]);
        if let Some(cycle) = add_edge(alloc, order, before, after, label)? {
            return Ok(Some(cycle));
        }
    }
    Ok(None)
}

// Adds an edge unless there is one, or returns a cycle.
fn add_edge(
    alloc: Global,
    order: &mut ListOrder,
    before: u32,
    after: u32,
    label: u32,
) -> Result<Option<Vec<Edge>>, NoMemory>
    requires before { Contains order.old.order before }
    requires after { Contains order.old.order after }
    ensures elements { IsPermutation order.old.order order.new.order }
    ensures some { let edge : Edge = record { before = before; after = after; label = label } in
        (order.new.edges ≡ order.old.edges) ⊎ (order.new.edges ≡ order.old.edges ++ edge ∷ []) }
    ensures answer { let edge : Edge = record { before = before; after = after; label = label } in
        IfOk result (λ found. MatchOption found (HasEdge order.new.edges before after)
        (λ cycle. IsCycle (order.old.edges ++ edge ∷ []) cycle.items)) }
{
    if order.has_edge(before, after) {
        return Ok(None);
    }
    order.add(alloc, before, after, label)
}
