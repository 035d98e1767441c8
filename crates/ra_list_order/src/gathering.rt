//! The test of a plan: whether the order that results from it extends the edges and the new one.
ghost use Rattle.std.specs.Prelude.{◌≡◌, ℕ, ◌<◌, ◌++◌, length, slice_index, Contains, IsTrue, IfOk};
ghost use Rattle.std.specs.BTreeMap.{get};
ghost use Rattle.std.specs.Ordering.{nat_cmp};
ghost use Rattle.ra_labels.specs.declared.edge.Edge.{Edge};
ghost use Rattle.ra_labels.specs.Edges.{IsBefore};
ghost use Rattle.ra_list_order.specs.Gathering.{left_of, right_of, IsIndex, HasEdgesAt};
ghost use Rattle.ra_list_order.specs.Plans.{moved_by, order_by, CanBeDone};

use crate::cut::Spot;
use crate::edge_pool::EdgePool;
use crate::search::Plan;
use crate::sequence::Sequence;
use ra_labels::{Edge, NoMemory};
use std::alloc::Global;
use std::collections::BTreeMap;

/// Returns `true` if the order that results from the plan extends the edges and the new one. Tests the edges to
/// ancestors and from descendants: the others lead forwards anyway.
///
/// # Errors
///
/// `NoMemory` if allocation fails.
///
/// # Complexity
///
/// O(k (log k + c)) with `c` elements in one chunk, and `k` elements that move and edges that are tested.
pub fn can_be_done(
    alloc: Global,
    order: &Sequence,
    edges: &EdgePool,
    plan: &Plan,
    index: &BTreeMap<u32, usize>,
    new: Edge,
) -> Result<bool, NoMemory>
    requires { IsIndex (get nat_cmp index.now) (moved_by plan.now) }
    ensures { IfOk result (λ can. IsTrue can → CanBeDone order.now plan.now edges.now new) }
{
    if !are_behind(order, &plan.ancestors, plan.cut)
        || !are_in_front(order, &plan.descendants, plan.cut)
        || !leads_forward(order, plan, index, new)
    {
        return Ok(false);
    }
    let walked = edges_of(alloc, edges, &plan.ancestors, &plan.descendants)?;
    Ok(all_lead_forward(order, plan, index, &walked))
}

// Returns `true` if the elements are behind the cut.
fn are_behind(order: &Sequence, elements: &[u32], cut: Spot) -> bool
    ensures { IsTrue result → (k : ℕ) → k < length elements.now
        → Contains (right_of order.now cut.chunk cut.index) (slice_index elements.now k) }
{
    for element in elements {
        if !order.is_behind(*element, cut) {
            return false;
        }
    }
    true
}

// Returns `true` if the elements are before the cut.
fn are_in_front(order: &Sequence, elements: &[u32], cut: Spot) -> bool
    ensures { IsTrue result → (k : ℕ) → k < length elements.now
        → Contains (left_of order.now cut.chunk cut.index) (slice_index elements.now k) }
{
    for element in elements {
        if !order.is_in_front(*element, cut) {
            return false;
        }
    }
    true
}

// Returns the edges to the ancestors and from the descendants.
fn edges_of(
    alloc: Global,
    edges: &EdgePool,
    ancestors: &[u32],
    descendants: &[u32],
) -> Result<Vec<Edge>, NoMemory>
    ensures { IfOk result (λ walked. HasEdgesAt edges.now ancestors.now descendants.now walked.items) }
{
    let mut walked = Vec::new(alloc);
    for ancestor in ancestors {
        edges.push_into(&mut walked, *ancestor)?;
    }
    for descendant in descendants {
        edges.push_from(&mut walked, *descendant)?;
    }
    Ok(walked)
}

// Returns `true` if each of the edges leads forwards in the order that results.
fn all_lead_forward(
    order: &Sequence,
    plan: &Plan,
    index: &BTreeMap<u32, usize>,
    walked: &[Edge],
) -> bool
    requires { IsIndex (get nat_cmp index.now) (moved_by plan.now) }
    ensures { IsTrue result → (edge : Edge) → Contains walked.now edge
        → IsBefore (order_by order.now plan.now) edge.before edge.after }
{
    for edge in walked {
        if !leads_forward(order, plan, index, *edge) {
            return false;
        }
    }
    true
}

// Returns `true` if an edge to or from a moved element leads forwards in the order that results.
fn leads_forward(order: &Sequence, plan: &Plan, index: &BTreeMap<u32, usize>, edge: Edge) -> bool
    requires { IsIndex (get nat_cmp index.now) (moved_by plan.now) }
    ensures { IsTrue result → IsBefore (order_by order.now plan.now) edge.before edge.after }
{
    let from = index.get(&edge.before).copied();
    let to = index.get(&edge.after).copied();
    match (from, to) {
        (Some(i), Some(j)) => i < j,
        (Some(_), None) => order.is_behind(edge.after, plan.cut),
        (None, Some(_)) => order.is_in_front(edge.before, plan.cut),
        (None, None) => false,
    }
}
