//! The place of a new element in the kept order, and its edges.
ghost use Rattle.std.specs.Prelude.{◌≡◌, ℕ, ◌⊎◌, ◌++◌, ◌∷◌, [], Contains, IfSome, IfOk, OnOk, OnErr, MatchOption};
ghost use Rattle.std.specs.List.Sorted.{IsPermutation};
ghost use Rattle.ra_labels.specs.Edges.{IsCycle};
ghost use Rattle.ra_list_edges.specs.Pairs.{AddsPairs, AddsSome, with_pairs};
ghost use Rattle.ra_list_edges.specs.Placed.{placed};

use crate::pairs::add_pairs;
use ra_labels::{Edge, NoMemory};
use ra_list_order::ListOrder;
use std::alloc::Global;

/// A new element and the neighbours that its insertion names.
#[derive(Clone, Copy)]
pub struct Placement {
    /// The left neighbour, if one is named: the new element is behind it.
    pub left: Option<u32>,
    /// The new element.
    pub element: u32,
    /// The right neighbour, if one is named: the new element is before it.
    pub right: Option<u32>,
}

/// Inserts a new element next to its neighbours, adds its edges, and returns `None`; or returns a cycle of these edges
/// and the earlier ones. After a cycle or a failed allocation the kept order may have the element, which no edge names.
///
/// # Errors
///
/// `NoMemory` if allocation fails.
///
/// # Complexity
///
/// One `ListOrder::put` and two `ListOrder::add`.
pub fn add_insertion(
    alloc: Global,
    order: &mut ListOrder,
    placement: Placement,
    label: u32,
) -> Result<Option<Vec<Edge>>, NoMemory>
    // The left neighbour, if one is named, is in the order.
    requires left { IfSome placement.left (λ l. Contains order.old.order l) }
    // The right neighbour, if one is named, is in the order.
    requires right { IfSome placement.right (λ r. Contains order.old.order r) }
    // The order keeps its elements.
    ensures kept { (x : ℕ) → Contains order.old.order x → Contains order.new.order x }
    // The order gets no element but the new one.
    ensures only { (x : ℕ) → Contains order.new.order x → Contains order.old.order x ⊎ (x ≡ placement.element) }
    // If the call succeeds, the order has the new element.
    ensures there { OnOk result (Contains order.new.order placement.element) }
    // All edges are added; or the result is a cycle, and the edges are unchanged.
    ensures answer { IfOk result (λ found. MatchOption found
        (AddsPairs label (placed placement) order.old.edges order.new.edges)
        (λ cycle. (order.new.edges ≡ order.old.edges)
        × IsCycle (with_pairs label (placed placement) order.old.edges) cycle.items)) }
    // After a failed allocation the edges are unchanged.
    ensures failed { OnErr result (order.new.edges ≡ order.old.edges) }
{
    place(order, placement)?;
    let count = order.edge_count();
    let added = add_placed(alloc, order, placement, label);
    if !matches!(added, Ok(None)) {
        order.keep_edges(count);
    }
    added
}

// Adds the edges of an insertion, or returns a cycle.
fn add_placed(
    alloc: Global,
    order: &mut ListOrder,
    placement: Placement,
    label: u32,
) -> Result<Option<Vec<Edge>>, NoMemory>
    requires element { Contains order.old.order placement.element }
    requires left { IfSome placement.left (λ l. Contains order.old.order l) }
    requires right { IfSome placement.right (λ r. Contains order.old.order r) }
    ensures elements { IsPermutation order.old.order order.new.order }
    ensures some { AddsSome label (placed placement) order.old.edges order.new.edges }
    ensures answer { IfOk result (λ found. MatchOption found
        (AddsPairs label (placed placement) order.old.edges order.new.edges)
        (λ cycle. IsCycle (with_pairs label (placed placement) order.old.edges) cycle.items)) }
{
    let element = placement.element;
    match (placement.left, placement.right) {
        (None, None) => add_pairs(alloc, order, &[element], label),
        (None, Some(right)) => add_pairs(alloc, order, &[element, right], label),
        (Some(left), None) => add_pairs(alloc, order, &[left, element], label),
        (Some(left), Some(right)) => add_pairs(alloc, order, &[left, element, right], label),
    }
}

// Inserts the element next to its neighbours, unless an earlier attempt did.
fn place(order: &mut ListOrder, placement: Placement) -> Result<(), NoMemory>
    requires left { IfSome placement.left (λ l. Contains order.old.order l) }
    requires right { IfSome placement.right (λ r. Contains order.old.order r) }
    ensures edges { order.new.edges ≡ order.old.edges }
    ensures kept { (x : ℕ) → Contains order.old.order x → Contains order.new.order x }
    ensures only { (x : ℕ) → Contains order.new.order x → Contains order.old.order x ⊎ (x ≡ placement.element) }
    ensures there { OnOk result (Contains order.new.order placement.element) }
{
    if order.contains(placement.element) {
        return Ok(());
    }
    order.put(placement.element, placement.left, placement.right)
}
