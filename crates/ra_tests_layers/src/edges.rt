//! Tests of `ra_list_edges`: calls succeed, and can be repeated after a failed allocation.
ghost use Rattle.std.specs.Prelude.{Contains, IfSome, IsTrue};

use ra_labels::NoMemory;
use ra_list_edges::{Placement, add_insertion, add_part};
use ra_list_order::ListOrder;
use std::alloc::Global;
use std::process::Abort;
use std::test::Fail;

// Returns `true` if no neighbour is named, or one in the order.
fn is_known(order: &ListOrder, neighbor: Option<u32>) -> bool
    ensures { IsTrue result → IfSome neighbor (λ x. Contains order.now.order x) }
{
    match neighbor {
        Some(element) => order.contains(element),
        None => true,
    }
}

// Adds an insertion, again if an allocation fails. Returns `true` if it closes no cycle.
fn inserts(
    rt: &impl Abort,
    alloc: Global,
    order: &mut ListOrder,
    placement: Placement,
    label: u32,
) -> Result<bool, NoMemory> {
    let edges = order.edge_count();
    assert!(rt; is_known(order, placement.left));
    assert!(rt; is_known(order, placement.right));
    if let Ok(cycle) = add_insertion(alloc, order, placement, label) {
        return Ok(cycle.is_none());
    }
    assert_eq!(rt; order.edge_count(), edges);
    assert!(rt; is_known(order, placement.left));
    assert!(rt; is_known(order, placement.right));
    Ok(add_insertion(alloc, order, placement, label)?.is_none())
}

// Adds a part of two elements, again if an allocation fails. Returns `true` if it closes no cycle.
fn reads(
    rt: &impl Abort,
    alloc: Global,
    order: &mut ListOrder,
    list: [u32; 2],
    label: u32,
) -> Result<bool, NoMemory> {
    let edges = order.edge_count();
    assert!(rt; order.contains(list[0]));
    assert!(rt; order.contains(list[1]));
    if let Ok(cycle) = add_part(alloc, order, &list, label) {
        return Ok(cycle.is_none());
    }
    assert_eq!(rt; order.edge_count(), edges);
    assert!(rt; order.contains(list[0]));
    assert!(rt; order.contains(list[1]));
    Ok(add_part(alloc, order, &list, label)?.is_none())
}

const fn placement(left: Option<u32>, element: u32, right: Option<u32>) -> Placement {
    Placement {
        left,
        element,
        right,
    }
}

// `rt try --test --fail-alloc N` lets the allocation N fail. The call that asks for it changes no edge.
#[test]
fn operations_add_all_edges_or_none(rt: HostRuntime) -> Result<(), Fail> {
    let alloc = rt.alloc();
    let mut order = ListOrder::new(alloc);
    assert!(rt; inserts(&rt, alloc, &mut order, placement(None, 0, None), 0)?);
    assert!(rt; inserts(&rt, alloc, &mut order, placement(Some(0), 2, None), 1)?);
    assert!(rt; reads(&rt, alloc, &mut order, [0, 2], 2)?);
    assert_eq!(rt; order.edge_count(), 1);
    assert!(rt; !reads(&rt, alloc, &mut order, [2, 0], 3)?);
    assert!(rt; !inserts(&rt, alloc, &mut order, placement(Some(2), 3, Some(0)), 4)?);
    assert!(rt; !inserts(&rt, alloc, &mut order, placement(Some(2), 4, Some(2)), 5)?);
    assert_eq!(rt; order.edge_count(), 1);
    assert!(rt; inserts(&rt, alloc, &mut order, placement(Some(0), 3, Some(2)), 6)?);
    assert_eq!(rt; order.edge_count(), 3);
    assert!(rt; !reads(&rt, alloc, &mut order, [2, 3], 7)?);
    assert!(rt; inserts(&rt, alloc, &mut order, placement(None, 5, Some(0)), 8)?);
    assert_eq!(rt; order.edge_count(), 4);
    Ok(())
}
