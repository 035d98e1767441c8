//! Tests of the edges of an explanation: a cycle is found if there is one, and it is a shortest one.
use ra_explain::{positions_of, shortest_cycle};
use ra_labels::{Edge, NoMemory};
use std::alloc::Global;
use std::test::Fail;

// Returns the edges between these elements, each with its index as its label.
fn edges(alloc: Global, pairs: &[(u32, u32)]) -> Result<Vec<Edge>, NoMemory> {
    let mut edges = Vec::new(alloc);
    let mut label: u32 = 0;
    for pair in pairs {
        edges.push(Edge {
            before: pair.0,
            after: pair.1,
            label,
        })?;
        label = label.saturating_add(1);
    }
    Ok(edges)
}

// Returns `true` if the cycle through the edges with these indices has the edges with these labels, in this order.
fn is_cycle(
    alloc: Global,
    pairs: &[(u32, u32)],
    through: &[usize],
    labels: &[u32],
) -> Result<bool, NoMemory> {
    let edges = edges(alloc, pairs)?;
    let cycle = shortest_cycle(alloc, &edges, through)?;
    let mut found = Vec::new(alloc);
    for edge in &cycle {
        found.push(edge.label)?;
    }
    Ok(found.as_slice() == labels)
}

#[test]
fn a_shortest_cycle_is_found(rt: HostRuntime) -> Result<(), Fail> {
    let alloc = rt.alloc();
    // A chain has none.
    assert!(rt; is_cycle(alloc, &[(1, 2), (2, 3)], &[1], &[])?);
    // Two edges that contradict each other, and an edge from an element to itself.
    assert!(rt; is_cycle(alloc, &[(1, 2), (2, 1)], &[1], &[1, 0])?);
    assert!(rt; is_cycle(alloc, &[(1, 2), (5, 5)], &[1], &[1])?);
    // The way over 4 is shorter than that over 2 and 3.
    let ways = [(1, 2), (2, 3), (3, 5), (1, 4), (4, 5), (5, 1)];
    assert!(rt; is_cycle(alloc, &ways, &[5], &[5, 3, 4])?);
    // Of two cycles the shorter one, wherever its edge is given.
    let two = [(1, 2), (2, 3), (7, 8), (3, 1), (8, 7)];
    assert!(rt; is_cycle(alloc, &two, &[3, 4], &[4, 2])?);
    // A cycle that does not lead through a given edge.
    assert!(rt; is_cycle(alloc, &[(1, 2), (2, 1), (2, 3)], &[2], &[])?);
    Ok(())
}

// Returns `true` if the elements are in this order, as far as they have positions.
fn is_order(alloc: Global, pairs: &[(u32, u32)], order: &[u32]) -> Result<bool, NoMemory> {
    let edges = edges(alloc, pairs)?;
    let positions = positions_of(alloc, &edges)?;
    let mut position: usize = 0;
    for element in order {
        if positions.get(element) != Some(&position) {
            return Ok(false);
        }
        position = position.saturating_add(1);
    }
    Ok(positions.len() == order.len())
}

#[test]
fn an_order_extends_the_edges(rt: HostRuntime) -> Result<(), Fail> {
    let alloc = rt.alloc();
    assert!(rt; is_order(alloc, &[], &[])?);
    assert!(rt; is_order(alloc, &[(3, 1), (1, 2), (3, 2)], &[3, 1, 2])?);
    // Of several free elements the smallest is first.
    assert!(rt; is_order(alloc, &[(9, 4), (2, 4), (4, 1)], &[2, 9, 4, 1])?);
    // An edge that is required twice.
    assert!(rt; is_order(alloc, &[(6, 5), (6, 5)], &[6, 5])?);
    // A cycle and what is behind it have no position.
    assert!(rt; is_order(alloc, &[(1, 2), (2, 3), (3, 2), (3, 4)], &[1])?);
    Ok(())
}
