//! Tests of `ra_list_order`: calls succeed, and `add` returns a cycle exactly if the edge closes one.
ghost use Rattle.std.specs.Prelude.{◌<◌};

use ra_labels::{Edge, NoMemory};
use ra_list_order::ListOrder;
use std::alloc::Global;
use std::collections::{BTreeMap, BTreeSet};
use std::process::Abort;
use std::test::Fail;

/// The number of elements, from 0 on.
const ELEMENTS: u32 = 4;

/// The number of elements of an order that has several chunks.
const MANY: u32 = 1000;

// Inserts an element behind another one, or at the front.
fn put_behind(
    rt: &impl Abort,
    order: &mut ListOrder,
    element: u32,
    left: Option<u32>,
) -> Result<(), NoMemory> {
    assert!(rt; !order.contains(element));
    match left {
        Some(left) => {
            assert!(rt; order.contains(left));
            order.put(element, Some(left), None)
        }
        None => order.put(element, None, None),
    }
}

// Inserts an element before another one.
fn put_before(
    rt: &impl Abort,
    order: &mut ListOrder,
    element: u32,
    right: u32,
) -> Result<(), NoMemory> {
    assert!(rt; !order.contains(element));
    assert!(rt; order.contains(right));
    order.put(element, None, Some(right))
}

// Adds an edge between two elements of the order.
fn add(
    rt: &impl Abort,
    alloc: Global,
    order: &mut ListOrder,
    edge: Edge,
) -> Result<Option<Vec<Edge>>, NoMemory> {
    assert!(rt; order.contains(edge.before));
    assert!(rt; order.contains(edge.after));
    order.add(alloc, edge.before, edge.after, edge.label)
}

const fn edge(before: u32, after: u32, label: u32) -> Edge {
    Edge {
        before,
        after,
        label,
    }
}

fn order_of_elements(rt: &impl Abort, alloc: Global) -> Result<ListOrder, NoMemory> {
    let mut order = ListOrder::new(alloc);
    put_behind(rt, &mut order, 0, None)?;
    for element in 1..ELEMENTS {
        put_behind(rt, &mut order, element, Some(element - 1))?;
    }
    Ok(order)
}

// Which elements are reachable from which, by the edges that were added.
fn empty_reach() -> [[bool; 4]; 4] {
    let mut reach = [[false; 4]; 4];
    for i in 0..4usize {
        reach[i][i] = true;
    }
    reach
}

fn extend_reach(reach: &mut [[bool; 4]; 4], before: usize, after: usize)
    requires before { before < 4 }
    requires after { after < 4 }
{
    for i in 0..4usize {
        for j in 0..4usize {
            if reach[i][before] && reach[after][j] {
                reach[i][j] = true;
            }
        }
    }
}

// Every sequence of four edges among four elements: an edge is rejected exactly if its end already reaches its
// beginning along the edges that were added.
#[test]
fn rejects_exactly_cycles(rt: HostRuntime) -> Result<(), Fail> {
    let alloc = rt.alloc();
    let mut added = 0u32;
    let mut rejected = 0u32;
    for code in 0..65536u32 {
        let mut order = order_of_elements(&rt, alloc)?;
        let mut reach = empty_reach();
        let mut rest = code;
        for label in 0..4u32 {
            let before = rest % ELEMENTS;
            let after = rest / ELEMENTS % ELEMENTS;
            rest /= ELEMENTS * ELEMENTS;
            let has = order.has_edge(before, after);
            let cyclic = reach[after as usize][before as usize];
            if add(&rt, alloc, &mut order, edge(before, after, label))?.is_some() {
                assert!(rt; cyclic, "rejected at {code}");
                assert!(rt; !has);
                rejected = rejected.saturating_add(1);
            } else {
                assert!(rt; !cyclic, "added at {code}");
                assert!(rt; order.has_edge(before, after));
                extend_reach(&mut reach, before as usize, after as usize);
                added = added.saturating_add(1);
            }
        }
    }
    assert!(rt; added > 1000 && rejected > 1000, "{added} {rejected}");
    Ok(())
}

/// The number of elements of an order with random edges.
const SCATTERED: u32 = 200;

// Returns `true` if the edges lead from one element to another.
fn is_reachable(alloc: Global, edges: &[Edge], from: u32, to: u32) -> Result<bool, NoMemory> {
    let mut marked = BTreeSet::new(alloc);
    marked.insert(from)?;
    for _pass in 0..edges.len() {
        if !mark_ends(&mut marked, edges)? {
            break;
        }
    }
    Ok(marked.contains(&to))
}

// Returns the index of each element.
fn places_of(alloc: Global, elements: &[u32]) -> Result<BTreeMap<u32, usize>, NoMemory> {
    let mut places = BTreeMap::new(alloc);
    for (i, element) in elements.iter().enumerate() {
        places.insert(*element, i)?;
    }
    Ok(places)
}

// Returns `true` if the edge is from an element to a later one.
fn leads_forward(places: &BTreeMap<u32, usize>, edge: Edge) -> bool {
    let Some(from) = places.get(&edge.before) else {
        return false;
    };
    let Some(to) = places.get(&edge.after) else {
        return false;
    };
    *from < *to
}

// Returns `true` if each edge is from an element to a later one.
fn extends(alloc: Global, elements: &[u32], edges: &[Edge]) -> Result<bool, NoMemory> {
    let places = places_of(alloc, elements)?;
    for edge in edges {
        if !leads_forward(&places, *edge) {
            return Ok(false);
        }
    }
    Ok(true)
}

// Marks the ends of edges from marked elements. Returns `true` if one was not marked before.
fn mark_ends(marked: &mut BTreeSet<u32>, edges: &[Edge]) -> Result<bool, NoMemory> {
    let mut grows = false;
    for edge in edges {
        if marked.contains(&edge.before) {
            let is_new = marked.insert(edge.after)?;
            grows = grows || is_new;
        }
    }
    Ok(grows)
}

// Returns the next of a sequence of random numbers.
fn next_random(state: u64) -> u64 {
    state
        .wrapping_mul(6_364_136_223_846_793_005)
        .wrapping_add(1_442_695_040_888_963_407)
}

// Adds an edge. Returns `true` if it was added, which is to be so exactly if its end does not reach its beginning. The
// order extends the edges that were added.
fn is_added(
    rt: &impl Abort,
    alloc: Global,
    order: &mut ListOrder,
    added: &mut Vec<Edge>,
    new: Edge,
) -> Result<bool, NoMemory> {
    let cyclic = is_reachable(alloc, added.as_slice(), new.after, new.before)?;
    let found = add(rt, alloc, order, new)?;
    assert!(rt; found.is_some() == cyclic, "at {}", new.label);
    if !cyclic {
        added.push(new)?;
    }
    let elements = order.elements(alloc)?;
    assert!(rt; extends(alloc, elements.as_slice(), added.as_slice())?);
    Ok(!cyclic)
}

// 400 random edges among 200 elements.
#[test]
fn extends_random_edges(rt: HostRuntime) -> Result<(), Fail> {
    let alloc = rt.alloc();
    let mut order = ListOrder::new(alloc);
    for element in 0..SCATTERED {
        put_behind(&rt, &mut order, element, element.checked_sub(1))?;
    }
    let mut added = Vec::new(alloc);
    let mut state = 1u64;
    let mut rejected = 0u32;
    for label in 0..400u32 {
        state = next_random(state);
        let before = ((state >> 40) % 200) as u32;
        let after = ((state >> 20) % 200) as u32;
        if !is_added(
            &rt,
            alloc,
            &mut order,
            &mut added,
            edge(before, after, label),
        )? {
            rejected = rejected.saturating_add(1);
        }
    }
    assert!(rt; rejected > 20 && added.len() > 200, "{rejected}");
    Ok(())
}

#[test]
fn returns_cycle_of_three(rt: HostRuntime) -> Result<(), Fail> {
    let alloc = rt.alloc();
    let mut order = order_of_elements(&rt, alloc)?;
    assert!(rt; add(&rt, alloc, &mut order, edge(2, 1, 0))?.is_none());
    assert!(rt; add(&rt, alloc, &mut order, edge(1, 0, 1))?.is_none());
    let cycle = add(&rt, alloc, &mut order, edge(0, 2, 2))?.ok_or("no cycle")?;
    let expected = [edge(0, 2, 2), edge(2, 1, 0), edge(1, 0, 1)];
    assert_eq!(rt; cycle.as_slice(), expected.as_slice());
    Ok(())
}

#[test]
fn puts_next_to_neighbours(rt: HostRuntime) -> Result<(), Fail> {
    let alloc = rt.alloc();
    let mut order = ListOrder::new(alloc);
    put_behind(&rt, &mut order, 1, None)?;
    put_behind(&rt, &mut order, 2, Some(1))?;
    put_before(&rt, &mut order, 3, 2)?;
    put_behind(&rt, &mut order, 4, None)?;
    assert!(rt; order.contains(3) && !order.contains(5));
    assert_eq!(rt; order.elements(alloc)?.as_slice(), [4, 1, 3, 2].as_slice());
    Ok(())
}

#[test]
fn keeps_earliest_edges(rt: HostRuntime) -> Result<(), Fail> {
    let alloc = rt.alloc();
    let mut order = order_of_elements(&rt, alloc)?;
    assert!(rt; add(&rt, alloc, &mut order, edge(3, 0, 0))?.is_none());
    assert!(rt; add(&rt, alloc, &mut order, edge(3, 1, 1))?.is_none());
    order.keep_edges(1);
    assert!(rt; order.has_edge(3, 0) && !order.has_edge(3, 1));
    assert!(rt; add(&rt, alloc, &mut order, edge(0, 3, 2))?.is_some());
    assert!(rt; add(&rt, alloc, &mut order, edge(1, 3, 3))?.is_none());
    Ok(())
}

/// An element that is much greater than those before it.
const FAR: u32 = 100_000;

// The arrays end behind the greatest element. What is beyond them or between two elements is not in the order and has
// no edge.
#[test]
fn keeps_elements_far_apart(rt: HostRuntime) -> Result<(), Fail> {
    let alloc = rt.alloc();
    let mut order = ListOrder::new(alloc);
    assert!(rt; !order.contains(0) && !order.has_edge(0, u32::MAX));
    put_behind(&rt, &mut order, 3, None)?;
    assert!(rt; !order.contains(FAR) && !order.contains(u32::MAX));
    put_behind(&rt, &mut order, FAR, Some(3))?;
    put_behind(&rt, &mut order, 2, Some(FAR))?;
    assert!(rt; order.contains(FAR));
    assert!(rt; !order.contains(FAR - 1) && !order.contains(FAR + 1));
    assert!(rt; add(&rt, alloc, &mut order, edge(FAR, 3, 0))?.is_none());
    assert!(rt; order.has_edge(FAR, 3) && !order.has_edge(3, FAR));
    assert!(rt; !order.has_edge(FAR, FAR + 1) && !order.has_edge(FAR + 1, 3));
    assert!(rt; add(&rt, alloc, &mut order, edge(2, FAR, 1))?.is_none());
    assert!(rt; add(&rt, alloc, &mut order, edge(3, 2, 2))?.is_some());
    assert_eq!(rt; order.elements(alloc)?.as_slice(), [2, FAR, 3].as_slice());
    Ok(())
}

fn order_of_many(rt: &impl Abort, alloc: Global) -> Result<ListOrder, NoMemory> {
    let mut order = ListOrder::new(alloc);
    put_behind(rt, &mut order, 0, None)?;
    for element in 1..MANY {
        put_behind(rt, &mut order, element, Some(element - 1))?;
    }
    Ok(order)
}

// One element moves from the first chunk to the last one, and one edge against it closes a cycle.
#[test]
fn moves_an_element_across_chunks(rt: HostRuntime) -> Result<(), Fail> {
    let alloc = rt.alloc();
    let mut order = order_of_many(&rt, alloc)?;
    assert!(rt; add(&rt, alloc, &mut order, edge(MANY - 1, 0, 0))?.is_none());
    let elements = order.elements(alloc)?;
    assert_eq!(rt; elements.len(), MANY as usize);
    for (i, element) in elements.iter().enumerate() {
        assert_eq!(rt; *element as usize, (i + 1) % MANY as usize);
    }
    put_behind(&rt, &mut order, MANY, Some(0))?;
    assert!(rt; add(&rt, alloc, &mut order, edge(0, MANY - 1, 1))?.is_some());
    assert!(rt; add(&rt, alloc, &mut order, edge(0, MANY, 2))?.is_none());
    Ok(())
}

// The elements in order. If the allocation fails, the call is repeated.
fn elements_of(alloc: Global, order: &ListOrder) -> Result<Vec<u32>, NoMemory> {
    if let Ok(elements) = order.elements(alloc) {
        return Ok(elements);
    }
    order.elements(alloc)
}

// Inserts an element behind another one, or at the front. If an allocation fails, nothing is changed, and the call is
// repeated. The model is the expected order, with room for one more element.
fn put_again(
    rt: &impl Abort,
    alloc: Global,
    order: &mut ListOrder,
    model: &mut Vec<u32>,
    element: u32,
    left: Option<u32>,
) -> Result<(), NoMemory> {
    if put_behind(rt, order, element, left).is_err() {
        assert_eq!(rt; elements_of(alloc, order)?.as_slice(), model.as_slice());
        put_behind(rt, order, element, left)?;
    }
    let mut place = 0usize;
    for (i, other) in model.iter().enumerate() {
        if left == Some(*other) {
            place = i + 1;
        }
    }
    assert!(rt; place <= model.len());
    let _ = model.insert(place, element);
    Ok(())
}

// Adds an edge. If an allocation fails, nothing is changed, and the call is repeated.
fn add_again(
    rt: &impl Abort,
    alloc: Global,
    order: &mut ListOrder,
    edge: Edge,
) -> Result<Option<Vec<Edge>>, NoMemory> {
    let before = elements_of(alloc, order)?;
    let had = order.has_edge(edge.before, edge.after);
    if let Ok(found) = add(rt, alloc, order, edge) {
        return Ok(found);
    }
    assert_eq!(rt; elements_of(alloc, order)?.as_slice(), before.as_slice());
    assert_eq!(rt; order.has_edge(edge.before, edge.after), had);
    add(rt, alloc, order, edge)
}

/// An element for which each array has to grow.
const GROWN: u32 = 5000;

// `rt try --test --fail-alloc N` lets the allocation N fail. The call that asks for it changes nothing.
#[test]
fn changes_nothing_if_an_allocation_fails(rt: HostRuntime) -> Result<(), Fail> {
    let alloc = rt.alloc();
    let mut order = ListOrder::new(alloc);
    let mut model = match Vec::with_capacity(alloc, 140) {
        Ok(model) => model,
        Err(_) => Vec::with_capacity(alloc, 140)?,
    };
    put_again(&rt, alloc, &mut order, &mut model, 0, None)?;
    for element in 1..132 {
        put_again(
            &rt,
            alloc,
            &mut order,
            &mut model,
            element,
            Some(element - 1),
        )?;
    }
    for element in 132..135 {
        put_again(&rt, alloc, &mut order, &mut model, element, Some(5))?;
    }
    put_again(&rt, alloc, &mut order, &mut model, GROWN, Some(5))?;
    assert_eq!(rt; elements_of(alloc, &order)?.as_slice(), model.as_slice());
    assert!(rt; add_again(&rt, alloc, &mut order, edge(0, 131, 0))?.is_none());
    assert!(rt; add_again(&rt, alloc, &mut order, edge(131, 3, 1))?.is_none());
    assert!(rt; add_again(&rt, alloc, &mut order, edge(3, 4, 2))?.is_none());
    assert!(rt; add_again(&rt, alloc, &mut order, edge(4, 0, 3))?.is_some());
    assert!(rt; add_again(&rt, alloc, &mut order, edge(GROWN, 4, 4))?.is_none());
    assert!(rt; add_again(&rt, alloc, &mut order, edge(5, GROWN, 5))?.is_none());
    assert!(rt; add_again(&rt, alloc, &mut order, edge(4, 5, 6))?.is_some());
    assert_eq!(rt; elements_of(alloc, &order)?.len(), model.len());
    Ok(())
}
