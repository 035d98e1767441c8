//! Tests of the costs of `ra_list_order`, which no clause states: the edges that are walked and the elements that move.
use ra_labels::NoMemory;
use ra_list_order::ListOrder;
use std::alloc::Global;
use std::process::Abort;
use std::test::Fail;

// Returns an order of the elements below a number, in ascending order.
fn order_of(rt: &impl Abort, alloc: Global, count: u32) -> Result<ListOrder, NoMemory> {
    let mut order = ListOrder::new(alloc);
    let mut left = None;
    for element in 0..count {
        assert!(rt; !order.contains(element));
        if let Some(left) = left {
            assert!(rt; order.contains(left));
        }
        order.put(element, left, None)?;
        left = Some(element);
    }
    Ok(order)
}

// Returns the index of an element, or 0 if it is not there.
fn index_of(elements: &[u32], element: u32) -> usize {
    for (i, other) in elements.iter().enumerate() {
        if *other == element {
            return i;
        }
    }
    0
}

// Returns the number of elements from one to the other, or 0 if the second one is before the first one.
fn stretch(alloc: Global, order: &ListOrder, first: u32, last: u32) -> Result<usize, NoMemory> {
    let elements = order.elements(alloc)?;
    let start = index_of(elements.as_slice(), first);
    let end = index_of(elements.as_slice(), last);
    Ok(end.saturating_sub(start))
}

// Adds an edge that closes no cycle. Returns the number of steps: those of the two-way search and the elements that it
// moves, or the elements of the part that a sweep walks along.
fn steps_of_edge(
    rt: &impl Abort,
    alloc: Global,
    order: &mut ListOrder,
    before: u32,
    after: u32,
) -> Result<usize, NoMemory> {
    let steps = match order.search_steps(alloc, before, after)? {
        Some(steps) => steps,
        None => stretch(alloc, order, after, before)?,
    };
    assert!(rt; order.contains(before) && order.contains(after));
    assert!(rt; order.add(alloc, before, after, 0)?.is_none());
    Ok(steps)
}

/// The number of elements of each kind in the fan.
const FAN: u32 = 1000;

// The edges b -> z -> u and v -> w -> a for 1,000 elements of each kind, and w -> z. The order is b, v, w, a, z, u.
fn fan(rt: &impl Abort, alloc: Global) -> Result<ListOrder, NoMemory> {
    let w = 2 * FAN;
    let z = 3 * FAN + 1;
    let mut order = order_of(rt, alloc, 4 * FAN + 2)?;
    let _ = steps_of_edge(rt, alloc, &mut order, w, z)?;
    for i in 0..FAN {
        let _ = steps_of_edge(rt, alloc, &mut order, i, z)?;
        let _ = steps_of_edge(rt, alloc, &mut order, z, z + 1 + i)?;
        let _ = steps_of_edge(rt, alloc, &mut order, FAN + i, w)?;
        let _ = steps_of_edge(rt, alloc, &mut order, w, w + 1 + i)?;
    }
    Ok(order)
}

// Then 1,000 edges a -> b. Each side of a search that does not go on at the first and the last open element could walk
// 1,000 edges.
#[test]
fn joins_a_fan_in_few_steps(rt: HostRuntime) -> Result<(), Fail> {
    let alloc = rt.alloc();
    let mut order = fan(&rt, alloc)?;
    let mut steps = 0usize;
    for i in 0..FAN {
        let more = steps_of_edge(&rt, alloc, &mut order, 2 * FAN + 1 + i, i)?;
        steps = steps.saturating_add(more);
    }
    assert!(rt; steps <= 10_000, "{steps} steps");
    assert!(rt; steps >= 1000);
    Ok(())
}

/// The number of chains, and of the elements of each.
const CHAINS: u32 = 40;

// Each of 40 chains of 40 elements is brought before each earlier one. There are 2,340 edges. Twice their number to the
// power 1.5 is 226,386.
#[test]
fn brings_chains_before_each_other(rt: HostRuntime) -> Result<(), Fail> {
    let alloc = rt.alloc();
    let mut order = order_of(&rt, alloc, CHAINS * CHAINS)?;
    let mut steps = 0usize;
    for chain in 0..CHAINS {
        let first = chain * CHAINS;
        for i in 1..CHAINS {
            let more = steps_of_edge(&rt, alloc, &mut order, first + i - 1, first + i)?;
            steps = steps.saturating_add(more);
        }
    }
    for chain in 1..CHAINS {
        for earlier in 0..chain {
            let last = chain * CHAINS + CHAINS - 1;
            let more = steps_of_edge(&rt, alloc, &mut order, last, earlier * CHAINS)?;
            steps = steps.saturating_add(more);
        }
    }
    assert!(rt; steps <= 226_386, "{steps} steps");
    assert!(rt; steps >= 10_000);
    Ok(())
}

/// The number of elements of the long stretch.
const STRETCH: u32 = 4000;

// Of 4,000 elements the first one moves behind the last one, again and again.
#[test]
fn moves_along_a_stretch_in_few_steps(rt: HostRuntime) -> Result<(), Fail> {
    let alloc = rt.alloc();
    let mut order = order_of(&rt, alloc, STRETCH)?;
    let mut steps = 0usize;
    for i in 0..STRETCH / 2 {
        let more = steps_of_edge(&rt, alloc, &mut order, STRETCH - 1, i)?;
        steps = steps.saturating_add(more);
    }
    assert!(rt; steps <= 10_000, "{steps} steps");
    assert!(rt; steps >= 2000);
    Ok(())
}

/// The number of elements of the order that is rotated.
const ROTATED: u32 = 1000;

// The first of 1,000 elements moves behind the last one 6,000 times. At 96 moved elements a chunk, 62 chunks would be
// split off. There are never more than 47: if there are more, all elements are put into 11.
#[test]
fn keeps_chunks_few(rt: HostRuntime) -> Result<(), Fail> {
    let alloc = rt.alloc();
    let mut order = order_of(&rt, alloc, ROTATED)?;
    let mut most = 0usize;
    for i in 0..6 * ROTATED {
        let last = (i + ROTATED - 1) % ROTATED;
        let _ = steps_of_edge(&rt, alloc, &mut order, last, i % ROTATED)?;
        order.keep_edges(0);
        most = most.max(order.chunk_count());
    }
    assert!(rt; most <= 47, "{most} chunks");
    assert!(rt; most >= 40);
    let elements = order.elements(alloc)?;
    for (i, element) in elements.iter().enumerate() {
        assert_eq!(rt; *element as usize, i);
    }
    Ok(())
}

/// The number of elements before those that are inserted in the middle.
const MANY: u32 = 1000;

// Inserts an element behind another one. Returns the number of steps: the elements of the chunk, which are searched and
// moved, and all chunks if one was split, since the index of each may be raised.
fn steps_of_insertion(
    rt: &impl Abort,
    order: &mut ListOrder,
    element: u32,
    left: u32,
) -> Result<usize, NoMemory> {
    assert!(rt; order.contains(left));
    assert!(rt; !order.contains(element));
    let chunks = order.chunk_count();
    order.put(element, Some(left), None)?;
    let raised = if order.chunk_count() == chunks {
        0
    } else {
        order.chunk_count()
    };
    assert!(rt; order.contains(left));
    Ok(order.chunk_len(left).saturating_add(raised))
}

// 100,000 insertions at the front of the second half take at most 160 steps each. Without chunks they would take
// 5,000,000,000 in all.
#[test]
fn inserts_in_the_middle_in_few_steps(rt: HostRuntime) -> Result<(), Fail> {
    let alloc = rt.alloc();
    let mut order = order_of(&rt, alloc, MANY)?;
    let mut steps = 0usize;
    for element in MANY..MANY + 100_000 {
        let more = steps_of_insertion(&rt, &mut order, element, MANY / 2)?;
        steps = steps.saturating_add(more);
        assert!(rt; steps <= 16_000_000, "{steps} steps");
    }
    assert!(rt; steps > 100_000);
    Ok(())
}
