//! The search for a shortest cycle of edges.
ghost use Rattle.std.specs.Prelude.{IfOk};
ghost use Rattle.ra_explain.specs.Conflicts.{IsCycleOrNone};

use ra_labels::{Edge, NoMemory};
use std::alloc::Global;
use std::collections::{BTreeMap, BTreeSet};

/// Edges, which are found by the element at which they begin.
#[derive(Drop)]
struct Graph<'a> {
    edges: &'a [Edge],
    // For each edge, the element at which it begins and its index, in ascending order.
    starts: Vec<(u32, usize)>,
}

impl<'a> Graph<'a> {
    fn of(alloc: Global, edges: &'a [Edge]) -> Result<Graph<'a>, NoMemory> {
        let mut starts = Vec::new(alloc);
        let mut index: usize = 0;
        for edge in edges {
            starts.push((edge.before, index))?;
            index = index.saturating_add(1);
        }
        starts.sort_unstable();
        Ok(Graph { edges, starts })
    }

    // Returns the edges that begin at the element, each with its index.
    fn from(&self, element: u32) -> &[(u32, usize)] {
        let first = self.starts.partition_point(|start| start.0 < element);
        let end = self.starts.partition_point(|start| start.0 <= element);
        self.starts.get(first..end).unwrap_or(&[])
    }
}

/// Returns a shortest cycle of the edges among those through one of the edges with the given indices, which it begins
/// with. If there are several, it is the first one found, in the order of the indices and then by breadth-first search
/// along the edges in their order. Returns an empty list if there is none.
///
/// # Errors
///
/// `NoMemory` if an allocation fails.
///
/// # Complexity
///
/// O(e log e) for `e` edges, and for each of the indices one search of O(e log e), which ends as soon as its cycle
/// would be no shorter than the one found so far.
pub fn shortest_cycle(
    alloc: Global,
    edges: &[Edge],
    through: &[usize],
) -> Result<Vec<Edge>, NoMemory>
    // The result is empty, or a cycle of the edges that passes each of its elements once.
    ensures { IfOk result (λ cycle. IsCycleOrNone edges.now cycle.items) }
{
    let numbers = shortest_numbers(alloc, edges, through)?;
    match numbers.first() {
        Some(first) => closed_walk(alloc, edges, start_of(edges, *first), &numbers),
        None => Ok(Vec::new(alloc)),
    }
}

fn start_of(edges: &[Edge], number: usize) -> u32 {
    match edges.get(number) {
        Some(edge) => edge.before,
        None => 0,
    }
}

// Returns the edges with these indices if they lead from the element back to it and pass no element twice, or else an
// empty list.
fn closed_walk(
    alloc: Global,
    edges: &[Edge],
    start: u32,
    numbers: &[usize],
) -> Result<Vec<Edge>, NoMemory>
    ensures { IfOk result (λ cycle. IsCycleOrNone edges.now cycle.items) }
{
    let mut walk = Vec::new(alloc);
    let mut passed = BTreeSet::new(alloc);
    let mut at = start;
    for number in numbers {
        match edges.get(*number) {
            Some(edge) if edge.before == at => {
                if !passed.insert(at)? {
                    return Ok(Vec::new(alloc));
                }
                walk.push(*edge)?;
                at = edge.after;
            }
            _ => return Ok(Vec::new(alloc)),
        }
    }
    if at == start {
        Ok(walk)
    } else {
        Ok(Vec::new(alloc))
    }
}

// Returns the indices of the edges of the cycle.
fn shortest_numbers(
    alloc: Global,
    edges: &[Edge],
    through: &[usize],
) -> Result<Vec<usize>, NoMemory> {
    let graph = Graph::of(alloc, edges)?;
    let mut found: Vec<usize> = Vec::new(alloc);
    for number in through {
        let most = if found.is_empty() {
            usize::MAX
        } else {
            found.len() - 1
        };
        let cycle = cycle_through(alloc, &graph, *number, most)?;
        if !cycle.is_empty() {
            found = cycle;
        }
    }
    Ok(found)
}

// Returns the indices of the edges of a shortest cycle that begins with this edge and has at most the given number of
// edges, or an empty list if there is none.
fn cycle_through(
    alloc: Global,
    graph: &Graph<'_>,
    number: usize,
    most: usize,
) -> Result<Vec<usize>, NoMemory> {
    let mut cycle = Vec::new(alloc);
    let Some(edge) = graph.edges.get(number) else {
        return Ok(cycle);
    };
    if edge.before == edge.after {
        cycle.push(number)?;
        return Ok(cycle);
    }
    let reached = reached_from(alloc, graph, edge.after, edge.before, most)?;
    let mut at = edge.before;
    for _ in 0..=graph.edges.len() {
        match reached.get(&at) {
            Some(by) => {
                cycle.push(*by)?;
                at = start_of(graph.edges, *by);
            }
            None => break,
        }
    }
    if !cycle.is_empty() {
        cycle.push(number)?;
        cycle.reverse();
    }
    Ok(cycle)
}

// Searches from one element for another one, at a distance below the given number. Returns for each element that was
// reached, apart from the first, the index of the edge by which it was reached first.
fn reached_from(
    alloc: Global,
    graph: &Graph<'_>,
    from: u32,
    to: u32,
    most: usize,
) -> Result<BTreeMap<u32, usize>, NoMemory> {
    let mut reached = BTreeMap::new(alloc);
    let mut queue: Vec<(u32, usize)> = Vec::new(alloc);
    queue.push((from, 1))?;
    for next in 0..=graph.edges.len() {
        let Some((element, distance)) = queue.get(next).copied() else {
            break;
        };
        if distance >= most || reached.contains_key(&to) {
            break;
        }
        for (_, by) in graph.from(element) {
            let end = match graph.edges.get(*by) {
                Some(edge) => edge.after,
                None => from,
            };
            if end != from && !reached.contains_key(&end) {
                reached.insert(end, *by)?;
                queue.push((end, distance.saturating_add(1)))?;
            }
        }
    }
    Ok(reached)
}
