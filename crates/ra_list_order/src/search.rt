//! The two-way search: finds the elements that move for a new edge, and where they move to.

use crate::cut::Spot;
use crate::edge_pool::EdgePool;
use crate::sequence::Sequence;
use ra_labels::{Edge, NoMemory};
use std::alloc::Global;
use std::collections::BTreeMap;

/// The elements that move for a new edge, each list in the order of the sequence, and where they move to.
#[derive(Drop)]
pub struct Plan {
    /// The cut of the sequence where the ancestors and then the descendants move to.
    pub cut: Spot,
    /// Elements behind the cut from which the beginning of the new edge is reachable.
    pub ancestors: Vec<u32>,
    /// Elements before the cut that are reachable from the end of the new edge.
    pub descendants: Vec<u32>,
    /// The number of edges that were walked.
    pub steps: usize,
}

// The elements that were reached from one end of the new edge.
#[derive(Drop)]
struct Side {
    // The reached elements.
    reached: BTreeMap<Spot, u32>,
    // The reached elements with edges that are not walked yet, each with the number of the next edge.
    open: BTreeMap<Spot, usize>,
}

impl Side {
    fn new(alloc: Global) -> Side {
        Side {
            reached: BTreeMap::new(alloc),
            open: BTreeMap::new(alloc),
        }
    }

    // Adds an element with the number of the first edge to walk, or 0, unless it was reached before.
    fn reach(&mut self, spot: Spot, element: u32, number: usize) -> Result<(), NoMemory> {
        if self.reached.insert(spot, element)?.is_none() {
            self.set_next(spot, number)?;
        }
        Ok(())
    }

    // Sets the number of the next edge to walk from an element, or 0 if there is none.
    fn set_next(&mut self, spot: Spot, number: usize) -> Result<(), NoMemory> {
        if number == 0 {
            let _ = self.open.remove(&spot);
        } else {
            self.open.insert(spot, number)?;
        }
        Ok(())
    }

    fn first_open(&self) -> Option<(Spot, usize)> {
        let (spot, number) = self.open.first_key_value()?;
        Some((*spot, *number))
    }

    fn last_open(&self) -> Option<(Spot, usize)> {
        let (spot, number) = self.open.last_key_value()?;
        Some((*spot, *number))
    }

    fn has_reached(&self, spot: Spot) -> bool {
        self.reached.contains_key(&spot)
    }

    // Returns the reached elements before the cut, or those behind it, in order.
    fn part(&self, alloc: Global, cut: Spot, is_front: bool) -> Result<Vec<u32>, NoMemory> {
        let mut part = Vec::new(alloc);
        for (spot, element) in &self.reached {
            if (*spot < cut) == is_front {
                part.push(*element)?;
            }
        }
        Ok(part)
    }
}

/// Searches forwards from the end of a new edge and backwards from its beginning, an edge each in turn. Forwards it
/// goes on from the first element with an edge that is not walked yet, backwards from the last one, until these two
/// meet (Haeupler, Kavitha, Mathew, Sen and Tarjan, 2012). Returns `None` if one side reaches an element of the other
/// one, so that the new edge closes a cycle.
///
/// No clause says that the result is right: `can_be_done` tests it.
///
/// # Errors
///
/// `NoMemory` if allocation fails.
///
/// # Complexity
///
/// O(s (log s + c)) with `c` elements in one chunk, and `s` edges that are walked: O(√m) of `m` edges, amortized.
pub fn search(
    alloc: Global,
    order: &Sequence,
    edges: &EdgePool,
    new: Edge,
) -> Result<Option<Plan>, NoMemory> {
    let (Some(start), Some(end)) = (order.find(new.after), order.find(new.before)) else {
        return Ok(None);
    };
    let mut descendants = Side::new(alloc);
    descendants.reach(start, new.after, edges.last_from(new.after))?;
    let mut ancestors = Side::new(alloc);
    ancestors.reach(end, new.before, edges.last_into(new.before))?;
    if start == end {
        return Ok(None);
    }
    let mut steps = 0usize;
    for _step in 0..edges.len() {
        if !has_next(&descendants, &ancestors) {
            break;
        }
        steps = steps.saturating_add(2);
        if walk_from(order, edges, &mut descendants, &ancestors)?
            || walk_into(order, edges, &mut ancestors, &descendants)?
        {
            return Ok(None);
        }
    }
    let plan = plan_of(alloc, &descendants, &ancestors, end, steps)?;
    Ok(Some(plan))
}

// Returns `true` if the first open descendant is before the last open ancestor.
fn has_next(descendants: &Side, ancestors: &Side) -> bool {
    match (descendants.first_open(), ancestors.last_open()) {
        (Some((first, _)), Some((last, _))) => first < last,
        _ => false,
    }
}

// Walks an edge from the first open descendant. Returns `true` if it ends at an ancestor.
fn walk_from(
    order: &Sequence,
    edges: &EdgePool,
    descendants: &mut Side,
    ancestors: &Side,
) -> Result<bool, NoMemory> {
    let Some((from, number)) = descendants.first_open() else {
        return Ok(false);
    };
    let Some((edge, next)) = edges.edge_from(number) else {
        return Ok(false);
    };
    descendants.set_next(from, next)?;
    let Some(spot) = order.find(edge.after) else {
        return Ok(false);
    };
    descendants.reach(spot, edge.after, edges.last_from(edge.after))?;
    Ok(ancestors.has_reached(spot))
}

// Walks an edge to the last open ancestor. Returns `true` if it begins at a descendant.
fn walk_into(
    order: &Sequence,
    edges: &EdgePool,
    ancestors: &mut Side,
    descendants: &Side,
) -> Result<bool, NoMemory> {
    let Some((into, number)) = ancestors.last_open() else {
        return Ok(false);
    };
    let Some((edge, next)) = edges.edge_into(number) else {
        return Ok(false);
    };
    ancestors.set_next(into, next)?;
    let Some(spot) = order.find(edge.before) else {
        return Ok(false);
    };
    ancestors.reach(spot, edge.before, edges.last_into(edge.before))?;
    Ok(descendants.has_reached(spot))
}

// Returns the plan after the search. The cut is before the first open descendant. If none is before the beginning of
// the new edge, the cut is behind this one, and no ancestor moves.
fn plan_of(
    alloc: Global,
    descendants: &Side,
    ancestors: &Side,
    end: Spot,
    steps: usize,
) -> Result<Plan, NoMemory> {
    if let Some((first, _)) = descendants.first_open()
        && first < end
    {
        return Ok(Plan {
            cut: first,
            ancestors: ancestors.part(alloc, first, false)?,
            descendants: descendants.part(alloc, first, true)?,
            steps,
        });
    }
    Ok(Plan {
        cut: Spot {
            chunk: end.chunk,
            index: end.index.saturating_add(1),
        },
        ancestors: Vec::new(alloc),
        descendants: descendants.part(alloc, end, true)?,
        steps,
    })
}
