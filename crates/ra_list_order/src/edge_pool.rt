//! The edges in the order in which they were added, linked by the element where they begin, and counted by their ends.
ghost use Rattle.std.specs.Prelude.{◌≡◌, ◌-◌, ◌++◌, ◌∷◌, [], length, take, IsTrue, ◌↔◌, OnOk, OnErr, unwrap_or};
ghost use Rattle.std.specs.BTreeMap.{get};
ghost use Rattle.ra_labels.specs.declared.edge.Edge.{Edge};
ghost use Rattle.ra_list_order.specs.EdgePool.{pair_cmp};
ghost use Rattle.ra_labels.specs.Edges.{HasEdge};
ghost use Rattle.ra_list_order.specs.Sweep.{PushesEdgesFrom, PushesEdgesInto};

use crate::numbers::{extend_to, next_index, number_at, set_number};
use ra_labels::{Edge, NoMemory};
use std::alloc::Global;
use std::collections::BTreeMap;
use std::marker::Model;

/// Edges in the order in which they were added. The edges from one element are found without a walk along the others,
/// and whether one leads from an element to another without a walk at all.
#[derive(Drop)]
pub struct EdgePool {
    /// For each element, the number of the last edge that begins there, its index plus one, or 0 if none does. There
    /// are none past the end.
    lasts: Vec<u32>,
    /// For each pair of elements, the number of edges from the first one to the second one.
    counts: BTreeMap<(u32, u32), u32>,
    /// The edges.
    edges: Vec<Edge>,
    /// For each edge, the number of the previous one from the same element, or 0.
    links: Vec<u32>,
    /// For each element, the number of the last edge that ends there, or 0.
    lasts_into: Vec<u32>,
    /// For each edge, the number of the previous one to the same element, or 0.
    links_into: Vec<u32>,
}

impl Model for EdgePool {
    ghost use Rattle.std.specs.Prelude.{List};
    ghost use Rattle.ra_labels.specs.declared.edge.Edge.{Edge};
    ghost use Rattle.std.specs.BTreeMap.{get};
    ghost use Rattle.ra_list_order.specs.EdgePool.{pair_cmp, EdgePoolKept};
    ghost use Rattle.ra_list_order.specs.Numbers.{number_in};

    ghost Value = { List Edge };

    ghost view = { λ a. a.edges.items };

    ghost invariant = { λ a.
        EdgePoolKept (number_in a.lasts.items) (number_in a.lasts_into.items) (get pair_cmp a.counts) a.edges.items
        a.links.items a.links_into.items };
}

impl EdgePool {
    /// Creates an empty pool. Does not allocate.
    pub fn new(alloc: Global) -> EdgePool
        ensures { result ≡ [] }
    {
        EdgePool {
            lasts: Vec::new(alloc),
            counts: BTreeMap::new(alloc),
            edges: Vec::new(alloc),
            links: Vec::new(alloc),
            lasts_into: Vec::new(alloc),
            links_into: Vec::new(alloc),
        }
    }

    /// Appends an edge.
    ///
    /// # Errors
    ///
    /// `NoMemory` if allocation fails or if there would be 2^32 edges; nothing is changed.
    ///
    /// # Complexity
    ///
    /// O(log n) with `n` edges, amortized. Ends that are greater than those of each earlier edge by `d` take O(d) more.
    pub fn push(&mut self, edge: Edge) -> Result<(), NoMemory>
        ensures pushed { OnOk result (self.new ≡ self.old ++ edge ∷ []) }
        ensures failed { OnErr result (self.new ≡ self.old) }
    {
        let number = next_index(self.edges.len())? + 1;
        self.edges.reserve(1)?;
        self.links.reserve(1)?;
        self.links_into.reserve(1)?;
        extend_to(&mut self.lasts, edge.before)?;
        extend_to(&mut self.lasts_into, edge.after)?;
        let count = count_of(&self.counts, edge.before, edge.after);
        self.counts.insert((edge.before, edge.after), count + 1)?;
        let link = number_at(&self.lasts, edge.before);
        set_number(&mut self.lasts, edge.before, number);
        self.links.push_reserved(link);
        let link_into = number_at(&self.lasts_into, edge.after);
        set_number(&mut self.lasts_into, edge.after, number);
        self.links_into.push_reserved(link_into);
        self.edges.push_reserved(edge);
        Ok(())
    }

    // Removes the last edge, if there is one.
    fn pop(&mut self)
        ensures { self.new ≡ take (length self.old - 1) self.old }
    {
        let Some(edge) = self.edges.pop() else {
            return;
        };
        let link = self.links.pop().unwrap_or(0);
        set_number(&mut self.lasts, edge.before, link);
        let link_into = self.links_into.pop().unwrap_or(0);
        set_number(&mut self.lasts_into, edge.after, link_into);
        let count = count_of(&self.counts, edge.before, edge.after);
        let _ = self.counts.insert((edge.before, edge.after), count - 1);
    }

    /// Removes all edges except the given number of earliest ones.
    ///
    /// # Complexity
    ///
    /// O(log n) with `n` edges for each edge that is removed.
    pub fn truncate(&mut self, count: usize)
        ensures { self.new ≡ take count self.old }
    {
        while self.len() > count {
            self.pop();
        }
    }

    /// Returns the number of edges.
    pub fn len(&self) -> usize
        ensures { result ≡ length self.now }
    {
        self.edges.len()
    }

    /// Appends the edges from the element to the list.
    ///
    /// # Errors
    ///
    /// `NoMemory` if allocation fails.
    ///
    /// # Complexity
    ///
    /// O(length of the result).
    pub fn push_from(&self, walked: &mut Vec<Edge>, element: u32) -> Result<(), NoMemory>
        ensures { OnOk result (PushesEdgesFrom element self.now walked.old.items walked.new.items) }
    {
        let mut at = number_at(&self.lasts, element) as usize;
        while at > 0 {
            walked.push(self.edges[at - 1])?;
            at = self.links[at - 1] as usize;
        }
        Ok(())
    }

    /// Appends the edges to the element to the list.
    ///
    /// # Errors
    ///
    /// `NoMemory` if allocation fails.
    ///
    /// # Complexity
    ///
    /// O(length of the result).
    pub fn push_into(&self, walked: &mut Vec<Edge>, element: u32) -> Result<(), NoMemory>
        ensures { OnOk result (PushesEdgesInto element self.now walked.old.items walked.new.items) }
    {
        let mut at = number_at(&self.lasts_into, element) as usize;
        while at > 0 {
            walked.push(self.edges[at - 1])?;
            at = self.links_into[at - 1] as usize;
        }
        Ok(())
    }

    /// Returns the number of the last edge from the element: its index plus one, or 0 if there is none.
    pub fn last_from(&self, element: u32) -> usize {
        number_at(&self.lasts, element) as usize
    }

    /// Returns the number of the last edge to the element, or 0 if there is none.
    pub fn last_into(&self, element: u32) -> usize {
        number_at(&self.lasts_into, element) as usize
    }

    /// Returns the edge with this number, and the number of the previous one from the same element, or 0.
    pub fn edge_from(&self, number: usize) -> Option<(Edge, usize)> {
        let index = number.checked_sub(1)?;
        let edge = self.edges.get(index)?;
        let link = self.links.get(index)?;
        Some((*edge, *link as usize))
    }

    /// Returns the edge with this number, and the number of the previous one to the same element, or 0.
    pub fn edge_into(&self, number: usize) -> Option<(Edge, usize)> {
        let index = number.checked_sub(1)?;
        let edge = self.edges.get(index)?;
        let link = self.links_into.get(index)?;
        Some((*edge, *link as usize))
    }

    /// Returns `true` if the pool has an edge from one element to another.
    ///
    /// # Complexity
    ///
    /// O(log n) with `n` edges.
    pub fn contains(&self, before: u32, after: u32) -> bool
        ensures { IsTrue result ↔ HasEdge self.now before after }
    {
        count_of(&self.counts, before, after) > 0
    }
}

// Returns the count under a pair.
fn count_of(counts: &BTreeMap<(u32, u32), u32>, before: u32, after: u32) -> u32
    ensures { result ≡ unwrap_or (get pair_cmp counts.now (before, after)) 0 }
{
    counts.get(&(before, after)).copied().unwrap_or(0)
}
