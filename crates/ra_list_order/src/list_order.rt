//! The kept order and its edges.
ghost use Rattle.std.specs.Prelude.{◌≡◌, ◌+◌, ◌<◌, ◌≤◌, ◌++◌, ◌∷◌, [], length, take, drop, vec_len, Contains, IfOk, OnOk, OnErr, IfSome, MatchBool, MatchOption, IsTrue, ◌↔◌};
ghost use Rattle.std.specs.List.Sorted.{IsPermutation};
ghost use Rattle.ra_labels.specs.declared.edge.Edge.{Edge};
ghost use Rattle.ra_labels.specs.Edges.{EachOnce, Extends, HasEdge, IsCycle};
ghost use Rattle.ra_list_order.specs.ListOrder.{IsPut};

use crate::cut::index_of;
use crate::edge_pool::EdgePool;
use crate::gathering::can_be_done;
use crate::parts::{part_with, write_back};
use crate::search::{Plan, search};
use crate::sequence::{Sequence, Span};
use crate::sweep::sweep;
use crate::way::{is_marked, way_to};
use ra_labels::{Edge, NoMemory};
use std::alloc::Global;
use std::marker::Model;

/// The kept order: elements in an order that extends the edges. Elements are numbers, and memory is O(m + e) with the
/// greatest element `m` and `e` edges.
#[derive(Drop)]
pub struct ListOrder {
    /// The elements in order.
    order: Sequence,
    /// The edges in the order in which they were added.
    edges: EdgePool,
}

impl Model for ListOrder {
    ghost use Rattle.ra_list_order.specs.Chunks.{joined};
    ghost use Rattle.ra_list_order.specs.ListOrder.{ListOrder, ListOrderKept};

    ghost Value = { ListOrder };

    ghost view = { λ a. record { order = joined a.order; edges = a.edges } };

    ghost invariant = { λ a. ListOrderKept (joined a.order) a.edges };
}

impl ListOrder {
    /// Creates an order without elements and edges. Does not allocate.
    pub fn new(alloc: Global) -> ListOrder
        // There are no elements.
        ensures order { result.order ≡ [] }
        // There are no edges.
        ensures edges { result.edges ≡ [] }
    {
        ListOrder {
            order: Sequence::new(alloc),
            edges: EdgePool::new(alloc),
        }
    }

    /// Does nothing. Its clauses state for the proofs of callers what holds of every `ListOrder`.
    pub fn invariant(&self)
        // Each element is in the order once.
        ensures once { EachOnce self.now.order }
        // Each edge is from an element to a later one.
        ensures extends { Extends self.now.order self.now.edges }
    {
        let _chunks = self.order.chunk_count();
    }

    /// Returns `true` if the element is in the order.
    ///
    /// # Complexity
    ///
    /// O(1).
    pub fn contains(&self, element: u32) -> bool
        // The result is `true` exactly if the element is in the order.
        ensures { IsTrue result ↔ Contains self.now.order element }
    {
        self.order.contains(element)
    }

    /// Returns `true` if an edge from one element to another was added, whatever its label.
    ///
    /// # Complexity
    ///
    /// O(log n) with `n` edges.
    pub fn has_edge(&self, before: u32, after: u32) -> bool
        // The result is `true` exactly if one of the edges is from `before` to `after`.
        ensures { IsTrue result ↔ HasEdge self.now.edges before after }
    {
        self.edges.contains(before, after)
    }

    /// Returns the number of edges.
    pub fn edge_count(&self) -> usize
        // The result is the number of edges.
        ensures { result ≡ length self.now.edges }
    {
        self.edges.len()
    }

    /// Returns the elements in order.
    ///
    /// # Errors
    ///
    /// `NoMemory` if allocation fails.
    ///
    /// # Complexity
    ///
    /// O(n) with `n` elements.
    pub fn elements(&self, alloc: Global) -> Result<Vec<u32>, NoMemory>
        // The result is the elements in the kept order.
        ensures { IfOk result (λ elements. elements.items ≡ self.now.order) }
    {
        let span = Span {
            first: 0,
            end: self.order.chunk_count(),
        };
        self.order.copied(alloc, span)
    }

    /// Inserts an element directly behind its left neighbour. Without a left neighbour the element is inserted directly
    /// before its right neighbour, and without both at the front.
    ///
    /// # Errors
    ///
    /// `NoMemory` if allocation fails or if there would be 2^32 groups of elements; nothing is changed.
    ///
    /// # Complexity
    ///
    /// O(c), amortized, with `c` elements in the chunk of the neighbour, which are at most 128. Once in about 64
    /// insertions a full chunk is split, which takes O(n / 64) more with `n` elements. An element that is greater than
    /// each earlier one by `d` takes O(d) more.
    pub fn put(
        &mut self,
        element: u32,
        left: Option<u32>,
        right: Option<u32>,
    ) -> Result<(), NoMemory>
        // The element is not in the order.
        requires new { ¬ Contains self.old.order element }
        // The left neighbour, if there is one, is in the order.
        requires left { IfSome left (λ l. Contains self.old.order l) }
        // The right neighbour, if there is one, is in the order.
        requires right { IfSome right (λ r. Contains self.old.order r) }
        // The edges are unchanged, even after a failure.
        ensures edges { self.new.edges ≡ self.old.edges }
        // The element is inserted next to the neighbour that decides; the others keep their order.
        ensures put { OnOk result (IsPut self.old.order left right element self.new.order) }
        // After a failure nothing is changed.
        ensures failed { OnErr result (self.new ≡ self.old) }
    {
        match left {
            Some(left) => self.order.insert_behind(left, element),
            None => match right {
                Some(right) => self.order.insert_before(right, element),
                None => self.order.insert_first(element),
            },
        }
    }

    /// Adds an edge, and moves elements so that the order extends it; or returns a cycle of edges, this one among them.
    ///
    /// # Errors
    ///
    /// `NoMemory` if allocation fails or if there would be 2^32 edges; nothing is changed.
    ///
    /// # Complexity
    ///
    /// With `n` elements and edges, O(log n + c) if `before` is already before `after`: `c` is that of the elements in
    /// one chunk, at most 128. Otherwise O(s (log n + c)): `s` is the number of edges that the search walks, O(√m) of
    /// `m` edges, amortized. An edge that closes a cycle takes O(n log n).
    pub fn add(
        &mut self,
        alloc: Global,
        before: u32,
        after: u32,
        label: u32,
    ) -> Result<Option<Vec<Edge>>, NoMemory>
        // The earlier element is in the order.
        requires before { Contains self.old.order before }
        // The later element is in the order.
        requires after { Contains self.old.order after }
        // The elements are the same; only their order may change.
        ensures elements { IsPermutation self.old.order self.new.order }
        // The order extends the edges.
        ensures extends { Extends self.new.order self.new.edges }
        // The result is `None` and the edge is added behind the others, or the result is a cycle of the edges and this
        // one, and nothing is changed.
        ensures answer { let edge : Edge = record { before = before; after = after; label = label } in
            let edges = self.old.edges ++ edge ∷ [] in
            IfOk result (λ found. MatchOption found (self.new.edges ≡ edges)
            (λ cycle. (self.new ≡ self.old) × IsCycle edges cycle.items)) }
        // After a failure nothing is changed.
        ensures failed { OnErr result (self.new ≡ self.old) }
    {
        let edge = Edge {
            before,
            after,
            label,
        };
        if self.order.span(after, before).is_none() {
            self.edges.push(edge)?;
            return Ok(None);
        }
        if self.rearrange(alloc, edge)? {
            return Ok(None);
        }
        self.add_by_sweep(alloc, edge)
    }

    // Returns the elements that move for a new edge that is against the order, or `None` if the edge closes a cycle.
    fn plan(&self, alloc: Global, edge: Edge) -> Result<Option<Plan>, NoMemory> {
        search(alloc, &self.order, &self.edges, edge)
    }

    /// Returns the number of steps of the two-way search for a new edge: the edges that it walks, and the elements that
    /// move. Returns `None` if it finds no plan, so that `add` sweeps along the part of the order between the two ends.
    /// No clause speaks of costs: tests read this number.
    ///
    /// # Errors
    ///
    /// `NoMemory` if allocation fails.
    ///
    /// # Complexity
    ///
    /// That of the search.
    pub fn search_steps(
        &self,
        alloc: Global,
        before: u32,
        after: u32,
    ) -> Result<Option<usize>, NoMemory> {
        let edge = Edge {
            before,
            after,
            label: 0,
        };
        match self.plan(alloc, edge)? {
            Some(plan) => {
                let moved = plan.ancestors.len().saturating_add(plan.descendants.len());
                Ok(Some(plan.steps.saturating_add(moved)))
            }
            None => Ok(None),
        }
    }

    /// Returns the number of chunks that have the elements.
    pub fn chunk_count(&self) -> usize
        // Without chunks there are no elements.
        ensures { result ≡ 0 → self.now.order ≡ [] }
    {
        self.order.chunk_count()
    }

    /// Returns the number of elements in the chunk of an element. An insertion next to it moves at most as many.
    pub fn chunk_len(&self, element: u32) -> usize
        // The element is in the order.
        requires { Contains self.now.order element }
        // The element is one of them.
        ensures { 0 < result }
    {
        self.order.chunk_len(element)
    }

    // Adds an edge by a move of the elements that the two-way search finds. Returns `false`, and changes nothing, if
    // the search reaches an element from both sides.
    fn rearrange(&mut self, alloc: Global, edge: Edge) -> Result<bool, NoMemory>
        ensures elements { IsPermutation self.old.order self.new.order }
        ensures extends { Extends self.new.order self.new.edges }
        ensures answer { IfOk result (λ done. MatchBool done (self.new.edges ≡ self.old.edges ++ edge ∷ [])
            (self.new ≡ self.old)) }
        ensures failed { OnErr result (self.new ≡ self.old) }
    {
        let Some(plan) = self.plan(alloc, edge)? else {
            return Ok(false);
        };
        let mut moved = Vec::new(alloc);
        moved.extend_from_slice(&plan.ancestors)?;
        moved.extend_from_slice(&plan.descendants)?;
        let Some(index) = index_of(alloc, &moved)? else {
            return Ok(false);
        };
        if !self.order.can_be_cut(plan.cut)
            || !can_be_done(alloc, &self.order, &self.edges, &plan, &index, edge)?
        {
            return Ok(false);
        }
        let kept = self.edges.len();
        self.edges.push(edge)?;
        match self.order.gather(alloc, plan.cut, &moved, &index) {
            Ok(()) => Ok(true),
            Err(error) => {
                self.edges.truncate(kept);
                Err(error)
            }
        }
    }

    // Adds an edge by a sweep over the part of the order between its ends. Finds the cycle that the edge closes, if
    // there is one.
    fn add_by_sweep(&mut self, alloc: Global, edge: Edge) -> Result<Option<Vec<Edge>>, NoMemory>
        // The earlier element is in the order.
        requires before { Contains self.old.order edge.before }
        // The later element is in the order.
        requires after { Contains self.old.order edge.after }
        // The elements are the same; only their order may change.
        ensures elements { IsPermutation self.old.order self.new.order }
        // The order extends the edges.
        ensures extends { Extends self.new.order self.new.edges }
        // The result is `None` and the edge is added behind the others, or the result is a cycle of the edges and this
        // one, and nothing is changed.
        ensures answer { let edges = self.old.edges ++ edge ∷ [] in
            IfOk result (λ found. MatchOption found (self.new.edges ≡ edges)
            (λ cycle. (self.new ≡ self.old) × IsCycle edges cycle.items)) }
        // After a failure nothing is changed.
        ensures failed { OnErr result (self.new ≡ self.old) }
    {
        let Some(span) = self.order.span(edge.after, edge.before) else {
            self.edges.push(edge)?;
            return Ok(None);
        };
        let mut elements = self.order.copied(alloc, span)?;
        let (start, end) = part_with(&elements, edge.after, edge.before);
        let swept = sweep(alloc, &elements[start..end], &self.edges, edge.after)?;
        if is_marked(edge.after, &swept.walked, edge.before) {
            let mut cycle = way_to(alloc, edge.after, &swept.walked, edge.before)?;
            cycle.insert(0, edge)?;
            return Ok(Some(cycle));
        }
        let mut parts = swept.stays;
        parts.extend_from_slice(&swept.moves)?;
        self.edges.push(edge)?;
        write_back(&mut elements, start, &parts);
        self.order.overwrite(span, &elements);
        Ok(None)
    }

    /// Removes all edges except the given number of earliest ones. The order is unchanged: it extends them too.
    ///
    /// # Complexity
    ///
    /// O(log n) with `n` edges for each edge that is removed.
    pub fn keep_edges(&mut self, count: usize)
        // The order is unchanged.
        ensures order { self.new.order ≡ self.old.order }
        // The given number of earliest edges remain.
        ensures edges { self.new.edges ≡ take count self.old.edges }
    {
        self.edges.truncate(count);
    }
}
