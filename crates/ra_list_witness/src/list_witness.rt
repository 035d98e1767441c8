//! The witness of one list.
ghost use Rattle.std.specs.Prelude.{◌≡◌, ℕ, ◌+◌, ◌-◌, ◌<◌, ◌≤◌, ◌++◌, ◌∷◌, List, [], length, Contains, IfOk, OnOk, OnErr, MatchOption, MatchResult};
ghost use Rattle.std.specs.Result.{result_err};
ghost use Rattle.ra_labels.specs.Edges.{Extends, IsCycle};
ghost use Rattle.ra_labels.specs.Neighborhood.{neighborhood};
ghost use Rattle.ra_list_edges.specs.Pairs.{AddsPairs, with_pairs};
ghost use Rattle.ra_list_replica.specs.declared.mark.Mark.TheVariants as marks;
ghost use Rattle.ra_list_replica.specs.Numbers.{AreNumbersOf};
ghost use Rattle.ra_list_replica.specs.View.{IsPart, IsRead};
ghost use Rattle.ra_list_replica.specs.Listing.{AreAsLast};
ghost use Rattle.ra_list_witness.specs.ListWitness.{view_at, mark_of, AreSameMarks, IsMarked};
ghost use Rattle.ra_list_witness.specs.Named.{IsOrderOf, IsPlacement};
ghost use Rattle.ra_list_witness.specs.Causes.{IsHadAs, IsCauseAt, IsCauseOfInsertion};

use crate::finding::{find, find_placement};
use crate::named::{elements_of, name_edges};
use ra_labels::{Cause, Edge, Insertion, NoMemory};
use ra_list_edges::{Placement, add_insertion, add_part, add_read};
use ra_list_order::ListOrder;
use ra_list_replica::{ElementNumbers, Listed, Mark, ReplicaView};
use std::alloc::Global;
use std::marker::Model;

/// The elements of a list, what each replica has of them, and an order that extends the edges of all operations.
#[derive(Drop)]
pub struct ListWitness {
    /// The elements by number, in the order of their insertion.
    numbers: ElementNumbers,
    /// The view of each replica.
    views: Vec<ReplicaView>,
    /// The kept order and its edges, in which elements go by their numbers.
    order: ListOrder,
}

impl Model for ListWitness {
    ghost use Rattle.ra_list_witness.specs.ListWitness.{ListWitness, ListWitnessKept};
    ghost use Rattle.ra_list_witness.specs.Named.{all_named};

    ghost Value = { ListWitness };

    ghost view = { λ a. record {
      elements = a.numbers;
      views = a.views.items;
      edges = all_named a.numbers a.order.edges;
    } };

    ghost invariant = { λ a. ListWitnessKept a.numbers a.views.items a.order.order a.order.edges };
}

impl ListWitness {
    /// Creates the witness of an empty list, with the given number of replicas.
    ///
    /// # Errors
    ///
    /// `NoMemory` if allocation fails.
    ///
    /// # Complexity
    ///
    /// O(r), where `r` is the number of replicas.
    pub fn new(alloc: Global, replicas: u8) -> Result<ListWitness, NoMemory>
        // There are no elements.
        ensures elements { IfOk result (λ witness. witness.elements ≡ []) }
        // There are no edges.
        ensures edges { IfOk result (λ witness. witness.edges ≡ []) }
        // Each replica has a view.
        ensures views { IfOk result (λ witness. length witness.views ≡ replicas) }
        // No replica has an element.
        ensures marks { IfOk result (λ witness. (replica number : ℕ)
            → mark_of witness.views replica number ≡ marks.Missing) }
    {
        let mut views = Vec::with_capacity(alloc, replicas as usize)?;
        for _ in 0..replicas {
            views.push(ReplicaView::new(alloc))?;
        }
        Ok(ListWitness {
            numbers: ElementNumbers::new(alloc),
            views,
            order: ListOrder::new(alloc),
        })
    }

    /// Returns the number of the element if the replica has it, shown or removed.
    ///
    /// # Errors
    ///
    /// `Update` if the element was never inserted, `Query` if its insertion was not delivered to the replica.
    ///
    /// # Complexity
    ///
    /// O(log n) with `n` elements.
    pub fn find(&self, replica: u8, element: u32) -> Result<u32, Cause>
        // The replica has a view.
        requires { replica < length self.now.views }
        // The result is the element's number, and the replica has the element; or it is the cause.
        ensures { let marks = (view_at self.now.views replica).marks in
            MatchResult result (IsHadAs self.now.elements marks element)
            (IsCauseAt self.now.elements marks element) }
    {
        find(&self.numbers, &self.views[replica as usize], element)
    }

    /// Returns the numbers of a new element and of its neighbours, or the reason for which its insertion at the replica
    /// fails. Whether the edges of the insertion fit the others is not tested.
    ///
    /// # Errors
    ///
    /// `Update` if the element is 0 or was inserted before, or a neighbour never was; else `Query` if a neighbour was
    /// not delivered to the replica.
    ///
    /// # Complexity
    ///
    /// O(log n) with `n` elements.
    pub fn find_placement(&self, replica: u8, insertion: Insertion) -> Result<Placement, Cause>
        // The replica has a view.
        requires { replica < length self.now.views }
        // The error is the first reason that applies; there is none if no reason does.
        ensures cause { let marks = (view_at self.now.views replica).marks in
            IsCauseOfInsertion self.now.elements marks insertion (result_err result) }
        // The numbers are those of the new element and of the neighbours that are named.
        ensures placement { IfOk result (IsPlacement self.now.elements insertion) }
    {
        find_placement(&self.numbers, &self.views[replica as usize], insertion)
    }

    /// Inserts a new element, which the replica then shows, at the placement that `find_placement` found, and returns
    /// `None`; or returns a cycle of its edges and the earlier ones. After a cycle nothing is changed but the kept
    /// order, which may have the rejected element.
    ///
    /// # Errors
    ///
    /// `NoMemory` if allocation fails; nothing is changed but the kept order.
    ///
    /// # Complexity
    ///
    /// O(log n) with `n` elements, amortized, and `ra_list_edges::add_insertion`; and O(length of the cycle) if
    /// there is one.
    pub fn insert(
        &mut self,
        alloc: Global,
        replica: u8,
        insertion: Insertion,
        placement: Placement,
        label: u32,
    ) -> Result<Option<Vec<Edge>>, NoMemory>
        // The replica has a view.
        requires replica { replica < length self.old.views }
        // The element is new.
        requires new { ¬ Contains self.old.elements insertion.element }
        // The numbers are those of the new element and of the neighbours that are named.
        requires placement { IsPlacement self.old.elements insertion placement }
        // The next number fits 32 bits.
        requires few { length self.old.elements < 4294967295 }
        // The element has the next number, unless the result is a cycle.
        ensures elements { IfOk result (λ found. MatchOption found
            (self.new.elements ≡ self.old.elements ++ insertion.element ∷ [])
            (λ cycle. self.new.elements ≡ self.old.elements)) }
        // The replica shows the element, unless the result is a cycle; the other marks are unchanged.
        ensures marks { IfOk result (λ found. MatchOption found
            (IsMarked self.old.views replica (length self.old.elements) marks.Shown self.new.views)
            (λ cycle. AreSameMarks self.old.views self.new.views)) }
        // All edges are added; or the result is a cycle, and the edges are unchanged.
        ensures edges { IfOk result (λ found. MatchOption found
            (AddsPairs label (neighborhood insertion) self.old.edges self.new.edges)
            (λ cycle. (self.new.edges ≡ self.old.edges)
            × IsCycle (with_pairs label (neighborhood insertion) self.old.edges) cycle.items)) }
        // After a failed allocation the elements and the edges are unchanged.
        ensures failed { OnErr result ((self.new.elements ≡ self.old.elements) × (self.new.edges ≡ self.old.edges)) }
        // After a failed allocation the marks are unchanged.
        ensures failed_marks { OnErr result (AreSameMarks self.old.views self.new.views) }
        // The last reads are unchanged, even after a failure.
        ensures lasts { (other : ℕ) → (view_at self.new.views other).last ≡ (view_at self.old.views other).last }
    {
        self.views[replica as usize].reserve(placement.element)?;
        self.numbers.add(insertion.element)?;
        match add_insertion(alloc, &mut self.order, placement, label) {
            Ok(None) => {
                self.views[replica as usize].insert(placement.element);
                Ok(None)
            }
            Ok(Some(mut cycle)) => {
                name_edges(&self.numbers, &mut cycle);
                self.numbers.take_back();
                Ok(Some(cycle))
            }
            Err(error) => {
                self.numbers.take_back();
                Err(error)
            }
        }
    }

    /// Returns the numbers of a list's elements if the list has exactly the elements that the replica shows, each once,
    /// in any order; otherwise returns `None`.
    ///
    /// # Errors
    ///
    /// `NoMemory` if allocation fails.
    ///
    /// # Complexity
    ///
    /// That of `ReplicaView::check_read`.
    pub fn check_read(
        &mut self,
        alloc: Global,
        replica: u8,
        list: &[u32],
    ) -> Result<Option<Listed>, NoMemory>
        // The replica has a view.
        requires { replica < length self.old.views }
        // The result is `None` exactly if the list does not have the shown elements, each once.
        ensures exactly { let marks = (view_at self.old.views replica).marks in
            IfOk result (λ found. MatchOption found (¬ IsRead self.old.elements marks list.now)
            (λ listed. IsRead self.old.elements marks list.now)) }
        // The numbers are those of the listed elements.
        ensures numbers { IfOk result (λ found. MatchOption found (Unit {0})
            (λ listed. AreNumbersOf self.old.elements list.now listed.numbers.items)) }
        // Except at the given indexes, each directly follows the one before it in the last read too.
        ensures as_last { IfOk result (λ found. MatchOption found (Unit {0}) (λ listed.
            AreAsLast (view_at self.old.views replica).last listed.numbers.items listed.places.items)) }
        // Nothing is changed.
        ensures same { self.new ≡ self.old }
    {
        self.views[replica as usize].check_read(alloc, &self.numbers, list)
    }

    /// Returns the numbers of a list's elements if the replica shows each of them and none is listed twice; otherwise
    /// returns `None`.
    ///
    /// # Errors
    ///
    /// `NoMemory` if allocation fails.
    ///
    /// # Complexity
    ///
    /// That of `ReplicaView::check_part`.
    pub fn check_part(
        &mut self,
        alloc: Global,
        replica: u8,
        list: &[u32],
    ) -> Result<Option<Vec<u32>>, NoMemory>
        // The replica has a view.
        requires { replica < length self.old.views }
        // The result is `None` exactly if the list has an element that the replica does not show, or one twice.
        ensures exactly { let marks = (view_at self.old.views replica).marks in
            IfOk result (λ found. MatchOption found (¬ IsPart self.old.elements marks list.now)
            (λ part. IsPart self.old.elements marks list.now)) }
        // The numbers are those of the listed elements.
        ensures numbers { IfOk result (λ found. MatchOption found (Unit {0})
            (λ part. AreNumbersOf self.old.elements list.now part.items)) }
        // Nothing is changed.
        ensures same { self.new ≡ self.old }
    {
        self.views[replica as usize].check_part(alloc, &self.numbers, list)
    }

    /// Adds the edges of a list that the replica returned, which `check_read` found right, and returns `None`; or
    /// returns a cycle of these edges and the earlier ones. After a cycle nothing is changed but the kept order.
    ///
    /// # Errors
    ///
    /// `NoMemory` if allocation fails; nothing is changed but the kept order.
    ///
    /// # Complexity
    ///
    /// That of `ra_list_edges::add_read` for the places at which the list differs from the replica's last read, and
    /// O(length of the cycle) if there is one.
    pub fn read(
        &mut self,
        alloc: Global,
        replica: u8,
        listed: Listed,
        label: u32,
    ) -> Result<Option<Vec<Edge>>, NoMemory>
        // The replica has a view.
        requires replica { replica < length self.old.views }
        // The numbers are those of the elements of a list.
        requires numbers { (list : List ℕ) × AreNumbersOf self.old.elements list listed.numbers.items }
        // Except at the given indexes, each directly follows the one before it in the last read too.
        requires as_last { AreAsLast (view_at self.old.views replica).last listed.numbers.items listed.places.items }
        // The elements are unchanged, even after a failure.
        ensures elements { self.new.elements ≡ self.old.elements }
        // The marks are unchanged, even after a failure.
        ensures marks { AreSameMarks self.old.views self.new.views }
        // All edges of the list are added; or the result is a cycle, and the edges are unchanged.
        ensures edges { (list : List ℕ) → AreNumbersOf self.old.elements list listed.numbers.items
            → IfOk result (λ found. MatchOption found (AddsPairs label list self.old.edges self.new.edges)
            (λ cycle. (self.new.edges ≡ self.old.edges)
            × IsCycle (with_pairs label list self.old.edges) cycle.items)) }
        // The read is the replica's last one, unless the result is a cycle: then the views are unchanged.
        ensures kept { IfOk result (λ found. MatchOption found
            ((view_at self.new.views replica).last ≡ listed.numbers.items)
            (λ cycle. self.new.views ≡ self.old.views)) }
        // The last reads of the other replicas are unchanged, even after a failure.
        ensures others { (other : ℕ) → ¬ (other ≡ replica)
            → (view_at self.new.views other).last ≡ (view_at self.old.views other).last }
        // After a failed allocation the edges are unchanged.
        ensures failed { OnErr result (self.new.edges ≡ self.old.edges) }
        // After a failed allocation the views are unchanged.
        ensures failed_views { OnErr result (self.new.views ≡ self.old.views) }
    {
        let Listed { numbers, places } = listed;
        match add_read(alloc, &mut self.order, &numbers, &places, label)? {
            None => {
                self.views[replica as usize].keep(numbers);
                Ok(None)
            }
            Some(mut closed) => {
                name_edges(&self.numbers, &mut closed);
                Ok(Some(closed))
            }
        }
    }

    /// Adds the edges of a part of a list, which `check_part` found right, and returns `None`; or returns a cycle of
    /// these edges and the earlier ones. After a cycle nothing is changed but the kept order.
    ///
    /// # Errors
    ///
    /// `NoMemory` if allocation fails; nothing is changed but the kept order.
    ///
    /// # Complexity
    ///
    /// That of `ra_list_edges::add_part`, and O(length of the cycle) if there is one.
    pub fn read_part(
        &mut self,
        alloc: Global,
        part: &[u32],
        label: u32,
    ) -> Result<Option<Vec<Edge>>, NoMemory>
        // The numbers are those of the elements of a list.
        requires { (list : List ℕ) × AreNumbersOf self.old.elements list part.now }
        // The elements are unchanged, even after a failure.
        ensures elements { self.new.elements ≡ self.old.elements }
        // The views are unchanged, even after a failure.
        ensures views { self.new.views ≡ self.old.views }
        // All edges of the list are added; or the result is a cycle, and the edges are unchanged.
        ensures edges { (list : List ℕ) → AreNumbersOf self.old.elements list part.now
            → IfOk result (λ found. MatchOption found (AddsPairs label list self.old.edges self.new.edges)
            (λ cycle. (self.new.edges ≡ self.old.edges)
            × IsCycle (with_pairs label list self.old.edges) cycle.items)) }
        // After a failed allocation the edges are unchanged.
        ensures failed { OnErr result (self.new.edges ≡ self.old.edges) }
    {
        let Some(mut cycle) = add_part(alloc, &mut self.order, part, label)? else {
            return Ok(None);
        };
        name_edges(&self.numbers, &mut cycle);
        Ok(Some(cycle))
    }

    /// Adds the delivery of an insertion: the replica shows the element.
    ///
    /// # Errors
    ///
    /// `NoMemory` if allocation fails; nothing is changed.
    ///
    /// # Complexity
    ///
    /// O(1), amortized.
    pub fn show(&mut self, replica: u8, number: u32) -> Result<(), NoMemory>
        // The replica has a view.
        requires replica { replica < length self.old.views }
        // The number is that of an element.
        requires number { number < length self.old.elements }
        // The replica does not have the element.
        requires missing { mark_of self.old.views replica number ≡ marks.Missing }
        // The elements and the edges are unchanged, even after a failure.
        ensures same { (self.new.elements ≡ self.old.elements) × (self.new.edges ≡ self.old.edges) }
        // The last reads are unchanged, even after a failure.
        ensures lasts { (other : ℕ) → (view_at self.new.views other).last ≡ (view_at self.old.views other).last }
        // The replica shows the element; the other marks are unchanged.
        ensures marks { OnOk result (IsMarked self.old.views replica number marks.Shown self.new.views) }
        // After a failed allocation the marks are unchanged.
        ensures failed { OnErr result (AreSameMarks self.old.views self.new.views) }
    {
        self.views[replica as usize].reserve(number)?;
        self.views[replica as usize].insert(number);
        Ok(())
    }

    /// Adds a removal or its delivery: the replica no longer shows the element. Does not allocate.
    ///
    /// # Complexity
    ///
    /// O(1).
    pub fn hide(&mut self, replica: u8, number: u32)
        // The replica has a view.
        requires replica { replica < length self.old.views }
        // The replica has the element.
        requires had { ¬ (mark_of self.old.views replica number ≡ marks.Missing) }
        // The elements and the edges are unchanged.
        ensures same { (self.new.elements ≡ self.old.elements) × (self.new.edges ≡ self.old.edges) }
        // The last reads are unchanged.
        ensures lasts { (other : ℕ) → (view_at self.new.views other).last ≡ (view_at self.old.views other).last }
        // The replica no longer shows the element; the other marks are unchanged.
        ensures marks { IsMarked self.old.views replica number marks.Removed self.new.views }
    {
        self.views[replica as usize].remove(number);
    }

    /// Adds the next replica, which has the same elements as this one and shows the same.
    ///
    /// # Errors
    ///
    /// `NoMemory` if allocation fails; nothing is changed.
    ///
    /// # Complexity
    ///
    /// O(n) with `n` elements.
    pub fn join(&mut self, from: u8) -> Result<(), NoMemory>
        // The replica has a view.
        requires { from < length self.old.views }
        // The elements and the edges are unchanged, even after a failure.
        ensures same { (self.new.elements ≡ self.old.elements) × (self.new.edges ≡ self.old.edges) }
        // The next replica has a copy of the view.
        ensures joined { OnOk result (self.new.views ≡ self.old.views ++ view_at self.old.views from ∷ []) }
        // After a failed allocation the views are unchanged.
        ensures failed { OnErr result (self.new.views ≡ self.old.views) }
    {
        let view = self.views[from as usize].copy()?;
        self.views.push(view)?;
        Ok(())
    }

    /// Does nothing. Its clause states for the proofs of callers what holds of every `ListWitness`.
    pub fn invariant(&self)
        // Some order has exactly the elements, each once, and extends the edges.
        ensures { (order : List ℕ) × IsOrderOf order self.now.elements × Extends order self.now.edges }
    {
        self.numbers.invariant();
        self.order.invariant();
    }

    /// Returns the elements in the kept order.
    ///
    /// # Errors
    ///
    /// `NoMemory` if allocation fails.
    ///
    /// # Complexity
    ///
    /// O(n) with `n` elements.
    pub fn list_order(&self, alloc: Global) -> Result<Vec<u32>, NoMemory>
        // The result has exactly the elements, each once.
        ensures whole { IfOk result (λ order. IsOrderOf order.items self.now.elements) }
        // The result extends the edges.
        ensures extends { IfOk result (λ order. Extends order.items self.now.edges) }
    {
        self.numbers.invariant();
        self.order.invariant();
        let numbers = self.order.elements(alloc)?;
        elements_of(alloc, &self.numbers, &numbers)
    }

    /// Returns the number of edges.
    pub fn edge_count(&self) -> usize
        // The result is the number of edges.
        ensures { result ≡ length self.now.edges }
    {
        self.order.edge_count()
    }

    /// Returns what the replica's view says of the element with this number.
    pub fn mark(&self, replica: u8, number: u32) -> Mark
        // The replica has a view.
        requires { replica < length self.now.views }
        // The result is the mark of the number in the replica's view.
        ensures { result ≡ mark_of self.now.views replica number }
    {
        self.views[replica as usize].mark(number)
    }

    /// Returns the number of replicas.
    pub fn replicas(&self) -> usize
        // The result is the number of views.
        ensures { result ≡ length self.now.views }
    {
        self.views.len()
    }

    /// Returns the number of elements. It is the number that the next element gets.
    pub fn len(&self) -> usize
        // The result is the number of elements.
        ensures { result ≡ length self.now.elements }
    {
        self.numbers.len()
    }
}
