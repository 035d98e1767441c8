//! The effects of the operations of one list.
ghost use Rattle.std.specs.Prelude.{◌≡◌, ℕ, ◌<◌, ◌++◌, List, length, take, get_or, Contains, None, Some, is_some, IfOk, IfSome, OnOk, OnErr, MatchOption};
ghost use Rattle.std.specs.List.{slice_get};
ghost use Rattle.std.specs.Result.{result_err};
ghost use Rattle.ra_list_replica.specs.declared.mark.Mark.TheVariants as marks;
ghost use Rattle.ra_list_replica.specs.Numbers.{AreNumbersOf};
ghost use Rattle.ra_list_witness.specs.ListWitness.{mark_of};
ghost use Rattle.ra_list_witness.specs.Named.{IsOrderOf, IsPlacement};
ghost use Rattle.ra_labels.specs.Edges.{Extends, IsCycle};
ghost use Rattle.ra_labels.specs.declared.list_operation.ListOp.TheVariants as op;
ghost use Rattle.ra_labels.specs.declared.list_operation.ListUpdate.{ListUpdate};
ghost use Rattle.ra_labels.specs.ListOperations.{edges_of};
ghost use Rattle.ra_labels.specs.FreeList.{list_step};
ghost use Rattle.ra_list_effects.specs.declared.list_effects.Found.TheVariants as found;
ghost use Rattle.ra_list_effects.specs.Past.{Past, empty_past, state_at, cause_at, with_operation, with_delivery, with_join};
ghost use Rattle.ra_list_effects.specs.Effects.{AreEffectsOf, IsFoundFor, MayDeliver};

use ra_labels::{Cause, Edge, Insertion, ListOp, NoMemory};
use ra_list_edges::Placement;
use ra_list_replica::Listed;
use ra_list_witness::ListWitness;
use std::alloc::Global;
use std::marker::Model;

/// What the delivery of an update changes: the mark of the element with this number.
#[derive(Clone, Copy, Debug, PartialEq, Eq)]
pub enum Change {
    /// The replica shows the element.
    Show(u32),
    /// The replica no longer shows the element.
    Hide(u32),
}

/// What the test of an operation found, so that nothing is looked up again when the operation is added.
#[derive(Drop)]
pub enum Found {
    /// The numbers of the new element and of its neighbours.
    Insertion(Placement),
    /// The number of the element that is removed.
    Element(u32),
    /// The numbers of the elements that were read.
    Read(Listed),
    /// The numbers of the elements of a part of the list.
    Part(Vec<u32>),
}

/// The state after all updates, the state of each replica, and the edges of the operations, in the form in which one
/// more operation is tested and added.
#[derive(Drop)]
pub struct ListEffects {
    /// The elements, the views, and the kept order.
    witness: ListWitness,
    /// What the delivery of each operation changes, if it has an update.
    changes: Vec<Option<Change>>,
}

impl Model for ListEffects {
    ghost use Rattle.ra_list_effects.specs.Effects.{Effects};

    ghost Value = { Effects };

    ghost view = { λ a. record { witness = a.witness; changes = a.changes.items } };
}

impl ListEffects {
    /// Creates the effects of no operations, with the given number of replicas.
    ///
    /// # Errors
    ///
    /// `NoMemory` if allocation fails.
    ///
    /// # Complexity
    ///
    /// O(r), where `r` is the number of replicas.
    pub fn new(alloc: Global, replicas: u8) -> Result<ListEffects, NoMemory>
        // The new effects represent the past in which nothing was done.
        ensures { IfOk result (λ effects. AreEffectsOf effects (empty_past replicas)) }
    {
        Ok(ListEffects {
            witness: ListWitness::new(alloc, replicas)?,
            changes: Vec::new(alloc),
        })
    }

    /// Returns what the test of an operation at the replica found, or the reason for which it fails: `Update` if the
    /// state after all updates does not admit its update, `Query` if its answer is wrong in the replica's state.
    /// Whether the edges of the operation fit the others is not tested.
    ///
    /// # Errors
    ///
    /// `NoMemory` if allocation fails.
    ///
    /// # Complexity
    ///
    /// O(log n) with `n` elements for an insertion or a removal. For a read that of `ListWitness::check_read`, and for
    /// a part that of `ListWitness::check_part`.
    pub fn test(
        &mut self,
        alloc: Global,
        replica: u8,
        op: &ListOp,
    ) -> Result<Result<Found, Cause>, NoMemory>
        // The replica exists.
        requires { replica < length self.old.witness.views }
        // The result is the first reason in the definitions, or what was found if there is none.
        ensures cause { (past : Past) → AreEffectsOf self.old past
            → IfOk result (λ tested. result_err tested ≡ cause_at past replica op.now) }
        // What was found is that of the operation.
        ensures found { IfOk result (λ tested. IfOk tested (IsFoundFor self.old replica op.now)) }
        // Nothing is changed.
        ensures same { self.new ≡ self.old }
    {
        match op {
            ListOp::Insert(insertion) => Ok(self.test_insertion(replica, *insertion)),
            ListOp::Remove(element) => Ok(self.test_removal(replica, *element)),
            ListOp::Read(list) => self.test_read(alloc, replica, list.as_slice()),
            ListOp::Part(list) => self.test_part(alloc, replica, list.as_slice()),
        }
    }

    /// Adds an operation that passed its test, with what the test found, and its edges, and returns `None`; or returns
    /// a cycle of these edges and the earlier ones.
    ///
    /// # Errors
    ///
    /// `NoMemory` if allocation fails; the same past is represented.
    ///
    /// # Complexity
    ///
    /// That of `ListWitness::insert`, `read` or `read_part`; O(1) for a removal.
    pub fn add(
        &mut self,
        alloc: Global,
        replica: u8,
        op: &ListOp,
        found: Found,
        label: u32,
    ) -> Result<Option<Vec<Edge>>, NoMemory>
        // The replica exists.
        requires replica { replica < length self.old.witness.views }
        // This was found for the operation.
        requires found { IsFoundFor self.old replica op.now found }
        // The number of elements is below the limit.
        requires few { length self.old.witness.elements < 4294967295 }
        // If the operation has no cause to fail, the effects represent the past with it; or the result is a cycle of
        // its edges and the earlier ones, and the same past is represented.
        ensures added { (past : Past) → AreEffectsOf self.old past → cause_at past replica op.now ≡ None
            → IfOk result (λ found. MatchOption found
            (AreEffectsOf self.new (with_operation past replica op.now label))
            (λ cycle. AreEffectsOf self.new past × IsCycle (past.edges ++ edges_of label op.now) cycle.items)) }
        // If a cycle is returned, every past that was represented is.
        ensures unchanged { (past : Past) → AreEffectsOf self.old past
            → IfOk result (λ found. IfSome found (λ cycle. AreEffectsOf self.new past)) }
        // After a failed allocation the same past is represented.
        ensures failed { (past : Past) → AreEffectsOf self.old past → OnErr result (AreEffectsOf self.new past) }
    {
        match op {
            ListOp::Insert(insertion) => match found {
                Found::Insertion(placement) => {
                    self.add_insertion(alloc, replica, *insertion, placement, label)
                }
                _ => unreachable!(),
            },
            ListOp::Remove(_) => match found {
                Found::Element(number) => {
                    self.add_removal(replica, number)?;
                    Ok(None)
                }
                _ => unreachable!(),
            },
            ListOp::Read(_) => match found {
                Found::Read(listed) => self.add_read(alloc, replica, listed, label),
                _ => unreachable!(),
            },
            ListOp::Part(_) => match found {
                Found::Part(part) => self.add_part(alloc, &part, label),
                _ => unreachable!(),
            },
        }
    }

    /// Adds the delivery of an operation to the replica. Operations are counted from 0 in the order in which they were
    /// added; those that closed a cycle do not count. That deliveries are causal is the caller's concern.
    ///
    /// # Errors
    ///
    /// `NoMemory` if allocation fails; the same past is represented.
    ///
    /// # Complexity
    ///
    /// O(1), amortized.
    pub fn deliver(&mut self, replica: u8, operation: u32) -> Result<(), NoMemory>
        // After some past that the effects represent, the replica's state admits the operation's update.
        requires { MayDeliver self.old replica operation }
        // The replica's state is the one after the update.
        ensures delivered { (past : Past) (update : ListUpdate) → AreEffectsOf self.old past
            → replica < length past.replicas → slice_get past.updates operation ≡ Some (Some update)
            → ¬ (list_step (state_at past.replicas replica) update ≡ None)
            → OnOk result (AreEffectsOf self.new (with_delivery past replica update)) }
        // After a failed allocation the same past is represented.
        ensures failed { (past : Past) → AreEffectsOf self.old past → OnErr result (AreEffectsOf self.new past) }
    {
        let Some(change) = self.changes[operation as usize] else {
            unreachable!()
        };
        match change {
            Change::Show(number) => self.witness.show(replica, number),
            Change::Hide(number) => {
                self.witness.hide(replica, number);
                Ok(())
            }
        }
    }

    /// Adds the next replica, which has the same updates as this one.
    ///
    /// # Errors
    ///
    /// `NoMemory` if allocation fails; the same past is represented.
    ///
    /// # Complexity
    ///
    /// O(n) with `n` elements.
    pub fn join(&mut self, from: u8) -> Result<(), NoMemory>
        // The replica exists.
        requires { from < length self.old.witness.views }
        // The next replica has the same state.
        ensures joined { (past : Past) → AreEffectsOf self.old past
            → OnOk result (AreEffectsOf self.new (with_join past from)) }
        // After a failed allocation the same past is represented.
        ensures failed { (past : Past) → AreEffectsOf self.old past → OnErr result (AreEffectsOf self.new past) }
    {
        self.witness.join(from)
    }

    /// Returns the number of replicas.
    pub fn replicas(&self) -> usize
        // The result is the number of views.
        ensures { result ≡ length self.now.witness.views }
    {
        self.witness.replicas()
    }

    /// Returns the number of elements.
    pub fn len(&self) -> usize
        // The result is the number of elements, removed ones too.
        ensures { result ≡ length self.now.witness.elements }
    {
        self.witness.len()
    }

    /// Returns `true` if the operation has an update. Operations are counted from 0 in the order in which they were
    /// added.
    pub fn has_update(&self, operation: u32) -> bool
        // The result is `true` exactly if the operation exists and has an update.
        ensures { (past : Past) → AreEffectsOf self.now past
            → result ≡ is_some (get_or past.updates operation None) }
    {
        match self.changes.get(operation as usize) {
            Some(change) => change.is_some(),
            None => false,
        }
    }

    /// Returns the allocator of the collections.
    pub fn allocator(&self) -> Global {
        *self.changes.allocator()
    }

    /// Does nothing. Its clause states for the proofs of callers what holds of all `ListEffects`.
    pub fn invariant(&self)
        // Some order has exactly the elements, each once, and extends the edges of all operations.
        ensures { (past : Past) → AreEffectsOf self.now past → (order : List ℕ) × IsOrderOf order past.whole.inserted
            × Extends order past.edges }
    {
        self.witness.invariant();
    }

    /// Returns the elements in the kept order, removed ones too.
    ///
    /// # Errors
    ///
    /// `NoMemory` if allocation fails.
    ///
    /// # Complexity
    ///
    /// O(n) with `n` elements.
    pub fn list_order(&self, alloc: Global) -> Result<Vec<u32>, NoMemory>
        // The result has exactly the elements that were inserted, each once.
        ensures whole { (past : Past) → AreEffectsOf self.now past
            → IfOk result (λ order. IsOrderOf order.items past.whole.inserted) }
        // The result extends the edges of all operations.
        ensures extends { (past : Past) → AreEffectsOf self.now past
            → IfOk result (λ order. Extends order.items past.edges) }
    {
        self.witness.list_order(alloc)
    }

    // Adds an insertion.
    fn add_insertion(
        &mut self,
        alloc: Global,
        replica: u8,
        insertion: Insertion,
        placement: Placement,
        label: u32,
    ) -> Result<Option<Vec<Edge>>, NoMemory>
        requires replica { replica < length self.old.witness.views }
        requires new { ¬ Contains self.old.witness.elements insertion.element }
        requires placement { IsPlacement self.old.witness.elements insertion placement }
        requires few { length self.old.witness.elements < 4294967295 }
        ensures added { (past : Past) → AreEffectsOf self.old past → cause_at past replica (op.Insert insertion) ≡ None
            → IfOk result (λ found. MatchOption found
            (AreEffectsOf self.new (with_operation past replica (op.Insert insertion) label))
            (λ cycle. AreEffectsOf self.new past × IsCycle (past.edges ++ edges_of label (op.Insert insertion))
            cycle.items)) }
        ensures unchanged { (past : Past) → AreEffectsOf self.old past
            → IfOk result (λ found. IfSome found (λ cycle. AreEffectsOf self.new past)) }
        ensures failed { (past : Past) → AreEffectsOf self.old past → OnErr result (AreEffectsOf self.new past) }
    {
        let count = self.changes.len();
        self.changes.push(Some(Change::Show(placement.element)))?;
        let added = self
            .witness
            .insert(alloc, replica, insertion, placement, label);
        self.keep_changes(count, &added);
        added
    }

    // Adds a removal.
    fn add_removal(&mut self, replica: u8, number: u32) -> Result<(), NoMemory>
        requires replica { replica < length self.old.witness.views }
        requires had { ¬ (mark_of self.old.witness.views replica number ≡ marks.Missing) }
        ensures added { (past : Past) (x label : ℕ) → AreEffectsOf self.old past
            → slice_get self.old.witness.elements number ≡ Some x
            → OnOk result (AreEffectsOf self.new (with_operation past replica (op.Remove x) label)) }
        ensures failed { (past : Past) → AreEffectsOf self.old past → OnErr result (AreEffectsOf self.new past) }
    {
        self.changes.push(Some(Change::Hide(number)))?;
        self.witness.hide(replica, number);
        Ok(())
    }

    // Adds a read.
    fn add_read(
        &mut self,
        alloc: Global,
        replica: u8,
        listed: Listed,
        label: u32,
    ) -> Result<Option<Vec<Edge>>, NoMemory>
        requires found { (list : List ℕ) × IsFoundFor self.old replica (op.Read list) (found.Read listed) }
        requires replica { replica < length self.old.witness.views }
        ensures added { (past : Past) (list : List ℕ) → AreEffectsOf self.old past
            → IsFoundFor self.old replica (op.Read list) (found.Read listed) → IfOk result (λ found. MatchOption found
            (AreEffectsOf self.new (with_operation past replica (op.Read list) label))
            (λ cycle. AreEffectsOf self.new past × IsCycle (past.edges ++ edges_of label (op.Read list)) cycle.items)) }
        ensures failed { (past : Past) → AreEffectsOf self.old past → OnErr result (AreEffectsOf self.new past) }
    {
        let count = self.changes.len();
        self.changes.push(None)?;
        let added = self.witness.read(alloc, replica, listed, label);
        self.keep_changes(count, &added);
        added
    }

    // Adds a read of a part of the list.
    fn add_part(
        &mut self,
        alloc: Global,
        part: &[u32],
        label: u32,
    ) -> Result<Option<Vec<Edge>>, NoMemory>
        requires { (list : List ℕ) × AreNumbersOf self.old.witness.elements list part.now }
        ensures added { (past : Past) (replica : ℕ) (list : List ℕ) → AreEffectsOf self.old past
            → AreNumbersOf self.old.witness.elements list part.now → IfOk result (λ found. MatchOption found
            (AreEffectsOf self.new (with_operation past replica (op.Part list) label))
            (λ cycle. AreEffectsOf self.new past × IsCycle (past.edges ++ edges_of label (op.Part list)) cycle.items)) }
        ensures failed { (past : Past) → AreEffectsOf self.old past → OnErr result (AreEffectsOf self.new past) }
    {
        let count = self.changes.len();
        self.changes.push(None)?;
        let added = self.witness.read_part(alloc, part, label);
        self.keep_changes(count, &added);
        added
    }

    // Keeps only the given number of changes, the first ones, unless an operation was added.
    fn keep_changes(&mut self, count: usize, added: &Result<Option<Vec<Edge>>, NoMemory>)
        ensures witness { self.new.witness ≡ self.old.witness }
        ensures changes { IfOk added.now (λ found. MatchOption found (self.new.changes ≡ self.old.changes)
            (λ cycle. self.new.changes ≡ take count self.old.changes)) }
        ensures failed { OnErr added.now (self.new.changes ≡ take count self.old.changes) }
    {
        if !matches!(added, Ok(None)) {
            self.changes.truncate(count);
        }
    }

    fn test_insertion(&self, replica: u8, insertion: Insertion) -> Result<Found, Cause>
        requires { replica < length self.now.witness.views }
        ensures cause { (past : Past) → AreEffectsOf self.now past
            → result_err result ≡ cause_at past replica (op.Insert insertion) }
        ensures found { IfOk result (IsFoundFor self.now replica (op.Insert insertion)) }
    {
        match self.witness.find_placement(replica, insertion) {
            Ok(placement) => Ok(Found::Insertion(placement)),
            Err(cause) => Err(cause),
        }
    }

    fn test_removal(&self, replica: u8, element: u32) -> Result<Found, Cause>
        requires { replica < length self.now.witness.views }
        ensures cause { (past : Past) → AreEffectsOf self.now past
            → result_err result ≡ cause_at past replica (op.Remove element) }
        ensures found { IfOk result (IsFoundFor self.now replica (op.Remove element)) }
    {
        match self.witness.find(replica, element) {
            Ok(number) => Ok(Found::Element(number)),
            Err(cause) => Err(cause),
        }
    }

    fn test_read(
        &mut self,
        alloc: Global,
        replica: u8,
        list: &[u32],
    ) -> Result<Result<Found, Cause>, NoMemory>
        requires { replica < length self.old.witness.views }
        ensures cause { (past : Past) → AreEffectsOf self.old past
            → IfOk result (λ tested. result_err tested ≡ cause_at past replica (op.Read list.now)) }
        ensures found { IfOk result (λ tested. IfOk tested (IsFoundFor self.old replica (op.Read list.now))) }
        ensures same { self.new ≡ self.old }
    {
        match self.witness.check_read(alloc, replica, list)? {
            Some(listed) => Ok(Ok(Found::Read(listed))),
            None => Ok(Err(Cause::Query)),
        }
    }

    fn test_part(
        &mut self,
        alloc: Global,
        replica: u8,
        list: &[u32],
    ) -> Result<Result<Found, Cause>, NoMemory>
        requires { replica < length self.old.witness.views }
        ensures cause { (past : Past) → AreEffectsOf self.old past
            → IfOk result (λ tested. result_err tested ≡ cause_at past replica (op.Part list.now)) }
        ensures found { IfOk result (λ tested. IfOk tested (IsFoundFor self.old replica (op.Part list.now))) }
        ensures same { self.new ≡ self.old }
    {
        let Some(part) = self.witness.check_part(alloc, replica, list)? else {
            return Ok(Err(Cause::Query));
        };
        Ok(Ok(Found::Part(part)))
    }
}
