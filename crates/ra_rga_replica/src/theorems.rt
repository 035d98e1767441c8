//! Theorems about what later labels, deliveries and joins preserve of a replica's list.
ghost use Rattle.std.specs.Prelude.{◌≡◌, ℕ, true, false, List, ◌++◌, ◌∷◌, [], length, Option, Some, None};
ghost use Rattle.ra_labels.specs.declared.kind.Kind.TheVariants.{Rga};
ghost use Rattle.ra_labels.specs.declared.operation.Update.TheVariants.{After, RgaRemove};
ghost use Rattle.ra_labels.specs.declared.command.Command.TheVariants.{Deliver, Join};
ghost use Rattle.ra_labels.specs.Records.{Records, replica_count};
ghost use Rattle.ra_labels.specs.Visibility.{is_update};
ghost use Rattle.ra_labels.specs.Linearization.{updates_admitted};
ghost use Rattle.ra_labels.specs.NamedOrder.{named_sequence, timestamp_of};
ghost use Rattle.ra_labels.specs.TheoremTerms.{NoneDeliveredBeyond};
ghost use Rattle.ra_labels.specs.Insertion.{HasUpdate};
ghost use Rattle.ra_labels.specs.HistorySoFar.{NextOperation, operate, label_of};
ghost use Rattle.ra_rga_elements.specs.ElementList.{Arrival, ElementList};
ghost use Rattle.ra_rga_replica.specs.declared.edit.Edit.{Edit};
ghost use Rattle.ra_rga_replica.specs.declared.edit.Edit.TheVariants.{PutsIn, Removes};
ghost use Rattle.ra_rga_replica.specs.Edits.{element_at, AreElementsOf};
ghost use Rattle.ra_rga_replica.specs.ReplicaList.{ReplicaList, IsListOf, settled_count};

/// Theorem: the list of a replica is also its list after a label of another replica, a query, a delivery to another
/// replica, or the join of another one.
pub fn list_unchanged_by_others()
    ensures insertion { (list : ReplicaList) (all : ElementList) (new : Arrival) (edits : List (Option Edit))
        (records : Records) (replica : ℕ) (next : NextOperation) → AreElementsOf all edits records
        → IsListOf list all.arrivals edits records replica → ¬ (next.by ≡ replica)
        → HasUpdate next.op (After (element_at all.arrivals new.anchor) new.element)
        → updates_admitted Rga (named_sequence Rga (operate next ∷ records)) ≡ true
        → IsListOf list (all.arrivals ++ new ∷ []) (edits ++ Some (PutsIn (length all.arrivals)) ∷ [])
        (operate next ∷ records) replica }
    ensures removal { (list : ReplicaList) (all : ElementList) (edits : List (Option Edit)) (records : Records)
        (replica number : ℕ) (next : NextOperation) → AreElementsOf all edits records
        → IsListOf list all.arrivals edits records replica → ¬ (next.by ≡ replica)
        → HasUpdate next.op (RgaRemove (element_at all.arrivals number))
        → IsListOf list all.arrivals (edits ++ Some (Removes number) ∷ []) (operate next ∷ records) replica }
    ensures query { (list : ReplicaList) (all : ElementList) (edits : List (Option Edit)) (records : Records)
        (replica : ℕ) (next : NextOperation) → AreElementsOf all edits records
        → (was : IsListOf list all.arrivals edits records replica) → is_update next.op ≡ false
        → (is : IsListOf list all.arrivals (edits ++ None ∷ []) (operate next ∷ records) replica)
        × (settled_count is ≡ settled_count was) }
    ensures delivery { (list : ReplicaList) (all : ElementList) (edits : List (Option Edit)) (records : Records)
        (replica to n : ℕ) → AreElementsOf all edits records → IsListOf list all.arrivals edits records replica
        → ¬ (to ≡ replica) → IsListOf list all.arrivals edits (Deliver to n ∷ records) replica }
    ensures join { (list : ReplicaList) (arrivals : List Arrival) (edits : List (Option Edit)) (records : Records)
        (replica joined from : ℕ) → IsListOf list arrivals edits records replica → ¬ (joined ≡ replica)
        → IsListOf list arrivals edits (Join joined from ∷ records) replica }
{}

/// Theorem: the list of a replica is also that of a new replica that joins from it.
pub fn join_copies_list()
    ensures { (list : ReplicaList) (arrivals : List Arrival) (edits : List (Option Edit)) (initial_replicas : ℕ)
        (records : Records) (from : ℕ) → NoneDeliveredBeyond initial_replicas records
        → IsListOf list arrivals edits records from
        → let joined = replica_count initial_replicas records in
        IsListOf list arrivals edits (Join joined from ∷ records) joined }
{}

/// Theorem: the timestamp of a label without a clock is the greatest stamp among the labels that were delivered to its
/// replica.
pub fn next_label_rank()
    ensures { (list : ReplicaList) (arrivals : List Arrival) (edits : List (Option Edit)) (records : Records)
        (next : NextOperation) → IsListOf list arrivals edits records next.by → next.clock ≡ None
        → timestamp_of (operate next ∷ records) (label_of records next) ≡ list.greatest }
{}
