//! Theorems about what one more label, delivery or replica changes in the witness. Each is the clause of a function
//! that does nothing.
ghost use Rattle.std.specs.Prelude.{◌≡◌, ◌⊎◌, ℕ, ◌+◌, ◌<◌, ◌≤◌, true, false, not, List, [], ◌∷◌, ◌++◌, length, map, flat_map, Option, Some, None, get_or, if◌then◌else◌};
ghost use Rattle.ra_labels.specs.declared.kind.Kind.{Kind};
ghost use Rattle.ra_labels.specs.declared.kind.Kind.TheVariants.{Counter, Register, LwwSet, OrSet};
ghost use Rattle.ra_labels.specs.declared.operation.Update.{Update};
ghost use Rattle.ra_labels.specs.declared.command.Command.TheVariants.{Deliver, Join};
ghost use Rattle.ra_labels.specs.declared.reply.Cause.TheVariants as cause;
ghost use Rattle.ra_labels.specs.Records.{Records, label_count};
ghost use Rattle.ra_seqspec.specs.Range.{IsInRange};
ghost use Rattle.ra_seqspec.specs.declared.TheConstants.{FARTHEST_COUNT};
ghost use Rattle.ra_labels.specs.Visibility.{has_delivered, is_update_at, IsCausal};
ghost use Rattle.ra_labels.specs.Rewriting.{acts_of};
ghost use Rattle.ra_labels.specs.Specification.{State, state_after};
ghost use Rattle.ra_labels.specs.Linearization.{extends_visibility, updates_admitted};
ghost use Rattle.ra_labels.specs.NamedOrder.{named_sequence};
ghost use Rattle.ra_labels.specs.Fault.{Holds, sequence_cause};
ghost use Rattle.ra_labels.specs.Answer.{kind_of, is_kind};
ghost use Rattle.ra_labels.specs.TheoremTerms.{IdentifiersAreUnique, StampsAreUnique, admits_all};
ghost use Rattle.ra_labels.specs.Insertion.{delivered_updates, HasUpdate};
ghost use Rattle.ra_labels.specs.HistorySoFar.{History, history_of, replicas_of, history_with, NextOperation, operate};
ghost use Rattle.ra_visibility.specs.Order.{IsByTimestamp, numbers_in};
ghost use Rattle.ra_witness.specs.ElementNumbers.{element_of, number_with};
ghost use Rattle.ra_witness.specs.Sequence.{ref_of, refs_at};
ghost use Rattle.ra_witness.specs.Labels.{update_in, updates_by_number, cause_in};
ghost use Rattle.ra_witness.specs.States.{state_at, update_at, states_after};
ghost use Rattle.ra_witness.specs.Standing.{AreStatesOf};
ghost use Rattle.ra_witness.specs.Offered.{IsJoinedFrom};
ghost use Rattle.ra_witness.specs.declared.overriding.written.Written.{Written};
ghost use Rattle.ra_witness.specs.Overriding.{updates_written, write_at, last_label, counting, last_with};
ghost use Rattle.ra_witness.specs.Overridden.{AreWritesOf, AreLastOf, IsLastOn, AreBelow, IsNextWrite};

/// Theorem: if a new label fits the order, its update is the last one of those delivered to its replica.
pub fn new_update_is_last_delivered()
    ensures { (kind : Kind) (records : Records) (next : NextOperation) (update : Update) → HasUpdate next.op update
        → let now = operate next ∷ records in extends_visibility now (named_sequence kind now) ≡ true
        → delivered_updates kind now next.by ≡ delivered_updates kind records next.by ++ update ∷ [] }
{}

/// Theorem: if records hold and a new label fits the order, its cause is `Update` if the updates of all labels are not
/// admitted, and otherwise that of its query in its replica's state. For the kinds of `admits_all`, a new label of the
/// kind keeps them admitted.
pub fn cause_at_new_label()
    ensures cause { (kind : Kind) (records : Records) (next : NextOperation) → Holds kind records
        → let now = operate next ∷ records in let sequence = named_sequence kind now in
        extends_visibility now sequence ≡ true → sequence_cause kind now
        ≡ (if not (updates_admitted kind sequence) then Some cause.Update
        else cause_in (state_after kind (delivered_updates kind records next.by)) (acts_of next.op)) }
    ensures admitted { (kind : Kind) (records : Records) (next : NextOperation) → admits_all kind ≡ true
        → Holds kind records → is_kind kind (kind_of next.op) ≡ true
        → updates_admitted kind (named_sequence kind (operate next ∷ records)) ≡ true }
{}

/// Theorem: for the kinds of `admits_all`, a new label that fits the order appends its update and applies it to its
/// replica's state.
pub fn states_after_label()
    ensures { (updates : List (Option Update)) (states : List State) (past : History) (next : NextOperation)
        → admits_all past.kind ≡ true → AreStatesOf updates states past → next.by < length states
        → is_kind past.kind (kind_of next.op) ≡ true
        → let now = operate next ∷ past.records in extends_visibility now (named_sequence past.kind now) ≡ true
        → let states = states_after states next.by (update_in next.op) in
        AreStatesOf (updates ++ update_in next.op ∷ []) states (history_with past (operate next)) }
{}

/// Theorem: the delivery of an update of a counter or an OR-Set applies it to the receiver's state, if the records
/// hold. For a counter the update has to be new; for an OR-Set the delivery has to be causal and identifiers unique.
pub fn states_after_delivery()
    ensures counter { (updates : List (Option Update)) (states : List State) (initial_replicas : ℕ) (records : Records)
        (to n : ℕ) → AreStatesOf updates states (history_of Counter initial_replicas records) → to < length states
        → is_update_at records n ≡ true → has_delivered records to n ≡ false → Holds Counter records
        → let now = history_of Counter initial_replicas (Deliver to n ∷ records) in
        AreStatesOf updates (states_after states to (update_at updates n)) now }
    ensures or_set { (updates : List (Option Update)) (states : List State) (initial_replicas : ℕ) (records : Records)
        (to n : ℕ) → AreStatesOf updates states (history_of OrSet initial_replicas records) → to < length states
        → is_update_at records n ≡ true → Holds OrSet records → IdentifiersAreUnique records
        → IsCausal (Deliver to n ∷ records)
        → let now = history_of OrSet initial_replicas (Deliver to n ∷ records) in
        AreStatesOf updates (states_after states to (update_at updates n)) now }
{}

/// Theorem: a join appends a copy of the source's state.
pub fn states_after_join()
    ensures { (updates : List (Option Update)) (states : List State) (past : History) (from : ℕ)
        → AreStatesOf updates states past → IsJoinedFrom past from
        → AreStatesOf updates (states ++ state_at states from ∷ []) (history_with past (Join (replicas_of past) from)) }
{}

/// Theorem: the delivery of a new update of a register or an LWW set applies an update to the receiver's state, if
/// records hold and stamps are unique. It is the delivered update or the last one on its element, whichever has the
/// greater stamp.
pub fn states_after_overridable_delivery()
    ensures { (writes : List (Option Written)) (lasts : List (List (Option ℕ))) (number_of : ℕ → Option ℕ)
        (states : List State) (past : History) (to n : ℕ) (write : Written)
        → (past.kind ≡ Register) ⊎ (past.kind ≡ LwwSet) → AreStatesOf (updates_written writes) states past
        → AreWritesOf writes number_of past.records → AreLastOf writes lasts past.records
        → StampsAreUnique past.records → Holds past.kind past.records
        → to < length lasts → to < length states → is_update_at past.records n ≡ true
        → has_delivered past.records to n ≡ false → write_at writes n ≡ Some write
        → let update = update_at (updates_written writes) (counting writes lasts to n write) in
        AreStatesOf (updates_written writes) (states_after states to update) (history_with past (Deliver to n)) }
{}

/// Theorem: the parts of the labels in the named order are the named sequence.
pub fn parts_are_named_sequence()
    ensures { (kind : Kind) (records : Records)
        → flat_map (refs_at (updates_by_number records)) (numbers_in kind records)
        ≡ map ref_of (named_sequence kind records) }
{}

/// Theorem: a new label without an update preserves the writes and the last labels. One with an update that fits the
/// order becomes the last label of its element at its replica. The element keeps its number, or gets the next one.
pub fn last_labels_after_label()
    ensures query_writes { (writes : List (Option Written)) (number_of : ℕ → Option ℕ) (records : Records)
        (next : NextOperation) → updates_written writes ≡ updates_by_number records
        → AreWritesOf writes number_of records → AreWritesOf (writes ++ None ∷ []) number_of (operate next ∷ records) }
    ensures query_lasts { (writes : List (Option Written)) (lasts : List (List (Option ℕ))) (records : Records)
        (next : NextOperation) → updates_written writes ≡ updates_by_number records → AreLastOf writes lasts records
        → AreLastOf (writes ++ None ∷ []) lasts (operate next ∷ records) }
    ensures writes { (kind : Kind) (writes : List (Option Written)) (number_of : ℕ → Option ℕ) (count : ℕ)
        (next : NextOperation)
        (records : Records) (write : Written) → IsByTimestamp kind
        → updates_written writes ≡ updates_by_number records → AreWritesOf writes number_of records
        → AreBelow number_of count → IsNextWrite write number_of count next
        → let now = operate next ∷ records in extends_visibility now (named_sequence kind now) ≡ true
        → StampsAreUnique now → let numbers = number_with number_of (element_of write.update) write.on in
        AreWritesOf (writes ++ Some write ∷ []) numbers now × AreBelow numbers (count + 1) }
    ensures lasts { (kind : Kind) (writes : List (Option Written)) (lasts lasts_now : List (List (Option ℕ)))
        (number_of : ℕ → Option ℕ) (count : ℕ) (next : NextOperation) (records : Records) (write : Written)
        → IsByTimestamp kind → updates_written writes ≡ updates_by_number records → AreWritesOf writes number_of records
        → AreBelow number_of count → IsNextWrite write number_of count next
        → let now = operate next ∷ records in extends_visibility now (named_sequence kind now) ≡ true
        → StampsAreUnique now → AreLastOf writes lasts records → length lasts_now ≡ length lasts
        → ((q c : ℕ) → last_label lasts_now q c ≡ last_with lasts next.by write.on (label_count records) q c)
        → AreLastOf (writes ++ Some write ∷ []) lasts_now now }
{}

/// Theorem: after a delivery, the last label of the element is the delivered one or the last one before, whichever has
/// the greater stamp. All other last labels stay the same.
pub fn last_labels_after_delivery()
    ensures counting { (writes : List (Option Written)) (lasts : List (List (Option ℕ))) (number_of : ℕ → Option ℕ)
        (records : Records) (to n : ℕ) (write : Written) → AreWritesOf writes number_of records
        → AreLastOf writes lasts records → StampsAreUnique records → to < length lasts
        → is_update_at records n ≡ true → has_delivered records to n ≡ false → write_at writes n ≡ Some write
        → IsLastOn writes (Deliver to n ∷ records) to write.on (counting writes lasts to n write) }
    ensures kept { (writes : List (Option Written)) (lasts lasts_now : List (List (Option ℕ)))
        (number_of : ℕ → Option ℕ) (records : Records) (to n : ℕ) (write : Written)
        → AreWritesOf writes number_of records → AreLastOf writes lasts records → StampsAreUnique records
        → to < length lasts → is_update_at records n ≡ true → has_delivered records to n ≡ false
        → write_at writes n ≡ Some write → length lasts_now ≡ length lasts
        → ((q c : ℕ) → last_label lasts_now q c ≡ last_with lasts to write.on (counting writes lasts to n write) q c)
        → AreLastOf writes lasts_now (Deliver to n ∷ records) }
{}

/// Theorem: a replica that joins has the last labels of its source.
pub fn last_labels_after_join()
    ensures { (writes : List (Option Written)) (lasts : List (List (Option ℕ))) (past : History) (from : ℕ)
        → AreLastOf writes lasts past.records → length lasts ≡ replicas_of past → IsJoinedFrom past from
        → AreLastOf writes (lasts ++ get_or lasts from [] ∷ []) (Join (replicas_of past) from ∷ past.records) }
{}

/// Theorem: if there are at most `FARTHEST_COUNT` labels, each prefix of the updates delivered to a replica leads to a
/// state in range.
pub fn delivered_state_in_range()
    ensures { (kind : Kind) (records : Records) (replica : ℕ) (first later : List Update) (state : State)
        → label_count records ≤ FARTHEST_COUNT → delivered_updates kind records replica ≡ first ++ later
        → state_after kind first ≡ Some state → IsInRange state }
{}
