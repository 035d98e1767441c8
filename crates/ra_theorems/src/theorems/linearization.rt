//! Theorems about the order that parts must have, and about RA-linearization.
ghost use Rattle.std.specs.Prelude.{◌≡◌, ◌↔◌, ◌⊎◌, ◌++◌, ℕ, true, false, Bool, List, Contains, Some, is_some};
ghost use Rattle.std.specs.List.{list_any};
ghost use Rattle.ra_labels.specs.declared.kind.Kind.{Kind};
ghost use Rattle.ra_labels.specs.declared.operation.Op.{Op};
ghost use Rattle.ra_labels.specs.Records.{Records};
ghost use Rattle.ra_labels.specs.Visibility.{is_update};
ghost use Rattle.ra_labels.specs.Rewriting.{Part, acts_of, update_of, updates_of};
ghost use Rattle.ra_labels.specs.Specification.{State, state_after};
ghost use Rattle.ra_labels.specs.Linearization.{parts_in, is_visible_to, is_earlier_at_replica, is_query_half_of, must_precede, extends, visible_updates, updates_admitted, queries_admitted, IsRaLinearizationBy, IsRaLinearization};
ghost use Rattle.ra_labels.specs.TheoremTerms.{IsUpdateSeenBy, IsEarlierAtReplica, AreHalvesOfOneLabel, EachQueryIsAnswered, StandsBefore, AllStandBefore, HasNoDuplicates};

/// Theorem: a part must precede another one in exactly three cases. It is an update that the other's label sees; its
/// label is an earlier one of the same replica; they are the query half and the update half of one label.
pub fn must_precede_cases()
    ensures visible { (records : Records) (p q : Part)
        → (is_visible_to records p q ≡ true) ↔ IsUpdateSeenBy records p q }
    ensures earlier { (p q : Part) → (is_earlier_at_replica p q ≡ true) ↔ IsEarlierAtReplica p q }
    ensures halves { (p q : Part) → (is_query_half_of p q ≡ true) ↔ AreHalvesOfOneLabel p q }
    ensures cases { (records : Records) (p q : Part) → (must_precede records p q ≡ true)
        ↔ (IsUpdateSeenBy records p q ⊎ (IsEarlierAtReplica p q ⊎ AreHalvesOfOneLabel p q)) }
{}

/// Theorem: no part must precede itself.
pub fn must_precede_irreflexive()
    ensures { (records : Records) (p : Part) → must_precede records p p ≡ false }
{}

/// Theorem: in a sequence that extends an irreflexive order, each part stands before those that it must precede. The
/// converse holds if no part occurs twice.
pub fn extends_iff_stands_before()
    ensures stands { (precedes : Part → Part → Bool) → ((p : Part) → precedes p p ≡ false)
        → (sequence : List Part) → extends precedes sequence ≡ true → AllStandBefore precedes sequence }
    ensures extends { (precedes : Part → Part → Bool) (sequence : List Part) → HasNoDuplicates sequence
        → AllStandBefore precedes sequence → extends precedes sequence ≡ true }
{}

/// Theorem: the updates of two joined sequences are those of the first, then those of the second; the same holds of
/// those that a label sees.
pub fn visible_updates_in_order()
    ensures all { (first later : List Part) → updates_of (first ++ later) ≡ updates_of first ++ updates_of later }
    ensures visible { (records : Records) (first later : List Part) (n : ℕ) → visible_updates records (first ++ later) n
        ≡ visible_updates records first n ++ visible_updates records later n }
{}

/// Theorem: the updates of a sequence are admitted exactly if they lead to a state.
pub fn updates_admitted_iff_state()
    ensures { (kind : Kind) (sequence : List Part) → (updates_admitted kind sequence ≡ true)
        ↔ ((state : State) × (state_after kind (updates_of sequence) ≡ Some state)) }
{}

/// Theorem: the queries of a sequence are admitted exactly if each is answered in the state after the updates that its
/// label sees, in the sequence's order.
pub fn queries_admitted_iff_answered()
    ensures { (kind : Kind) (records : Records) (sequence : List Part) → (queries_admitted kind records sequence ≡ true)
        ↔ EachQueryIsAnswered kind records sequence }
{}

/// Theorem: in an RA-linearization by an irreflexive order, each part stands before those that it precedes.
pub fn linearization_by_respects_order()
    ensures { (precedes : Part → Part → Bool) → ((p : Part) → precedes p p ≡ false) → (kind : Kind) (records : Records)
        (sequence : List Part) → IsRaLinearizationBy precedes kind records sequence
        → (p q : Part) → Contains (parts_in records) p → Contains (parts_in records) q
        → precedes p q ≡ true → StandsBefore p q sequence }
{}

/// Theorem: an RA-linearization by an order is one by each weaker order.
pub fn linearization_by_weaker_order()
    ensures { (precedes weaker : Part → Part → Bool) → ((p q : Part) → weaker p q ≡ true → precedes p q ≡ true)
        → (kind : Kind) (records : Records) (sequence : List Part)
        → IsRaLinearizationBy precedes kind records sequence → IsRaLinearizationBy weaker kind records sequence }
{}

/// Theorem: in an RA-linearization, each part stands before those that it must precede.
pub fn linearization_respects_order()
    ensures { (kind : Kind) (records : Records) (sequence : List Part) → IsRaLinearization kind records sequence
        → (p q : Part) → Contains (parts_in records) p → Contains (parts_in records) q
        → must_precede records p q ≡ true → StandsBefore p q sequence }
{}

/// Theorem: an operation is an update exactly if the rewriting gives it an update.
pub fn update_iff_part_is_update()
    ensures { (op : Op) → is_update op ≡ list_any (λ act. is_some (update_of act.1)) (acts_of op) }
{}
