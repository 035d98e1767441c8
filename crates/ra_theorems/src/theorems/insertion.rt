//! Theorems about what one more label or delivery changes, and what it preserves.
ghost use Rattle.std.specs.Prelude.{◌≡◌, ◌↔◌, true, false, ℕ, ◌<◌, List, ◌∷◌, ◌++◌, Contains};
ghost use Rattle.ra_labels.specs.declared.kind.Kind.{Kind};
ghost use Rattle.ra_labels.specs.declared.operation.Op.{Op};
ghost use Rattle.ra_labels.specs.declared.operation.Update.{Update};
ghost use Rattle.ra_labels.specs.declared.label.Label.{Label};
ghost use Rattle.ra_labels.specs.declared.command.Command.TheVariants.{Deliver};
ghost use Rattle.ra_labels.specs.Records.{Records, label_count, labels_of};
ghost use Rattle.ra_labels.specs.Visibility.{is_update, has_delivered};
ghost use Rattle.ra_labels.specs.Explained.{is_explained};
ghost use Rattle.ra_labels.specs.Linearization.{extends_visibility, visible_updates, updates_admitted, queries_admitted};
ghost use Rattle.ra_labels.specs.NamedOrder.{named_labels, named_sequence};
ghost use Rattle.ra_labels.specs.Fault.{Holds};
ghost use Rattle.ra_labels.specs.Insertion.{delivered_updates_of, delivered_updates, HasUpdate, IsPlacedInOrder, OwnQueriesAnswered};
ghost use Rattle.ra_labels.specs.HistorySoFar.{NextOperation, operate, label_of};

/// Theorem: an operation makes an update exactly if it is one, and it makes at most one.
pub fn operation_update_unique()
    ensures exactly { (op : Op) → (is_update op ≡ true) ↔ ((update : Update) × HasUpdate op update) }
    ensures one { (op : Op) (update other : Update) → HasUpdate op update → HasUpdate op other → update ≡ other }
{}

/// Theorem: a new label is inserted into the named order of the labels before, which stays the same otherwise.
pub fn new_label_preserves_order()
    ensures { (kind : Kind) (records : Records) (next : NextOperation) → (before behind : List Label)
        × (named_labels kind records ≡ before ++ behind) × (named_labels kind (operate next ∷ records)
        ≡ before ++ label_of records next ∷ behind) }
{}

/// Theorem: after a new label the others see the same updates in the same order. The new label sees those that were
/// delivered to its replica.
pub fn new_label_preserves_visibility()
    ensures others { (kind : Kind) (records : Records) (next : NextOperation) (n : ℕ) → n < label_count records
        → let now = operate next ∷ records in
        visible_updates now (named_sequence kind now) n ≡ visible_updates records (named_sequence kind records) n }
    ensures own { (kind : Kind) (records : Records) (next : NextOperation) → let now = operate next ∷ records in
        visible_updates now (named_sequence kind now) (label_count records) ≡ delivered_updates kind records next.by }
{}

/// Theorem: if records hold, the new label alone decides whether they hold with it. They do exactly if its parts stand
/// behind all that must precede them, all updates are admitted in the named order, and its queries are answered after
/// the updates that it sees. The records have to meet the condition of their kind as well, if it has one.
pub fn new_label_decides()
    ensures order { (kind : Kind) (records : Records) (next : NextOperation)
        → extends_visibility records (named_sequence kind records) ≡ true
        → let now = operate next ∷ records in let sequence = named_sequence kind now in
        (extends_visibility now sequence ≡ true) ↔ IsPlacedInOrder now (label_of records next) sequence }
    ensures query { (kind : Kind) (records : Records) (next : NextOperation)
        → queries_admitted kind records (named_sequence kind records) ≡ true
        → let now = operate next ∷ records in let sequence = named_sequence kind now in
        (queries_admitted kind now sequence ≡ true)
        ↔ OwnQueriesAnswered kind now (label_of records next) sequence }
    ensures all { (kind : Kind) (records : Records) (next : NextOperation) → Holds kind records
        → let now = operate next ∷ records in let sequence = named_sequence kind now in
        Holds kind now ↔ (IsPlacedInOrder now (label_of records next) sequence
        × (updates_admitted kind sequence ≡ true)
        × OwnQueriesAnswered kind now (label_of records next) sequence
        × (is_explained kind now ≡ true)) }
{}

/// Theorem: an operation inserts its update among those delivered to its replica. If it is no update, they do not
/// change; those of other replicas never do.
pub fn operation_extends_delivered()
    ensures own { (kind : Kind) (records : Records) (next : NextOperation) (update : Update)
        → HasUpdate next.op update → let now = operate next ∷ records in (before behind : List Label)
        × (named_labels kind records ≡ before ++ behind)
        × (named_labels kind now ≡ before ++ label_of records next ∷ behind)
        × (delivered_updates kind records next.by
        ≡ delivered_updates_of records next.by before ++ delivered_updates_of records next.by behind)
        × (delivered_updates kind now next.by
        ≡ delivered_updates_of records next.by before ++ update ∷ delivered_updates_of records next.by behind) }
    ensures query { (kind : Kind) (records : Records) (next : NextOperation) → is_update next.op ≡ false
        → delivered_updates kind (operate next ∷ records) next.by ≡ delivered_updates kind records next.by }
    ensures others { (kind : Kind) (records : Records) (next : NextOperation) (replica : ℕ)
        → ¬ (next.by ≡ replica)
        → delivered_updates kind (operate next ∷ records) replica ≡ delivered_updates kind records replica }
{}

/// Theorem: the delivery of a new update inserts it among those delivered to the replica. The named order, and the
/// updates delivered to other replicas, do not change.
pub fn delivery_extends_delivered()
    ensures own { (kind : Kind) (records : Records) (to : ℕ) (label : Label) (update : Update)
        → Contains (labels_of records) label → HasUpdate label.op update → has_delivered records to label.number ≡ false
        → let now = Deliver to label.number ∷ records in (before behind : List Label)
        × (named_labels kind records ≡ before ++ label ∷ behind)
        × (delivered_updates kind records to
        ≡ delivered_updates_of records to before ++ delivered_updates_of records to behind)
        × (delivered_updates kind now to
        ≡ delivered_updates_of records to before ++ update ∷ delivered_updates_of records to behind) }
    ensures order { (kind : Kind) (records : Records) (to n : ℕ)
        → named_labels kind (Deliver to n ∷ records) ≡ named_labels kind records }
    ensures others { (kind : Kind) (records : Records) (to n replica : ℕ) → ¬ (to ≡ replica)
        → delivered_updates kind (Deliver to n ∷ records) replica ≡ delivered_updates kind records replica }
{}
