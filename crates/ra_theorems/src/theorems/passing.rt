//! Theorems about the updates of the labels that pass a test, in the named order.
ghost use Rattle.std.specs.Prelude.{◌≡◌, true, false, ◌||◌, ℕ, Bool, ◌+◌, ◌≤◌, List, ◌∷◌, ◌++◌, length, Contains};
ghost use Rattle.ra_labels.specs.declared.kind.Kind.{Kind};
ghost use Rattle.ra_labels.specs.declared.operation.Update.{Update};
ghost use Rattle.ra_labels.specs.declared.label.Label.{Label};
ghost use Rattle.ra_labels.specs.declared.command.Command.TheVariants.{Deliver, Join};
ghost use Rattle.ra_labels.specs.Records.{Records, label_count, labels_of};
ghost use Rattle.ra_labels.specs.Visibility.{is_update, is_update_at, has_delivered, sees};
ghost use Rattle.ra_labels.specs.Specification.{is_admitted};
ghost use Rattle.ra_labels.specs.Linearization.{visible_updates, updates_admitted};
ghost use Rattle.ra_labels.specs.NamedOrder.{named_labels, named_sequence};
ghost use Rattle.ra_labels.specs.TheoremTerms.{admits_all};
ghost use Rattle.ra_labels.specs.Insertion.{updates_among, updates_passing, or_label, delivered_updates, HasUpdate};
ghost use Rattle.ra_labels.specs.Pending.{inserts_element, is_present_element};
ghost use Rattle.ra_labels.specs.HistorySoFar.{NextOperation, operate};

/// Theorem: the updates delivered to a replica, and those that a label sees, are the updates of labels that pass a
/// test.
pub fn delivered_updates_eq_filter()
    ensures delivered { (kind : Kind) (records : Records) (replica : ℕ)
        → delivered_updates kind records replica ≡ updates_passing kind records (has_delivered records replica) }
    ensures seen { (kind : Kind) (records : Records) (n : ℕ) → visible_updates records (named_sequence kind records) n
        ≡ updates_passing kind records (sees records n) }
{}

/// Theorem: tests that agree on the labels that make updates give the same updates.
pub fn updates_passing_congruent()
    ensures { (kind : Kind) (records : Records) (passes others : ℕ → Bool) → ((label : Label) (update : Update)
        → Contains (labels_of records) label → HasUpdate label.op update → passes label.number ≡ others label.number)
        → updates_passing kind records passes ≡ updates_passing kind records others }
{}

/// Theorem: if a test passes all labels that another one passes, it gives at least as many updates.
pub fn updates_passing_monotone()
    ensures { (kind : Kind) (records : Records) (passes others : ℕ → Bool)
        → ((n : ℕ) → passes n ≡ true → others n ≡ true)
        → length (updates_passing kind records passes) ≤ length (updates_passing kind records others) }
{}

/// Theorem: for the kinds of `admits_all`, the updates of the labels that pass are admitted if those of all labels
/// are.
pub fn updates_passing_admitted()
    ensures { (kind : Kind) (records : Records) (passes : ℕ → Bool) → admits_all kind ≡ true
        → updates_admitted kind (named_sequence kind records) ≡ true
        → is_admitted kind (updates_passing kind records passes) ≡ true }
{}

/// Theorem: the delivery or the issue of an update adds exactly this label to those delivered to the replica.
pub fn delivered_extends_by_one()
    ensures delivery { (records : Records) (to n m : ℕ) → is_update_at records n ≡ true
        → has_delivered (Deliver to n ∷ records) to m ≡ or_label (has_delivered records to) n m }
    ensures operation { (records : Records) (next : NextOperation) (m : ℕ) → is_update next.op ≡ true
        → has_delivered (operate next ∷ records) next.by m
        ≡ or_label (has_delivered records next.by) (label_count records) m }
{}

/// Theorem: a later command does not change the updates of the labels that pass, if its own label does not pass.
pub fn later_command_preserves_updates_passing()
    ensures delivery { (kind : Kind) (records : Records) (to n : ℕ) (passes : ℕ → Bool)
        → updates_passing kind (Deliver to n ∷ records) passes ≡ updates_passing kind records passes }
    ensures join { (kind : Kind) (records : Records) (joined from : ℕ) (passes : ℕ → Bool)
        → updates_passing kind (Join joined from ∷ records) passes ≡ updates_passing kind records passes }
    ensures operation { (kind : Kind) (records : Records) (next : NextOperation) (passes : ℕ → Bool)
        → passes (label_count records) ≡ false
        → updates_passing kind (operate next ∷ records) passes ≡ updates_passing kind records passes }
{}

/// Theorem: one more label that passes inserts its update at its position in the named order. The number of updates
/// grows by one, and an element is present with it if it was before or the update inserts it.
pub fn updates_passing_insert()
    ensures place { (kind : Kind) (records : Records) (passes : ℕ → Bool) (label : Label) (update : Update)
        → Contains (labels_of records) label → HasUpdate label.op update → passes label.number ≡ false
        → (before behind : List Label) × (named_labels kind records ≡ before ++ label ∷ behind)
        × (updates_passing kind records passes ≡ updates_among passes before ++ updates_among passes behind)
        × (updates_passing kind records (or_label passes label.number)
        ≡ updates_among passes before ++ update ∷ updates_among passes behind) }
    ensures at { (kind : Kind) (records : Records) (passes : ℕ → Bool) (before behind : List Label) (label : Label)
        (update : Update) → named_labels kind records ≡ before ++ label ∷ behind → HasUpdate label.op update
        → passes label.number ≡ false
        → (updates_passing kind records passes ≡ updates_among passes before ++ updates_among passes behind)
        × (updates_passing kind records (or_label passes label.number)
        ≡ updates_among passes before ++ update ∷ updates_among passes behind) }
    ensures count { (kind : Kind) (records : Records) (passes : ℕ → Bool) (label : Label) (update : Update)
        → Contains (labels_of records) label → HasUpdate label.op update → passes label.number ≡ false
        → length (updates_passing kind records (or_label passes label.number))
        ≡ length (updates_passing kind records passes) + 1 }
    ensures there { (kind : Kind) (records : Records) (passes : ℕ → Bool) (label : Label) (update : Update) (x : ℕ)
        → Contains (labels_of records) label → HasUpdate label.op update → passes label.number ≡ false
        → is_present_element x (updates_passing kind records (or_label passes label.number))
        ≡ (is_present_element x (updates_passing kind records passes) || inserts_element x update) }
{}
