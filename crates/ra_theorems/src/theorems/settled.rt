//! Theorems about which delivered updates of an RGA are pending and which are settled. Most assume that the updates of
//! all labels are admitted, as they are in records that hold.
ghost use Rattle.std.specs.Prelude.{◌≡◌, ◌↔◌, ◌⊎◌, true, false, ℕ, Bool, ◌+◌, ◌≤◌, List, [], ◌∷◌, ◌++◌, length, Contains};
ghost use Rattle.ra_labels.specs.declared.kind.Kind.TheVariants.{Rga};
ghost use Rattle.ra_labels.specs.declared.operation.Update.{Update};
ghost use Rattle.ra_labels.specs.declared.label.Label.{Label};
ghost use Rattle.ra_labels.specs.declared.command.Command.TheVariants.{Deliver, Join};
ghost use Rattle.ra_labels.specs.Records.{Records, label_count, labels_of};
ghost use Rattle.ra_labels.specs.Specification.{is_admitted};
ghost use Rattle.ra_labels.specs.Linearization.{updates_admitted};
ghost use Rattle.ra_labels.specs.NamedOrder.{named_labels, named_sequence};
ghost use Rattle.ra_labels.specs.Insertion.{updates_among, updates_passing, or_label, HasUpdate};
ghost use Rattle.ra_labels.specs.Pending.{inserts_element, is_present_element, dependency_of, OneInserts, NonePending, OthersPending, elements_inserted_by, AllSettled, IsSettled, IsSettling};
ghost use Rattle.ra_labels.specs.HistorySoFar.{NextOperation, operate};

/// Theorem: the dependency of an update is the root, or is inserted by a label before it in the named order.
pub fn dependency_inserted_before()
    ensures { (records : Records) → updates_admitted Rga (named_sequence Rga records) ≡ true
        → (first later : List Label) (label : Label) (update : Update)
        → named_labels Rga records ≡ first ++ label ∷ later → HasUpdate label.op update
        → (dependency_of update ≡ 0) ⊎ OneInserts (dependency_of update) first }
{}

/// Theorem: settled updates are admitted. The delivered updates are admitted exactly if all are settled; then they are
/// the settled ones.
pub fn settled_updates_admitted()
    ensures settled { (records : Records) (had settled : ℕ → Bool)
        → updates_admitted Rga (named_sequence Rga records) ≡ true → IsSettled records had settled
        → is_admitted Rga (updates_passing Rga records settled) ≡ true }
    ensures all { (records : Records) (had settled : ℕ → Bool)
        → updates_admitted Rga (named_sequence Rga records) ≡ true → IsSettled records had settled
        → (is_admitted Rga (updates_passing Rga records had) ≡ true) ↔ AllSettled records had settled }
    ensures same { (records : Records) (had settled : ℕ → Bool)
        → updates_admitted Rga (named_sequence Rga records) ≡ true → IsSettled records had settled
        → is_admitted Rga (updates_passing Rga records had) ≡ true
        → updates_passing Rga records settled ≡ updates_passing Rga records had }
{}

/// Theorem: labels are the settled ones exactly if they were delivered, none of them waits, and all other delivered
/// ones wait.
pub fn settled_not_pending()
    ensures { (records : Records) (had settled : ℕ → Bool) → IsSettled records had settled
        ↔ (((n : ℕ) → settled n ≡ true → had n ≡ true)
        × NonePending records settled × OthersPending records had settled) }
{}

/// Theorem: the settled labels stay the same after the delivery of one that waits. They also stay for later records
/// with the same deliveries, and for tests that agree.
pub fn settled_persists()
    ensures waiting { (records : Records) (had settled : ℕ → Bool) (label : Label) (update : Update)
        → Contains (labels_of records) label → HasUpdate label.op update → had label.number ≡ false
        → IsSettled records had settled
        → is_present_element (dependency_of update) (updates_passing Rga records settled) ≡ false
        → IsSettled records (or_label had label.number) settled }
    ensures delivery { (records : Records) (to n : ℕ) (had settled : ℕ → Bool) → IsSettled records had settled
        → IsSettled (Deliver to n ∷ records) had settled }
    ensures join { (records : Records) (joined from : ℕ) (had settled : ℕ → Bool) → IsSettled records had settled
        → IsSettled (Join joined from ∷ records) had settled }
    ensures operation { (records : Records) (next : NextOperation) (had settled : ℕ → Bool)
        → had (label_count records) ≡ false → IsSettled records had settled
        → IsSettled (operate next ∷ records) had settled }
    ensures alike { (records : Records) (had more settled others : ℕ → Bool) → ((n : ℕ) → had n ≡ more n)
        → ((n : ℕ) → settled n ≡ others n) → IsSettled records had settled → IsSettled records more others }
{}

/// Theorem: a delivered label that does not wait is settled. Then the labels follow that waited for its element, and
/// those that waited for theirs, until none waits for an arrived element.
pub fn pending_updates_settle()
    ensures starts { (records : Records) (had settled : ℕ → Bool) (label : Label) (update : Update)
        → Contains (labels_of records) label → HasUpdate label.op update → had label.number ≡ false
        → IsSettled records had settled
        → is_present_element (dependency_of update) (updates_passing Rga records settled) ≡ true
        → IsSettling records (or_label had label.number) (or_label settled label.number) (elements_inserted_by update) }
    ensures follows { (records : Records) (had passes : ℕ → Bool) (arrived : List ℕ) (label : Label) (update : Update)
        → IsSettling records had passes arrived → Contains (labels_of records) label → HasUpdate label.op update
        → had label.number ≡ true → passes label.number ≡ false → Contains arrived (dependency_of update)
        → IsSettling records had (or_label passes label.number) (arrived ++ elements_inserted_by update) }
    ensures done { (records : Records) (had passes : ℕ → Bool) (first later : List ℕ) (x : ℕ)
        → IsSettling records had passes (first ++ x ∷ later)
        → ((label : Label) (update : Update) → Contains (labels_of records) label → HasUpdate label.op update
        → had label.number ≡ true → passes label.number ≡ false → ¬ (dependency_of update ≡ x))
        → IsSettling records had passes (first ++ later) }
    ensures ends { (records : Records) (had passes : ℕ → Bool) → IsSettling records had passes []
        → IsSettled records had passes }
    ensures element { (x : ℕ) (update : Update) → Contains (elements_inserted_by update) x
        ↔ (inserts_element x update ≡ true) }
{}

/// Theorem: the delivered labels determine which labels with an update are settled.
pub fn settled_determined_by_delivered()
    ensures { (records : Records) (had settled others : ℕ → Bool)
        → updates_admitted Rga (named_sequence Rga records) ≡ true → IsSettled records had settled
        → IsSettled records had others → (label : Label) (update : Update) → Contains (labels_of records) label
        → HasUpdate label.op update → settled label.number ≡ others label.number }
{}

/// Theorem: one more delivered label does not change which labels before it in the named order are settled. At most it
/// and the delivered ones behind it become settled.
pub fn new_label_settles_only_later()
    ensures before { (records : Records) (had settled now : ℕ → Bool) (before behind : List Label) (label : Label)
        → updates_admitted Rga (named_sequence Rga records) ≡ true
        → named_labels Rga records ≡ before ++ label ∷ behind
        → IsSettled records had settled → IsSettled records (or_label had label.number) now
        → (other : Label) (update : Update) → Contains before other → HasUpdate other.op update
        → now other.number ≡ settled other.number }
    ensures count { (records : Records) (had settled now : ℕ → Bool) (before behind : List Label) (label : Label)
        (update : Update) → updates_admitted Rga (named_sequence Rga records) ≡ true
        → named_labels Rga records ≡ before ++ label ∷ behind → HasUpdate label.op update
        → IsSettled records had settled → IsSettled records (or_label had label.number) now
        → length (updates_passing Rga records now)
        ≤ length (updates_passing Rga records settled) + 1 + length (updates_among had behind) }
{}
