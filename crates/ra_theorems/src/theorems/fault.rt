//! Theorems about when records hold, and about their fault.
ghost use Rattle.std.specs.Prelude.{◌≡◌, ◌↔◌, ◌⊎◌, true, false, ℕ, ◌<◌, ◌++◌, Some, None};
ghost use Rattle.ra_labels.specs.declared.kind.Kind.{Kind};
ghost use Rattle.ra_labels.specs.declared.kind.Kind.TheVariants as kinds;
ghost use Rattle.ra_labels.specs.declared.reply.Fault.{Fault};
ghost use Rattle.ra_labels.specs.declared.reply.Cause.TheVariants.{Order, Update, Query};
ghost use Rattle.ra_labels.specs.Records.{Records, label_count, records_to};
ghost use Rattle.ra_labels.specs.Explained.{is_explained, unexplained_cause};
ghost use Rattle.ra_labels.specs.Linearization.{extends_visibility, updates_admitted, queries_admitted};
ghost use Rattle.ra_labels.specs.NamedOrder.{named_sequence};
ghost use Rattle.ra_labels.specs.Fault.{Holds, sequence_cause, cause_of, fault_of, records_before_fault};
ghost use Rattle.ra_labels.specs.TheoremTerms.{IsLeastFault};

/// Theorem: records hold exactly if their named sequence fails none of the conditions, and they meet the condition of
/// their kind.
pub fn cause_none_iff_holds()
    ensures { (kind : Kind) (records : Records) → (cause_of kind records ≡ None) ↔ Holds kind records }
{}

/// Theorem: the cause is the first of the three conditions that the named sequence fails; or it meets them, and the
/// records do not meet the condition of their kind.
pub fn cause_is_first_failed()
    ensures order { (kind : Kind) (records : Records) → (cause_of kind records ≡ Some Order)
        ↔ ((extends_visibility records (named_sequence kind records) ≡ false)
        ⊎ ((extends_visibility records (named_sequence kind records) ≡ true)
        × (updates_admitted kind (named_sequence kind records) ≡ true)
        × (queries_admitted kind records (named_sequence kind records) ≡ true)
        × (is_explained kind records ≡ false) × (unexplained_cause kind ≡ Order))) }
    ensures update { (kind : Kind) (records : Records) → (cause_of kind records ≡ Some Update)
        ↔ ((extends_visibility records (named_sequence kind records) ≡ true)
        × (updates_admitted kind (named_sequence kind records) ≡ false)) }
    ensures query { (kind : Kind) (records : Records) → (cause_of kind records ≡ Some Query)
        ↔ ((extends_visibility records (named_sequence kind records) ≡ true)
        × (updates_admitted kind (named_sequence kind records) ≡ true)
        × ((queries_admitted kind records (named_sequence kind records) ≡ false)
        ⊎ ((queries_admitted kind records (named_sequence kind records) ≡ true)
        × (is_explained kind records ≡ false) × (unexplained_cause kind ≡ Query)))) }
{}

/// Theorem: the named sequence fails no condition exactly if it meets all three.
pub fn sequence_cause_none_iff()
    ensures { (kind : Kind) (records : Records) → (sequence_cause kind records ≡ None)
        ↔ ((extends_visibility records (named_sequence kind records) ≡ true)
        × (updates_admitted kind (named_sequence kind records) ≡ true)
        × (queries_admitted kind records (named_sequence kind records) ≡ true)) }
{}

/// Theorem: only a list, an object of any type and a multi-value register have a condition on the records as a whole. A
/// list that does not meet it fails the order, and no other kind does.
pub fn conditions_of_kinds()
    ensures others { (kind : Kind) (records : Records) → ¬ (kind ≡ kinds.List) → ¬ (kind ≡ kinds.Any)
        → ¬ (kind ≡ kinds.MvRegister) → is_explained kind records ≡ true }
    ensures order { (kind : Kind) → (unexplained_cause kind ≡ Order) ↔ (kind ≡ kinds.List) }
{}

/// Theorem: if records have no fault, they hold.
pub fn fault_none_implies_holds()
    ensures { (kind : Kind) (records : Records) → fault_of kind records ≡ None → Holds kind records }
{}

/// Theorem: records have no fault exactly if the records up to each label hold.
pub fn fault_none_iff_prefixes_hold()
    ensures { (kind : Kind) (records : Records) → (fault_of kind records ≡ None)
        ↔ ((n : ℕ) → n < label_count records → Holds kind (records_to records n)) }
{}

/// Theorem: the fault is the first label at which the records do not hold, with the first condition that fails there.
pub fn fault_is_least_label()
    ensures { (kind : Kind) (records : Records) (fault : Fault) → (fault_of kind records ≡ Some fault)
        ↔ IsLeastFault kind records fault }
{}

/// Theorem: a fault stays the fault of all later records.
pub fn fault_persists()
    ensures { (kind : Kind) (later records : Records) (fault : Fault) → fault_of kind records ≡ Some fault
        → fault_of kind (later ++ records) ≡ Some fault }
{}

/// Theorem: the records before the fault have no fault, and are all records if there is none. If there is one, its
/// label is the number of their labels.
pub fn records_before_fault_have_none()
    ensures none { (kind : Kind) (records : Records) → fault_of kind (records_before_fault kind records) ≡ None }
    ensures all { (kind : Kind) (records : Records) → fault_of kind records ≡ None
        → records_before_fault kind records ≡ records }
    ensures count { (kind : Kind) (records : Records) (fault : Fault) → fault_of kind records ≡ Some fault
        → label_count (records_before_fault kind records) ≡ fault.label }
{}

/// Theorem: the records before the fault are a prefix of the history, and the longest one without a fault.
pub fn records_before_fault_longest()
    ensures prefix { (kind : Kind) (records : Records)
        → (later : Records) × (records ≡ later ++ records_before_fault kind records) }
    ensures longest { (kind : Kind) (later before : Records) → fault_of kind before ≡ None
        → (more : Records) × (records_before_fault kind (later ++ before) ≡ more ++ before) }
{}
