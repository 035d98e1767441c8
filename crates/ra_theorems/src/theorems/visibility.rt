//! Theorems about what a label sees, and what was delivered to a replica.
ghost use Rattle.std.specs.Prelude.{◌≡◌, ◌↔◌, ◌⊎◌, ℕ, ◌<◌, ◌∷◌, ◌++◌, true, false, Some, None};
ghost use Rattle.ra_labels.specs.declared.command.Command.TheVariants.{Deliver};
ghost use Rattle.ra_labels.specs.Records.{Records, label_count};
ghost use Rattle.ra_labels.specs.Visibility.{has_delivered, is_update_at, sees, first_missing, IsCausal};
ghost use Rattle.ra_labels.specs.TheoremTerms.{WasIssuedAt, WasDeliveredTo, WasDeliveredBeforeJoin, WasIssuedAfterDelivery, IsCausalDelivery, IsLeastMissing};

/// Theorem: an update is delivered to a replica in exactly three cases: the replica issued it, received it, or joined
/// with it.
pub fn delivered_cases()
    ensures { (records : Records) (replica n : ℕ) → (has_delivered records replica n ≡ true)
        ↔ (WasIssuedAt records replica n ⊎ WasDeliveredTo records replica n
        ⊎ WasDeliveredBeforeJoin records replica n) }
{}

/// Theorem: a label sees what had been delivered to its replica when the replica issued it.
pub fn sees_iff_delivered_before()
    ensures { (records : Records) (n m : ℕ) → (sees records n m ≡ true) ↔ WasIssuedAfterDelivery records n m }
{}

/// Theorem: a label of the records sees the same in all later records.
pub fn sees_persists()
    ensures { (later records : Records) (n m : ℕ) → n < label_count records
        → sees (later ++ records) n m ≡ sees records n m }
{}

/// Theorem: whether a label of the records is an update does not change in later records.
pub fn is_update_persists()
    ensures { (later records : Records) (n : ℕ) → n < label_count records
        → is_update_at (later ++ records) n ≡ is_update_at records n }
{}

/// Theorem: a label sees only updates, and only earlier ones.
pub fn sees_earlier_updates()
    ensures earlier { (records : Records) (n m : ℕ) → sees records n m ≡ true → m < n }
    ensures updates { (records : Records) (n m : ℕ) → sees records n m ≡ true → is_update_at records m ≡ true }
    ensures itself { (records : Records) (n : ℕ) → sees records n n ≡ false }
{}

/// Theorem: only existing updates are delivered to a replica.
pub fn delivered_are_updates()
    ensures updates { (records : Records) (replica n : ℕ) → has_delivered records replica n ≡ true
        → is_update_at records n ≡ true }
    ensures there { (records : Records) (n : ℕ) → is_update_at records n ≡ true → n < label_count records }
    ensures next { (records : Records) (replica : ℕ) → has_delivered records replica (label_count records) ≡ false }
{}

/// Theorem: what was delivered to a replica stays delivered.
pub fn delivered_persists()
    ensures { (later records : Records) (replica n : ℕ) → has_delivered records replica n ≡ true
        → has_delivered (later ++ records) replica n ≡ true }
{}

/// Theorem: records are causal exactly if each delivery is causal in the records before it.
pub fn causal_iff_deliveries_causal()
    ensures { (records : Records) → IsCausal records
        ↔ ((later before : Records) (replica n : ℕ) → records ≡ later ++ Deliver replica n ∷ before
        → IsCausalDelivery before replica n) }
{}

/// Theorem: in causal records, all that a delivered label sees was delivered to the replica too, and visibility is
/// transitive.
pub fn causal_delivery_transitive()
    ensures delivered { (records : Records) → IsCausal records → (replica m k : ℕ)
        → has_delivered records replica m ≡ true
        → sees records m k ≡ true → has_delivered records replica k ≡ true }
    ensures sees { (records : Records) → IsCausal records → (n m k : ℕ) → sees records n m ≡ true
        → sees records m k ≡ true → sees records n k ≡ true }
{}

/// Theorem: the first missing label is the least one that a label sees and that was not delivered to the replica. There
/// is none exactly if all that the label sees was delivered.
pub fn first_missing_is_least()
    ensures some { (records : Records) (replica n m : ℕ) → (first_missing records replica n ≡ Some m)
        ↔ IsLeastMissing records replica n m }
    ensures none { (records : Records) (replica n : ℕ) → (first_missing records replica n ≡ None)
        ↔ ((m : ℕ) → sees records n m ≡ true → has_delivered records replica m ≡ true) }
{}
