//! The theorems about siblings, each the clause of a function with an empty body.
ghost use Rattle.std.specs.Prelude.{◌≡◌, ◌↔◌, ◌⊎◌, ℕ, ◌<◌, ◌≤◌, true, false, List, [], ◌∷◌, ◌++◌, length, Option, None, Contains};
ghost use Rattle.ra_labels.specs.Lists.{rises};
ghost use Rattle.ra_labels.specs.declared.operation.Op.{Op};
ghost use Rattle.ra_labels.specs.declared.command.Command.TheVariants.{Operate, Deliver, Join};
ghost use Rattle.ra_labels.specs.declared.kind.Kind.TheVariants as kinds;
ghost use Rattle.ra_labels.specs.Records.{Records, label_count, labels_of};
ghost use Rattle.ra_labels.specs.Visibility.{is_update, is_update_at, has_delivered, sees, IsCausal};
ghost use Rattle.ra_labels.specs.Places.{issuer_of};
ghost use Rattle.ra_labels.specs.Siblings.{siblings_at, replaced_by, reads_list_siblings};
ghost use Rattle.ra_labels.specs.Explained.{value_written, values_listed};
ghost use Rattle.ra_labels.specs.Fault.{Holds, fault_of};
ghost use Rattle.ra_labels.specs.TheoremTerms.{IsCausalDelivery};
ghost use Rattle.ra_theorems.specs.OneState.{EachLabelIsOf};
ghost use Rattle.ra_mvregister_model.specs.Unseen.{IsUnseenAmong};
ghost use Rattle.ra_mvregister_model.specs.Replacing.{siblings_after, seen_in, explains_reads, IsSequenceOf};

/// Theorem: the siblings at a replica are the updates delivered to it that none of these sees, and a label replaces
/// those that it sees and that none of these sees. Siblings are listed in the order of their labels.
pub fn siblings_iff_unseen()
    ensures siblings { (records : Records) (replica m : ℕ) → Contains (siblings_at records replica) m
        ↔ IsUnseenAmong records (has_delivered records replica) m }
    ensures replaced { (records : Records) (n m : ℕ) → Contains (replaced_by records n) m
        ↔ IsUnseenAmong records (sees records n) m }
    ensures rising { (records : Records) (replica : ℕ) → rises (siblings_at records replica) ≡ true }
{}

/// Theorem: after a write by a replica, its siblings are that write alone. Those of other replicas do not change.
pub fn siblings_after_write()
    ensures own { (records : Records) (by : ℕ) (op : Op) (clock : Option ℕ) → is_update op ≡ true
        → siblings_at (Operate by op clock ∷ records) by ≡ label_count records ∷ [] }
    ensures others { (records : Records) (by replica : ℕ) (op : Op) (clock : Option ℕ) → ¬ (by ≡ replica)
        → siblings_at (Operate by op clock ∷ records) replica ≡ siblings_at records replica }
{}

/// Theorem: after a read no replica's siblings have changed.
pub fn siblings_after_read()
    ensures { (records : Records) (by replica : ℕ) (op : Op) (clock : Option ℕ) → is_update op ≡ false
        → siblings_at (Operate by op clock ∷ records) replica ≡ siblings_at records replica }
{}

/// Theorem: after the accepted delivery of write n, the receiver's siblings are n and those of its siblings that n does
/// not replace. Those of other replicas do not change.
pub fn siblings_after_delivery()
    ensures receiver { (records : Records) (to n m : ℕ) → IsCausal records → is_update_at records n ≡ true
        → IsCausalDelivery records to n → Contains (siblings_at (Deliver to n ∷ records) to) m
        ↔ ((n ≡ m) ⊎ (Contains (siblings_at records to) m × (¬ Contains (replaced_by records n) m))) }
    ensures others { (records : Records) (to n replica : ℕ) → ¬ (to ≡ replica)
        → siblings_at (Deliver to n ∷ records) replica ≡ siblings_at records replica }
{}

/// Theorem: after a join, the new replica has the siblings of its source. Those of other replicas do not change.
pub fn siblings_after_join()
    ensures joined { (records : Records) (joined from : ℕ)
        → ((n : ℕ) → has_delivered records joined n ≡ false)
        → siblings_at (Join joined from ∷ records) joined ≡ siblings_at records from }
    ensures others { (records : Records) (joined from replica : ℕ) → ¬ (joined ≡ replica)
        → siblings_at (Join joined from ∷ records) replica ≡ siblings_at records replica }
{}

/// Theorem: a label replaces the siblings that its replica had just before, and later records do not change that.
pub fn replaced_when_issued()
    ensures new { (records : Records) (by : ℕ) (op : Op) (clock : Option ℕ)
        → replaced_by (Operate by op clock ∷ records) (label_count records) ≡ siblings_at records by }
    ensures others { (records : Records) (by n : ℕ) (op : Op) (clock : Option ℕ) → ¬ (n ≡ label_count records)
        → replaced_by (Operate by op clock ∷ records) n ≡ replaced_by records n }
{}

/// Theorem: of the siblings at a replica at most one was issued by each replica, since a replica sees its own updates.
/// So there are at most as many siblings as replicas.
pub fn siblings_are_few()
    ensures one { (records : Records) (replica m n : ℕ) → Contains (siblings_at records replica) m
        → Contains (siblings_at records replica) n → issuer_of records m ≡ issuer_of records n → m ≡ n }
    ensures few { (records : Records) (replica replicas : ℕ)
        → ((n : ℕ) → n < label_count records → issuer_of records n < replicas)
        → length (siblings_at records replica) ≤ replicas }
{}

/// Theorem: any sequence that has each label once and extends visibility leads to the same siblings. After the writes
/// that a label sees, in the order of the sequence, the siblings are those that the label's replica had just before.
pub fn sequence_does_not_matter()
    ensures { (records : Records) (sequence : List ℕ) (n m : ℕ) → IsCausal records → IsSequenceOf records sequence
        → Contains (siblings_after records (seen_in records sequence n)) m ↔ Contains (replaced_by records n) m }
{}

/// Theorem: any sequence that has each label once and extends visibility explains the reads exactly if each read lists
/// the values of the siblings that its replica had just before. So some sequence explains them exactly if this is so.
pub fn siblings_decide_linearization()
    ensures any { (written : Op → Option ℕ) (listed : Op → Option (List ℕ)) (records : Records) (sequence : List ℕ)
        → IsCausal records → IsSequenceOf records sequence
        → explains_reads written listed records sequence ≡ reads_list_siblings written listed records }
    ensures some { (written : Op → Option ℕ) (listed : Op → Option (List ℕ)) (records : Records) → IsCausal records
        → (reads_list_siblings written listed records ≡ true) ↔ ((sequence : List ℕ) × IsSequenceOf records sequence
        × (explains_reads written listed records sequence ≡ true)) }
{}

/// Theorem: causal records whose labels are all of the kind `mvregister` hold, and have no fault, exactly if some
/// sequence explains their reads.
pub fn mvregister_holds_iff_some_sequence()
    ensures holds { (records : Records) → EachLabelIsOf kinds.MvRegister records → IsCausal records
        → Holds kinds.MvRegister records ↔ ((sequence : List ℕ) × IsSequenceOf records sequence
        × (explains_reads value_written values_listed records sequence ≡ true)) }
    ensures fault { (records : Records) → EachLabelIsOf kinds.MvRegister records → IsCausal records
        → (fault_of kinds.MvRegister records ≡ None) ↔ ((sequence : List ℕ) × IsSequenceOf records sequence
        × (explains_reads value_written values_listed records sequence ≡ true)) }
{}

/// Theorem: only the labels, and which of them sees which, decide whether each read lists the values of the siblings.
pub fn visibility_decides_reads()
    ensures { (written : Op → Option ℕ) (listed : Op → Option (List ℕ)) (one other : Records)
        → labels_of one ≡ labels_of other → ((n m : ℕ) → sees one n m ≡ sees other n m)
        → reads_list_siblings written listed one ≡ reads_list_siblings written listed other }
{}

/// Theorem: if a read does not list the values of the siblings, no sequence explains the reads of these records or of
/// any later ones.
pub fn violation_is_final()
    ensures { (written : Op → Option ℕ) (listed : Op → Option (List ℕ)) (later records : Records) (sequence : List ℕ)
        → IsCausal (later ++ records) → IsSequenceOf (later ++ records) sequence
        → reads_list_siblings written listed records ≡ false
        → explains_reads written listed (later ++ records) sequence ≡ false }
{}
