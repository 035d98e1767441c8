//! Theorems about the issuer and the position of each update, and about version vectors.
ghost use Rattle.std.specs.Prelude.{◌≡◌, ℕ, ◌<◌, ◌==◌, ◌&&◌, ◌∷◌, ◌++◌, length, filter};
ghost use Rattle.ra_labels.specs.Records.{Records, label_count, labels_of};
ghost use Rattle.ra_labels.specs.Visibility.{has_delivered, sees, is_update, IsCausal};
ghost use Rattle.ra_labels.specs.Places.{issuer_of, updates_issued, issue_position};
ghost use Rattle.ra_labels.specs.TheoremTerms.{IsUpdateOf, AreFirstUpdates};
ghost use Rattle.ra_labels.specs.HistorySoFar.{NextOperation, operate};

/// Theorem: a label keeps its issuer and its position, which is the number of updates that the issuer issued before it.
/// This number is the count of the replica's labels that are updates.
pub fn operation_position()
    ensures issuer { (later before : Records) (next : NextOperation)
        → issuer_of (later ++ operate next ∷ before) (label_count before) ≡ next.by }
    ensures place { (later before : Records) (next : NextOperation)
        → issue_position (later ++ operate next ∷ before) (label_count before) ≡ updates_issued before next.by }
    ensures count { (records : Records) (replica : ℕ) → updates_issued records replica
        ≡ length (filter (λ label. label.replica == replica && is_update label.op) (labels_of records)) }
{}

/// Theorem: a replica's updates have the positions 0, 1, 2, .., and each position has exactly one of them.
pub fn position_has_update()
    ensures below { (records : Records) (replica n : ℕ) → IsUpdateOf records replica n
        → issue_position records n < updates_issued records replica }
    ensures there { (records : Records) (replica place : ℕ) → place < updates_issued records replica
        → (n : ℕ) × IsUpdateOf records replica n × (issue_position records n ≡ place) }
    ensures only { (records : Records) (replica n m : ℕ) → IsUpdateOf records replica n → IsUpdateOf records replica m
        → issue_position records n ≡ issue_position records m → n ≡ m }
{}

/// Theorem: in causal records, the updates of one replica that were delivered to another one are the first ones, so
/// their count determines them. The same holds of those that a label sees.
pub fn delivered_prefix_of_each_replica()
    ensures delivered { (records : Records) → IsCausal records → (replica of : ℕ)
        → (count : ℕ) × AreFirstUpdates records of count (has_delivered records replica) }
    ensures sees { (records : Records) → IsCausal records → (n of : ℕ)
        → (count : ℕ) × AreFirstUpdates records of count (sees records n) }
{}
