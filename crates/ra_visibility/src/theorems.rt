//! Theorems that relate the terms of the contracts to records. The crates above cite them.
ghost use Rattle.std.specs.Prelude.{◌≡◌, ℕ, ◌<◌, ◌≤◌, ◌&&◌, ◌∷◌, length, true, false, None, nat_lt};
ghost use Rattle.std.specs.List.{insert};
ghost use Rattle.std.specs.List.Sorted.{IsPartitionPoint};
ghost use Rattle.std.specs.Ordering.{is_lt};
ghost use Rattle.ra_labels.specs.declared.kind.Kind.{Kind};
ghost use Rattle.ra_labels.specs.declared.command.Command.TheVariants.{Deliver, Join};
ghost use Rattle.ra_labels.specs.Records.{Records};
ghost use Rattle.ra_labels.specs.Visibility.{has_delivered, sees, is_update_at, IsCausal};
ghost use Rattle.ra_labels.specs.Linearization.{extends_visibility};
ghost use Rattle.ra_labels.specs.NamedOrder.{stamp_cmp, rank_of, named_labels, named_sequence};
ghost use Rattle.ra_visibility.specs.declared.order.Place.{Place};
ghost use Rattle.ra_visibility.specs.Order.{IsSeenBy, IsPlaceOf, EachFitted};
ghost use Rattle.ra_visibility.specs.Seen.{count_in};
ghost use Rattle.ra_visibility.specs.Tracked.{Tracked, IsVisibilityOf, replicas_in, labels_in, delivered_count, seen_in, refusal_in};
ghost use Rattle.ra_labels.specs.Places.{issuer_of, issue_position, updates_issued};
ghost use Rattle.ra_visibility.specs.Kept.{issued_count};
ghost use Rattle.ra_labels.specs.Answer.{delivery_refusal_at};
ghost use Rattle.ra_labels.specs.HistorySoFar.{History, NextOperation, operate, label_of};
ghost use Rattle.ra_visibility.specs.declared.limits.TheConstants.{MOST_LABELS};

/// Theorem: the largest number of labels is 1,048,576.
pub fn limits()
    ensures { MOST_LABELS ≡ 1048576 }
{}

/// Theorem: the tracker rejects a delivery to an existing replica for the reason that the records give.
pub fn refusal_matches_records()
    ensures { (tracked : Tracked) (past : History) (to label : ℕ)
        → IsVisibilityOf tracked past → to < replicas_in tracked
        → refusal_in tracked to label ≡ delivery_refusal_at past.records to label }
{}

/// Theorem: a delivery to an existing replica that is not rejected keeps the records causal.
pub fn delivery_preserves_causality()
    ensures { (tracked : Tracked) (past : History) (to label : ℕ)
        → IsVisibilityOf tracked past → to < replicas_in tracked → refusal_in tracked to label ≡ None
        → IsCausal past.records → IsCausal (Deliver to label ∷ past.records) }
{}

/// Theorem: what a label sees, and what was delivered to a replica, are the first updates of each replica, as many as
/// the count says.
pub fn delivered_prefix_by_counts()
    ensures seen { (tracked : Tracked) (past : History) (n m : ℕ)
        → IsVisibilityOf tracked past → n < labels_in tracked → m < labels_in tracked
        → sees past.records n m ≡ (is_update_at past.records m
        && nat_lt (issue_position past.records m) (count_in (seen_in tracked n) (issuer_of past.records m))) }
    ensures delivered { (tracked : Tracked) (past : History) (replica m : ℕ)
        → IsVisibilityOf tracked past → replica < replicas_in tracked → m < labels_in tracked
        → has_delivered past.records replica m ≡ (is_update_at past.records m
        && nat_lt (issue_position past.records m) (delivered_count tracked replica (issuer_of past.records m))) }
{}

/// Theorem: a tracker keeps for each replica as many updates as it issued, and none for one that does not exist.
pub fn issued_matches_records()
    ensures { (tracked : Tracked) (past : History) (of : ℕ) → IsVisibilityOf tracked past
        → issued_count tracked of ≤ updates_issued past.records of }
{}

/// Theorem: `seen_in`, which `vis` returns, is what the label sees in the sense of the orders.
pub fn seen_matches_records()
    ensures { (tracked : Tracked) (past : History) (n : ℕ)
        → IsVisibilityOf tracked past → n < labels_in tracked → IsSeenBy past.records n (seen_in tracked n) }
{}

/// Theorem: a new label stands behind exactly those labels whose rank is not greater than its own.
pub fn new_label_position()
    ensures { (kind : Kind) (records : Records) (next : NextOperation) (at : ℕ)
        → at ≤ length (named_labels kind records)
        → let label = label_of records next in let rank = rank_of kind (operate next ∷ records) label in
        IsPartitionPoint
        (λ m. is_lt (stamp_cmp rank (rank_of kind records m)) ≡ false)
        (λ m. is_lt (stamp_cmp rank (rank_of kind records m)) ≡ true)
        (named_labels kind records) at
        → named_labels kind (operate next ∷ records) ≡ insert (named_labels kind records) at label }
{}

/// Theorem: a new label is inserted into the named order at its position.
pub fn new_label_inserted_at_position()
    ensures among { (kind : Kind) (records : Records) (next : NextOperation) (place : Place)
        → IsPlaceOf kind records next place → place.at ≤ length (named_labels kind records) }
    ensures inserted { (kind : Kind) (records : Records) (next : NextOperation) (place : Place)
        → IsPlaceOf kind records next place → named_labels kind (operate next ∷ records)
        ≡ insert (named_labels kind records) place.at (label_of records next) }
{}

/// Theorem: with a new label, the named sequence extends visibility exactly if it did before and the label fits.
pub fn extends_visibility_iff_label_fits()
    ensures { (kind : Kind) (records : Records) (next : NextOperation) (place : Place)
        → IsPlaceOf kind records next place
        → extends_visibility (operate next ∷ records) (named_sequence kind (operate next ∷ records))
        ≡ (extends_visibility records (named_sequence kind records) && place.fits) }
{}

/// Theorem: if each label fitted when it was added, the named sequence extends visibility.
pub fn extends_visibility_if_each_fits()
    ensures { (kind : Kind) (records : Records) → EachFitted kind records
        → extends_visibility records (named_sequence kind records) ≡ true }
{}

/// Theorem: a join changes neither the named order nor whether the named sequence extends visibility.
pub fn join_preserves_order()
    ensures order { (kind : Kind) (records : Records) (joined from : ℕ)
        → named_labels kind (Join joined from ∷ records) ≡ named_labels kind records }
    ensures visibility { (kind : Kind) (records : Records) (joined from : ℕ)
        → extends_visibility (Join joined from ∷ records) (named_sequence kind (Join joined from ∷ records))
        ≡ extends_visibility records (named_sequence kind records) }
{}

/// Theorem: a delivery changes neither the named order nor whether the named sequence extends visibility.
pub fn delivery_preserves_order()
    ensures order { (kind : Kind) (records : Records) (to label : ℕ)
        → named_labels kind (Deliver to label ∷ records) ≡ named_labels kind records }
    ensures visibility { (kind : Kind) (records : Records) (to label : ℕ)
        → extends_visibility (Deliver to label ∷ records) (named_sequence kind (Deliver to label ∷ records))
        ≡ extends_visibility records (named_sequence kind records) }
{}
