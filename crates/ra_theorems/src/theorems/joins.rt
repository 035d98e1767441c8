//! Theorems about joins: what a new replica starts with, and that nothing was delivered to it before.
ghost use Rattle.std.specs.Prelude.{◌≡◌, ℕ, ◌<◌, ◌∷◌, List, []};
ghost use Rattle.ra_labels.specs.declared.kind.Kind.{Kind};
ghost use Rattle.ra_labels.specs.declared.command.Command.{Command};
ghost use Rattle.ra_labels.specs.declared.command.Command.TheVariants.{Deliver, Join};
ghost use Rattle.ra_labels.specs.Records.{Records, replica_count};
ghost use Rattle.ra_labels.specs.Visibility.{has_delivered};
ghost use Rattle.ra_labels.specs.Places.{updates_issued};
ghost use Rattle.ra_labels.specs.NamedOrder.{named_labels};
ghost use Rattle.ra_labels.specs.Answer.{records_after, records_after_all};
ghost use Rattle.ra_labels.specs.TheoremTerms.{NoneDeliveredBeyond};
ghost use Rattle.ra_labels.specs.Insertion.{delivered_updates};
ghost use Rattle.ra_labels.specs.HistorySoFar.{NextOperation, operate};

/// Theorem: nothing is delivered to a replica before it joins. Operations and deliveries at existing replicas, joins
/// with the next number, and answers preserve this; so it holds of the records after commands on empty ones.
pub fn nothing_delivered_before_join()
    ensures operation { (initial_replicas : ℕ) (records : Records) (next : NextOperation)
        → next.by < replica_count initial_replicas records → NoneDeliveredBeyond initial_replicas records
        → NoneDeliveredBeyond initial_replicas (operate next ∷ records) }
    ensures delivery { (initial_replicas : ℕ) (records : Records) (to n : ℕ)
        → to < replica_count initial_replicas records
        → NoneDeliveredBeyond initial_replicas records → NoneDeliveredBeyond initial_replicas (Deliver to n ∷ records) }
    ensures join { (initial_replicas : ℕ) (records : Records) (from : ℕ) → NoneDeliveredBeyond initial_replicas records
        → NoneDeliveredBeyond initial_replicas (Join (replica_count initial_replicas records) from ∷ records) }
    ensures one { (kind : Kind) (replicas : ℕ) (records : Records) (command : Command)
        → NoneDeliveredBeyond replicas records
        → NoneDeliveredBeyond replicas (records_after kind replicas records command) }
    ensures all { (kind : Kind) (replicas : ℕ) (commands : List Command)
        → NoneDeliveredBeyond replicas (records_after_all kind replicas [] commands) }
{}

/// Theorem: if nothing was delivered beyond the existing replicas, a join gives the new replica exactly the updates of
/// its source, in the same order. The new replica has issued nothing. The updates of other replicas and the named order
/// do not change.
pub fn join_copies_delivered()
    ensures labels { (initial_replicas : ℕ) (records : Records) (from n : ℕ)
        → NoneDeliveredBeyond initial_replicas records
        → let joined = replica_count initial_replicas records in
        has_delivered (Join joined from ∷ records) joined n ≡ has_delivered records from n }
    ensures issued { (initial_replicas : ℕ) (records : Records) → NoneDeliveredBeyond initial_replicas records
        → updates_issued records (replica_count initial_replicas records) ≡ 0 }
    ensures own { (kind : Kind) (initial_replicas : ℕ) (records : Records) (from : ℕ)
        → NoneDeliveredBeyond initial_replicas records
        → let joined = replica_count initial_replicas records in
        delivered_updates kind (Join joined from ∷ records) joined ≡ delivered_updates kind records from }
    ensures others { (kind : Kind) (records : Records) (joined from replica : ℕ) → ¬ (joined ≡ replica)
        → delivered_updates kind (Join joined from ∷ records) replica ≡ delivered_updates kind records replica }
    ensures order { (kind : Kind) (records : Records) (joined from : ℕ)
        → named_labels kind (Join joined from ∷ records) ≡ named_labels kind records }
{}
