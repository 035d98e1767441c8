//! Theorems about rejections and answers.
ghost use Rattle.std.specs.Prelude.{◌≡◌, ◌↔◌, ◌⊎◌, ℕ, ◌<◌, ◌≤◌, true, false, List, [], ◌++◌, Some, None};
ghost use Rattle.ra_labels.specs.declared.kind.Kind.{Kind};
ghost use Rattle.ra_labels.specs.declared.command.Command.{Command};
ghost use Rattle.ra_labels.specs.declared.command.Command.TheVariants.{Deliver, Join, Verdict};
ghost use Rattle.ra_labels.specs.declared.refusal.Refusal.{Refusal};
ghost use Rattle.ra_labels.specs.declared.refusal.Refusal.TheVariants.{StampTaken, IdTaken, NotCausal, UnknownReplica, ReplicaThere, TooManyReplicas};
ghost use Rattle.ra_labels.specs.declared.reply.Fault.{Fault};
ghost use Rattle.ra_labels.specs.declared.reply.Reply.TheVariants as reply;
ghost use Rattle.ra_labels.specs.declared.limits.TheConstants.{MOST_REPLICAS};
ghost use Rattle.ra_labels.specs.Records.{Records, replica_count};
ghost use Rattle.ra_labels.specs.Visibility.{is_update_at, IsCausal};
ghost use Rattle.ra_labels.specs.Rewriting.{Part};
ghost use Rattle.ra_labels.specs.Linearization.{IsRaLinearization};
ghost use Rattle.ra_labels.specs.Fault.{fault_of};
ghost use Rattle.ra_labels.specs.Answer.{no_reply, kind_of, has_rising_list, form_refusal, has_taken_stamp, has_taken_identifier, refusal_of, refusal_of_delivery, refusal_of_join, answer_of, records_after, answers_to, records_after_all};
ghost use Rattle.ra_labels.specs.TheoremTerms.{ReplyMeaning, IsCausalDelivery, IsNewUpdate, IsLeastMissing, HasClockIffStamped, EachLabelIsWellFormed};
ghost use Rattle.ra_labels.specs.HistorySoFar.{NextOperation, operate};

/// Theorem: each reply states what `ReplyMeaning` says of the records before the command and of those after it.
pub fn reply_meaning()
    ensures { (kind : Kind) (replicas : ℕ) (records : Records) (command : Command)
        → ReplyMeaning kind replicas records command (answer_of kind replicas records command) }
{}

/// Theorem: if the reply is `Ok` or `Yes`, some sequence is an RA-linearization of the records after the command.
pub fn ok_and_yes_imply_linearization()
    ensures ok { (kind : Kind) (replicas : ℕ) (records : Records) (command : Command) (n : ℕ)
        → answer_of kind replicas records command ≡ reply.Ok n
        → (sequence : List Part) × IsRaLinearization kind (records_after kind replicas records command) sequence }
    ensures yes { (kind : Kind) (replicas : ℕ) (records : Records) (command : Command) (n : ℕ)
        → answer_of kind replicas records command ≡ reply.Yes n
        → (sequence : List Part) × IsRaLinearization kind (records_after kind replicas records command) sequence }
{}

/// Theorem: the reply is `No` exactly if the records after the command have a fault; it names this fault.
pub fn no_iff_fault()
    ensures { (kind : Kind) (replicas : ℕ) (records : Records) (command : Command) (fault : Fault)
        → (fault_of kind (records_after kind replicas records command) ≡ Some fault)
        ↔ (answer_of kind replicas records command ≡ no_reply fault) }
{}

/// Theorem: after a fault each reply is `No` with this fault, and the records do not change.
pub fn no_persists()
    ensures reply { (kind : Kind) (replicas : ℕ) (records : Records) (command : Command) (fault : Fault)
        → fault_of kind records ≡ Some fault → answer_of kind replicas records command ≡ no_reply fault }
    ensures records { (kind : Kind) (replicas : ℕ) (records : Records) (command : Command) (fault : Fault)
        → fault_of kind records ≡ Some fault → records_after kind replicas records command ≡ records }
{}

/// Theorem: the answers to two lists of commands are those to the first list, then those to the second one from the
/// records that the first one leaves.
pub fn answers_append()
    ensures replies { (kind : Kind) (replicas : ℕ) (records : Records) (first later : List Command)
        → answers_to kind replicas records (first ++ later)
        ≡ answers_to kind replicas records first
        ++ answers_to kind replicas (records_after_all kind replicas records first) later }
    ensures records { (kind : Kind) (replicas : ℕ) (records : Records) (first later : List Command)
        → records_after_all kind replicas records (first ++ later)
        ≡ records_after_all kind replicas (records_after_all kind replicas records first) later }
{}

/// Theorem: if an operation of a known replica has a form that deserves a rejection, this is its rejection. The form of
/// a delivery, join or verdict never deserves one, and a verdict is never rejected.
pub fn malformed_commands_refused()
    ensures operation { (kind : Kind) (replicas : ℕ) (records : Records) (next : NextOperation) (why : Refusal)
        → next.by < replica_count replicas records → form_refusal kind (operate next) ≡ Some why
        → refusal_of kind replicas records (operate next) ≡ Some why }
    ensures delivery { (kind : Kind) (to label : ℕ) → form_refusal kind (Deliver to label) ≡ None }
    ensures join { (kind : Kind) (replica from : ℕ) → form_refusal kind (Join replica from) ≡ None }
    ensures verdict { (kind : Kind) (replicas : ℕ) (records : Records)
        → refusal_of kind replicas records Verdict ≡ None }
{}

/// Theorem: a delivery is rejected as not causal exactly if its replica exists, the label is an update that is new to
/// it, and the label sees one that the replica lacks. The rejection names the smallest such label.
pub fn not_causal_iff_seen_label_missing()
    ensures { (replicas : ℕ) (records : Records) (to label n : ℕ)
        → (refusal_of_delivery replicas records to label ≡ Some (NotCausal n))
        ↔ ((to < replica_count replicas records) × IsNewUpdate records to label × IsLeastMissing records to label n) }
{}

/// Theorem: a delivery is not rejected exactly if its replica exists, the label is an update, and the delivery is
/// causal.
pub fn delivery_accepted_iff_causal()
    ensures { (replicas : ℕ) (records : Records) (to label : ℕ) → (refusal_of_delivery replicas records to label ≡ None)
        ↔ ((to < replica_count replicas records) × (is_update_at records label ≡ true)
        × IsCausalDelivery records to label) }
{}

/// Theorem: a join is not rejected exactly if its source exists, the new replica's number is the number of replicas,
/// and this is less than the largest number of replicas.
pub fn join_accepted_iff()
    ensures { (replicas : ℕ) (records : Records) (replica from : ℕ)
        → (refusal_of_join replicas records replica from ≡ None)
        ↔ ((from < replica_count replicas records) × (replica ≡ replica_count replicas records)
        × (replica_count replicas records < MOST_REPLICAS)) }
{}

/// Theorem: a join is rejected for the first of three reasons that applies. Its source is unknown, or the new number is
/// greater than the number of replicas; the new number is that of an existing replica; the number of replicas is the
/// largest one.
pub fn join_refusal_cases()
    ensures unknown { (replicas : ℕ) (records : Records) (replica from : ℕ)
        → (refusal_of_join replicas records replica from ≡ Some UnknownReplica)
        ↔ ((replica_count replicas records ≤ from) ⊎ (replica_count replicas records < replica)) }
    ensures there { (replicas : ℕ) (records : Records) (replica from : ℕ)
        → (refusal_of_join replicas records replica from ≡ Some ReplicaThere)
        ↔ ((from < replica_count replicas records) × (replica < replica_count replicas records)) }
    ensures full { (replicas : ℕ) (records : Records) (replica from : ℕ)
        → (refusal_of_join replicas records replica from ≡ Some TooManyReplicas)
        ↔ ((from < replica_count replicas records) × (replica ≡ replica_count replicas records)
        × (MOST_REPLICAS ≤ replica_count replicas records)) }
{}

/// Theorem: each answer keeps causal records causal, so the records after commands on empty ones are causal.
pub fn answers_preserve_causality()
    ensures one { (kind : Kind) (replicas : ℕ) (records : Records) (command : Command) → IsCausal records
        → IsCausal (records_after kind replicas records command) }
    ensures all { (kind : Kind) (replicas : ℕ) (commands : List Command)
        → IsCausal (records_after_all kind replicas [] commands) }
{}

/// Theorem: an operation is well-formed exactly if it belongs to the kind, its list is strictly increasing, and it has
/// a clock if it carries a stamp and none otherwise.
pub fn well_formed_iff()
    ensures { (kind : Kind) (next : NextOperation) → (form_refusal kind (operate next) ≡ None)
        ↔ ((kind_of next.op ≡ kind) × (has_rising_list next.op ≡ true) × HasClockIffStamped next.op next.clock) }
{}

/// Theorem: an operation is rejected for its stamp exactly if its replica exists, it is well-formed, and a label has
/// its stamp.
pub fn stamp_taken_iff()
    ensures { (kind : Kind) (replicas : ℕ) (records : Records) (next : NextOperation)
        → (refusal_of kind replicas records (operate next) ≡ Some StampTaken)
        ↔ ((next.by < replica_count replicas records) × (form_refusal kind (operate next) ≡ None)
        × (has_taken_stamp records next.by next.clock ≡ true)) }
{}

/// Theorem: an operation is rejected for its identifier exactly if its replica exists, it is well-formed, no label has
/// its stamp, and a label has its identifier.
pub fn id_taken_iff()
    ensures { (kind : Kind) (replicas : ℕ) (records : Records) (next : NextOperation)
        → (refusal_of kind replicas records (operate next) ≡ Some IdTaken)
        ↔ ((next.by < replica_count replicas records) × (form_refusal kind (operate next) ≡ None)
        × (has_taken_stamp records next.by next.clock ≡ false) × (has_taken_identifier records next.op ≡ true)) }
{}

/// Theorem: an operation is accepted exactly if its replica exists, it is well-formed, and no label has its stamp or
/// its identifier.
pub fn operation_accepted_iff()
    ensures { (kind : Kind) (replicas : ℕ) (records : Records) (next : NextOperation)
        → (refusal_of kind replicas records (operate next) ≡ None)
        ↔ ((next.by < replica_count replicas records) × (form_refusal kind (operate next) ≡ None)
        × (has_taken_stamp records next.by next.clock ≡ false) × (has_taken_identifier records next.op ≡ false)) }
{}

/// Theorem: each answer keeps all labels well-formed for their kind, so those of the records after commands on empty
/// ones are.
pub fn accepted_labels_well_formed()
    ensures one { (kind : Kind) (replicas : ℕ) (records : Records) (command : Command)
        → EachLabelIsWellFormed kind replicas records
        → EachLabelIsWellFormed kind replicas (records_after kind replicas records command) }
    ensures all { (kind : Kind) (replicas : ℕ) (commands : List Command)
        → EachLabelIsWellFormed kind replicas (records_after_all kind replicas [] commands) }
{}
