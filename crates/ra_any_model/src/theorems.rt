//! The theorems about reads that agree, each the clause of a function with an empty body.
ghost use Rattle.std.specs.Prelude.{◌≡◌, ◌↔◌, ℕ, ◌<◌, Bool, true, false, List, ◌∷◌, ◌++◌, Option, Some, None, Contains};
ghost use Rattle.ra_labels.specs.declared.operation.Op.{Op};
ghost use Rattle.ra_labels.specs.declared.label.Label.{Label};
ghost use Rattle.ra_labels.specs.declared.command.Command.TheVariants.{Operate};
ghost use Rattle.ra_labels.specs.declared.kind.Kind.TheVariants as kinds;
ghost use Rattle.ra_labels.specs.Records.{Records, labels_of};
ghost use Rattle.ra_labels.specs.Visibility.{has_delivered, sees};
ghost use Rattle.ra_labels.specs.Agreement.{sees_the_same, reads_agree};
ghost use Rattle.ra_labels.specs.Explained.{value_read};
ghost use Rattle.ra_labels.specs.Fault.{Holds, fault_of};
ghost use Rattle.ra_labels.specs.HistorySoFar.{History};
ghost use Rattle.ra_theorems.specs.OneState.{EachLabelIsOf};
ghost use Rattle.ra_visibility.specs.Seen.{count_in};
ghost use Rattle.ra_visibility.specs.Tracked.{Tracked, IsVisibilityOf, replicas_in, labels_in, seen_in, delivered_count};
ghost use Rattle.ra_any_model.specs.Counts.{CountsIssued, HaveSameCounts};
ghost use Rattle.ra_any_model.specs.Deterministic.{Deterministic};
ghost use Rattle.ra_any_model.specs.Explained.{numbers_of, EachReadIsAnswered, Explains};
ghost use Rattle.ra_any_model.specs.Replayed.{replayed};

/// Theorem: `sees_the_same` decides whether a label sees exactly what was delivered to the replica.
pub fn sees_the_same_iff_delivered()
    ensures { (records : Records) (by m : ℕ) → (sees_the_same records by m ≡ true)
        ↔ ((n : ℕ) → sees records m n ≡ has_delivered records by n) }
{}

/// Theorem: the reads agree exactly if any two that see the same updates returned the same value.
pub fn reads_agree_iff_same_updates_same_value()
    ensures { (value_of : Op → Option ℕ) (records : Records) → (reads_agree value_of records ≡ true)
        ↔ ((read other : Label) (value second : ℕ) → Contains (labels_of records) read
        → Contains (labels_of records) other → value_of read.op ≡ Some value → value_of other.op ≡ Some second
        → ((n : ℕ) → sees records read.number n ≡ sees records other.number n) → value ≡ second) }
{}

/// Theorem: the reads that a deterministic specification answers, whatever its states are, agree. This uses neither
/// that the sequence extends visibility nor that all updates are admitted.
pub fn explained_reads_agree<State>()
    ensures explained { (specification : Deterministic State) (value_of : Op → Option ℕ) (records : Records)
        (sequence : List ℕ) → Explains State specification value_of records sequence
        → reads_agree value_of records ≡ true }
    ensures answered { (specification : Deterministic State) (value_of : Op → Option ℕ) (records : Records)
        (sequence : List ℕ) → EachReadIsAnswered State specification value_of records sequence
        → reads_agree value_of records ≡ true }
{}

/// Theorem: reads that agree are explained by the execution order and the specification `replayed`, whose states are
/// the labels that were applied.
pub fn agreeing_reads_are_explained()
    ensures { (value_of : Op → Option ℕ) (records : Records) → reads_agree value_of records ≡ true
        → Explains (List ℕ) (replayed value_of records) value_of records (numbers_of records) }
{}

/// Theorem: the reads agree exactly if some deterministic specification and some sequence explain the records. The
/// specification that exists has lists of numbers as its states. That covers all others: what a specification with
/// other states explains agrees (`explained_reads_agree`), so one with these states explains it too.
pub fn reads_agree_iff_some_specification()
    ensures { (value_of : Op → Option ℕ) (records : Records) → (reads_agree value_of records ≡ true)
        ↔ ((specification : Deterministic (List ℕ)) × (sequence : List ℕ)
        × Explains (List ℕ) specification value_of records sequence) }
{}

/// Theorem: records whose labels are all of the kind `any` hold, and have no fault, exactly if some deterministic
/// specification and some sequence explain them.
pub fn any_holds_iff_some_specification()
    ensures holds { (records : Records) → EachLabelIsOf kinds.Any records → Holds kinds.Any records
        ↔ ((specification : Deterministic (List ℕ)) × (sequence : List ℕ)
        × Explains (List ℕ) specification value_read records sequence) }
    ensures fault { (records : Records) → EachLabelIsOf kinds.Any records → (fault_of kinds.Any records ≡ None)
        ↔ ((specification : Deterministic (List ℕ)) × (sequence : List ℕ)
        × Explains (List ℕ) specification value_read records sequence) }
{}

/// Theorem: only the labels, and which of them sees which, decide whether the reads agree.
pub fn visibility_decides_agreement()
    ensures { (value_of : Op → Option ℕ) (one other : Records) → labels_of one ≡ labels_of other
        → ((n m : ℕ) → sees one n m ≡ sees other n m) → reads_agree value_of one ≡ reads_agree value_of other }
{}

/// Theorem: where the reads disagree, no deterministic specification and no sequence explain the records, whatever the
/// states are, nor any later records.
pub fn disagreement_is_final<State>()
    ensures none { (value_of : Op → Option ℕ) (records : Records) → reads_agree value_of records ≡ false
        → (specification : Deterministic State) (sequence : List ℕ)
        → ¬ Explains State specification value_of records sequence }
    ensures later { (value_of : Op → Option ℕ) (later records : Records) → reads_agree value_of records ≡ false
        → reads_agree value_of (later ++ records) ≡ false }
{}

/// Theorem: with one more label the reads agree exactly if they did before and each earlier read that sees the same
/// returned the value of the new one. An operation that read nothing changes nothing.
pub fn new_read_decides_agreement()
    ensures read { (value_of : Op → Option ℕ) (before : Records) (by : ℕ) (op : Op) (clock : Option ℕ) (value : ℕ)
        → value_of op ≡ Some value → (reads_agree value_of (Operate by op clock ∷ before) ≡ true)
        ↔ ((reads_agree value_of before ≡ true) × ((earlier : Label) (other : ℕ)
        → Contains (labels_of before) earlier → value_of earlier.op ≡ Some other
        → sees_the_same before by earlier.number ≡ true → value ≡ other)) }
    ensures other { (value_of : Op → Option ℕ) (before : Records) (by : ℕ) (op : Op) (clock : Option ℕ)
        → value_of op ≡ None → reads_agree value_of (Operate by op clock ∷ before) ≡ reads_agree value_of before }
{}

/// Theorem: let a tracker represent the visibility of a history, with counts that do not exceed what each replica
/// issued. Two labels see the same updates exactly if they see as many of each replica. A label sees what was delivered
/// to a replica exactly if it sees as many of each replica as were delivered. Two replicas have the same updates
/// exactly if as many of each replica were delivered to both.
pub fn same_updates_iff_same_counts()
    ensures labels { (tracked : Tracked) (past : History) (m n : ℕ) → IsVisibilityOf tracked past
        → m < labels_in tracked → n < labels_in tracked → CountsIssued tracked (count_in (seen_in tracked m))
        → CountsIssued tracked (count_in (seen_in tracked n))
        → ((k : ℕ) → sees past.records m k ≡ sees past.records n k)
        ↔ HaveSameCounts tracked (count_in (seen_in tracked m)) (count_in (seen_in tracked n)) }
    ensures label_and_replica { (tracked : Tracked) (past : History) (by m : ℕ) → IsVisibilityOf tracked past
        → by < replicas_in tracked → m < labels_in tracked → CountsIssued tracked (delivered_count tracked by)
        → CountsIssued tracked (count_in (seen_in tracked m))
        → (sees_the_same past.records by m ≡ true)
        ↔ HaveSameCounts tracked (count_in (seen_in tracked m)) (delivered_count tracked by) }
    ensures replicas { (tracked : Tracked) (past : History) (by other : ℕ) → IsVisibilityOf tracked past
        → by < replicas_in tracked → other < replicas_in tracked → CountsIssued tracked (delivered_count tracked by)
        → CountsIssued tracked (delivered_count tracked other)
        → ((k : ℕ) → has_delivered past.records by k ≡ has_delivered past.records other k)
        ↔ HaveSameCounts tracked (delivered_count tracked by) (delivered_count tracked other) }
{}
