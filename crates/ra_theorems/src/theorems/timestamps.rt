//! Theorems about the timestamps of labels, and about unique stamps.
ghost use Rattle.std.specs.Prelude.{◌≡◌, ◌↔◌, ◌⊎◌, true, ℕ, ◌<◌, ◌++◌, List, [], Some, None};
ghost use Rattle.ra_labels.specs.declared.kind.Kind.{Kind};
ghost use Rattle.ra_labels.specs.declared.kind.Kind.TheVariants as kind;
ghost use Rattle.ra_labels.specs.declared.label.Stamp.{Stamp};
ghost use Rattle.ra_labels.specs.declared.label.Label.{Label};
ghost use Rattle.ra_labels.specs.declared.command.Command.{Command};
ghost use Rattle.ra_labels.specs.Records.{Records, label_count};
ghost use Rattle.ra_labels.specs.NamedOrder.{lowest_rank, timestamp_of, rank_of};
ghost use Rattle.ra_labels.specs.Answer.{is_stamp_taken, records_after, records_after_all};
ghost use Rattle.ra_labels.specs.TheoremTerms.{IsStampBelow, SeesStamp, IsOwnStamp, StampsAreUnique};

/// Theorem: the timestamp of a label with a stamp is this stamp. Otherwise it is the greatest stamp that the label
/// sees, or the lowest rank if it sees none.
pub fn timestamp_is_greatest_seen()
    ensures own { (records : Records) (label : Label) (stamp : Stamp) → label.stamp ≡ Some stamp
        → timestamp_of records label ≡ stamp }
    ensures seen { (records : Records) (label : Label) → label.stamp ≡ None
        → SeesStamp records label (timestamp_of records label)
        ⊎ ((timestamp_of records label ≡ lowest_rank) × ((stamp : Stamp) → ¬ SeesStamp records label stamp)) }
    ensures greatest { (records : Records) (label : Label) (stamp : Stamp) → label.stamp ≡ None
        → SeesStamp records label stamp → ¬ IsStampBelow (timestamp_of records label) stamp }
{}

/// Theorem: a label keeps its timestamp in all later records.
pub fn timestamp_persists()
    ensures { (later records : Records) (label : Label) → label.number < label_count records
        → timestamp_of (later ++ records) label ≡ timestamp_of records label }
{}

/// Theorem: the rank of a label is the lowest for counter and OR-Set, which have execution order as lists do. For
/// register, LWW set and RGA, which have timestamp order, it is the timestamp.
pub fn kind_order()
    ensures counter { (records : Records) (label : Label) → rank_of kind.Counter records label ≡ lowest_rank }
    ensures register { (records : Records) (label : Label)
        → rank_of kind.Register records label ≡ timestamp_of records label }
    ensures lww_set { (records : Records) (label : Label)
        → rank_of kind.LwwSet records label ≡ timestamp_of records label }
    ensures or_set { (records : Records) (label : Label) → rank_of kind.OrSet records label ≡ lowest_rank }
    ensures rga { (records : Records) (label : Label)
        → rank_of kind.Rga records label ≡ timestamp_of records label }
{}

/// Theorem: `is_taken` holds exactly of the stamps that labels have as their own.
pub fn stamp_taken_iff_label_has_it()
    ensures { (records : Records) (stamp : Stamp) → (is_stamp_taken records stamp ≡ true) ↔ IsOwnStamp records stamp }
{}

/// Theorem: each answer keeps stamps unique, so they are unique in the records after commands on empty ones.
pub fn stamps_unique()
    ensures one { (kind : Kind) (replicas : ℕ) (records : Records) (command : Command) → StampsAreUnique records
        → StampsAreUnique (records_after kind replicas records command) }
    ensures all { (kind : Kind) (replicas : ℕ) (commands : List Command)
        → StampsAreUnique (records_after_all kind replicas [] commands) }
{}
