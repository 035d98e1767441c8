//! Theorems about labels, the named order and the named sequence.
ghost use Rattle.std.specs.Prelude.{◌≡◌, ◌↔◌, ◌⊎◌, true, ℕ, ◌<◌, ◌≤◌, ◌∷◌, List, map, reverse, Contains, flat_map, IsPermutation, IsSorted, Some, None};
ghost use Rattle.ra_labels.specs.declared.kind.Kind.{Kind};
ghost use Rattle.ra_labels.specs.declared.kind.Kind.TheVariants as kind;
ghost use Rattle.std.specs.declared.cmp.Ordering.TheVariants.{Less, Equal};
ghost use Rattle.ra_labels.specs.declared.label.Stamp.{Stamp};
ghost use Rattle.ra_labels.specs.declared.label.Label.{Label};
ghost use Rattle.ra_labels.specs.declared.command.Command.{Command};
ghost use Rattle.ra_labels.specs.contracts.label.StampOrd.TheImpl as derived;
ghost use Rattle.ra_labels.specs.Records.{Records, label_count, label_at, labels_of};
ghost use Rattle.ra_labels.specs.Rewriting.{parts_of};
ghost use Rattle.ra_labels.specs.Linearization.{parts_in, extends_visibility};
ghost use Rattle.ra_labels.specs.NamedOrder.{stamp_cmp, label_cmp, sort_by, named_labels, named_sequence, rank_of, lowest_rank};
ghost use Rattle.ra_labels.specs.TheoremTerms.{numbers_below, IsStampBelow, MustStandBefore};

/// Theorem: the labels, newest first, have the numbers below their count in decreasing order.
pub fn labels_numbered_consecutively()
    ensures { (records : Records)
        → map (λ label. label.number) (labels_of records) ≡ numbers_below (label_count records) }
{}

/// Theorem: each number below the count of labels has a label, and no other number has one. Each label is found at its
/// number, which no other label has.
pub fn label_at_each_number()
    ensures there { (records : Records) (n : ℕ) → n < label_count records
        → (label : Label) × (label_at records n ≡ Some label) × (label.number ≡ n) }
    ensures none { (records : Records) (n : ℕ) → label_count records ≤ n → label_at records n ≡ None }
    ensures found { (records : Records) (label : Label) → Contains (labels_of records) label
        → label_at records label.number ≡ Some label }
    ensures one { (records : Records) (label other : Label) → Contains (labels_of records) label
        → Contains (labels_of records) other → label.number ≡ other.number → label ≡ other }
{}

/// Theorem: stamps are ordered by clock, then by replica.
pub fn stamp_order_lexicographic()
    ensures less { (s t : Stamp) → (stamp_cmp s t ≡ Less) ↔ IsStampBelow s t }
    ensures equal { (s t : Stamp) → (stamp_cmp s t ≡ Equal) ↔ (s ≡ t) }
    ensures derived { (s t : Stamp) → derived.ghosts.cmp s t ≡ stamp_cmp s t }
{}

/// Theorem: the rank of a label without a timestamp is less than each stamp with a clock of at least 1.
pub fn lowest_rank_below_stamps()
    ensures { (s : Stamp) → 1 ≤ s.clock → IsStampBelow lowest_rank s }
{}

/// Theorem: labels are ordered by rank, then by number.
pub fn label_order_lexicographic()
    ensures { (kind : Kind) (records : Records) (l m : Label) → (label_cmp kind records l m ≡ Less)
        ↔ (IsStampBelow (rank_of kind records l) (rank_of kind records m)
        ⊎ ((rank_of kind records l ≡ rank_of kind records m) × (l.number < m.number))) }
{}

/// Theorem: the named sequence lists each part once, and nothing else.
pub fn named_sequence_has_each_part_once()
    ensures { (kind : Kind) (records : Records) → IsPermutation (parts_in records) (named_sequence kind records) }
{}

/// Theorem: the named labels are the labels, each once, in the named order.
pub fn named_labels_sorted()
    ensures same { (kind : Kind) (records : Records) → IsPermutation (labels_of records) (named_labels kind records) }
    ensures sorted { (kind : Kind) (records : Records) → IsSorted (label_cmp kind records) (named_labels kind records) }
    ensures among { (kind : Kind) (records : Records) (label : Label)
        → Contains (named_labels kind records) label ↔ Contains (labels_of records) label }
{}

/// Theorem: a later command does not change the ranks of the labels before it, nor their order.
pub fn later_command_preserves_order()
    ensures rank { (kind : Kind) (command : Command) (records : Records) (label : Label)
        → Contains (labels_of records) label → rank_of kind (command ∷ records) label ≡ rank_of kind records label }
    ensures labels { (kind : Kind) (command : Command) (records : Records)
        → sort_by (label_cmp kind (command ∷ records)) (labels_of records) ≡ named_labels kind records }
{}

/// Theorem: a sorted list of the labels, each once, is the list of named labels.
pub fn named_order_unique()
    ensures { (kind : Kind) (records : Records) (labels : List Label) → IsPermutation (labels_of records) labels
        → IsSorted (label_cmp kind records) labels → labels ≡ named_labels kind records }
{}

/// Theorem: if all ranks are the lowest, as those of a kind without timestamps are, the named order is the order of
/// acceptance: the execution order.
pub fn execution_order_is_acceptance_order()
    ensures labels { (kind : Kind) (records : Records) → ((label : Label) → rank_of kind records label ≡ lowest_rank)
        → named_labels kind records ≡ reverse (labels_of records) }
    ensures counter { (records : Records) → named_sequence kind.Counter records
        ≡ flat_map parts_of (reverse (labels_of records)) }
    ensures or_set { (records : Records) → named_sequence kind.OrSet records
        ≡ flat_map parts_of (reverse (labels_of records)) }
{}

/// Theorem: the execution order extends visibility for all records.
pub fn execution_order_extends_visibility()
    ensures labels { (kind : Kind) (records : Records) → ((label : Label) → rank_of kind records label ≡ lowest_rank)
        → extends_visibility records (named_sequence kind records) ≡ true }
    ensures counter { (records : Records) → extends_visibility records (named_sequence kind.Counter records) ≡ true }
    ensures or_set { (records : Records) → extends_visibility records (named_sequence kind.OrSet records) ≡ true }
{}

/// Theorem: the named sequence extends visibility exactly if no label has a greater rank than one that it must precede.
pub fn extends_visibility_iff_ranks()
    ensures { (kind : Kind) (records : Records) → (extends_visibility records (named_sequence kind records) ≡ true)
        ↔ ((m n : Label) → Contains (labels_of records) m → Contains (labels_of records) n
        → MustStandBefore records m n → ¬ IsStampBelow (rank_of kind records n) (rank_of kind records m)) }
{}
