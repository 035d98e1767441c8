//! Theorems about records.
ghost use Rattle.std.specs.Prelude.{◌≡◌, ℕ, ◌+◌, ◌≤◌, [], ◌∷◌, ◌++◌, length, filter, Some, None};
ghost use Rattle.ra_labels.specs.declared.operation.Op.{Op};
ghost use Rattle.ra_labels.specs.Records.{Records, label_count, label_at, next_label, records_to, replica_count};
ghost use Rattle.ra_labels.specs.TheoremTerms.{is_join};
ghost use Rattle.ra_labels.specs.HistorySoFar.{NextOperation, operate, label_of};

/// Theorem: each join adds a replica, and no other command does.
pub fn replica_count_counts_joins()
    ensures { (initial_replicas : ℕ) (records : Records)
        → replica_count initial_replicas records ≡ initial_replicas + length (filter is_join records) }
{}

/// Theorem: an accepted operation is found in all later records under the number of labels before it. Its label has its
/// replica, its operation, and a stamp of the clock and the replica if the command had a clock.
pub fn operation_found_as_label()
    ensures found { (later before : Records) (next : NextOperation)
        → label_at (later ++ operate next ∷ before) (label_count before) ≡ Some (label_of before next) }
    ensures stamped { (before : Records) (by : ℕ) (op : Op) (clock : ℕ) → next_label before by op (Some clock)
        ≡ record {
          number = label_count before;
          replica = by;
          op = op;
          stamp = Some (record { clock = clock; replica = by });
        } }
    ensures unstamped { (before : Records) (by : ℕ) (op : Op) → next_label before by op None
        ≡ record { number = label_count before; replica = by; op = op; stamp = None } }
{}

/// Theorem: the records up to a label end with its operation; they are empty if the label does not exist.
pub fn records_to_ends_with_label()
    ensures there { (later before : Records) (next : NextOperation)
        → records_to (later ++ operate next ∷ before) (label_count before) ≡ operate next ∷ before }
    ensures none { (records : Records) (n : ℕ) → label_count records ≤ n → records_to records n ≡ [] }
{}
