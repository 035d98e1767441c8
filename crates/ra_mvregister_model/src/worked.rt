//! Worked examples: small histories, answered by evaluating the definitions.
ghost use Rattle.std.specs.Prelude.{◌≡◌, true, false, [], ◌∷◌};
ghost use Rattle.ra_labels.specs.declared.kind.Kind.TheVariants as kinds;
ghost use Rattle.ra_labels.specs.Explained.{is_explained, value_written, values_listed};
ghost use Rattle.ra_labels.specs.Siblings.{siblings_at, replaced_by, values_at};
ghost use Rattle.ra_mvregister_model.specs.Replacing.{siblings_after, explains_reads};
ghost use Rattle.ra_mvregister_model.specs.Worked.{reads, two_writes, replaced_both, received_both, equal_writes, joined_and_wrote};

/// Worked example: nothing is read before a write, and one value after it.
pub fn nothing_is_read_before_a_write()
    ensures none { is_explained kinds.MvRegister (reads 0 [] ∷ []) ≡ true }
    ensures some { is_explained kinds.MvRegister (reads 0 [] ∷ two_writes) ≡ false }
{}

/// Worked example: two writes that do not see each other are siblings, and a read lists both values.
pub fn concurrent_writes_are_siblings()
    ensures siblings { siblings_at two_writes 0 ≡ 0 ∷ 1 ∷ [] }
    ensures both { is_explained kinds.MvRegister (reads 0 (1 ∷ 2 ∷ []) ∷ two_writes) ≡ true }
    ensures one { is_explained kinds.MvRegister (reads 0 (2 ∷ []) ∷ two_writes) ≡ false }
    ensures other { is_explained kinds.MvRegister (reads 1 (2 ∷ []) ∷ two_writes) ≡ true }
{}

/// Worked example: a write replaces both siblings.
pub fn a_write_replaces_siblings()
    ensures replaced { replaced_by replaced_both 3 ≡ 0 ∷ 1 ∷ [] }
    ensures siblings { siblings_at replaced_both 0 ≡ 3 ∷ [] }
    ensures right { is_explained kinds.MvRegister replaced_both ≡ true }
{}

/// Worked example: a delivered write takes out what it replaced, so a read of a replaced value is wrong.
pub fn a_delivery_replaces_siblings()
    ensures siblings { siblings_at received_both 1 ≡ 3 ∷ [] }
    ensures stale { is_explained kinds.MvRegister (reads 1 (2 ∷ []) ∷ received_both) ≡ false }
    ensures right { is_explained kinds.MvRegister (reads 1 (3 ∷ []) ∷ received_both) ≡ true }
{}

/// Worked example: siblings with equal values are read as one value.
pub fn equal_values_are_read_once()
    ensures values { values_at value_written equal_writes 0 ≡ 5 ∷ 5 ∷ [] }
    ensures right { is_explained kinds.MvRegister (reads 0 (5 ∷ []) ∷ equal_writes) ≡ true }
{}

/// Worked example: a replica that joins has the siblings of its source, and its write replaces them there alone.
pub fn a_joined_replica_replaces_siblings()
    ensures joined { siblings_at joined_and_wrote 2 ≡ 2 ∷ [] }
    ensures replaced { replaced_by joined_and_wrote 2 ≡ 0 ∷ 1 ∷ [] }
    ensures source { siblings_at joined_and_wrote 0 ≡ 0 ∷ 1 ∷ [] }
{}

/// Worked example: two sequences of the labels lead to the same siblings, in another order, and explain the reads.
pub fn two_sequences_explain_the_reads()
    ensures first { siblings_after replaced_both (0 ∷ 1 ∷ []) ≡ 1 ∷ 0 ∷ [] }
    ensures second { siblings_after replaced_both (1 ∷ 0 ∷ []) ≡ 0 ∷ 1 ∷ [] }
    ensures in_order { explains_reads value_written values_listed replaced_both (0 ∷ 1 ∷ 2 ∷ 3 ∷ 4 ∷ []) ≡ true }
    ensures swapped { explains_reads value_written values_listed replaced_both (1 ∷ 0 ∷ 2 ∷ 3 ∷ 4 ∷ []) ≡ true }
{}
