//! Worked examples of reads that agree and disagree, answered by evaluating the definitions.
ghost use Rattle.std.specs.Prelude.{◌≡◌, true, false, ◌∷◌};
ghost use Rattle.ra_labels.specs.declared.kind.Kind.TheVariants as kinds;
ghost use Rattle.ra_labels.specs.Agreement.{sees_the_same};
ghost use Rattle.ra_labels.specs.Explained.{is_explained};
ghost use Rattle.ra_any_model.specs.Worked.{read_by, read_alike, read_apart, read_again, read_too_soon};

/// Worked example: two replicas that have the same update return the same value.
pub fn replicas_with_the_same_update_read_alike()
    ensures { is_explained kinds.Any read_alike ≡ true }
{}

/// Worked example: two replicas that have the same two updates, each delivered in another order, return different
/// values.
pub fn replicas_with_the_same_updates_read_apart()
    ensures same { sees_the_same read_apart 1 2 ≡ true }
    ensures no { is_explained kinds.Any read_apart ≡ false }
{}

/// Worked example: a replica to which nothing new was delivered returns another value, although another replica has
/// made an update since.
pub fn one_replica_reads_apart()
    ensures no { is_explained kinds.Any read_again ≡ false }
{}

/// Worked example: a value read before the update that led to it was delivered is no disagreement by itself, since no
/// other read saw the same. It is one once a replica that has no update either reads something else.
pub fn a_value_read_too_soon_is_found_by_comparison()
    ensures yes { is_explained kinds.Any read_too_soon ≡ true }
    ensures no { is_explained kinds.Any (read_by 2 0 ∷ read_too_soon) ≡ false }
{}
