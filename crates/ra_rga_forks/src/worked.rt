//! Worked examples: small lists, and what their order tells of the insertions.
ghost use Rattle.std.specs.Prelude.{◌≡◌, [], ◌∷◌, true, false, Some};
ghost use Rattle.ra_labels.specs.declared.kind.Kind.TheVariants.{Rga};
ghost use Rattle.ra_labels.specs.declared.operation.Update.TheVariants.{After};
ghost use Rattle.ra_labels.specs.Edges.{IsBefore};
ghost use Rattle.ra_labels.specs.Specification.{Listed, state_after};
ghost use Rattle.ra_rga_forks.specs.Forks.{IsFork};

/// Worked example: 1 and 2 are inserted at the front, and 3 behind 1. A later element at the front is the first one. 3
/// stands under 1, and 2 under no other element, so both are where the later one of 1 and 2 comes first.
pub fn a_subtree_stays_together()
    ensures list { state_after Rga (After 0 1 ∷ After 0 2 ∷ After 1 3 ∷ [])
        ≡ Some (Listed ((0, false) ∷ (2, true) ∷ (1, true) ∷ (3, true) ∷ [])) }
    ensures fork { IsFork (After 0 1 ∷ After 0 2 ∷ After 1 3 ∷ []) 2 3 2 1 }
    ensures order { IsBefore (0 ∷ 2 ∷ 1 ∷ 3 ∷ []) 2 3 }
{}
