//! Theorems about updates that commute.
ghost use Rattle.std.specs.Prelude.{◌≡◌, ◌↔◌, ◌⊎◌, ℤ, ℕ, true, false, List, ◌∷◌, ◌++◌};
ghost use Rattle.std.specs.List.Sorted.{IsStrictlySortedBy};
ghost use Rattle.ra_labels.specs.declared.kind.Kind.TheVariants.{Counter, OrSet};
ghost use Rattle.ra_labels.specs.declared.operation.Update.{Update};
ghost use Rattle.ra_labels.specs.Lists.{pair_cmp};
ghost use Rattle.ra_labels.specs.Specification.{Number, Pairs, step_of, state_after};
ghost use Rattle.ra_labels.specs.Commuting.{then_step, clash, AddsRemovedPair, NoneClashes};

/// Theorem: two updates clash exactly if one adds a pair that the other removes.
pub fn clash_iff_removal_of_added_pair()
    ensures { (u v : Update) → (clash u v ≡ true) ↔ (AddsRemovedPair u v ⊎ AddsRemovedPair v u) }
{}

/// Theorem: two steps of a counter commute.
pub fn counter_steps_commute()
    ensures { (number : ℤ) (u v : Update)
        → then_step (step_of (Number number) u) v ≡ then_step (step_of (Number number) v) u }
{}

/// Theorem: two steps of an OR-Set with sorted pairs commute, unless one adds a pair that the other removes.
pub fn or_set_steps_commute()
    ensures { (pairs : List (ℕ × ℕ)) (u v : Update) → IsStrictlySortedBy pair_cmp pairs → clash u v ≡ false
        → then_step (step_of (Pairs pairs) u) v ≡ then_step (step_of (Pairs pairs) v) u }
{}

/// Theorem: a late update has the effect of the same update at the end. This holds of each update of a counter, and of
/// an OR-Set's update that clashes with no later one.
pub fn late_update_commutes_to_end()
    ensures counter { (first later : List Update) (update : Update) → state_after Counter (first ++ update ∷ later)
        ≡ then_step (state_after Counter (first ++ later)) update }
    ensures or_set { (first later : List Update) (update : Update) → NoneClashes update later
        → state_after OrSet (first ++ update ∷ later) ≡ then_step (state_after OrSet (first ++ later)) update }
{}
