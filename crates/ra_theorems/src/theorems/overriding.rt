//! Theorems about updates that override earlier ones.
ghost use Rattle.std.specs.Prelude.{◌≡◌, ◌↔◌, true, ℕ, List, ◌∷◌, ◌++◌, Contains, Some};
ghost use Rattle.ra_labels.specs.declared.kind.Kind.TheVariants.{Register, LwwSet};
ghost use Rattle.ra_labels.specs.declared.operation.Update.{Update};
ghost use Rattle.ra_labels.specs.declared.operation.Update.TheVariants.{Write, LwwAdd};
ghost use Rattle.ra_labels.specs.Specification.{Written, Members, state_after, is_admitted};
ghost use Rattle.ra_labels.specs.TheoremTerms.{acts_on};
ghost use Rattle.ra_labels.specs.Commuting.{then_step, last_written, last_on};

/// Theorem: admitted writes lead to the value of the last one. A late write has the effect of the last write from it
/// on, done at the end.
pub fn register_last_write_wins()
    ensures last { (updates : List Update) → is_admitted Register updates ≡ true
        → state_after Register updates ≡ Some (Written (last_written updates)) }
    ensures late { (first later : List Update) (value last : ℕ)
        → is_admitted Register (first ++ Write value ∷ later) ≡ true → last_written (Write value ∷ later) ≡ Some last
        → state_after Register (first ++ Write value ∷ later)
        ≡ then_step (state_after Register (first ++ later)) (Write last) }
{}

/// Theorem: an LWW set has exactly the elements whose last update is an addition. Admitted updates with the same last
/// one on each element lead to the same set. A late update has the effect of the last one on its element from it on,
/// done at the end.
pub fn lww_set_last_update_wins()
    ensures has { (updates : List Update) (xs : List ℕ) (x : ℕ) → state_after LwwSet updates ≡ Some (Members xs)
        → Contains xs x ↔ (last_on x updates ≡ Some (LwwAdd x)) }
    ensures same { (updates others : List Update) → is_admitted LwwSet updates ≡ true
        → is_admitted LwwSet others ≡ true → ((x : ℕ) → last_on x updates ≡ last_on x others)
        → state_after LwwSet updates ≡ state_after LwwSet others }
    ensures late { (first later : List Update) (update last : Update) (x : ℕ)
        → is_admitted LwwSet (first ++ update ∷ later) ≡ true → acts_on x update ≡ true
        → last_on x (update ∷ later) ≡ Some last → state_after LwwSet (first ++ update ∷ later)
        ≡ then_step (state_after LwwSet (first ++ later)) last }
{}
