//! Theorems about the elements of an RGA as a tree, each the clause of a function with an empty body.
ghost use Rattle.std.specs.Prelude.{◌≡◌, ◌↔◌, ◌⊎◌, ℕ, Bool, List, Contains, Some};
ghost use Rattle.ra_labels.specs.declared.kind.Kind.TheVariants.{Rga};
ghost use Rattle.ra_labels.specs.declared.operation.Update.{Update};
ghost use Rattle.ra_labels.specs.declared.operation.Update.TheVariants.{After, RgaRemove};
ghost use Rattle.ra_labels.specs.Edges.{IsBefore};
ghost use Rattle.ra_labels.specs.Specification.{Listed, state_after};
ghost use Rattle.ra_labels.specs.TheoremTerms.{elements_in, StandsBefore};
ghost use Rattle.ra_rga_forks.specs.Forks.{IsUnder, IsFork, IsInsertedBefore, Names};

/// Theorem: in the list after admitted updates, of two elements that stand under two children of one element, the one
/// under the child that was inserted later comes first.
pub fn later_child_first()
    ensures { (updates : List Update) (list : List (ℕ × Bool)) (x y left right : ℕ)
        → state_after Rga updates ≡ Some (Listed list) → IsFork updates x y left right
        → IsBefore (elements_in list) x y ↔ IsInsertedBefore updates right left }
{}

/// Theorem: an element stands behind each one under which it stands.
pub fn anchor_first()
    ensures { (updates : List Update) (list : List (ℕ × Bool)) (x top : ℕ)
        → state_after Rga updates ≡ Some (Listed list) → IsUnder updates x top → ¬ (x ≡ top)
        → IsBefore (elements_in list) top x }
{}

/// Theorem: of admitted updates none names an element before the update that inserts it, and so no two insert it. None
/// inserts an element behind itself, or inserts or removes the root. What an update names is in the list.
pub fn inserted_before_named()
    ensures itself { (updates : List Update) (list : List (ℕ × Bool)) (x : ℕ)
        → state_after Rga updates ≡ Some (Listed list) → ¬ Contains updates (After x x) }
    ensures root { (updates : List Update) (list : List (ℕ × Bool)) → state_after Rga updates ≡ Some (Listed list)
        → ((anchor : ℕ) → ¬ Contains updates (After anchor 0)) × (¬ Contains updates (RgaRemove 0)) }
    ensures named_in { (updates : List Update) (list : List (ℕ × Bool)) (named : Update) (x : ℕ)
        → state_after Rga updates ≡ Some (Listed list) → Contains updates named → Names named x
        → Contains (elements_in list) x }
    ensures named { (updates : List Update) (list : List (ℕ × Bool)) (named : Update) (anchor x : ℕ)
        → state_after Rga updates ≡ Some (Listed list) → StandsBefore named (After anchor x) updates
        → ¬ Names named x }
{}

/// Theorem: of two elements in the list, one stands under the other one, or they stand at a fork.
pub fn fork_or_under()
    ensures { (updates : List Update) (list : List (ℕ × Bool)) (x y : ℕ)
        → state_after Rga updates ≡ Some (Listed list) → Contains (elements_in list) x → Contains (elements_in list) y
        → IsUnder updates x y ⊎ IsUnder updates y x ⊎ ((left right : ℕ) × IsFork updates x y left right) }
{}
