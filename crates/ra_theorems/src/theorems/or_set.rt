//! Theorems about the contents of an OR-Set, and which queries are answered.
ghost use Rattle.std.specs.Prelude.{◌≡◌, ◌↔◌, ◌⊎◌, true, ℕ, ◌<◌, List, Contains, Some};
ghost use Rattle.std.specs.List.Sorted.{IsStrictlySortedBy};
ghost use Rattle.std.specs.declared.cmp.Ordering.TheVariants.{Less, Equal};
ghost use Rattle.ra_labels.specs.declared.kind.Kind.TheVariants.{OrSet};
ghost use Rattle.ra_labels.specs.declared.operation.Update.{Update};
ghost use Rattle.ra_labels.specs.declared.operation.Update.TheVariants.{OrAdd, TakeOut};
ghost use Rattle.ra_labels.specs.declared.operation.Query.TheVariants.{ReadIds, OrRead};
ghost use Rattle.ra_labels.specs.Lists.{pair_cmp};
ghost use Rattle.ra_labels.specs.Specification.{Pairs, step_of, answers, state_after};
ghost use Rattle.ra_labels.specs.TheoremTerms.{IsPresentPair};

/// Theorem: pairs are ordered by element, then by identifier.
pub fn pair_order_lexicographic()
    ensures less { (p q : ℕ × ℕ) → (pair_cmp p q ≡ Less) ↔ ((p.0 < q.0) ⊎ ((p.0 ≡ q.0) × (p.1 < q.1))) }
    ensures equal { (p q : ℕ × ℕ) → (pair_cmp p q ≡ Equal) ↔ (p ≡ q) }
{}

/// Theorem: an OR-Set has exactly the pairs that were added and that no later removal took out. They are strictly
/// sorted.
pub fn or_set_contents()
    ensures pairs { (updates : List Update) (pairs : List (ℕ × ℕ)) (x id : ℕ)
        → state_after OrSet updates ≡ Some (Pairs pairs) → Contains pairs (x, id) ↔ IsPresentPair x id updates }
    ensures rises { (updates : List Update) (pairs : List (ℕ × ℕ)) → state_after OrSet updates ≡ Some (Pairs pairs)
        → IsStrictlySortedBy pair_cmp pairs }
{}

/// Theorem: an addition adds its pair and no other.
pub fn addition_adds_pair()
    ensures { (pairs next : List (ℕ × ℕ)) (x id : ℕ) (p : ℕ × ℕ)
        → step_of (Pairs pairs) (OrAdd x id) ≡ Some (Pairs next)
        → Contains next p ↔ ((p ≡ (x, id)) ⊎ Contains pairs p) }
{}

/// Theorem: a removal removes the pairs that it names and no other.
pub fn removal_removes_named_pairs()
    ensures { (pairs next : List (ℕ × ℕ)) (x : ℕ) (ids : List ℕ) (y k : ℕ)
        → step_of (Pairs pairs) (TakeOut x ids) ≡ Some (Pairs next)
        → Contains next (y, k) ↔ (Contains pairs (y, k) × ¬ ((y ≡ x) × Contains ids k)) }
{}

/// Theorem: the query of a removal is answered exactly if it lists the identifiers of its element.
pub fn or_set_identifiers_answer()
    ensures { (pairs : List (ℕ × ℕ)) (x : ℕ) (asked : List ℕ) → (answers (Pairs pairs) (ReadIds x asked) ≡ true)
        ↔ ((k : ℕ) → Contains asked k ↔ Contains pairs (x, k)) }
{}

/// Theorem: a read of an OR-Set is answered exactly if it lists the elements that have an identifier.
pub fn or_set_read_answer()
    ensures { (pairs : List (ℕ × ℕ)) (asked : List ℕ) → (answers (Pairs pairs) (OrRead asked) ≡ true)
        ↔ ((x : ℕ) → Contains asked x ↔ ((k : ℕ) × Contains pairs (x, k))) }
{}
