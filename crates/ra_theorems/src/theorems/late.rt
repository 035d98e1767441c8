//! Theorems about late updates of an RGA. The parameter `below` compares two elements, in use by their stamps; the
//! theorems hold of every test.
ghost use Rattle.std.specs.Prelude.{◌≡◌, ◌==◌, ◌||◌, not, true, false, Bool, ℕ, List, ◌∷◌, ◌++◌, Contains, Some};
ghost use Rattle.std.specs.List.{list_all};
ghost use Rattle.ra_labels.specs.declared.kind.Kind.TheVariants.{Rga};
ghost use Rattle.ra_labels.specs.declared.operation.Update.{Update};
ghost use Rattle.ra_labels.specs.declared.operation.Update.TheVariants.{After, RgaRemove};
ghost use Rattle.ra_labels.specs.Lists.{insert_after, hide};
ghost use Rattle.ra_labels.specs.Specification.{Listed, state_after};
ghost use Rattle.ra_labels.specs.TheoremTerms.{elements_in, HasNoDuplicates};
ghost use Rattle.ra_labels.specs.Late.{insert_late_after, kept_entries};

/// Theorem: a new element that is below none of the list stands directly behind its anchor.
pub fn newest_element_after_anchor()
    ensures { (below : ℕ → ℕ → Bool) (anchor x : ℕ) (list : List (ℕ × Bool))
        → list_all (λ entry. not (below x entry.0)) list ≡ true
        → insert_late_after below anchor x list ≡ insert_after anchor x list }
{}

/// Theorem: a late insertion commutes with a later insertion of an element that it is below, if neither is the other's
/// anchor. An insertion, late or not, commutes with a removal of another element, and two removals commute.
pub fn late_updates_commute()
    ensures insertions { (below : ℕ → ℕ → Bool) (anchor x behind y : ℕ) (list : List (ℕ × Bool))
        → ¬ (behind ≡ x) → ¬ (y ≡ anchor) → below x y ≡ true
        → insert_after behind y (insert_late_after below anchor x list)
        ≡ insert_late_after below anchor x (insert_after behind y list) }
    ensures late_removed { (below : ℕ → ℕ → Bool) (anchor x y : ℕ) (list : List (ℕ × Bool)) → ¬ (y ≡ x)
        → hide y (insert_late_after below anchor x list) ≡ insert_late_after below anchor x (hide y list) }
    ensures removed { (anchor x y : ℕ) (list : List (ℕ × Bool)) → ¬ (y ≡ x)
        → hide y (insert_after anchor x list) ≡ insert_after anchor x (hide y list) }
    ensures removals { (x y : ℕ) (list : List (ℕ × Bool)) → hide y (hide x list) ≡ hide x (hide y list) }
{}

/// Theorem: a late insertion, of an element that is below no earlier one and below each later one, puts it behind its
/// anchor and past the greater elements there.
pub fn late_insertion_skips_greater()
    ensures { (below : ℕ → ℕ → Bool) (first later : List Update) (anchor x : ℕ) (older list : List (ℕ × Bool))
        → state_after Rga first ≡ Some (Listed older) → state_after Rga (first ++ later) ≡ Some (Listed list)
        → Contains (elements_in older) anchor → ¬ Contains (elements_in list) x
        → list_all (λ entry. not (below x entry.0)) older ≡ true
        → ((behind y : ℕ) → Contains later (After behind y) → below x y ≡ true)
        → state_after Rga (first ++ After anchor x ∷ later) ≡ Some (Listed (insert_late_after below anchor x list)) }
{}

/// Theorem: a late insertion puts its element directly behind one element of the list, so it is one insertion behind
/// that element.
pub fn late_insertion_is_one_step()
    ensures { (below : ℕ → ℕ → Bool) (anchor x : ℕ) (list : List (ℕ × Bool)) → HasNoDuplicates (elements_in list)
        → Contains (elements_in list) anchor → (p : ℕ) × Contains (elements_in list) p
        × (insert_late_after below anchor x list ≡ insert_after p x list) }
{}

/// Theorem: a late removal has the effect of the same removal at the end.
pub fn late_removal_commutes_to_end()
    ensures { (first later : List Update) (x : ℕ) (older list : List (ℕ × Bool))
        → state_after Rga first ≡ Some (Listed older) → state_after Rga (first ++ later) ≡ Some (Listed list)
        → Contains (elements_in older) x → ¬ (x ≡ 0)
        → state_after Rga (first ++ RgaRemove x ∷ later) ≡ Some (Listed (hide x list)) }
{}

/// Theorem: filtering a list commutes with an insertion of a kept element behind a kept anchor, and with a removal. An
/// insertion of an element that is not kept has no effect on the filtered list.
pub fn kept_entries_preserve_order()
    ensures kept { (keep : ℕ → Bool) (anchor x : ℕ) (list : List (ℕ × Bool)) → keep anchor ≡ true → keep x ≡ true
        → kept_entries keep (insert_after anchor x list) ≡ insert_after anchor x (kept_entries keep list) }
    ensures dropped { (keep : ℕ → Bool) (anchor x : ℕ) (list : List (ℕ × Bool)) → keep x ≡ false
        → kept_entries keep (insert_after anchor x list) ≡ kept_entries keep list }
    ensures removed { (keep : ℕ → Bool) (x : ℕ) (list : List (ℕ × Bool))
        → kept_entries keep (hide x list) ≡ hide x (kept_entries keep list) }
{}

/// Theorem: if one more element of the list is kept, the kept elements are those before with it inserted directly
/// behind the nearest kept element before it.
pub fn insertion_after_nearest_kept()
    ensures { (keep : ℕ → Bool) (before between behind : List (ℕ × Bool)) (p x : ℕ) (is_shown was_shown : Bool)
        → let list = before ++ (p, is_shown) ∷ between ++ (x, was_shown) ∷ behind in HasNoDuplicates (elements_in list)
        → keep p ≡ true → list_all (λ entry. not (keep entry.0)) between ≡ true → keep x ≡ false
        → elements_in (kept_entries (λ y. keep y || x == y) list)
        ≡ elements_in (insert_after p x (kept_entries keep list)) }
{}
