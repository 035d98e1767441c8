//! Theorems about the list of an RGA, and which updates and queries are admitted.
ghost use Rattle.std.specs.Prelude.{◌≡◌, ◌↔◌, ◌⊎◌, ◌==◌, not, true, false, Bool, ℕ, List, [], ◌∷◌, ◌++◌, filter, Contains, Some, is_some};
ghost use Rattle.ra_labels.specs.declared.kind.Kind.TheVariants.{Rga};
ghost use Rattle.ra_labels.specs.declared.operation.Update.{Update};
ghost use Rattle.ra_labels.specs.declared.operation.Update.TheVariants.{After, RgaRemove};
ghost use Rattle.ra_labels.specs.declared.operation.Query.TheVariants.{RgaRead};
ghost use Rattle.ra_labels.specs.Lists.{shown};
ghost use Rattle.ra_labels.specs.Specification.{Listed, step_of, answers, state_after};
ghost use Rattle.ra_labels.specs.TheoremTerms.{elements_in, RootFirst, IsInsertedBehind, WasInserted, HasNoDuplicates};

/// Theorem: an insertion has a step exactly if its anchor is in the list and its element is not, shown or hidden. The
/// step puts the new element directly behind its anchor, shown, and changes no other.
pub fn insertion_after_present_anchor()
    ensures admitted { (list : List (ℕ × Bool)) (anchor x : ℕ)
        → (is_some (step_of (Listed list) (After anchor x)) ≡ true)
        ↔ (Contains (elements_in list) anchor × ¬ Contains (elements_in list) x) }
    ensures behind { (list next : List (ℕ × Bool)) (anchor x : ℕ)
        → step_of (Listed list) (After anchor x) ≡ Some (Listed next) → IsInsertedBehind anchor x list next }
{}

/// Theorem: a removal has a step exactly if its element is in the list, shown or hidden, and is not the root. The step
/// moves no element, and removes this one from what a read shows.
pub fn removal_of_present_element()
    ensures admitted { (list : List (ℕ × Bool)) (x : ℕ) → (is_some (step_of (Listed list) (RgaRemove x)) ≡ true)
        ↔ (Contains (elements_in list) x × ¬ (x ≡ 0)) }
    ensures places { (list next : List (ℕ × Bool)) (x : ℕ) → step_of (Listed list) (RgaRemove x) ≡ Some (Listed next)
        → elements_in next ≡ elements_in list }
    ensures shown { (list next : List (ℕ × Bool)) (x : ℕ) → step_of (Listed list) (RgaRemove x) ≡ Some (Listed next)
        → shown next ≡ filter (λ y. not (x == y)) (shown list) }
{}

/// Theorem: a removed element can be an anchor, cannot be inserted again, and can be removed again.
pub fn removed_element_is_tombstone()
    ensures anchor { (list next : List (ℕ × Bool)) (x y : ℕ)
        → step_of (Listed list) (RgaRemove x) ≡ Some (Listed next) → ¬ Contains (elements_in list) y
        → is_some (step_of (Listed next) (After x y)) ≡ true }
    ensures again { (list next : List (ℕ × Bool)) (x anchor : ℕ)
        → step_of (Listed list) (RgaRemove x) ≡ Some (Listed next)
        → is_some (step_of (Listed next) (After anchor x)) ≡ false }
    ensures twice { (list next : List (ℕ × Bool)) (x : ℕ) → step_of (Listed list) (RgaRemove x) ≡ Some (Listed next)
        → is_some (step_of (Listed next) (RgaRemove x)) ≡ true }
{}

/// Theorem: the list consists of the root, which stands first, and the inserted elements, each once. It shows exactly
/// those that were inserted and never removed. An element stays in the list.
pub fn rga_contents()
    ensures elements { (updates : List Update) (list : List (ℕ × Bool)) (x : ℕ)
        → state_after Rga updates ≡ Some (Listed list)
        → Contains (elements_in list) x ↔ ((x ≡ 0) ⊎ WasInserted x updates) }
    ensures shown { (updates : List Update) (list : List (ℕ × Bool)) (x : ℕ)
        → state_after Rga updates ≡ Some (Listed list)
        → Contains (shown list) x ↔ (WasInserted x updates × ¬ Contains updates (RgaRemove x)) }
    ensures root { (updates : List Update) (list : List (ℕ × Bool)) → state_after Rga updates ≡ Some (Listed list)
        → RootFirst list }
    ensures once { (updates : List Update) (list : List (ℕ × Bool)) → state_after Rga updates ≡ Some (Listed list)
        → HasNoDuplicates (elements_in list) }
    ensures stays { (first later : List Update) (list next : List (ℕ × Bool)) (x : ℕ)
        → state_after Rga first ≡ Some (Listed list) → state_after Rga (first ++ later) ≡ Some (Listed next)
        → Contains (elements_in list) x → Contains (elements_in next) x }
{}

/// Theorem: a read shows the elements of the list that are not hidden, in their order.
pub fn shown_elements_in_order()
    ensures all { (first later : List (ℕ × Bool)) → shown (first ++ later) ≡ shown first ++ shown later }
    ensures one { (x : ℕ) → shown ((x, true) ∷ []) ≡ x ∷ [] }
    ensures hidden { (x : ℕ) → shown ((x, false) ∷ []) ≡ [] }
{}

/// Theorem: a read is answered exactly if it lists the elements that are shown, in this order.
pub fn rga_read_answer()
    ensures { (list : List (ℕ × Bool)) (asked : List ℕ) → (answers (Listed list) (RgaRead asked) ≡ true)
        ↔ (asked ≡ shown list) }
{}
