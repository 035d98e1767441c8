//! Theorems about lists of elements. Each is the clause of a function that does nothing.
ghost use Rattle.std.specs.Prelude.{◌≡◌, ◌↔◌, true, ℕ, ◌<◌, List, length, slice_index, Contains};
ghost use Rattle.std.specs.List.Sorted.{IsStrictlySortedBy};
ghost use Rattle.std.specs.Ordering.{nat_cmp};
ghost use Rattle.ra_labels.specs.Lists.{have_same_elements, rises};

/// Theorem: `rises` holds of a list exactly if each element is less than all elements behind it, which means that the
/// list is strictly sorted.
pub fn rises_iff_sorted()
    // `rises` holds of a list exactly if each element is less than every later one.
    ensures places { (xs : List ℕ) → (rises xs ≡ true)
        ↔ ((i j : ℕ) → i < j → j < length xs → slice_index xs i < slice_index xs j) }
    // `rises` holds of a list exactly if the list is strictly sorted by the order of the natural numbers.
    ensures sorted { (xs : List ℕ) → (rises xs ≡ true) ↔ IsStrictlySortedBy nat_cmp xs }
{}

/// Theorem: `have_same_elements` holds of two lists exactly if each element of one is in the other. Two strictly
/// increasing lists with the same elements are equal.
pub fn have_same_elements_iff()
    // `have_same_elements` holds of two lists exactly if they contain the same elements.
    ensures elements { (xs ys : List ℕ) → (have_same_elements xs ys ≡ true)
        ↔ ((x : ℕ) → Contains xs x ↔ Contains ys x) }
    // For strictly increasing lists, `have_same_elements` holds exactly if the lists are equal.
    ensures rising { (xs ys : List ℕ) → rises xs ≡ true → rises ys ≡ true → (have_same_elements xs ys ≡ true)
        ↔ (xs ≡ ys) }
{}
