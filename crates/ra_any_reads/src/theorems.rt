//! Theorems about vectors of counts.
ghost use Rattle.std.specs.Prelude.{◌≡◌, ◌↔◌, ℕ, true, List};
ghost use Rattle.ra_any_reads.specs.declared.first.First.{First};
ghost use Rattle.ra_any_reads.specs.Counts.{have_same_counts, HaveSameCounts};
ghost use Rattle.ra_any_reads.specs.Firsts.{first_in};

/// Theorem: two vectors have the same counts exactly if the count of each replica is the same, where one that is
/// missing is 0. So trailing zeros do not matter.
pub fn same_counts_iff_each_count_same()
    ensures { (xs ys : List ℕ) → (have_same_counts xs ys ≡ true) ↔ HaveSameCounts xs ys }
{}

/// Theorem: the first read is the same for all vectors with the same counts.
pub fn first_read_by_counts()
    ensures { (entries : List (List ℕ × First)) (xs ys : List ℕ) → HaveSameCounts xs ys
        → first_in entries xs ≡ first_in entries ys }
{}
