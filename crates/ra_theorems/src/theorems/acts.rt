//! Theorems about the acts of each operation: its query, its update, or both, for all values.
ghost use Rattle.std.specs.Prelude.{◌≡◌, ℕ, ℤ, List, [], ◌∷◌, Option};
ghost use Rattle.ra_labels.specs.declared.operation.Op.TheVariants as op;
ghost use Rattle.ra_labels.specs.declared.operation.Update.TheVariants.{Inc, Dec, Write, LwwAdd, LwwRemove, OrAdd, TakeOut, After, RgaRemove};
ghost use Rattle.ra_labels.specs.declared.operation.Query.TheVariants.{Count, Last, LwwRead, ReadIds, OrRead, RgaRead};
ghost use Rattle.ra_labels.specs.Rewriting.{Whole, QueryHalf, UpdateHalf, Does, Asks, acts_of};

/// Theorem: a counter's operations are an increment, a decrement, and a query for the number.
pub fn counter_acts()
    ensures inc { acts_of op.Inc ≡ (Whole, Does Inc) ∷ [] }
    ensures dec { acts_of op.Dec ≡ (Whole, Does Dec) ∷ [] }
    ensures count { (number : ℤ) → acts_of (op.Count number) ≡ (Whole, Asks (Count number)) ∷ [] }
{}

/// Theorem: a register's operations are a write, and a query for its value or for none.
pub fn register_acts()
    ensures write { (value : ℕ) → acts_of (op.Write value) ≡ (Whole, Does (Write value)) ∷ [] }
    ensures last { (value : Option ℕ) → acts_of (op.Last value) ≡ (Whole, Asks (Last value)) ∷ [] }
{}

/// Theorem: an LWW set's operations are an addition, a removal, and a query for the elements.
pub fn lww_set_acts()
    ensures add { (x : ℕ) → acts_of (op.LwwAdd x) ≡ (Whole, Does (LwwAdd x)) ∷ [] }
    ensures remove { (x : ℕ) → acts_of (op.LwwRemove x) ≡ (Whole, Does (LwwRemove x)) ∷ [] }
    ensures read { (list : List ℕ) → acts_of (op.LwwRead list) ≡ (Whole, Asks (LwwRead list)) ∷ [] }
{}

/// Theorem: an OR-Set's operations are an addition with an identifier, a removal, and a query for the elements. The
/// removal first queries the element's identifiers, then removes those pairs.
pub fn or_set_acts()
    ensures add { (x identifier : ℕ) → acts_of (op.OrAdd x identifier) ≡ (Whole, Does (OrAdd x identifier)) ∷ [] }
    ensures remove { (x : ℕ) (identifiers : List ℕ) → acts_of (op.OrRemove x identifiers)
        ≡ (QueryHalf, Asks (ReadIds x identifiers)) ∷ (UpdateHalf, Does (TakeOut x identifiers)) ∷ [] }
    ensures read { (list : List ℕ) → acts_of (op.OrRead list) ≡ (Whole, Asks (OrRead list)) ∷ [] }
{}

/// Theorem: an RGA's operations are an insertion behind an anchor, a removal, and a query for the elements that are
/// shown.
pub fn rga_acts()
    ensures insertion { (anchor x : ℕ) → acts_of (op.After anchor x) ≡ (Whole, Does (After anchor x)) ∷ [] }
    ensures removal { (x : ℕ) → acts_of (op.RgaRemove x) ≡ (Whole, Does (RgaRemove x)) ∷ [] }
    ensures read { (list : List ℕ) → acts_of (op.RgaRead list) ≡ (Whole, Asks (RgaRead list)) ∷ [] }
{}
