//! Theorems about one more label among all labels, and in the list of all labels of an RGA.
ghost use Rattle.std.specs.Prelude.{◌≡◌, ◌↔◌, ◌⊎◌, true, false, ℕ, Bool, List, ◌∷◌, ◌++◌, flat_map, Contains, Some};
ghost use Rattle.std.specs.Ordering.{is_lt};
ghost use Rattle.std.specs.declared.cmp.Ordering.TheVariants.{Less};
ghost use Rattle.ra_labels.specs.declared.kind.Kind.{Kind};
ghost use Rattle.ra_labels.specs.declared.kind.Kind.TheVariants.{Register, LwwSet, Rga};
ghost use Rattle.ra_labels.specs.declared.operation.Update.{Update};
ghost use Rattle.ra_labels.specs.declared.operation.Update.TheVariants.{After, RgaRemove};
ghost use Rattle.ra_labels.specs.declared.label.Stamp.{Stamp};
ghost use Rattle.ra_labels.specs.declared.label.Label.{Label};
ghost use Rattle.ra_labels.specs.Records.{Records, labels_of};
ghost use Rattle.ra_labels.specs.Visibility.{is_update};
ghost use Rattle.ra_labels.specs.Rewriting.{parts_of, updates_of};
ghost use Rattle.ra_labels.specs.Lists.{hide};
ghost use Rattle.ra_labels.specs.Specification.{Listed, state_after};
ghost use Rattle.ra_labels.specs.Linearization.{updates_admitted};
ghost use Rattle.ra_labels.specs.NamedOrder.{stamp_cmp, label_cmp, named_labels, named_sequence};
ghost use Rattle.ra_labels.specs.TheoremTerms.{elements_in};
ghost use Rattle.ra_labels.specs.Insertion.{updates_among, HasUpdate};
ghost use Rattle.ra_labels.specs.Late.{insert_late_after};
ghost use Rattle.ra_labels.specs.Pending.{is_present_element, OneInserts, WasInsertedBelow};
ghost use Rattle.ra_labels.specs.HistorySoFar.{NextOperation, operate, label_of};

/// Theorem: the labels before a label in the named order are those less than it, and the labels behind it are those
/// greater than it. Its position is unique.
pub fn label_position_by_order()
    ensures before { (kind : Kind) (records : Records) (first later : List Label) (label other : Label)
        → named_labels kind records ≡ first ++ label ∷ later → Contains (labels_of records) other
        → Contains first other ↔ (label_cmp kind records other label ≡ Less) }
    ensures behind { (kind : Kind) (records : Records) (first later : List Label) (label other : Label)
        → named_labels kind records ≡ first ++ label ∷ later → Contains (labels_of records) other
        → Contains later other ↔ (label_cmp kind records label other ≡ Less) }
    ensures place { (kind : Kind) (records : Records) (before behind first later : List Label) (label : Label)
        → named_labels kind records ≡ before ++ label ∷ behind → named_labels kind records ≡ first ++ label ∷ later
        → (before ≡ first) × (behind ≡ later) }
{}

/// Theorem: in the kinds with timestamp order, labels with different stamps of their own are ordered by these stamps.
pub fn stamped_labels_sorted()
    ensures { (kind : Kind) (records : Records) (l m : Label) (s t : Stamp)
        → (kind ≡ Register) ⊎ (kind ≡ LwwSet) ⊎ (kind ≡ Rga) → l.stamp ≡ Some s → m.stamp ≡ Some t → ¬ (s ≡ t)
        → label_cmp kind records l m ≡ stamp_cmp s t }
{}

/// Theorem: one more operation inserts its update among those of all labels, at its position in the named order. An
/// operation that is no update changes none of these.
pub fn operation_inserts_among_all()
    ensures update { (kind : Kind) (records : Records) (next : NextOperation) (update : Update)
        → HasUpdate next.op update → let now = operate next ∷ records in (before behind : List Label)
        × (named_labels kind records ≡ before ++ behind)
        × (named_labels kind now ≡ before ++ label_of records next ∷ behind)
        × (updates_of (named_sequence kind records)
        ≡ updates_of (flat_map parts_of before) ++ updates_of (flat_map parts_of behind))
        × (updates_of (named_sequence kind now)
        ≡ updates_of (flat_map parts_of before) ++ update ∷ updates_of (flat_map parts_of behind)) }
    ensures query { (kind : Kind) (records : Records) (next : NextOperation) → is_update next.op ≡ false
        → updates_of (named_sequence kind (operate next ∷ records))
        ≡ updates_of (named_sequence kind records) }
{}

/// Theorem: an element present after the updates of labels is the root, or one of the labels inserts it.
pub fn present_element_has_insertion()
    ensures all { (labels : List Label) (x : ℕ) → (is_present_element x (updates_of (flat_map parts_of labels)) ≡ true)
        ↔ ((x ≡ 0) ⊎ OneInserts x labels) }
    ensures passing { (passes : ℕ → Bool) (labels : List Label) (x : ℕ)
        → is_present_element x (updates_among passes labels) ≡ true → (x ≡ 0) ⊎ OneInserts x labels }
{}

/// Theorem: if the updates so far are admitted, a new insertion is admitted exactly if its element is new and its
/// anchor is the root or was inserted by a label less than its own. A new removal is admitted exactly if its element is
/// not the root and was inserted by a label less than its own.
pub fn new_update_admitted_iff_dependency_below()
    ensures insertion { (records : Records) (next : NextOperation) (anchor x : ℕ) → HasUpdate next.op (After anchor x)
        → updates_admitted Rga (named_sequence Rga records) ≡ true
        → let now = operate next ∷ records in
        (updates_admitted Rga (named_sequence Rga now) ≡ true)
        ↔ ((is_present_element x (updates_of (named_sequence Rga records)) ≡ false)
        × ((anchor ≡ 0) ⊎ WasInsertedBelow now (label_of records next) anchor)) }
    ensures removal { (records : Records) (next : NextOperation) (x : ℕ)
        → HasUpdate next.op (RgaRemove x) → updates_admitted Rga (named_sequence Rga records) ≡ true
        → let now = operate next ∷ records in
        (updates_admitted Rga (named_sequence Rga now) ≡ true)
        ↔ ((¬ (x ≡ 0)) × WasInsertedBelow now (label_of records next) x) }
{}

/// Theorem: in the list of all labels, a new element goes behind its anchor, and past the elements directly behind that
/// which have greater labels. The test `below` compares a new element with the labels' elements, and is false for the
/// root. A removal hides its element and moves none.
pub fn new_label_in_full_list()
    ensures insertion { (records : Records) (next : NextOperation) (anchor x : ℕ)
        (all all_now : List (ℕ × Bool)) (below : ℕ → ℕ → Bool) → HasUpdate next.op (After anchor x)
        → let now = operate next ∷ records in
        state_after Rga (updates_of (named_sequence Rga records)) ≡ Some (Listed all)
        → state_after Rga (updates_of (named_sequence Rga now)) ≡ Some (Listed all_now) → below x 0 ≡ false
        → ((other : Label) (behind y : ℕ) → Contains (labels_of records) other → HasUpdate other.op (After behind y)
        → below x y ≡ is_lt (label_cmp Rga now (label_of records next) other))
        → all_now ≡ insert_late_after below anchor x all }
    ensures removal { (records : Records) (next : NextOperation) (x : ℕ) (all all_now : List (ℕ × Bool))
        → HasUpdate next.op (RgaRemove x)
        → state_after Rga (updates_of (named_sequence Rga records)) ≡ Some (Listed all)
        → state_after Rga (updates_of (named_sequence Rga (operate next ∷ records))) ≡ Some (Listed all_now)
        → all_now ≡ hide x all }
{}

/// Theorem: in the list of all labels, only elements with greater labels stand between an anchor and its element.
pub fn between_anchor_and_element_later()
    ensures { (records : Records) (label other : Label) (anchor x b y : ℕ) (before between behind : List (ℕ × Bool))
        (is_shown was_shown : Bool)
        → let all = before ++ (anchor, is_shown) ∷ between ++ (x, was_shown) ∷ behind in
        state_after Rga (updates_of (named_sequence Rga records)) ≡ Some (Listed all)
        → Contains (labels_of records) label → HasUpdate label.op (After anchor x) → Contains (labels_of records) other
        → HasUpdate other.op (After b y) → Contains (elements_in between) y
        → label_cmp Rga records label other ≡ Less }
{}
