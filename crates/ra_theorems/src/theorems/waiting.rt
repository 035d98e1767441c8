//! Theorems about pending updates of an RGA. Most assume that the updates of all labels are admitted, as they are in
//! records that hold.
ghost use Rattle.std.specs.Prelude.{◌≡◌, ◌↔◌, not, true, false, ℕ, Bool, List, ◌∷◌, ◌++◌, Contains, Some};
ghost use Rattle.std.specs.List.{list_all};
ghost use Rattle.ra_labels.specs.declared.kind.Kind.TheVariants.{Rga};
ghost use Rattle.ra_labels.specs.declared.operation.Update.{Update};
ghost use Rattle.ra_labels.specs.declared.operation.Update.TheVariants.{After, RgaRemove};
ghost use Rattle.ra_labels.specs.declared.label.Label.{Label};
ghost use Rattle.ra_labels.specs.Records.{Records, labels_of};
ghost use Rattle.ra_labels.specs.Rewriting.{updates_of};
ghost use Rattle.ra_labels.specs.Specification.{Listed, state_after, is_admitted};
ghost use Rattle.ra_labels.specs.Linearization.{updates_admitted};
ghost use Rattle.ra_labels.specs.NamedOrder.{named_sequence};
ghost use Rattle.ra_labels.specs.TheoremTerms.{kind_of_update, elements_in};
ghost use Rattle.ra_labels.specs.Insertion.{updates_passing, or_label, HasUpdate};
ghost use Rattle.ra_labels.specs.Commuting.{then_step};
ghost use Rattle.ra_labels.specs.Late.{kept_entries};
ghost use Rattle.ra_labels.specs.Pending.{is_present_element, shown_by, dependency_of, NonePending};

/// Theorem: an insertion put among admitted updates is admitted exactly if its anchor is present after those before it
/// and no update inserts its element. A removal is admitted exactly if its element is present after those before it and
/// is not the root.
pub fn update_admitted_iff_dependency_present()
    ensures insertion { (first later : List Update) (anchor x : ℕ) → is_admitted Rga (first ++ later) ≡ true
        → (is_admitted Rga (first ++ After anchor x ∷ later) ≡ true)
        ↔ ((is_present_element anchor first ≡ true) × (is_present_element x (first ++ later) ≡ false)) }
    ensures removal { (first later : List Update) (x : ℕ) → is_admitted Rga (first ++ later) ≡ true
        → (is_admitted Rga (first ++ RgaRemove x ∷ later) ≡ true) ↔ ((is_present_element x first ≡ true) × ¬ (x ≡ 0)) }
{}

/// Theorem: an update of another kind depends only on the root, which is always present.
pub fn other_kind_depends_on_root()
    ensures { (update : Update) → ¬ (kind_of_update update ≡ Rga) → dependency_of update ≡ 0 }
{}

/// Theorem: an element is present exactly if it is in the list. An inserted element is present after the updates that
/// pass exactly if the label that inserts it passes.
pub fn element_present_iff_label_passes()
    ensures list { (updates : List Update) (list : List (ℕ × Bool)) (x : ℕ)
        → state_after Rga updates ≡ Some (Listed list)
        → (is_present_element x updates ≡ true) ↔ Contains (elements_in list) x }
    ensures label { (records : Records) (passes : ℕ → Bool) (label : Label) (anchor x : ℕ)
        → updates_admitted Rga (named_sequence Rga records) ≡ true → Contains (labels_of records) label
        → HasUpdate label.op (After anchor x)
        → is_present_element x (updates_passing Rga records passes) ≡ passes label.number }
{}

/// Theorem: an element is inserted by at most one label, and the root by none.
pub fn element_inserted_by_one_label()
    ensures one { (records : Records) (k l : Label) (a b x : ℕ)
        → updates_admitted Rga (named_sequence Rga records) ≡ true → Contains (labels_of records) k
        → Contains (labels_of records) l → HasUpdate k.op (After a x) → HasUpdate l.op (After b x) → k ≡ l }
    ensures other { (records : Records) (k : Label) (a x : ℕ)
        → updates_admitted Rga (named_sequence Rga records) ≡ true → Contains (labels_of records) k
        → HasUpdate k.op (After a x) → ¬ (x ≡ 0) }
{}

/// Theorem: the updates of labels that pass are admitted exactly if none of them waits. Then they lead to the list of
/// all labels, filtered to the elements that are present after them, of which it shows those that they do not remove.
pub fn updates_admitted_iff_none_pending()
    ensures exactly { (records : Records) (passes : ℕ → Bool)
        → updates_admitted Rga (named_sequence Rga records) ≡ true
        → (is_admitted Rga (updates_passing Rga records passes) ≡ true) ↔ NonePending records passes }
    ensures list { (records : Records) (passes : ℕ → Bool) (list all : List (ℕ × Bool))
        → state_after Rga (updates_of (named_sequence Rga records)) ≡ Some (Listed all)
        → let updates = updates_passing Rga records passes in state_after Rga updates ≡ Some (Listed list)
        → elements_in list ≡ elements_in (kept_entries (λ x. is_present_element x updates) all) }
    ensures shown { (records : Records) (passes : ℕ → Bool) (list all : List (ℕ × Bool))
        → state_after Rga (updates_of (named_sequence Rga records)) ≡ Some (Listed all)
        → let updates = updates_passing Rga records passes in state_after Rga updates ≡ Some (Listed list)
        → list ≡ shown_by updates (kept_entries (λ x. is_present_element x updates) all) }
{}

/// Theorem: one more label that passes and does not wait is one step: its removal, or an insertion behind the nearest
/// present element before it in the list of all labels. Afterwards, still no label waits.
pub fn new_update_is_one_step()
    ensures insertion { (records : Records) (passes : ℕ → Bool) (label : Label) (anchor x p : ℕ)
        (before between behind : List (ℕ × Bool)) (is_shown was_shown : Bool)
        → let all = before ++ (p, is_shown) ∷ between ++ (x, was_shown) ∷ behind in
        let updates = updates_passing Rga records passes in
        state_after Rga (updates_of (named_sequence Rga records)) ≡ Some (Listed all)
        → Contains (labels_of records) label → HasUpdate label.op (After anchor x) → passes label.number ≡ false
        → is_admitted Rga updates ≡ true → is_present_element anchor updates ≡ true
        → is_present_element p updates ≡ true
        → list_all (λ entry. not (is_present_element entry.0 updates)) between ≡ true
        → state_after Rga (updates_passing Rga records (or_label passes label.number))
        ≡ then_step (state_after Rga updates) (After p x) }
    ensures removal { (records : Records) (passes : ℕ → Bool) (label : Label) (x : ℕ)
        → updates_admitted Rga (named_sequence Rga records) ≡ true
        → let updates = updates_passing Rga records passes in
        Contains (labels_of records) label → HasUpdate label.op (RgaRemove x) → passes label.number ≡ false
        → is_admitted Rga updates ≡ true → is_present_element x updates ≡ true
        → state_after Rga (updates_passing Rga records (or_label passes label.number))
        ≡ then_step (state_after Rga updates) (RgaRemove x) }
    ensures none_waits { (records : Records) (passes : ℕ → Bool) (label : Label) (update : Update)
        → Contains (labels_of records) label → HasUpdate label.op update → passes label.number ≡ false
        → NonePending records passes
        → is_present_element (dependency_of update) (updates_passing Rga records passes) ≡ true
        → NonePending records (or_label passes label.number) }
{}
