//! Theorems that one delivery, or one operation, is one step of a replica's state.
ghost use Rattle.std.specs.Prelude.{◌≡◌, true, false, ℕ, Bool, List, ◌∷◌, ◌++◌, Contains, Some};
ghost use Rattle.ra_labels.specs.declared.kind.Kind.{Kind};
ghost use Rattle.ra_labels.specs.declared.kind.Kind.TheVariants.{Counter, Register, LwwSet, OrSet};
ghost use Rattle.ra_labels.specs.declared.operation.Op.TheVariants.{OrAdd, OrRemove};
ghost use Rattle.ra_labels.specs.declared.operation.Update.{Update};
ghost use Rattle.ra_labels.specs.declared.operation.Update.TheVariants.{Write};
ghost use Rattle.ra_labels.specs.declared.label.Label.{Label};
ghost use Rattle.ra_labels.specs.declared.command.Command.TheVariants.{Deliver};
ghost use Rattle.ra_labels.specs.Records.{Records, labels_of};
ghost use Rattle.ra_labels.specs.Visibility.{has_delivered, sees, IsCausal};
ghost use Rattle.ra_labels.specs.Specification.{state_after, is_admitted};
ghost use Rattle.ra_labels.specs.NamedOrder.{named_labels};
ghost use Rattle.ra_labels.specs.Fault.{Holds};
ghost use Rattle.ra_labels.specs.TheoremTerms.{acts_on, IdentifiersAreUnique};
ghost use Rattle.ra_labels.specs.Insertion.{updates_passing, or_label, delivered_updates, HasUpdate};
ghost use Rattle.ra_labels.specs.Commuting.{then_step, last_written, last_on};
ghost use Rattle.ra_labels.specs.HistorySoFar.{NextOperation, operate};

/// Theorem: if records hold and identifiers are unique, a removal sees each addition that it removes.
pub fn or_removal_sees_removed_pairs()
    ensures { (records : Records) (l m : Label) (x id : ℕ) (ids : List ℕ) → Holds OrSet records
        → IdentifiersAreUnique records → Contains (labels_of records) l → Contains (labels_of records) m
        → l.op ≡ OrRemove x ids → m.op ≡ OrAdd x id → Contains ids id → sees records l.number m.number ≡ true }
{}

/// Theorem: the delivery of a new update is one step from the state that the delivered updates led to. For a counter it
/// is the update's own step. For a register or an LWW set it is the step of the last update, or of the last one on its
/// element, if the delivered updates are admitted. For an OR-Set it is the update's own step if records hold,
/// identifiers are unique, and the delivery is causal.
pub fn delivery_is_one_step()
    ensures counter { (records : Records) (to : ℕ) (label : Label) (update : Update)
        → Contains (labels_of records) label → HasUpdate label.op update → has_delivered records to label.number ≡ false
        → state_after Counter (delivered_updates Counter (Deliver to label.number ∷ records) to)
        ≡ then_step (state_after Counter (delivered_updates Counter records to)) update }
    ensures register { (records : Records) (to : ℕ) (label : Label) (value last : ℕ)
        → Contains (labels_of records) label → HasUpdate label.op (Write value)
        → has_delivered records to label.number ≡ false
        → let now = delivered_updates Register (Deliver to label.number ∷ records) to in is_admitted Register now ≡ true
        → last_written now ≡ Some last
        → state_after Register now
        ≡ then_step (state_after Register (delivered_updates Register records to)) (Write last) }
    ensures lww_set { (records : Records) (to : ℕ) (label : Label) (update last : Update) (x : ℕ)
        → Contains (labels_of records) label → HasUpdate label.op update → has_delivered records to label.number ≡ false
        → let now = delivered_updates LwwSet (Deliver to label.number ∷ records) to in is_admitted LwwSet now ≡ true
        → acts_on x update ≡ true → last_on x now ≡ Some last
        → state_after LwwSet now ≡ then_step (state_after LwwSet (delivered_updates LwwSet records to)) last }
    ensures or_set { (records : Records) (to : ℕ) (label : Label) (update : Update)
        → Contains (labels_of records) label → HasUpdate label.op update → Holds OrSet records
        → IdentifiersAreUnique records → IsCausal (Deliver to label.number ∷ records)
        → state_after OrSet (delivered_updates OrSet (Deliver to label.number ∷ records) to)
        ≡ then_step (state_after OrSet (delivered_updates OrSet records to)) update }
{}

/// Theorem: one more label that passes is one step, of its own update for a counter. For a register or an LWW set it is
/// the step of the last update, or of the last one on its element, if the updates that pass are admitted.
pub fn new_label_is_one_step()
    ensures counter { (records : Records) (passes : ℕ → Bool) (label : Label) (update : Update)
        → Contains (labels_of records) label → HasUpdate label.op update → passes label.number ≡ false
        → state_after Counter (updates_passing Counter records (or_label passes label.number))
        ≡ then_step (state_after Counter (updates_passing Counter records passes)) update }
    ensures register { (records : Records) (passes : ℕ → Bool) (label : Label) (value last : ℕ)
        → Contains (labels_of records) label → HasUpdate label.op (Write value) → passes label.number ≡ false
        → let now = updates_passing Register records (or_label passes label.number) in is_admitted Register now ≡ true
        → last_written now ≡ Some last
        → state_after Register now
        ≡ then_step (state_after Register (updates_passing Register records passes)) (Write last) }
    ensures lww_set { (records : Records) (passes : ℕ → Bool) (label : Label) (update last : Update) (x : ℕ)
        → Contains (labels_of records) label → HasUpdate label.op update → passes label.number ≡ false
        → let now = updates_passing LwwSet records (or_label passes label.number) in is_admitted LwwSet now ≡ true
        → acts_on x update ≡ true → last_on x now ≡ Some last
        → state_after LwwSet now ≡ then_step (state_after LwwSet (updates_passing LwwSet records passes)) last }
{}

/// Theorem: for any kind, one more label that stands behind all that pass is one step of its own update.
pub fn last_label_is_one_step()
    ensures { (kind : Kind) (records : Records) (passes : ℕ → Bool) (before behind : List Label) (label : Label)
        (update : Update) → named_labels kind records ≡ before ++ label ∷ behind → HasUpdate label.op update
        → passes label.number ≡ false → ((other : Label) → Contains behind other → passes other.number ≡ false)
        → state_after kind (updates_passing kind records (or_label passes label.number))
        ≡ then_step (state_after kind (updates_passing kind records passes)) update }
{}

/// Theorem: an operation of an OR-Set that is an update is one step from the state that the updates delivered to its
/// replica led to.
pub fn or_set_operation_is_one_step()
    ensures { (records : Records) (next : NextOperation) (update : Update) → HasUpdate next.op update
        → state_after OrSet (delivered_updates OrSet (operate next ∷ records) next.by)
        ≡ then_step (state_after OrSet (delivered_updates OrSet records next.by)) update }
{}

/// Theorem: the last update is that of the label behind which none passes, or for an LWW set none on its element.
pub fn last_label_has_last_update()
    ensures register { (records : Records) (passes : ℕ → Bool) (before behind : List Label) (label : Label) (value : ℕ)
        → named_labels Register records ≡ before ++ label ∷ behind → HasUpdate label.op (Write value)
        → passes label.number ≡ true
        → ((other : Label) → Contains behind other → passes other.number ≡ false)
        → last_written (updates_passing Register records passes) ≡ Some value }
    ensures lww_set { (records : Records) (passes : ℕ → Bool) (before behind : List Label) (label : Label)
        (update : Update) (x : ℕ) → named_labels LwwSet records ≡ before ++ label ∷ behind → HasUpdate label.op update
        → passes label.number ≡ true → acts_on x update ≡ true
        → ((other : Label) (later : Update) → Contains behind other → passes other.number ≡ true
        → HasUpdate other.op later → acts_on x later ≡ false)
        → last_on x (updates_passing LwwSet records passes) ≡ Some update }
{}

/// Theorem: one more label changes nothing if a label behind it passes, for an LWW set one on its element, and the
/// updates are admitted with it and without it.
pub fn overridden_label_changes_nothing()
    ensures register { (records : Records) (passes : ℕ → Bool) (before behind : List Label) (label other : Label)
        (value later : ℕ) → named_labels Register records ≡ before ++ label ∷ behind → HasUpdate label.op (Write value)
        → passes label.number ≡ false → Contains behind other → HasUpdate other.op (Write later)
        → passes other.number ≡ true
        → let now = updates_passing Register records (or_label passes label.number) in
        is_admitted Register (updates_passing Register records passes) ≡ true → is_admitted Register now ≡ true
        → state_after Register now ≡ state_after Register (updates_passing Register records passes) }
    ensures lww_set { (records : Records) (passes : ℕ → Bool) (before behind : List Label) (label other : Label)
        (update later : Update) (x : ℕ) → named_labels LwwSet records ≡ before ++ label ∷ behind
        → HasUpdate label.op update → acts_on x update ≡ true → passes label.number ≡ false → Contains behind other
        → HasUpdate other.op later → acts_on x later ≡ true → passes other.number ≡ true
        → let now = updates_passing LwwSet records (or_label passes label.number) in
        is_admitted LwwSet (updates_passing LwwSet records passes) ≡ true → is_admitted LwwSet now ≡ true
        → state_after LwwSet now ≡ state_after LwwSet (updates_passing LwwSet records passes) }
{}
