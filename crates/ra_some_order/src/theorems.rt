//! The theorems on the orders that explain a register or an LWW set, each the clause of a function with an empty body.
ghost use Rattle.std.specs.Prelude.{◌≡◌, ◌↔◌, ℕ, true, false, Bool, List, [], ◌∷◌, ◌++◌, filter, Some, Contains, IsPermutation};
ghost use Rattle.ra_labels.specs.declared.kind.Kind.{Kind};
ghost use Rattle.ra_labels.specs.declared.command.Command.{Command};
ghost use Rattle.ra_labels.specs.declared.command.Command.TheVariants.{Deliver, Join};
ghost use Rattle.ra_labels.specs.declared.operation.Op.{Op};
ghost use Rattle.ra_labels.specs.declared.label.Label.{Label};
ghost use Rattle.ra_labels.specs.declared.reply.Fault.{Fault};
ghost use Rattle.ra_labels.specs.Edges.{IsBefore};
ghost use Rattle.ra_labels.specs.Records.{Records, label_count, labels_of, records_to};
ghost use Rattle.ra_labels.specs.Visibility.{is_update, is_update_at};
ghost use Rattle.ra_labels.specs.HistorySoFar.{NextOperation, operate, label_of};
ghost use Rattle.ra_labels.specs.Rewriting.{Part};
ghost use Rattle.ra_labels.specs.Linearization.{parts_in, extends_visibility, is_visible_to, IsRaLinearizationBy, IsRaLinearization};
ghost use Rattle.ra_labels.specs.Fault.{Holds, fault_of};
ghost use Rattle.ra_labels.specs.Answer.{records_after_all};
ghost use Rattle.ra_labels.specs.TheoremTerms.{EachLabelIsWellFormed};
ghost use Rattle.ra_theorems.specs.AnyOrder.{NoneLinearizes};
ghost use Rattle.ra_precedence.specs.Conditions.{Condition, Meets, MeetsAll, IsStuck, HasEachBelow, NameOnlyBelow};
ghost use Rattle.ra_some_order.specs.VisibleUpdates.{visible_labels, numbers_where};
ghost use Rattle.ra_some_order.specs.UpdateConditions.{visibility_conditions, read_conditions, conditions_of, conditions_of_label, IsOrderOfUpdates};
ghost use Rattle.ra_some_order.specs.PlainConditions.{IsPossibleRead, MeetsPlainConditions};
ghost use Rattle.ra_some_order.specs.Covering.{anything, either, Cover, ExtendsVisibility};
ghost use Rattle.ra_some_order.specs.LabelOrders.{IsOrderOfLabels, OrderExplains, label_order, Narrows};
ghost use Rattle.ra_some_order.specs.SomeOrder.{SomeOrderExplains, EachLabelIsOfKind, is_decided_by_conditions, has_whole_labels, update_order};

/// Theorem: if a sequence linearizes the records, even by visibility alone, the plain conditions hold, and its updates
/// are in an order of all updates that meets the conditions. Of any kind, this order extends visibility.
pub fn linearization_meets_conditions()
    ensures plain { (kind : Kind) (records : Records) (sequence : List Part) → is_decided_by_conditions kind ≡ true
        → IsRaLinearizationBy (is_visible_to records) kind records sequence → MeetsPlainConditions records }
    ensures order { (kind : Kind) (records : Records) (sequence : List Part)
        → IsRaLinearizationBy (is_visible_to records) kind records sequence
        → IsOrderOfUpdates records (update_order sequence) }
    ensures visibility { (kind : Kind) (records : Records) (sequence : List Part)
        → IsRaLinearizationBy (is_visible_to records) kind records sequence
        → ExtendsVisibility records (update_order sequence) }
    ensures conditions { (kind : Kind) (records : Records) (sequence : List Part)
        → is_decided_by_conditions kind ≡ true
        → IsRaLinearizationBy (is_visible_to records) kind records sequence
        → MeetsAll (update_order sequence) (conditions_of records) }
{}

/// Theorem: if the plain conditions fail or a set of updates is stuck, no sequence linearizes the records, not even by
/// visibility alone. The set may be stuck for other conditions, if each order that meets the conditions meets them.
pub fn stuck_set_is_final()
    ensures plain { (kind : Kind) (records : Records) → is_decided_by_conditions kind ≡ true
        → ¬ MeetsPlainConditions records → NoneLinearizes kind records }
    ensures stuck { (kind : Kind) (records : Records) (set : List ℕ) → is_decided_by_conditions kind ≡ true
        → IsStuck (conditions_of records) set → NoneLinearizes kind records }
    ensures following { (kind : Kind) (records : Records) (conditions : List Condition) (set : List ℕ)
        → is_decided_by_conditions kind ≡ true
        → ((order : List ℕ) → IsOrderOfUpdates records order → MeetsAll order (conditions_of records)
        → MeetsAll order conditions)
        → IsStuck conditions set → NoneLinearizes kind records }
{}

/// Theorem: if all labels are of the kind and no sequence linearizes the records, not even by visibility alone, no
/// sequence linearizes later ones.
pub fn no_order_persists()
    ensures { (kind : Kind) (later records : Records) → is_decided_by_conditions kind ≡ true
        → EachLabelIsOfKind kind records → NoneLinearizes kind records → NoneLinearizes kind (later ++ records) }
{}

/// Theorem: of any kind, queries fit into each order of the updates that extends visibility: some sequence has each
/// part once, extends `must_precede`, and has the updates in this order.
pub fn queries_fit_each_order()
    ensures { (records : Records) (order : List ℕ) → IsOrderOfUpdates records order → ExtendsVisibility records order
        → (sequence : List Part) × IsPermutation (parts_in records) sequence
        × (extends_visibility records sequence ≡ true) × (update_order sequence ≡ order) }
{}

/// Theorem: if all labels are of the kind, the plain conditions hold and a list has each update once and meets the
/// conditions, a sequence with the updates in this order is an RA-linearization.
pub fn order_explains()
    ensures { (kind : Kind) (records : Records) (order : List ℕ) → is_decided_by_conditions kind ≡ true
        → EachLabelIsOfKind kind records → MeetsPlainConditions records → IsOrderOfUpdates records order
        → MeetsAll order (conditions_of records)
        → (sequence : List Part) × IsRaLinearization kind records sequence × (update_order sequence ≡ order) }
{}

/// Theorem: so some sequence explains the records exactly if the plain conditions hold and some order of the updates
/// meets the conditions.
pub fn some_order_iff()
    ensures { (kind : Kind) (records : Records) → is_decided_by_conditions kind ≡ true
        → EachLabelIsOfKind kind records → SomeOrderExplains kind records ↔ (MeetsPlainConditions records
        × ((order : List ℕ) × IsOrderOfUpdates records order × MeetsAll order (conditions_of records))) }
{}

/// Theorem: well-formed labels are of the kind, and so are all accepted ones.
pub fn accepted_labels_of_kind()
    ensures formed { (kind : Kind) (replicas : ℕ) (records : Records) → EachLabelIsWellFormed kind replicas records
        → EachLabelIsOfKind kind records }
    ensures accepted { (kind : Kind) (replicas : ℕ) (commands : List Command)
        → EachLabelIsOfKind kind (records_after_all kind replicas [] commands) }
{}

/// Theorem: conditions name only updates, and so only labels that exist.
pub fn conditions_name_updates()
    ensures before { (records : Records) (condition : Condition) (b : ℕ) → Contains (conditions_of records) condition
        → Contains condition.before b → is_update_at records b ≡ true }
    ensures after { (records : Records) (condition : Condition) (c : ℕ) → Contains (conditions_of records) condition
        → Contains condition.after c → is_update_at records c ≡ true }
    ensures below { (records : Records) → NameOnlyBelow (label_count records) (conditions_of records) }
{}

/// Theorem: the updates of an order of all labels are in an order of the updates, which meets the conditions if the
/// order of all labels does.
pub fn updates_of_label_order()
    ensures order { (records : Records) (order : List ℕ) → HasEachBelow (label_count records) order
        → IsOrderOfUpdates records (filter (is_update_at records) order) }
    ensures conditions { (records : Records) (order : List ℕ) → MeetsAll order (conditions_of records)
        → MeetsAll (filter (is_update_at records) order) (conditions_of records) }
{}

/// Theorem: a new label adds its own conditions, and a delivery or a join adds none. The plain conditions hold after a
/// new label exactly if they held before and the label is possible if it is a read.
pub fn conditions_after_command()
    ensures label { (records : Records) (next : NextOperation) → conditions_of (operate next ∷ records)
        ≡ conditions_of_label (operate next ∷ records) (label_of records next) ++ conditions_of records }
    ensures delivery { (records : Records) (to n : ℕ)
        → conditions_of (Deliver to n ∷ records) ≡ conditions_of records }
    ensures join { (records : Records) (joined from : ℕ)
        → conditions_of (Join joined from ∷ records) ≡ conditions_of records }
    ensures plain { (records : Records) (next : NextOperation) → MeetsPlainConditions (operate next ∷ records)
        ↔ (IsPossibleRead (visible_labels (operate next ∷ records) (label_count records)) next.op
        × MeetsPlainConditions records) }
{}

/// Theorem: a new update can be the last one of each order, which then meets the conditions as before. A new read is in
/// no order.
pub fn order_after_label()
    ensures update { (records : Records) (next : NextOperation) (order : List ℕ) → IsOrderOfUpdates records order
        → is_update next.op ≡ true → IsOrderOfUpdates (operate next ∷ records) (order ++ label_count records ∷ []) }
    ensures conditions { (records : Records) (next : NextOperation) (order : List ℕ) → IsOrderOfUpdates records order
        → is_update next.op ≡ true → MeetsAll order (conditions_of records)
        → MeetsAll (order ++ label_count records ∷ []) (conditions_of (operate next ∷ records)) }
    ensures read { (records : Records) (next : NextOperation) (order : List ℕ) → IsOrderOfUpdates records order
        → is_update next.op ≡ false → IsOrderOfUpdates (operate next ∷ records) order }
{}

/// Theorem: an order meets the conditions exactly if each update comes after those that it sees, and the conditions of
/// the reads are met.
pub fn conditions_iff()
    ensures { (records : Records) (order : List ℕ) → MeetsAll order (conditions_of records)
        ↔ (ExtendsVisibility records order × ((label : Label) → Contains (labels_of records) label
        → is_update label.op ≡ false
        → MeetsAll order (read_conditions (visible_labels records label.number) label.op))) }
{}

/// Theorem: fewer labels require as much, if they cover the visible ones. An update comes after all that it sees if it
/// comes after labels that cover them, and so does each other update. An order that extends visibility meets a
/// condition of the visible labels exactly if it meets that of labels that cover those that the condition names.
pub fn cover_requires_as_much()
    ensures visibility { (records : Records) (order : List ℕ) → IsOrderOfUpdates records order
        → (chosen : ℕ → List Label)
        → ((label : Label) → Contains (labels_of records) label → is_update label.op ≡ true
        → Cover records label.number anything (chosen label.number)
        × MeetsAll order (visibility_conditions (chosen label.number) label.number))
        → ExtendsVisibility records order }
    ensures read { (records : Records) (order : List ℕ) → IsOrderOfUpdates records order
        → ExtendsVisibility records order → (n : ℕ) (first second : Op → Bool)
        → ((op : Op) → first op ≡ true → second op ≡ false)
        → (labels : List Label) → Cover records n (either first second) labels
        → let visible = visible_labels records n in Meets order
        (record { before = numbers_where first visible; after = numbers_where second visible })
        ↔ Meets order (record { before = numbers_where first labels; after = numbers_where second labels }) }
{}

/// Theorem: if all labels are of a kind whose labels are single parts, an order of all labels in which each comes after
/// the updates that it sees and the earlier labels of its replica is that of a sequence. It has each part once, extends
/// `must_precede`, and has the updates in the same order.
pub fn label_order_has_sequence()
    ensures { (kind : Kind) (records : Records) (order : List ℕ) → has_whole_labels kind ≡ true
        → EachLabelIsOfKind kind records → IsOrderOfLabels records order
        → (sequence : List Part) × IsPermutation (parts_in records) sequence
        × (extends_visibility records sequence ≡ true) × (label_order sequence ≡ order)
        × (update_order sequence ≡ filter (is_update_at records) order) }
{}

/// Theorem: an order of all labels in which each comes after the updates that it sees and the earlier labels of its
/// replica, and which meets the conditions, is that of an RA-linearization if the plain conditions hold.
pub fn label_order_explains()
    ensures { (kind : Kind) (records : Records) (order : List ℕ) → is_decided_by_conditions kind ≡ true
        → EachLabelIsOfKind kind records → MeetsPlainConditions records → IsOrderOfLabels records order
        → MeetsAll order (conditions_of records)
        → (sequence : List Part) × IsRaLinearization kind records sequence × (label_order sequence ≡ order) }
{}

/// Theorem: conversely, if all labels are of a kind whose labels are single parts, the labels of an RA-linearization
/// are in such an order, which also keeps the order of its updates.
pub fn linearization_has_label_order()
    ensures order { (kind : Kind) (records : Records) (sequence : List Part) → has_whole_labels kind ≡ true
        → EachLabelIsOfKind kind records → IsRaLinearization kind records sequence
        → IsOrderOfLabels records (label_order sequence) }
    ensures updates { (kind : Kind) (records : Records) (sequence : List Part) → has_whole_labels kind ≡ true
        → EachLabelIsOfKind kind records → IsRaLinearization kind records sequence
        → (a b : ℕ) → IsBefore (update_order sequence) a b → IsBefore (label_order sequence) a b }
{}

/// Theorem: so an order explains the records exactly if the plain conditions hold, it has each label once, after the
/// updates that it sees and the earlier labels of its replica, and it meets the conditions.
pub fn label_order_iff()
    ensures { (kind : Kind) (records : Records) (order : List ℕ) → is_decided_by_conditions kind ≡ true
        → EachLabelIsOfKind kind records → OrderExplains kind records order
        ↔ (MeetsPlainConditions records × IsOrderOfLabels records order × MeetsAll order (conditions_of records)) }
{}

/// Theorem: if a sequence linearizes the records, even by visibility alone, there is such an order of all labels.
pub fn linearization_orders_labels()
    ensures { (kind : Kind) (records : Records) (sequence : List Part) → is_decided_by_conditions kind ≡ true
        → EachLabelIsOfKind kind records → IsRaLinearizationBy (is_visible_to records) kind records sequence
        → (order : List ℕ) × IsOrderOfLabels records order × MeetsAll order (conditions_of records) }
{}

/// Theorem: in such an order a condition of a read is met exactly if one is that names fewer labels: for each of them
/// the same one, or a later one of its replica.
pub fn narrow_condition_requires_as_much()
    ensures { (records : Records) (order : List ℕ) → IsOrderOfLabels records order → (n : ℕ) (op : Op)
        → (full condition : Condition) → Contains (read_conditions (visible_labels records n) op) full
        → Narrows records full condition → Meets order full ↔ Meets order condition }
{}

/// Theorem: some sequence explains records that hold. Of a register and an LWW set, a new update keeps this, and a
/// delivery or a join does not matter. So another order explains the records up to an update at which the named one
/// fails.
pub fn updates_stay_explained()
    ensures holds { (kind : Kind) (records : Records) → Holds kind records → SomeOrderExplains kind records }
    ensures update { (kind : Kind) → is_decided_by_conditions kind ≡ true → (records : Records) (next : NextOperation)
        → EachLabelIsOfKind kind (operate next ∷ records) → is_update next.op ≡ true
        → SomeOrderExplains kind records → SomeOrderExplains kind (operate next ∷ records) }
    ensures delivery { (kind : Kind) → is_decided_by_conditions kind ≡ true → (records : Records) (to n : ℕ)
        → EachLabelIsOfKind kind records
        → SomeOrderExplains kind (Deliver to n ∷ records) ↔ SomeOrderExplains kind records }
    ensures join { (kind : Kind) → is_decided_by_conditions kind ≡ true → (records : Records) (joined from : ℕ)
        → EachLabelIsOfKind kind records
        → SomeOrderExplains kind (Join joined from ∷ records) ↔ SomeOrderExplains kind records }
    ensures fault { (kind : Kind) (records : Records) (fault : Fault) → is_decided_by_conditions kind ≡ true
        → EachLabelIsOfKind kind records → fault_of kind records ≡ Some fault
        → is_update_at records fault.label ≡ true → SomeOrderExplains kind (records_to records fault.label) }
{}
