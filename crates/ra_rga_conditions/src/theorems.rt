//! Theorems about the orders that explain an RGA, each the clause of a function with an empty body.
ghost use Rattle.std.specs.Prelude.{◌≡◌, ◌↔◌, ◌++◌, ℕ, List, Contains};
ghost use Rattle.ra_labels.specs.declared.kind.Kind.TheVariants.{Rga};
ghost use Rattle.ra_labels.specs.Edges.{IsBefore};
ghost use Rattle.ra_labels.specs.Records.{Records};
ghost use Rattle.ra_labels.specs.Rewriting.{Part};
ghost use Rattle.ra_labels.specs.Linearization.{is_visible_to, IsRaLinearizationBy, IsRaLinearization};
ghost use Rattle.ra_theorems.specs.AnyOrder.{NoneLinearizes};
ghost use Rattle.ra_precedence.specs.Conditions.{Condition, IsStuck};
ghost use Rattle.ra_some_order.specs.SomeOrder.{SomeOrderExplains, EachLabelIsOfKind, update_order};
ghost use Rattle.ra_some_order.specs.UpdateConditions.{IsOrderOfUpdates};
ghost use Rattle.ra_some_order.specs.LabelOrders.{IsOrderOfLabels, OrderExplains};
ghost use Rattle.ra_rga_conditions.specs.Precedence.{Inserts, MustStandBefore};
ghost use Rattle.ra_rga_conditions.specs.Plain.{HasWhatItNeeds, MeetsPlainConditions};

/// Theorem: if a sequence linearizes the records, even by visibility alone, its updates keep the precedence of the
/// records, and no two labels insert one element.
pub fn linearization_keeps_precedence()
    ensures precedence { (records : Records) (sequence : List Part) (m n : ℕ)
        → IsRaLinearizationBy (is_visible_to records) Rga records sequence → MustStandBefore records m n
        → IsBefore (update_order sequence) m n }
    ensures once { (records : Records) (sequence : List Part) (m n x : ℕ)
        → IsRaLinearizationBy (is_visible_to records) Rga records sequence → Inserts records m x
        → Inserts records n x → m ≡ n }
{}

/// Theorem: if a sequence linearizes the records, even by visibility alone, the plain conditions hold.
pub fn linearization_meets_plain_conditions()
    ensures { (records : Records) (sequence : List Part) → EachLabelIsOfKind Rga records
        → IsRaLinearizationBy (is_visible_to records) Rga records sequence → MeetsPlainConditions records }
{}

/// Theorem: so if conditions require nothing but precedence, a set that is stuck for them rules out each sequence, even
/// by visibility alone. With one label on either side of each condition, a stuck set is one with a cycle.
pub fn stuck_set_is_final()
    ensures { (records : Records) (conditions : List Condition) (set : List ℕ)
        → ((condition : Condition) (b : ℕ) → Contains conditions condition → Contains condition.before b
        → (c : ℕ) × Contains condition.after c × MustStandBefore records b c)
        → IsStuck conditions set → NoneLinearizes Rga records }
{}

/// Theorem: if all labels are of the kind, each element that a label of the records needs is inserted among them, and
/// no sequence linearizes them, not even by visibility alone, then no sequence linearizes later records.
pub fn no_order_persists()
    ensures { (later records : Records) → EachLabelIsOfKind Rga (later ++ records) → HasWhatItNeeds records
        → NoneLinearizes Rga records → NoneLinearizes Rga (later ++ records) }
{}

/// Theorem: if all labels are of the kind, the plain conditions hold and an order of the updates keeps the precedence,
/// a sequence with the updates in this order is an RA-linearization.
pub fn order_explains()
    ensures { (records : Records) (order : List ℕ) → EachLabelIsOfKind Rga records → MeetsPlainConditions records
        → IsOrderOfUpdates records order → ((m n : ℕ) → MustStandBefore records m n → IsBefore order m n)
        → (sequence : List Part) × IsRaLinearization Rga records sequence × (update_order sequence ≡ order) }
{}

/// Theorem: if all labels are of the kind and the plain conditions hold, an order of all labels that keeps the
/// precedence is that of an RA-linearization. Each label has to come after the updates that it sees and the earlier
/// labels of its replica.
pub fn label_order_explains()
    ensures { (records : Records) (order : List ℕ) → EachLabelIsOfKind Rga records → MeetsPlainConditions records
        → IsOrderOfLabels records order → ((m n : ℕ) → MustStandBefore records m n → IsBefore order m n)
        → OrderExplains Rga records order }
{}

/// Theorem: so an order explains the records exactly if the plain conditions hold, it has each label once, after the
/// updates that it sees and the earlier labels of its replica, and it keeps the precedence.
pub fn label_order_iff()
    ensures { (records : Records) (order : List ℕ) → EachLabelIsOfKind Rga records → OrderExplains Rga records order
        ↔ (MeetsPlainConditions records × IsOrderOfLabels records order
        × ((m n : ℕ) → MustStandBefore records m n → IsBefore order m n)) }
{}

/// Theorem: so some sequence explains the records exactly if the plain conditions hold and some order of the updates
/// keeps the precedence.
pub fn some_order_iff()
    ensures { (records : Records) → EachLabelIsOfKind Rga records → SomeOrderExplains Rga records
        ↔ (MeetsPlainConditions records × ((order : List ℕ) × IsOrderOfUpdates records order
        × ((m n : ℕ) → MustStandBefore records m n → IsBefore order m n))) }
{}
