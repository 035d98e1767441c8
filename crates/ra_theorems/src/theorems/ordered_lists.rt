//! Theorems about the records of a list: a verdict says whether some order of all elements explains them.
ghost use Rattle.std.specs.Prelude.{◌≡◌, ◌↔◌, ℕ, ◌<◌, Bool, List, Contains, Some, None};
ghost use Rattle.ra_labels.specs.declared.kind.Kind.TheVariants as kinds;
ghost use Rattle.ra_labels.specs.declared.label.Label.{Label};
ghost use Rattle.ra_labels.specs.declared.operation.Op.TheVariants as op;
ghost use Rattle.ra_labels.specs.declared.list_operation.ListOp.TheVariants as list;
ghost use Rattle.ra_labels.specs.declared.reply.Fault.{Fault};
ghost use Rattle.ra_labels.specs.Edges.{Extends};
ghost use Rattle.ra_labels.specs.ListHistory.{required_edges};
ghost use Rattle.ra_labels.specs.Records.{Records, label_count, labels_of, records_to};
ghost use Rattle.ra_labels.specs.Visibility.{sees};
ghost use Rattle.ra_labels.specs.Rewriting.{Part};
ghost use Rattle.ra_labels.specs.Linearization.{must_precede, is_visible_to, IsRaLinearizationBy};
ghost use Rattle.ra_labels.specs.NamedOrder.{named_sequence};
ghost use Rattle.ra_labels.specs.Fault.{Holds, fault_of};
ghost use Rattle.ra_theorems.specs.AnyOrder.{IsFinal};
ghost use Rattle.ra_theorems.specs.OrderedLists.{IsOrderOfElements, IsListLinearization, NoOrderLinearizes};

/// Theorem: let an order have each element once, and all that the records insert. A sequence is an RA-linearization for
/// this order exactly if it is an RA-linearization of the records and the order extends the edges that their labels
/// require.
pub fn order_decides_linearization()
    ensures { (order : List ℕ) (precedes : Part → Part → Bool) (records : Records) (sequence : List Part)
        → IsOrderOfElements order records → IsListLinearization order precedes records sequence
        ↔ (IsRaLinearizationBy precedes kinds.List records sequence × Extends order (required_edges records)) }
{}

/// Theorem: a sequence is an RA-linearization of the records of a list exactly if it is one for some order of their
/// elements.
pub fn linearization_iff_some_order()
    ensures { (precedes : Part → Part → Bool) (records : Records) (sequence : List Part)
        → IsRaLinearizationBy precedes kinds.List records sequence
        ↔ ((order : List ℕ) × IsListLinearization order precedes records sequence) }
{}

/// Theorem: the records of a list hold exactly if the named sequence is an RA-linearization for some order of their
/// elements, and exactly if any sequence is one for some order, even by visibility alone.
pub fn list_holds_iff_some_order()
    ensures named { (records : Records) → Holds kinds.List records
        ↔ ((order : List ℕ)
        × IsListLinearization order (must_precede records) records (named_sequence kinds.List records)) }
    ensures any { (records : Records) → Holds kinds.List records
        ↔ ((order : List ℕ) × (sequence : List Part)
        × IsListLinearization order (is_visible_to records) records sequence) }
{}

/// Theorem: the records of a list have no fault exactly if there is one order of the elements for which, at each label,
/// the named sequence of the records up to it is an RA-linearization.
pub fn no_fault_iff_one_order()
    ensures { (records : Records) → (fault_of kinds.List records ≡ None)
        ↔ ((order : List ℕ) × ((n : ℕ) → n < label_count records
        → IsListLinearization order (must_precede (records_to records n)) (records_to records n)
        (named_sequence kinds.List (records_to records n)))) }
{}

/// Theorem: if the records of a list have a fault, no sequence is an RA-linearization of the records up to its label
/// for any order of the elements, not even by visibility alone. For each label, no sequence linearizes the records up
/// to it exactly if none does for any order.
pub fn list_violation_excludes_orders()
    ensures fault { (records : Records) (fault : Fault) → fault_of kinds.List records ≡ Some fault
        → NoOrderLinearizes (records_to records fault.label) }
    ensures finality { (records : Records) (n : ℕ) → IsFinal kinds.List records n
        ↔ NoOrderLinearizes (records_to records n) }
{}

/// Theorem: if the records of a list hold, two reads that see the same updates return the same list.
pub fn same_updates_same_read()
    ensures { (records : Records) (read other : Label) (first second : List ℕ) → Holds kinds.List records
        → Contains (labels_of records) read → Contains (labels_of records) other
        → read.op ≡ op.List (list.Read first) → other.op ≡ op.List (list.Read second)
        → ((n : ℕ) → sees records read.number n ≡ sees records other.number n) → first ≡ second }
{}
