//! The theorems about a log with a fault, each the clause of a function with an empty body.
ghost use Rattle.std.specs.Prelude.{◌≡◌, ℕ, ℤ, Bool, true, false, not, ◌&&◌, List, ◌∷◌, Option, Some, None};
ghost use Rattle.ra_labels.specs.declared.kind.Kind.{Kind};
ghost use Rattle.ra_labels.specs.declared.operation.Op.TheVariants as op;
ghost use Rattle.ra_labels.specs.declared.list_operation.ListOp.TheVariants as list;
ghost use Rattle.ra_labels.specs.declared.list_operation.ListQuery.TheVariants as question;
ghost use Rattle.ra_labels.specs.FreeList.{ListState, list_answers, shown_in};
ghost use Rattle.ra_labels.specs.declared.reply.Fault.{Fault};
ghost use Rattle.ra_labels.specs.Lists.{is_among, identifiers_of, shown};
ghost use Rattle.ra_labels.specs.Records.{Records, label_count};
ghost use Rattle.ra_labels.specs.Visibility.{has_delivered, sees, IsCausal};
ghost use Rattle.ra_labels.specs.NamedOrder.{named_labels};
ghost use Rattle.ra_labels.specs.Fault.{fault_of};
ghost use Rattle.ra_explain.specs.LastDeliveries.{without, labels_got_last};
ghost use Rattle.ra_labels.specs.Specification.{Number, Written, Members, Pairs, Listed, Listing};
ghost use Rattle.ra_seqspec.specs.Pairs.{distinct_elements};
ghost use Rattle.ra_monitor.specs.declared.setup.Setup.{Setup};
ghost use Rattle.ra_monitor.specs.Monitor.{MonitorEntry, records_of, fault_in, IsLegalLog};
ghost use Rattle.ra_explain.specs.Places.{places_in, command_at};
ghost use Rattle.ra_explain.specs.Expected.{expected_in};
ghost use Rattle.ra_labels.specs.Answer.{refusal_of};
ghost use Rattle.ra_labels.specs.HistorySoFar.{NextOperation, operate};
ghost use Rattle.ra_explain.specs.declared.changes.Change.{Change};
ghost use Rattle.ra_explain.specs.Changes.{command_holds_with, records_with};

/// Theorem: the records of a log with a fault end with the fault's label, and the records before it have no fault. So
/// nothing is accepted after the first violation.
pub fn records_end_at_fault()
    ensures { (setup : Setup) (log : List MonitorEntry) (fault : Fault) → fault_in setup log ≡ Some fault
        → (before : Records) × (last : NextOperation) × (records_of setup log ≡ operate last ∷ before)
        × (fault.label ≡ label_count before) × (fault_of setup.kind before ≡ None) }
{}

/// Theorem: in a legal log with a fault, the index of the fault's label is that of its command.
pub fn fault_label_found()
    ensures { (setup : Setup) (log : List MonitorEntry) (fault : Fault) (before : Records) (last : NextOperation)
        → IsLegalLog setup log → fault_in setup log ≡ Some fault → records_of setup log ≡ operate last ∷ before
        → command_at log (places_in log) fault.label ≡ Some (operate last) }
{}

/// Theorem: the expected answer in a state is what the specification reads there. It is a counter's number, the value
/// of the last write, the elements of a set, the identifiers of an element, or the visible elements of an RGA. For a
/// list it is what it shows, in increasing order, in place of a read that leaves out, adds or repeats an element.
pub fn expected_result()
    ensures counter { (number told : ℤ) → expected_in (Number number) (op.Count told) ≡ Some (op.Count number) }
    ensures register { (last told : Option ℕ) → expected_in (Written last) (op.Last told) ≡ Some (op.Last last) }
    ensures lww_set { (xs told : List ℕ) → expected_in (Members xs) (op.LwwRead told) ≡ Some (op.LwwRead xs) }
    ensures identifiers { (pairs : List (ℕ × ℕ)) (x : ℕ) (told : List ℕ)
        → expected_in (Pairs pairs) (op.OrRemove x told) ≡ Some (op.OrRemove x (identifiers_of x pairs)) }
    ensures or_set { (pairs : List (ℕ × ℕ)) (told : List ℕ)
        → expected_in (Pairs pairs) (op.OrRead told) ≡ Some (op.OrRead (distinct_elements pairs)) }
    ensures rga { (list : List (ℕ × Bool)) (told : List ℕ)
        → expected_in (Listed list) (op.RgaRead told) ≡ Some (op.RgaRead (shown list)) }
    ensures list { (state : ListState) (told : List ℕ) → list_answers state (question.Read told) ≡ false
        → expected_in (Listing state) (op.List (list.Read told)) ≡ Some (op.List (list.Read (shown_in state))) }
{}

/// Theorem: with a change that helps, the label is accepted, and the records up to it have no fault.
pub fn helpful_change_makes_label_hold()
    ensures { (setup : Setup) (before : List MonitorEntry) (change : Change) (next : NextOperation)
        → command_holds_with setup before change (operate next) ≡ true
        → let records = records_with setup change next.by before in
        (refusal_of setup.kind setup.replicas records (operate next) ≡ None)
        × (fault_of setup.kind (operate next ∷ records) ≡ None) }
{}

/// Theorem: the latest deliveries to a replica matter to it alone. They are those since its last label and the last
/// join to or from it. Without some of them, the other replicas have the same, and the labels see the same and stand in
/// the same order. The first fault is the same, and in causal records the replica keeps everything else.
pub fn last_deliveries_affect_only_receiver()
    ensures others { (by : ℕ) (left : ℕ → Bool) (records : Records) (replica n : ℕ) → ¬ (replica ≡ by)
        → has_delivered (without by left records) replica n ≡ has_delivered records replica n }
    ensures sight { (by : ℕ) (left : ℕ → Bool) (records : Records) (n m : ℕ)
        → sees (without by left records) n m ≡ sees records n m }
    ensures order { (kind : Kind) (by : ℕ) (left : ℕ → Bool) (records : Records)
        → named_labels kind (without by left records) ≡ named_labels kind records }
    ensures fault { (kind : Kind) (by : ℕ) (left : ℕ → Bool) (records : Records)
        → fault_of kind (without by left records) ≡ fault_of kind records }
    ensures own { (by : ℕ) (left : ℕ → Bool) (records : Records) (n : ℕ) → IsCausal records
        → has_delivered (without by left records) by n
        ≡ (has_delivered records by n && not (left n && is_among n (labels_got_last by records))) }
{}
