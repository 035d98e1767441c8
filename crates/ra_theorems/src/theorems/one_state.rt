//! Theorems about the kinds whose sequential specification has one state: an object of any type, and a multi-value
//! register.
ghost use Rattle.std.specs.Prelude.{◌≡◌, ◌↔◌, true, None};
ghost use Rattle.ra_labels.specs.declared.kind.Kind.{Kind};
ghost use Rattle.ra_labels.specs.Records.{Records};
ghost use Rattle.ra_labels.specs.Explained.{is_explained};
ghost use Rattle.ra_labels.specs.Fault.{Holds, sequence_cause, fault_of};
ghost use Rattle.ra_theorems.specs.OneState.{HasOneState, EachLabelIsOf};

/// Theorem: the one state admits all updates of its kind and answers all queries. So if each label is of the kind, the
/// named sequence meets each condition.
pub fn one_state_meets_conditions()
    ensures { (kind : Kind) (records : Records) → HasOneState kind → EachLabelIsOf kind records
        → sequence_cause kind records ≡ None }
{}

/// Theorem: so such records hold exactly if they meet the condition of their kind: reads that see the same updates
/// agree, or each read returns the values of the siblings. If they do, no earlier records have a fault.
pub fn condition_decides()
    ensures holds { (kind : Kind) (records : Records) → HasOneState kind → EachLabelIsOf kind records
        → Holds kind records ↔ (is_explained kind records ≡ true) }
    ensures fault { (kind : Kind) (records : Records) → HasOneState kind → EachLabelIsOf kind records
        → (fault_of kind records ≡ None) ↔ (is_explained kind records ≡ true) }
{}
