//! Theorems about counters, OR-Sets, lists, objects of any type and multi-value registers: all orders that respect
//! visibility and explain the queries lead to the same state, so a violation is final.
ghost use Rattle.std.specs.Prelude.{◌≡◌, ◌↔◌, ℕ, pos, ◌-ℤ◌, true, false, Bool, List, Contains, Some};
ghost use Rattle.ra_labels.specs.declared.kind.Kind.{Kind};
ghost use Rattle.ra_labels.specs.declared.kind.Kind.TheVariants.{Counter, Register, LwwSet, OrSet, Rga};
ghost use Rattle.ra_labels.specs.declared.kind.Kind.TheVariants as kinds;
ghost use Rattle.ra_labels.specs.declared.reply.Fault.{Fault};
ghost use Rattle.ra_labels.specs.Records.{Records, records_to};
ghost use Rattle.ra_labels.specs.Rewriting.{Part, updates_of};
ghost use Rattle.ra_labels.specs.Linearization.{is_visible_to, IsRaLinearizationBy, IsRaLinearization};
ghost use Rattle.ra_labels.specs.Specification.{Number, Pairs, state_after, is_admitted};
ghost use Rattle.ra_labels.specs.Fault.{Holds, fault_of};
ghost use Rattle.ra_labels.specs.TheoremTerms.{admits_all, IdentifiersAreUnique};
ghost use Rattle.ra_theorems.specs.Counters.{increments_in, decrements_in};
ghost use Rattle.ra_theorems.specs.AnyOrder.{is_of_any_order, updates_that_pass, IsOrderOf, IsAddedAndNeverTakenOut, IsFinal};

/// Theorem: `is_of_any_order` holds of counter, OR-Set, list, any type and multi-value register, and of no other kind.
pub fn any_order_kinds()
    ensures counter { is_of_any_order Counter ≡ true }
    ensures register { is_of_any_order Register ≡ false }
    ensures lww_set { is_of_any_order LwwSet ≡ false }
    ensures or_set { is_of_any_order OrSet ≡ true }
    ensures rga { is_of_any_order Rga ≡ false }
    ensures list { is_of_any_order kinds.List ≡ true }
    ensures any { is_of_any_order kinds.Any ≡ true }
    ensures mv_register { is_of_any_order kinds.MvRegister ≡ true }
{}

/// Theorem: if the records hold and are of a kind whose states admit all its updates, as a counter or an OR-Set, the
/// updates of any set of labels, each once, are admitted in any order that respects visibility. They lead a counter to
/// the number of increments minus the number of decrements. If identifiers are unique, they lead an OR-Set to the pairs
/// that are added and that no removal among them names. A list is no such kind: an update that needs an element is not
/// admitted where the set of labels lacks the insertion of this element.
pub fn any_order_same_state()
    ensures admitted { (kind : Kind) (records : Records) (passes : ℕ → Bool) (parts : List Part)
        → admits_all kind ≡ true → Holds kind records → IsOrderOf records passes parts
        → is_admitted kind (updates_of parts) ≡ true }
    ensures counter { (records : Records) (passes : ℕ → Bool) (parts : List Part) → Holds Counter records
        → IsOrderOf records passes parts → state_after Counter (updates_of parts)
        ≡ Some (Number (pos (increments_in (updates_of (updates_that_pass records passes)))
        -ℤ pos (decrements_in (updates_of (updates_that_pass records passes))))) }
    ensures or_set { (records : Records) (passes : ℕ → Bool) (parts : List Part) (pairs : List (ℕ × ℕ)) (x id : ℕ)
        → Holds OrSet records → IdentifiersAreUnique records → IsOrderOf records passes parts
        → state_after OrSet (updates_of parts) ≡ Some (Pairs pairs)
        → Contains pairs (x, id) ↔ IsAddedAndNeverTakenOut x id (updates_of (updates_that_pass records passes)) }
{}

/// Theorem: if identifiers are unique and some sequence linearizes the records of a kind of `is_of_any_order`, even by
/// visibility alone, the named sequence does.
pub fn named_sequence_complete()
    ensures { (kind : Kind) (records : Records) (sequence : List Part) → is_of_any_order kind ≡ true
        → IdentifiersAreUnique records
        → IsRaLinearizationBy (is_visible_to records) kind records sequence → Holds kind records }
{}

/// Theorem: an RA-linearization is also one by visibility alone.
pub fn linearization_by_visibility()
    ensures { (kind : Kind) (records : Records) (sequence : List Part) → IsRaLinearization kind records sequence
        → IsRaLinearizationBy (is_visible_to records) kind records sequence }
{}

/// Theorem: if identifiers are unique, a fault of a kind of `is_of_any_order` is final: no sequence at all linearizes
/// the records up to its label.
pub fn violation_is_final()
    ensures { (kind : Kind) (records : Records) (fault : Fault) → is_of_any_order kind ≡ true
        → IdentifiersAreUnique records → fault_of kind records ≡ Some fault → IsFinal kind records fault.label }
{}

/// Theorem: if a violation is final, no sequence at all is an RA-linearization of the records up to its label.
pub fn final_excludes_linearization()
    ensures { (kind : Kind) (records : Records) (n : ℕ) (sequence : List Part) → IsFinal kind records n
        → ¬ (IsRaLinearization kind (records_to records n) sequence) }
{}
