//! The theorems about stuck sets, as the clauses of functions with empty bodies.
ghost use Rattle.std.specs.Prelude.{ℕ, ◌<◌, List, Contains, length, map};
ghost use Rattle.ra_labels.specs.Edges.{EachOnce};
ghost use Rattle.ra_precedence.specs.declared.reasons.Held.{Held};
ghost use Rattle.ra_precedence.specs.Conditions.{Condition, MeetsAll, IsStuck};
ghost use Rattle.ra_precedence.specs.Reasons.{AreReasons};

/// Theorem: if a set is stuck, no order that has each of its labels, and no label twice, meets the conditions.
pub fn no_order_meets_stuck()
    ensures { (conditions : List Condition) (set order : List ℕ) → IsStuck conditions set → EachOnce order
        → ((b : ℕ) → Contains set b → Contains order b) → ¬ (MeetsAll order conditions) }
{}

/// Theorem: if there are reasons, their labels form a stuck set. So valid reasons show that no order meets the
/// conditions, however they were found.
pub fn reasons_show_stuck()
    ensures { (conditions : List Condition) (reasons : List Held) → AreReasons conditions reasons → 0 < length reasons
        → IsStuck conditions (map (λ held. held.label) reasons) }
{}
