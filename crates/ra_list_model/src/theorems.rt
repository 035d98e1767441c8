//! The theorems about the two specifications of a list, each the clause of a function with an empty body.
ghost use Rattle.std.specs.Prelude.{◌≡◌, ◌↔◌, ℕ, Bool, true, List, ◌∷◌, ◌++◌, Option, Some, Contains};
ghost use Rattle.std.specs.List.Sorted.{IsPermutation};
ghost use Rattle.ra_labels.specs.Lists.{is_among};
ghost use Rattle.ra_labels.specs.Edges.{Extends};
ghost use Rattle.ra_labels.specs.declared.list_operation.ListUpdate.{ListUpdate};
ghost use Rattle.ra_labels.specs.declared.list_operation.ListUpdate.TheVariants.{Hide};
ghost use Rattle.ra_labels.specs.declared.list_operation.ListQuery.{ListQuery};
ghost use Rattle.ra_labels.specs.declared.list_operation.ListQuery.TheVariants.{Read};
ghost use Rattle.ra_labels.specs.ListOperations.{edges_of_update, edges_of_query, edges_of_updates};
ghost use Rattle.ra_labels.specs.FreeList.{ListState, list_step, list_answers, list_state_after};
ghost use Rattle.ra_list_model.specs.Ordered.{list_step_at, list_state_at, list_answers_at, IsOrderFor};
ghost use Rattle.ra_list_model.specs.Kept.{Puts, Needs, KeepsWhatIsNeeded, kept_by, updates_in};

/// Theorem: the specification for an order admits an update exactly if the free one does and the order extends the
/// update's edges. Both lead to the same state.
pub fn order_decides_update()
    ensures { (order : List ℕ) (state next : ListState) (update : ListUpdate) (label : ℕ)
        → (list_step_at order state update ≡ Some next)
        ↔ ((list_step state update ≡ Some next) × Extends order (edges_of_update label update)) }
{}

/// Theorem: the specification for an order admits updates one after another exactly if the free one does and the order
/// extends the edges of all of them. Both lead to the same state.
pub fn order_decides_updates()
    ensures { (order : List ℕ) (numbered : List (ℕ × ListUpdate)) (state : ListState)
        → (list_state_at order (updates_in numbered) ≡ Some state)
        ↔ ((list_state_after (updates_in numbered) ≡ Some state) × Extends order (edges_of_updates numbered)) }
{}

/// Theorem: the specification for an order answers a query exactly if the free one does and the order extends the
/// query's edges.
pub fn order_decides_query()
    ensures { (order : List ℕ) (state : ListState) (query : ListQuery) (label : ℕ) → IsOrderFor order state
        → (list_answers_at order state query ≡ true)
        ↔ ((list_answers state query ≡ true) × Extends order (edges_of_query label query)) }
{}

/// Theorem: for one order, a state has one right read. So replicas that have the same updates read the same list.
pub fn one_read_of_each_state()
    ensures { (order : List ℕ) (state : ListState) (first second : List ℕ) → list_answers_at order state (Read first)
        ≡ true → list_answers_at order state (Read second) ≡ true → first ≡ second }
{}

/// Theorem: after admitted updates the inserted elements are those that an update inserts, and the removed ones those
/// that an update hides.
pub fn state_has_what_updates_did()
    ensures inserted { (updates : List ListUpdate) (state : ListState) (x : ℕ) → list_state_after updates ≡ Some state
        → (is_among x state.inserted ≡ true) ↔ Puts x updates }
    ensures removed { (updates : List ListUpdate) (state : ListState) (x : ℕ) → list_state_after updates ≡ Some state
        → (is_among x state.removed ≡ true) ↔ Contains updates (Hide x) }
{}

/// Theorem: of admitted updates, some are admitted alone, in the same order, if they have the insertion of each element
/// that they need. So what a replica has is admitted, since deliveries are causal.
pub fn kept_updates_are_admitted()
    ensures { (numbered : List (ℕ × ListUpdate)) (keep : ℕ → Bool) (state : ListState)
        → list_state_after (updates_in numbered) ≡ Some state → KeepsWhatIsNeeded keep numbered
        → (kept : ListState) × (list_state_after (updates_in (kept_by keep numbered)) ≡ Some kept) }
{}

/// Theorem: admitted updates that are the same ones, in any order, lead to the same state.
pub fn same_updates_same_state()
    ensures { (updates others : List ListUpdate) (state other : ListState) → list_state_after updates ≡ Some state
        → list_state_after others ≡ Some other → ((u : ListUpdate) → Contains updates u ↔ Contains others u)
        → state ≡ other }
{}

/// Theorem: a late update has the effect of the last one: the updates with it lead to the state to which it leads after
/// all others.
pub fn late_update_is_the_last()
    ensures { (first later : List ListUpdate) (update : ListUpdate) (state kept : ListState)
        → list_state_after (first ++ update ∷ later) ≡ Some state → list_state_after (first ++ later) ≡ Some kept
        → list_step kept update ≡ Some state }
{}

/// Theorem: admitted updates are admitted in any other order in which each element that an update needs is inserted
/// before it.
pub fn admitted_in_another_order()
    ensures { (updates others : List ListUpdate) (state : ListState) → list_state_after updates ≡ Some state
        → IsPermutation updates others
        → ((before behind : List ListUpdate) (update : ListUpdate) (x : ℕ) → others ≡ before ++ update ∷ behind
        → Needs update x → Puts x before)
        → (other : ListState) × (list_state_after others ≡ Some other) }
{}
