//! Theorems about the sequential specification.
ghost use Rattle.std.specs.Prelude.{◌≡◌, ◌↔◌, true, false, ℕ, ℤ, pos, neg_ℤ, ◌-ℤ◌, ◌≤ℤ◌, List, [], ◌∷◌, ◌++◌, length, Contains, Option, Some, None, option_and_then};
ghost use Rattle.std.specs.List.{list_all};
ghost use Rattle.ra_labels.specs.declared.kind.Kind.{Kind};
ghost use Rattle.ra_labels.specs.declared.kind.Kind.TheVariants as kind;
ghost use Rattle.ra_labels.specs.declared.operation.Op.{Op};
ghost use Rattle.ra_labels.specs.declared.operation.Update.{Update};
ghost use Rattle.ra_labels.specs.declared.operation.Update.TheVariants.{Write, LwwAdd, LwwRemove};
ghost use Rattle.ra_labels.specs.declared.operation.Query.{Query};
ghost use Rattle.ra_labels.specs.declared.operation.Query.TheVariants as query;
ghost use Rattle.ra_labels.specs.Specification.{State, Number, Written, Members, initial_state, step_of, answers, state_after, is_admitted};
ghost use Rattle.ra_labels.specs.Lists.{rises};
ghost use Rattle.ra_labels.specs.Rewriting.{acts_of};
ghost use Rattle.ra_labels.specs.Answer.{kind_of, is_kind};
ghost use Rattle.ra_theorems.specs.Counters.{increments_in, decrements_in};
ghost use Rattle.ra_labels.specs.TheoremTerms.{kind_of_state, kind_of_update, kind_of_query, kind_of_act, NoneActsOn, admits_all};

/// Theorem: the state before any update is the initial state.
pub fn state_after_nil()
    ensures { (kind : Kind) → state_after kind [] ≡ Some (initial_state kind) }
{}

/// Theorem: one more update is one more step.
pub fn state_after_snoc()
    ensures { (kind : Kind) (updates : List Update) (update : Update) → state_after kind (updates ++ update ∷ [])
        ≡ option_and_then (λ state. step_of state update) (state_after kind updates) }
{}

/// Theorem: updates preserve the kind of the state.
pub fn state_kind()
    ensures { (kind : Kind) (updates : List Update) (state : State) → state_after kind updates ≡ Some state
        → kind_of_state state ≡ kind }
{}

/// Theorem: admitted updates belong to the kind. For the kinds of `admits_all`, all updates of the kind are
/// admitted.
pub fn kind_updates_admitted()
    ensures only { (kind : Kind) (updates : List Update) → is_admitted kind updates ≡ true
        → list_all (λ update. is_kind kind (kind_of_update update)) updates ≡ true }
    ensures exactly { (kind : Kind) (updates : List Update) → admits_all kind ≡ true
        → is_admitted kind updates ≡ list_all (λ update. is_kind kind (kind_of_update update)) updates }
{}

/// Theorem: a query of another kind than the state's is not answered.
pub fn other_kind_query_rejected()
    ensures { (state : State) (query : Query) → is_kind (kind_of_state state) (kind_of_query query) ≡ false
        → answers state query ≡ false }
{}

/// Theorem: the parts of an operation belong to its kind.
pub fn part_kind()
    ensures { (op : Op) → list_all (λ act. is_kind (kind_of op) (kind_of_act act.1)) (acts_of op) ≡ true }
{}

/// Theorem: a counter's state is the number of increments minus the number of decrements.
pub fn counter_value()
    ensures { (updates : List Update) (state : State) → state_after kind.Counter updates ≡ Some state
        → state ≡ Number (pos (increments_in updates) -ℤ pos (decrements_in updates)) }
{}

/// Theorem: the absolute value of a counter's number is at most the count of its updates.
pub fn counter_bounded_by_updates()
    ensures { (updates : List Update) (state : State) → state_after kind.Counter updates ≡ Some state
        → (number : ℤ) × (state ≡ Number number)
        × (neg_ℤ (pos (length updates)) ≤ℤ number) × (number ≤ℤ pos (length updates)) }
{}

/// Theorem: a counter's query is answered exactly if its number is the state's.
pub fn counter_read_answer()
    ensures { (number asked : ℤ) → (answers (Number number) (query.Count asked) ≡ true) ↔ (asked ≡ number) }
{}

/// Theorem: a register has no value before any update, and after admitted updates and a write it has the written value.
pub fn register_value()
    ensures none { state_after kind.Register [] ≡ Some (Written None) }
    ensures last { (updates : List Update) (value : ℕ) → is_admitted kind.Register updates ≡ true
        → state_after kind.Register (updates ++ Write value ∷ []) ≡ Some (Written (Some value)) }
{}

/// Theorem: a register's query is answered exactly if its value is the state's, or both are `None`.
pub fn register_read_answer()
    ensures { (last asked : Option ℕ) → (answers (Written last) (query.Last asked) ≡ true) ↔ (asked ≡ last) }
{}

/// Theorem: an LWW set has an element if the last update on it added it, and not if that removed it or there is none.
/// The elements are strictly increasing.
pub fn lww_set_contents()
    ensures added { (first later : List Update) (x : ℕ) (xs : List ℕ) → NoneActsOn x later
        → state_after kind.LwwSet (first ++ LwwAdd x ∷ later) ≡ Some (Members xs) → Contains xs x }
    ensures removed { (first later : List Update) (x : ℕ) (xs : List ℕ) → NoneActsOn x later
        → state_after kind.LwwSet (first ++ LwwRemove x ∷ later) ≡ Some (Members xs) → ¬ Contains xs x }
    ensures never { (updates : List Update) (x : ℕ) (xs : List ℕ) → NoneActsOn x updates
        → state_after kind.LwwSet updates ≡ Some (Members xs) → ¬ Contains xs x }
    ensures rises { (updates : List Update) (xs : List ℕ) → state_after kind.LwwSet updates ≡ Some (Members xs)
        → rises xs ≡ true }
{}

/// Theorem: a query of an LWW set is answered exactly if it lists the state's elements.
pub fn lww_set_read_answer()
    ensures { (xs asked : List ℕ) → (answers (Members xs) (query.LwwRead asked) ≡ true)
        ↔ ((x : ℕ) → Contains asked x ↔ Contains xs x) }
{}
