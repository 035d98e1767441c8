//! The elements that the next read of an LWW set can list.
ghost use Rattle.std.specs.Prelude.{◌≡◌, ◌<◌, ℕ, List, [], true, take, Contains, IfOk};
ghost use Rattle.ra_labels.specs.HistorySoFar.{History};
ghost use Rattle.ra_labels.specs.Lists.{rises};
ghost use Rattle.ra_labels.specs.Records.{label_count};
ghost use Rattle.ra_labels.specs.declared.kind.Kind.TheVariants.{LwwSet};
ghost use Rattle.ra_some_order.specs.SomeOrder.{SomeOrderExplains, EachLabelIsOfKind};
ghost use Rattle.ra_visibility.specs.Tracked.{labels_in, replicas_in};
ghost use Rattle.ra_any_order.specs.NextRead.{IsReadNext, AreListedIn};
ghost use Rattle.ra_any_order.specs.PossibleElements.{IsPossibleList, IsInEach, IsInNone, IsInSomeOnly, IsContested, AreAskedAbout, IsFoundOf, OfEachExplained};
ghost use Rattle.ra_any_order.specs.Requirements.{AreConditionsBelow, NameBelow};
ghost use Rattle.ra_any_order.specs.Situation.{operations_in};

use crate::conditions::{Found, conditions_of};
use crate::next_read::{label_before, with_order};
use crate::seen_updates::SeenUpdates;
use crate::standings::{choose, sort_elements};
use ra_labels::{NoMemory, Op};
use ra_precedence::{Condition, Solver};
use ra_visibility::{MOST_LABELS, Tracker, newest_updates};
use std::alloc::Global;

/// The largest number of elements about which `possible_elements` asks the solver.
pub const MOST_ASKED: usize = 16;

/// What the next read of a replica of an LWW set can list.
#[derive(Drop)]
pub struct PossibleElements {
    /// The elements that the read lists in each order, increasing.
    pub listed: Vec<u32>,
    /// The elements that the read lists in some order and does not list in another one, increasing.
    pub undecided: Vec<u32>,
    /// Elements with additions and removals among their newest visible updates about which the solver was not asked,
    /// increasing.
    pub unasked: Vec<u32>,
}

/// Returns the answer without elements. Does not allocate.
pub fn no_elements(alloc: Global) -> PossibleElements
    ensures { (result.listed.items ≡ []) × (result.undecided.items ≡ []) × (result.unasked.items ≡ []) }
{
    PossibleElements {
        listed: Vec::new(alloc),
        undecided: Vec::new(alloc),
        unasked: Vec::new(alloc),
    }
}

/// Returns which elements the next read of a replica of an LWW set lists in each order that explains the records and
/// the read, and which ones it lists in some order only. The tracker represents the visibility of the records, and the
/// operations are those of the labels, by number.
///
/// The solver is asked only about elements that have additions and removals among their newest visible updates. If more
/// than `MOST_ASKED` have both, it is asked about `MOST_ASKED` of them. These include those that are among the first
/// `MOST_ASKED` elements of `first`.
///
/// # Errors
///
/// `NoMemory` if allocation fails, or if there are `MOST_LABELS` labels.
///
/// # Complexity
///
/// That of `some_order`, and O((e + f) · r · log n) for `e` elements that were added or removed and `f` elements of
/// `first`. There are `MOST_ASKED` questions at most, each of which takes O(n), with `n` the number of labels and
/// conditions.
pub fn possible_elements(
    alloc: Global,
    tracker: Tracker,
    operations: &[&Op],
    replica: u8,
    first: &[u32],
) -> Result<PossibleElements, NoMemory>
    // The replica exists.
    requires { replica < replicas_in tracker.now }
    // If some order explains the history, some list is possible: some order explains the history and a read of it.
    ensures some { IfOk result (λ found. OfEachExplained tracker.now (operations_in operations.now) (λ records.
        (list : List ℕ) × IsPossibleList records replica list)) }
    // Each possible list has each listed element.
    ensures listed { IfOk result (λ found. OfEachExplained tracker.now (operations_in operations.now) (λ records.
        (x : ℕ) → Contains found.listed.items x → IsInEach records replica x)) }
    // Of each undecided element, some possible list has it, and some possible list has not.
    ensures undecided { IfOk result (λ found. OfEachExplained tracker.now (operations_in operations.now) (λ records.
        (x : ℕ) → Contains found.undecided.items x → IsInSomeOnly records replica x)) }
    // No possible list has an element that is in none of the three lists.
    ensures others { IfOk result (λ found. OfEachExplained tracker.now (operations_in operations.now) (λ records.
        (x : ℕ) → ¬ Contains found.listed.items x → ¬ Contains found.undecided.items x
        → ¬ Contains found.unasked.items x → IsInNone records replica x)) }
    // Each element about which the solver was not asked has additions and removals among its newest visible updates.
    ensures contested { IfOk result (λ found. OfEachExplained tracker.now (operations_in operations.now) (λ records.
        (x : ℕ) → Contains found.unasked.items x → IsContested records replica x)) }
    // If there is such an element, the solver was asked about `MOST_ASKED` others that have both.
    ensures full { IfOk result (λ found. OfEachExplained tracker.now (operations_in operations.now) (λ records.
        (x : ℕ) → Contains found.unasked.items x
        → AreAskedAbout MOST_ASKED records replica found.unasked.items)) }
    // None of the first `MOST_ASKED` elements of `first` is such an element.
    ensures first { IfOk result (λ found. (x : ℕ) → Contains (take MOST_ASKED first.now) x
        → ¬ Contains found.unasked.items x) }
    // Each list increases strictly.
    ensures rising { IfOk result (λ found. (rises found.listed.items ≡ true) × (rises found.undecided.items ≡ true)
        × (rises found.unasked.items ≡ true)) }
{
    let mut tracker = tracker;
    if tracker.labels() >= MOST_LABELS {
        return Err(NoMemory);
    }
    let Found::Conditions(conditions) = conditions_of(alloc, &tracker, operations)? else {
        return Ok(no_elements(alloc));
    };
    let read = tracker.issue(replica, false)?;
    let found = elements_at(alloc, &tracker, operations, conditions, read, first)?;
    Ok(found)
}

// Returns which elements the last label, a read, can list. The conditions are those of the labels before it.
fn elements_at(
    alloc: Global,
    tracker: &Tracker,
    operations: &[&Op],
    conditions: Vec<Condition>,
    read: u32,
    first: &[u32],
) -> Result<PossibleElements, NoMemory>
    requires read { read < labels_in tracker.now.now }
    requires named { NameBelow read conditions.items }
    ensures found { IfOk result (λ found. (past : History) (replica : ℕ) → label_count past.records ≡ read
        → EachLabelIsOfKind LwwSet past.records → IsReadNext tracker.now.now past replica
        → AreListedIn (operations_in operations.now) past.records
        → AreConditionsBelow past.records read conditions.items → SomeOrderExplains LwwSet past.records
        → IsFoundOf past.records replica found) }
    ensures first { IfOk result (λ found. (x : ℕ) → Contains (take MOST_ASKED first.now) x
        → ¬ Contains found.unasked.items x) }
    ensures rising { IfOk result (λ found. (rises found.listed.items ≡ true) × (rises found.undecided.items ≡ true)
        × (rises found.unasked.items ≡ true)) }
{
    let newest = newest_updates(alloc, tracker, read)?;
    let previous = label_before(alloc, tracker, read)?;
    let conditions = with_order(alloc, conditions, &newest, previous, read)?;
    let seen = SeenUpdates::of_label(alloc, tracker, operations, read)?;
    let mut solver = Solver::new(alloc, tracker.labels(), conditions)?;
    let asked = choose(alloc, operations, &seen, first)?;
    let found = sort_elements(alloc, operations, &mut solver, &seen, &asked)?;
    Ok(found)
}
