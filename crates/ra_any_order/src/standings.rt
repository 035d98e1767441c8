//! Whether each element of an LWW set is listed by a read: in each order, in some order only, or in none.
ghost use Rattle.std.specs.Prelude.{◌≡◌, ◌<◌, ◌⊎◌, ℕ, true, take, Contains, IfOk, OnOk};
ghost use Rattle.std.specs.BTreeSet.{contains, btree_set_len};
ghost use Rattle.std.specs.Ordering.{nat_cmp};
ghost use Rattle.ra_labels.specs.Lists.{rises};
ghost use Rattle.ra_precedence.specs.Lasts.{IsReady, count_of};
ghost use Rattle.ra_any_order.specs.Situation.{operations_in};
ghost use Rattle.ra_any_order.specs.Standings.{IsUncontested, HasBothSides, HasMany, is_contested, standing_by, IsStanding, IsAdded, AreStandings, AreBelow};

use crate::elements::some_leads;
use crate::next_elements::{MOST_ASKED, PossibleElements, no_elements};
use crate::seen_updates::SeenUpdates;
use ra_labels::{NoMemory, Op};
use ra_precedence::Solver;
use std::alloc::Global;
use std::collections::BTreeSet;

/// Whether a read lists an element.
#[derive(Drop)]
pub enum Standing {
    /// It lists it in each order.
    Listed,
    /// It lists it in some order and does not list it in another one.
    Undecided,
    /// It lists it in no order.
    Unlisted,
    /// The solver was not asked.
    Unasked,
}

/// Returns the contested elements about which the solver is asked: those of `first`, in this order, before the others.
///
/// # Errors
///
/// `NoMemory` if allocation fails.
///
/// # Complexity
///
/// O(e · r · log n) for `e` elements.
pub fn choose(
    alloc: Global,
    operations: &[&Op],
    seen: &SeenUpdates,
    first: &[u32],
) -> Result<BTreeSet<u32>, NoMemory>
    ensures first { IfOk result (λ asked. (x : ℕ) → Contains (take MOST_ASKED first.now) x
        → (contains nat_cmp asked x ≡ true) ⊎ IsUncontested (operations_in operations.now) seen.now x) }
    ensures full { IfOk result (λ asked. (x : ℕ) → Contains seen.now.elements.items x
        → (contains nat_cmp asked x ≡ true) ⊎ IsUncontested (operations_in operations.now) seen.now x
        ⊎ HasMany MOST_ASKED asked) }
    ensures contested { IfOk result (λ asked. (x : ℕ) → contains nat_cmp asked x ≡ true
        → HasBothSides (operations_in operations.now) seen.now x) }
{
    let mut asked = BTreeSet::new(alloc);
    add_contested(&mut asked, alloc, operations, seen, first)?;
    add_contested(&mut asked, alloc, operations, seen, &seen.elements)?;
    Ok(asked)
}

// Adds those of the elements that are contested, in this order, as long as there are fewer than `MOST_ASKED` elements.
fn add_contested(
    asked: &mut BTreeSet<u32>,
    alloc: Global,
    operations: &[&Op],
    seen: &SeenUpdates,
    elements: &[u32],
) -> Result<(), NoMemory>
    ensures kept { OnOk result ((x : ℕ) → contains nat_cmp asked.old x ≡ true → contains nat_cmp asked.new x ≡ true) }
    ensures contested { OnOk result ((x : ℕ) → contains nat_cmp asked.new x ≡ true
        → (contains nat_cmp asked.old x ≡ true) ⊎ HasBothSides (operations_in operations.now) seen.now x) }
    ensures full { OnOk result ((x : ℕ) → Contains elements.now x
        → (contains nat_cmp asked.new x ≡ true) ⊎ IsUncontested (operations_in operations.now) seen.now x
        ⊎ HasMany MOST_ASKED asked.new) }
    ensures first { OnOk result (btree_set_len asked.old ≡ 0 → (x : ℕ) → Contains (take MOST_ASKED elements.now) x
        → (contains nat_cmp asked.new x ≡ true) ⊎ IsUncontested (operations_in operations.now) seen.now x) }
{
    for element in elements {
        if asked.len() >= MOST_ASKED {
            return Ok(());
        }
        let newest = seen.of_element(alloc, *element)?;
        if is_contested(operations, &newest, *element) {
            asked.insert(*element)?;
        }
    }
    Ok(())
}

// Returns `true` if some of the updates add the element and others remove it.
fn is_contested(operations: &[&Op], newest: &[u32], element: u32) -> bool
    ensures { result ≡ is_contested (operations_in operations.now) newest.now element }
{
    some_leads(operations, newest, true, element) && some_leads(operations, newest, false, element)
}

/// Sorts the elements by whether the read lists them. The solver has the conditions on the orders, but for those of the
/// read's answer.
///
/// # Errors
///
/// `NoMemory` if allocation fails.
///
/// # Complexity
///
/// O(e · r · log n) for `e` elements, and O(n) for each one about which the solver is asked.
pub fn sort_elements(
    alloc: Global,
    operations: &[&Op],
    solver: &mut Solver,
    seen: &SeenUpdates,
    asked: &BTreeSet<u32>,
) -> Result<PossibleElements, NoMemory>
    requires ready { IsReady solver.old }
    requires below { AreBelow (count_of solver.old) seen.now }
    requires rising { rises seen.now.elements.items ≡ true }
    ensures rising { IfOk result (λ found. (rises found.listed.items ≡ true) × (rises found.undecided.items ≡ true)
        × (rises found.unasked.items ≡ true)) }
    ensures sorted { IfOk result (AreStandings (operations_in operations.now) (count_of solver.old)
        solver.old.conditions.items seen.now (contains nat_cmp asked.now) seen.now.elements.items) }
{
    let mut found = no_elements(alloc);
    for element in &seen.elements {
        let newest = seen.of_element(alloc, *element)?;
        let is_asked = asked.contains(element);
        let standing = standing_of(alloc, operations, solver, &newest, *element, is_asked)?;
        add(&mut found, *element, standing)?;
    }
    Ok(found)
}

// Returns whether a read lists the element, with these newest updates of it.
fn standing_of(
    alloc: Global,
    operations: &[&Op],
    solver: &mut Solver,
    newest: &[u32],
    element: u32,
    is_asked: bool,
) -> Result<Standing, NoMemory>
    requires ready { IsReady solver.old }
    requires below { (b : ℕ) → Contains newest.now b → b < count_of solver.old }
    ensures ready { IsReady solver.new }
    ensures count { count_of solver.new ≡ count_of solver.old }
    ensures conditions { solver.new.conditions.items ≡ solver.old.conditions.items }
    ensures standing { IfOk result (IsStanding (operations_in operations.now) (count_of solver.old)
        solver.old.conditions.items newest.now is_asked element) }
{
    if !is_contested(operations, newest, element) {
        return Ok(standing_by(operations, newest, element));
    }
    if !is_asked {
        return Ok(Standing::Unasked);
    }
    let lasts = solver.last_of(alloc, newest)?;
    Ok(standing_by(operations, &lasts, element))
}

// Returns whether the element is listed if each of the updates can be the last one.
fn standing_by(operations: &[&Op], lasts: &[u32], element: u32) -> Standing
    ensures { result ≡ standing_by (operations_in operations.now) lasts.now element }
{
    let can_be_in = some_leads(operations, lasts, true, element);
    let can_be_out = some_leads(operations, lasts, false, element);
    match (can_be_in, can_be_out) {
        (true, true) => Standing::Undecided,
        (true, false) => Standing::Listed,
        (false, _) => Standing::Unlisted,
    }
}

// Appends the element to the list of its standing.
fn add(found: &mut PossibleElements, element: u32, standing: Standing) -> Result<(), NoMemory>
    ensures { OnOk result (IsAdded element standing found.old found.new) }
{
    match standing {
        Standing::Listed => found.listed.push(element)?,
        Standing::Undecided => found.undecided.push(element)?,
        Standing::Unlisted => {}
        Standing::Unasked => found.unasked.push(element)?,
    }
    Ok(())
}
