//! Tests of `ra_precedence`: calls succeed, and can be made again after a failed allocation.

use ra_labels::NoMemory;
use ra_precedence::{
    Condition, Held, Solution, Solver, StuckSet, are_below, is_order, is_valid_stuck_set,
    name_only_below, order_of, stuck_set,
};
use std::alloc::Global;
use std::process::Abort;
use std::test::Fail;

// Each label of `before` stands before at least one of `after`.
fn condition(alloc: Global, before: &[u32], after: &[u32]) -> Result<Condition, NoMemory> {
    Condition::new(alloc, 0, before, after)
}

// Returns the solution, from a second call if an allocation fails in the first one.
fn solved(
    rt: &impl Abort,
    alloc: Global,
    count: u32,
    conditions: &[Condition],
) -> Result<Solution, NoMemory> {
    assert!(rt; name_only_below(count, conditions));
    let solution = match order_of(alloc, count, conditions) {
        Ok(solution) => solution,
        Err(_) => order_of(alloc, count, conditions)?,
    };
    if let Solution::Order(order) = &solution {
        assert!(rt; solves(alloc, count, conditions, order)?);
    }
    Ok(solution)
}

// Returns whether the order is a solution, from a second call if an allocation fails in the first one.
fn solves(
    alloc: Global,
    count: u32,
    conditions: &[Condition],
    order: &[u32],
) -> Result<bool, NoMemory> {
    match is_order(alloc, count, conditions, order) {
        Ok(is) => Ok(is),
        Err(_) => is_order(alloc, count, conditions, order),
    }
}

// Returns whether the stuck set is valid, from a second call if an allocation fails in the first one.
fn is_valid(
    alloc: Global,
    count: u32,
    conditions: &[Condition],
    set: &StuckSet,
) -> Result<bool, NoMemory> {
    match is_valid_stuck_set(alloc, count, conditions, set) {
        Ok(is) => Ok(is),
        Err(_) => is_valid_stuck_set(alloc, count, conditions, set),
    }
}

// Returns the labels of the set that can be the last one of it, from a second question if an allocation fails in the
// first one.
fn lasts_of(
    rt: &impl Abort,
    alloc: Global,
    count: u32,
    conditions: Vec<Condition>,
    set: &[u32],
) -> Result<Vec<u32>, NoMemory> {
    assert!(rt; name_only_below(count, &conditions));
    assert!(rt; are_below(count, set));
    let mut solver = Solver::new(alloc, count, conditions)?;
    match solver.last_of(alloc, set) {
        Ok(lasts) => Ok(lasts),
        Err(_) => solver.last_of(alloc, set),
    }
}

// Returns the order, or the stuck set with `true`.
fn labels_of(solution: Solution) -> (Vec<u32>, bool) {
    match solution {
        Solution::Order(order) => (order, false),
        Solution::Stuck(set) => (set, true),
    }
}

#[test]
fn edges_leave_an_order(rt: HostRuntime) -> Result<(), Fail> {
    let alloc = rt.alloc();
    let mut conditions = Vec::new(alloc);
    conditions.push(condition(alloc, &[2], &[0])?)?;
    conditions.push(condition(alloc, &[0, 2], &[1])?)?;
    let (order, is_stuck) = labels_of(solved(&rt, alloc, 3, &conditions)?);
    assert!(rt; !is_stuck);
    assert_eq!(rt; order.as_slice(), [2, 0, 1].as_slice());
    Ok(())
}

// Label 0 stands before 1 or 2, and 1 stands before 0: so 2 is the last one.
#[test]
fn a_choice_is_made(rt: HostRuntime) -> Result<(), Fail> {
    let alloc = rt.alloc();
    let mut conditions = Vec::new(alloc);
    conditions.push(condition(alloc, &[0], &[1, 2])?)?;
    conditions.push(condition(alloc, &[1], &[0])?)?;
    let (order, is_stuck) = labels_of(solved(&rt, alloc, 3, &conditions)?);
    assert!(rt; !is_stuck);
    assert_eq!(rt; order.as_slice(), [1, 0, 2].as_slice());
    Ok(())
}

// Label 0 stands before 1 or 2, and 3 before 1. The labels are asked in another order, one of them twice.
fn a_choice_and_an_edge(alloc: Global) -> Result<Vec<Condition>, NoMemory> {
    let mut conditions = Vec::new(alloc);
    conditions.push(condition(alloc, &[0], &[1, 2])?)?;
    conditions.push(condition(alloc, &[3], &[1])?)?;
    Ok(conditions)
}

#[test]
fn some_labels_can_be_the_last(rt: HostRuntime) -> Result<(), Fail> {
    let alloc = rt.alloc();
    let lasts = lasts_of(
        &rt,
        alloc,
        4,
        a_choice_and_an_edge(alloc)?,
        &[3, 2, 1, 0, 2],
    )?;
    assert_eq!(rt; lasts.as_slice(), [2, 1].as_slice());
    Ok(())
}

// Label 0 need not stand before 1, as 2 can stand behind it.
#[test]
fn a_choice_lets_either_be_the_last(rt: HostRuntime) -> Result<(), Fail> {
    let alloc = rt.alloc();
    let lasts = lasts_of(&rt, alloc, 4, a_choice_and_an_edge(alloc)?, &[0, 1])?;
    assert_eq!(rt; lasts.as_slice(), [0, 1].as_slice());
    let lasts = lasts_of(&rt, alloc, 4, a_choice_and_an_edge(alloc)?, &[3, 1])?;
    assert_eq!(rt; lasts.as_slice(), [1].as_slice());
    Ok(())
}

// A solver answers several questions: what one of them holds back does not count in the next.
#[test]
fn a_solver_is_asked_again(rt: HostRuntime) -> Result<(), Fail> {
    let alloc = rt.alloc();
    let conditions = a_choice_and_an_edge(alloc)?;
    assert!(rt; name_only_below(4, &conditions));
    assert!(rt; are_below(4, &[0, 1, 2, 3]));
    assert!(rt; are_below(4, &[0, 3]));
    let mut solver = Solver::new(alloc, 4, conditions)?;
    let first = solver.last_of(alloc, &[0, 1, 2, 3])?;
    assert_eq!(rt; first.as_slice(), [1, 2].as_slice());
    let second = solver.last_of(alloc, &[0, 3])?;
    assert_eq!(rt; second.as_slice(), [0, 3].as_slice());
    Ok(())
}

// No two of these conditions exclude an order, and all three do. Label 3 can be placed all the same.
#[test]
fn three_conditions_are_stuck(rt: HostRuntime) -> Result<(), Fail> {
    let alloc = rt.alloc();
    let mut conditions = Vec::new(alloc);
    conditions.push(condition(alloc, &[0], &[2])?)?;
    conditions.push(condition(alloc, &[1], &[2])?)?;
    conditions.push(condition(alloc, &[2], &[0, 1])?)?;
    conditions.push(condition(alloc, &[3], &[0, 1, 2])?)?;
    let (set, is_stuck) = labels_of(solved(&rt, alloc, 5, &conditions)?);
    assert!(rt; is_stuck);
    assert_eq!(rt; set.as_slice(), [0, 1, 2, 3].as_slice());
    Ok(())
}

#[test]
fn nothing_later_is_stuck(rt: HostRuntime) -> Result<(), Fail> {
    let alloc = rt.alloc();
    let mut conditions = Vec::new(alloc);
    conditions.push(condition(alloc, &[1], &[])?)?;
    let (set, is_stuck) = labels_of(solved(&rt, alloc, 2, &conditions)?);
    assert!(rt; is_stuck);
    assert_eq!(rt; set.as_slice(), [1].as_slice());
    Ok(())
}

// A chain of labels, each of which is named twice.
#[test]
fn a_long_chain_has_an_order(rt: HostRuntime) -> Result<(), Fail> {
    let alloc = rt.alloc();
    let mut conditions = Vec::new(alloc);
    for label in 0..999 {
        conditions.push(condition(alloc, &[label + 1, label + 1], &[label])?)?;
    }
    let (order, is_stuck) = labels_of(solved(&rt, alloc, 1000, &conditions)?);
    assert!(rt; !is_stuck);
    assert_eq!(rt; order.len(), 1000);
    assert_eq!(rt; order.first(), Some(&999));
    conditions.push(condition(alloc, &[0], &[999])?)?;
    assert_eq!(rt; stuck(&rt, alloc, 1000, &conditions)?.reasons.len(), 1000);
    Ok(())
}

// The same condition, as one that a label requires.
fn required(alloc: Global, by: u32, before: &[u32], after: &[u32]) -> Result<Condition, NoMemory> {
    Condition::new(alloc, by, before, after)
}

// Returns the reasons for which the conditions have no order, from a second call if an allocation fails in the first
// one.
fn reasons(
    rt: &impl Abort,
    alloc: Global,
    count: u32,
    conditions: &[Condition],
) -> Result<Vec<Held>, NoMemory> {
    Ok(stuck(rt, alloc, count, conditions)?.reasons)
}

// Returns the stuck set with its reasons, which are valid, from a second call if an allocation fails in the first one.
fn stuck(
    rt: &impl Abort,
    alloc: Global,
    count: u32,
    conditions: &[Condition],
) -> Result<StuckSet, NoMemory> {
    let (set, is_stuck) = labels_of(solved(rt, alloc, count, conditions)?);
    assert!(rt; is_stuck);
    let found = match stuck_set(alloc, count, conditions, set.clone()?) {
        Ok(stuck) => stuck,
        Err(_) => stuck_set(alloc, count, conditions, set)?,
    };
    assert!(rt; is_valid(alloc, count, conditions, &found)?);
    Ok(found)
}

fn is_held(held: &Held, label: u32, after: &[u32], by: u32) -> bool {
    held.label == label && held.after.as_slice() == after && held.by == by
}

// Label 5 leads to a cycle of three labels, and one of them to a cycle of two, which is the shortest.
#[test]
fn reasons_are_a_short_cycle(rt: HostRuntime) -> Result<(), Fail> {
    let alloc = rt.alloc();
    let mut conditions = Vec::new(alloc);
    conditions.push(required(alloc, 10, &[5], &[0])?)?;
    conditions.push(required(alloc, 11, &[0, 3], &[1])?)?;
    conditions.push(required(alloc, 12, &[1], &[2])?)?;
    conditions.push(required(alloc, 13, &[2], &[0])?)?;
    conditions.push(required(alloc, 14, &[1], &[0])?)?;
    conditions.push(required(alloc, 15, &[5], &[4])?)?;
    let found = reasons(&rt, alloc, 6, &conditions)?;
    assert_eq!(rt; found.len(), 2);
    assert!(rt; is_held(&found[0], 0, &[1], 11));
    assert!(rt; is_held(&found[1], 1, &[0], 14));
    Ok(())
}

// Where a label has a choice, both choices have reasons. Labels that lead there and are not used have none.
#[test]
fn reasons_cover_each_choice(rt: HostRuntime) -> Result<(), Fail> {
    let alloc = rt.alloc();
    let mut conditions = Vec::new(alloc);
    conditions.push(required(alloc, 10, &[3], &[0, 1, 2])?)?;
    conditions.push(required(alloc, 11, &[0], &[2])?)?;
    conditions.push(required(alloc, 12, &[1], &[2])?)?;
    conditions.push(required(alloc, 13, &[2], &[0, 1])?)?;
    let found = reasons(&rt, alloc, 4, &conditions)?;
    assert_eq!(rt; found.len(), 3);
    for held in &found {
        let is_known = is_held(held, 0, &[2], 11)
            || is_held(held, 1, &[2], 12)
            || is_held(held, 2, &[0, 1], 13);
        assert!(rt; is_known);
    }
    Ok(())
}

#[test]
fn a_label_that_stands_before_none_is_a_reason(rt: HostRuntime) -> Result<(), Fail> {
    let alloc = rt.alloc();
    let mut conditions = Vec::new(alloc);
    conditions.push(required(alloc, 10, &[1], &[])?)?;
    let found = reasons(&rt, alloc, 2, &conditions)?;
    assert_eq!(rt; found.len(), 1);
    assert!(rt; is_held(&found[0], 1, &[], 10));
    Ok(())
}

// An order of three labels: 2 before 0, and both before 1.
#[test]
fn an_order_is_checked(rt: HostRuntime) -> Result<(), Fail> {
    let alloc = rt.alloc();
    let mut conditions = Vec::new(alloc);
    conditions.push(condition(alloc, &[2], &[0])?)?;
    conditions.push(condition(alloc, &[0, 2], &[1])?)?;
    assert!(rt; solves(alloc, 3, &conditions, &[2, 0, 1])?);
    assert!(rt; !solves(alloc, 3, &conditions, &[0, 2, 1])?);
    assert!(rt; !solves(alloc, 3, &conditions, &[2, 1, 0])?);
    assert!(rt; !solves(alloc, 3, &conditions, &[2, 0])?);
    assert!(rt; !solves(alloc, 3, &conditions, &[2, 0, 0, 1])?);
    assert!(rt; !solves(alloc, 3, &conditions, &[2, 0, 1, 3])?);
    Ok(())
}

// Label 0 stands before 1 or 2, whichever is the last one.
#[test]
fn one_of_several_suffices(rt: HostRuntime) -> Result<(), Fail> {
    let alloc = rt.alloc();
    let mut conditions = Vec::new(alloc);
    conditions.push(condition(alloc, &[0], &[1, 2])?)?;
    assert!(rt; solves(alloc, 3, &conditions, &[1, 0, 2])?);
    assert!(rt; solves(alloc, 3, &conditions, &[2, 0, 1])?);
    assert!(rt; !solves(alloc, 3, &conditions, &[1, 2, 0])?);
    conditions.push(condition(alloc, &[1], &[])?)?;
    assert!(rt; !solves(alloc, 3, &conditions, &[1, 0, 2])?);
    Ok(())
}

// A cycle of two labels, which needs no reasons. A valid set with one thing changed is rejected: a label that the
// conditions do not constrain, no labels, a reason with another `by` or another `after`, and a later label without a
// reason.
#[test]
fn a_stuck_set_is_checked(rt: HostRuntime) -> Result<(), Fail> {
    let alloc = rt.alloc();
    let mut conditions = Vec::new(alloc);
    conditions.push(required(alloc, 10, &[0], &[1])?)?;
    conditions.push(required(alloc, 11, &[1], &[0])?)?;
    let mut found = stuck(&rt, alloc, 3, &conditions)?;
    assert_eq!(rt; found.reasons.len(), 2);
    found.reasons.clear();
    assert!(rt; is_valid(alloc, 3, &conditions, &found)?);
    found.labels.push(2)?;
    assert!(rt; !is_valid(alloc, 3, &conditions, &found)?);
    found.labels.clear();
    assert!(rt; !is_valid(alloc, 3, &conditions, &found)?);
    for change in 0..3 {
        let mut found = stuck(&rt, alloc, 3, &conditions)?;
        assert_eq!(rt; found.reasons.len(), 2);
        match change {
            0 => found.reasons[0].by = 12,
            1 => found.reasons[0].after.push(0)?,
            _ => found.reasons.truncate(1),
        }
        assert!(rt; !is_valid(alloc, 3, &conditions, &found)?);
    }
    Ok(())
}

// Two cycles: the reasons of one are none for the other.
#[test]
fn reasons_are_about_their_own_set(rt: HostRuntime) -> Result<(), Fail> {
    let alloc = rt.alloc();
    let mut conditions = Vec::new(alloc);
    conditions.push(required(alloc, 10, &[0], &[1])?)?;
    conditions.push(required(alloc, 11, &[1], &[0])?)?;
    conditions.push(required(alloc, 12, &[2], &[3])?)?;
    conditions.push(required(alloc, 13, &[3], &[2])?)?;
    let first = stuck_set(alloc, 4, &conditions, vec![in alloc; 0, 1]?)?;
    let mut second = stuck_set(alloc, 4, &conditions, vec![in alloc; 2, 3]?)?;
    assert!(rt; is_valid(alloc, 4, &conditions, &first)?);
    assert!(rt; is_valid(alloc, 4, &conditions, &second)?);
    second.reasons = first.reasons;
    assert!(rt; !is_valid(alloc, 4, &conditions, &second)?);
    Ok(())
}
