//! Tests of `ra_list_effects`: calls succeed, and can be repeated after a failed allocation.
ghost use Rattle.std.specs.Prelude.{◌<◌};

use ra_labels::{Cause, Elements, Insertion, ListOp, NoMemory};
use ra_list_effects::ListEffects;
use std::alloc::Global;
use std::process::Abort;
use std::test::Fail;

const fn insertion(left: u32, element: u32, right: u32) -> ListOp {
    ListOp::Insert(Insertion {
        left,
        element,
        right,
    })
}

fn elements(alloc: Global, list: &[u32]) -> Result<Elements, NoMemory> {
    let mut items = Vec::new(alloc);
    items.extend_from_slice(list)?;
    Ok(Elements::new(items))
}

// Tests an operation and adds it. Returns why it fails, if it does.
fn try_operation(
    rt: &impl Abort,
    alloc: Global,
    effects: &mut ListEffects,
    replica: u8,
    op: &ListOp,
    label: u32,
) -> Result<Option<Cause>, NoMemory> {
    assert!(rt; (replica as usize) < effects.replicas());
    assert!(rt; effects.len() < 1_000_000);
    let found = match effects.test(alloc, replica, op)? {
        Ok(found) => found,
        Err(cause) => return Ok(Some(cause)),
    };
    let cycle = effects.add(alloc, replica, op, found, label)?;
    Ok(if cycle.is_some() {
        Some(Cause::Order)
    } else {
        None
    })
}

// The same, again if an allocation fails.
fn operation(
    rt: &impl Abort,
    alloc: Global,
    effects: &mut ListEffects,
    replica: u8,
    op: &ListOp,
    label: u32,
) -> Result<Option<Cause>, NoMemory> {
    let count = effects.len();
    if let Ok(cause) = try_operation(rt, alloc, effects, replica, op, label) {
        return Ok(cause);
    }
    assert_eq!(rt; effects.len(), count);
    try_operation(rt, alloc, effects, replica, op, label)
}

fn read(alloc: Global, list: &[u32]) -> Result<ListOp, NoMemory> {
    match elements(alloc, list) {
        Ok(list) => Ok(ListOp::Read(list)),
        Err(_) => Ok(ListOp::Read(elements(alloc, list)?)),
    }
}

fn part(alloc: Global, list: &[u32]) -> Result<ListOp, NoMemory> {
    match elements(alloc, list) {
        Ok(list) => Ok(ListOp::Part(list)),
        Err(_) => Ok(ListOp::Part(elements(alloc, list)?)),
    }
}

fn join(rt: &impl Abort, effects: &mut ListEffects) -> Result<(), NoMemory> {
    assert!(rt; 0 < effects.replicas());
    if effects.join(0).is_err() {
        assert!(rt; 0 < effects.replicas());
        effects.join(0)?;
    }
    Ok(())
}

fn new(alloc: Global) -> Result<ListEffects, NoMemory> {
    match ListEffects::new(alloc, 1) {
        Ok(effects) => Ok(effects),
        Err(_) => ListEffects::new(alloc, 1),
    }
}

// Makes an operation, and compares why it fails with the cause.
fn expect(
    rt: &impl Abort,
    alloc: Global,
    effects: &mut ListEffects,
    (replica, label): (u8, u32),
    op: &ListOp,
    cause: Option<Cause>,
) -> Result<(), NoMemory> {
    let found = operation(rt, alloc, effects, replica, op, label)?;
    assert_eq!(rt; found, cause);
    Ok(())
}

// `rt try --test --fail-alloc N` lets the allocation N fail. The call that asks for it changes nothing.
#[test]
fn operations_are_judged(rt: HostRuntime) -> Result<(), Fail> {
    let alloc = rt.alloc();
    let mut effects = new(alloc)?;
    let (query, order, update) = (Some(Cause::Query), Some(Cause::Order), Some(Cause::Update));
    expect(&rt, alloc, &mut effects, (0, 0), &insertion(0, 1, 0), None)?;
    expect(&rt, alloc, &mut effects, (0, 1), &insertion(1, 2, 0), None)?;
    expect(
        &rt,
        alloc,
        &mut effects,
        (0, 2),
        &read(alloc, &[1, 2])?,
        None,
    )?;
    expect(&rt, alloc, &mut effects, (0, 3), &read(alloc, &[1])?, query)?;
    expect(
        &rt,
        alloc,
        &mut effects,
        (0, 3),
        &read(alloc, &[2, 1])?,
        order,
    )?;
    expect(&rt, alloc, &mut effects, (0, 3), &insertion(2, 3, 1), order)?;
    expect(
        &rt,
        alloc,
        &mut effects,
        (0, 3),
        &insertion(0, 3, 7),
        update,
    )?;
    expect(&rt, alloc, &mut effects, (0, 3), &ListOp::Remove(3), update)?;
    expect(&rt, alloc, &mut effects, (0, 3), &insertion(1, 3, 2), None)?;
    Ok(())
}

#[test]
fn a_replica_that_joined_is_judged(rt: HostRuntime) -> Result<(), Fail> {
    let alloc = rt.alloc();
    let mut effects = new(alloc)?;
    expect(&rt, alloc, &mut effects, (0, 0), &insertion(0, 1, 0), None)?;
    expect(&rt, alloc, &mut effects, (0, 1), &insertion(1, 2, 0), None)?;
    expect(&rt, alloc, &mut effects, (0, 2), &ListOp::Remove(1), None)?;
    join(&rt, &mut effects)?;
    expect(&rt, alloc, &mut effects, (1, 3), &read(alloc, &[2])?, None)?;
    expect(&rt, alloc, &mut effects, (1, 4), &insertion(0, 3, 2), None)?;
    expect(
        &rt,
        alloc,
        &mut effects,
        (1, 5),
        &part(alloc, &[3, 2])?,
        None,
    )?;
    expect(
        &rt,
        alloc,
        &mut effects,
        (0, 6),
        &part(alloc, &[3])?,
        Some(Cause::Query),
    )?;
    expect(
        &rt,
        alloc,
        &mut effects,
        (0, 6),
        &ListOp::Remove(3),
        Some(Cause::Query),
    )?;
    let order = match effects.list_order(alloc) {
        Ok(order) => order,
        Err(_) => effects.list_order(alloc)?,
    };
    assert_eq!(rt; order.as_slice(), [1, 3, 2].as_slice());
    Ok(())
}
