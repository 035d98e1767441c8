//! Tests of `ra_list_witness`: the worked examples of the kind `list`, by its calls, which are repeated after a failed
//! allocation.
ghost use Rattle.std.specs.Prelude.{◌<◌};

use crate::worked_examples::{ROWS, Step};
use ra_labels::{Cause, Insertion, NoMemory};
use ra_list_replica::Mark;
use ra_list_witness::ListWitness;
use std::alloc::Global;
use std::process::Abort;
use std::test::Fail;

// Makes a step, each call of which is made again if an allocation fails. Returns why the step fails, if it does.
fn make(
    rt: &impl Abort,
    alloc: Global,
    witness: &mut ListWitness,
    step: Step,
    label: u32,
) -> Result<Option<Cause>, NoMemory> {
    match step {
        Step::Insert(replica, left, element, right) => {
            let insertion = Insertion {
                left,
                element,
                right,
            };
            insert(rt, alloc, witness, replica, insertion, label)
        }
        Step::Remove(replica, element) => {
            assert!(rt; (replica as usize) < witness.replicas());
            match witness.find(replica, element) {
                Ok(number) => {
                    hide(rt, witness, replica, number);
                    Ok(None)
                }
                Err(cause) => Ok(Some(cause)),
            }
        }
        Step::Read(replica, list) => read(rt, alloc, witness, replica, list, label),
        Step::Part(replica, list) => read_part(rt, alloc, witness, replica, list, label),
        Step::GotInsertion(replica, element) => {
            let number = number_of(rt, witness, element);
            show(rt, witness, replica, number)?;
            Ok(None)
        }
        Step::GotRemoval(replica, element) => {
            let number = number_of(rt, witness, element);
            hide(rt, witness, replica, number);
            Ok(None)
        }
        Step::Join(from) => {
            assert!(rt; (from as usize) < witness.replicas());
            if witness.join(from).is_err() {
                assert!(rt; (from as usize) < witness.replicas());
                witness.join(from)?;
            }
            Ok(None)
        }
    }
}

// The number of an element, which the replica that inserted it has.
fn number_of(rt: &impl Abort, witness: &ListWitness, element: u32) -> u32 {
    for replica in 0..64u8 {
        if (replica as usize) < witness.replicas() {
            if let Ok(number) = witness.find(replica, element) {
                return number;
            }
        }
    }
    panic!(rt; "no replica has the element")
}

fn insert(
    rt: &impl Abort,
    alloc: Global,
    witness: &mut ListWitness,
    replica: u8,
    insertion: Insertion,
    label: u32,
) -> Result<Option<Cause>, NoMemory> {
    let (elements, edges) = (witness.len(), witness.edge_count());
    if let Ok(cause) = try_insert(rt, alloc, witness, replica, insertion, label) {
        return Ok(cause);
    }
    assert_eq!(rt; (witness.len(), witness.edge_count()), (elements, edges));
    try_insert(rt, alloc, witness, replica, insertion, label)
}

fn try_insert(
    rt: &impl Abort,
    alloc: Global,
    witness: &mut ListWitness,
    replica: u8,
    insertion: Insertion,
    label: u32,
) -> Result<Option<Cause>, NoMemory> {
    assert!(rt; (replica as usize) < witness.replicas());
    assert!(rt; witness.len() < 1_000_000);
    let placement = match witness.find_placement(replica, insertion) {
        Ok(placement) => placement,
        Err(cause) => return Ok(Some(cause)),
    };
    let cycle = witness.insert(alloc, replica, insertion, placement, label)?;
    Ok(order_if(cycle.is_some()))
}

fn order_if(is_cycle: bool) -> Option<Cause> {
    if is_cycle { Some(Cause::Order) } else { None }
}

fn read(
    rt: &impl Abort,
    alloc: Global,
    witness: &mut ListWitness,
    replica: u8,
    list: &[u32],
    label: u32,
) -> Result<Option<Cause>, NoMemory> {
    match try_read(rt, alloc, witness, replica, list, label) {
        Ok(cause) => Ok(cause),
        Err(_) => try_read(rt, alloc, witness, replica, list, label),
    }
}

fn try_read(
    rt: &impl Abort,
    alloc: Global,
    witness: &mut ListWitness,
    replica: u8,
    list: &[u32],
    label: u32,
) -> Result<Option<Cause>, NoMemory> {
    assert!(rt; (replica as usize) < witness.replicas());
    let Some(listed) = witness.check_read(alloc, replica, list)? else {
        return Ok(Some(Cause::Query));
    };
    let cycle = witness.read(alloc, replica, listed, label)?;
    Ok(order_if(cycle.is_some()))
}

fn read_part(
    rt: &impl Abort,
    alloc: Global,
    witness: &mut ListWitness,
    replica: u8,
    list: &[u32],
    label: u32,
) -> Result<Option<Cause>, NoMemory> {
    match try_read_part(rt, alloc, witness, replica, list, label) {
        Ok(cause) => Ok(cause),
        Err(_) => try_read_part(rt, alloc, witness, replica, list, label),
    }
}

fn try_read_part(
    rt: &impl Abort,
    alloc: Global,
    witness: &mut ListWitness,
    replica: u8,
    list: &[u32],
    label: u32,
) -> Result<Option<Cause>, NoMemory> {
    assert!(rt; (replica as usize) < witness.replicas());
    let Some(part) = witness.check_part(alloc, replica, list)? else {
        return Ok(Some(Cause::Query));
    };
    let cycle = witness.read_part(alloc, &part, label)?;
    Ok(order_if(cycle.is_some()))
}

fn show(
    rt: &impl Abort,
    witness: &mut ListWitness,
    replica: u8,
    number: u32,
) -> Result<(), NoMemory> {
    match try_show(rt, witness, replica, number) {
        Ok(()) => Ok(()),
        Err(_) => try_show(rt, witness, replica, number),
    }
}

fn try_show(
    rt: &impl Abort,
    witness: &mut ListWitness,
    replica: u8,
    number: u32,
) -> Result<(), NoMemory> {
    assert!(rt; (replica as usize) < witness.replicas());
    assert!(rt; (number as usize) < witness.len());
    assert!(rt; witness.mark(replica, number) == Mark::Missing);
    witness.show(replica, number)
}

fn hide(rt: &impl Abort, witness: &mut ListWitness, replica: u8, number: u32) {
    assert!(rt; (replica as usize) < witness.replicas());
    assert!(rt; witness.mark(replica, number) != Mark::Missing);
    witness.hide(replica, number);
}

fn new(alloc: Global, replicas: u8) -> Result<ListWitness, NoMemory> {
    match ListWitness::new(alloc, replicas) {
        Ok(witness) => Ok(witness),
        Err(_) => ListWitness::new(alloc, replicas),
    }
}

// `rt try --test --fail-alloc N` lets the allocation N fail. The call that asks for it is made again.
#[test]
fn worked_examples_are_answered(rt: HostRuntime) -> Result<(), Fail> {
    let alloc = rt.alloc();
    for row in &ROWS {
        let mut witness = new(alloc, row.replicas)?;
        for (label, step) in row.steps.iter().enumerate() {
            let cause = make(&rt, alloc, &mut witness, *step, (label % 64) as u32)?;
            if label + 1 < row.steps.len() {
                assert!(rt; cause.is_none(), "{}", row.name);
            } else {
                assert_eq!(rt; cause, row.cause, "{}", row.name);
            }
        }
    }
    Ok(())
}

// Returns at how many places a read differs from the last one of the replica.
fn changed_places(
    rt: &impl Abort,
    alloc: Global,
    witness: &mut ListWitness,
    replica: u8,
    list: &[u32],
) -> Result<usize, NoMemory> {
    assert!(rt; (replica as usize) < witness.replicas());
    match witness.check_read(alloc, replica, list)? {
        Some(listed) => Ok(listed.places.len()),
        None => panic!(rt; "the list is a read"),
    }
}

// A read that repeats the last one of its replica adds no edge, and the kept order is one that the edges allow.
#[test]
fn a_repeated_read_adds_no_edge(rt: HostRuntime) -> Result<(), Fail> {
    let alloc = rt.alloc();
    let mut witness = new(alloc, 1)?;
    let steps = [
        Step::Insert(0, 0, 1, 0),
        Step::Insert(0, 0, 2, 0),
        Step::Insert(0, 1, 3, 2),
        Step::Join(0),
        Step::Read(1, &[1, 3, 2]),
        Step::Read(1, &[1, 3, 2]),
    ];
    for (label, step) in steps.iter().enumerate() {
        assert!(rt; make(&rt, alloc, &mut witness, *step, (label % 64) as u32)?.is_none());
    }
    assert_eq!(rt; witness.edge_count(), 2);
    assert_eq!(rt; changed_places(&rt, alloc, &mut witness, 1, &[1, 3, 2])?, 0);
    assert_eq!(rt; changed_places(&rt, alloc, &mut witness, 0, &[1, 3, 2])?, 2);
    let order = match witness.list_order(alloc) {
        Ok(order) => order,
        Err(_) => witness.list_order(alloc)?,
    };
    assert_eq!(rt; order.as_slice(), [1, 3, 2].as_slice());
    Ok(())
}
