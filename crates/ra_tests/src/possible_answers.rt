//! Tests of `possible_answers` of `ra_another_order`: what the next read can return in some order of the updates.

use crate::commands::{bare, elements_of, got, is_told, reporter_of, stamped};
use ra_another_order::{PossibleAnswers, possible_answers};
use ra_labels::{Command, Kind, NoMemory, Op, Reply};
use ra_monitor::Reporter;
use std::alloc::Global;
use std::process::Abort;
use std::test::Fail;

// What this read can return as the next operation of the replica, from a second call if an allocation fails in the
// first one.
fn answers_to(
    alloc: Global,
    told: &Reporter,
    replica: u8,
    read: &Op,
) -> Result<Option<PossibleAnswers>, NoMemory> {
    let setup = told.monitor().setup();
    let log = told.monitor().log();
    match possible_answers(alloc, setup.kind, 2, log, replica, read, &[]) {
        Ok(answers) => Ok(answers),
        Err(_) => possible_answers(alloc, setup.kind, 2, log, replica, read, &[]),
    }
}

// Whether these are the values that the register's read can return, and whether it can return none.
fn are_values(
    alloc: Global,
    told: &Reporter,
    replica: u8,
    written: &[u32],
    none: bool,
) -> Result<bool, NoMemory> {
    let answers = answers_to(alloc, told, replica, &Op::Last(None))?;
    Ok(match &answers {
        Some(PossibleAnswers::Values(found)) => {
            found.written.as_slice() == written && found.none == none
        }
        _ => false,
    })
}

// Whether these are the elements that the set's read lists in each order, and in some.
fn are_elements(
    rt: &impl Abort,
    alloc: Global,
    told: &Reporter,
    listed: &[u32],
    undecided: &[u32],
) -> Result<bool, NoMemory> {
    let read = Op::LwwRead(elements_of(rt, alloc, &[]));
    let answers = answers_to(alloc, told, 0, &read)?;
    Ok(match &answers {
        Some(PossibleAnswers::Elements(found)) => {
            found.listed.as_slice() == listed
                && found.undecided.as_slice() == undecided
                && found.unasked.is_empty()
        }
        _ => false,
    })
}

// Whether this is the nearest list to the one that was read, with this number of its elements, and where it can change.
fn is_nearest(
    rt: &impl Abort,
    alloc: Global,
    told: &Reporter,
    reported: &[u32],
    nearest: (&[u32], usize, &[u32]),
) -> Result<bool, NoMemory> {
    let read = Op::RgaRead(elements_of(rt, alloc, reported));
    let answers = answers_to(alloc, told, 0, &read)?;
    Ok(match &answers {
        Some(PossibleAnswers::List(found)) => {
            found.list.as_slice() == nearest.0
                && found.kept == nearest.1
                && found.undecided.as_slice() == nearest.2
        }
        _ => false,
    })
}

// Two replicas that report these two operations at the same time, each received by the other one.
fn crossing(rt: &impl Abort, alloc: Global, kind: Kind, one: Command, other: Command) -> Reporter {
    let mut told = reporter_of(rt, alloc, kind, 2, 100);
    is_told(rt, &mut told, one, Reply::Ok(0));
    is_told(rt, &mut told, other, Reply::Ok(1));
    is_told(rt, &mut told, got(0, 1), Reply::Got(1));
    is_told(rt, &mut told, got(1, 0), Reply::Got(0));
    told
}

// Either write can be the last one until a read says which; a replica that received none reads none.
#[test]
fn a_register_has_two_values_until_it_is_read(rt: HostRuntime) -> Result<(), Fail> {
    let alloc = rt.alloc();
    let one = stamped(0, Op::Write(9), 1);
    let other = stamped(1, Op::Write(7), 2);
    let mut told = crossing(&rt, alloc, Kind::Register, one, other);
    assert!(rt; are_values(alloc, &told, 0, &[7, 9], false)?);
    is_told(&rt, &mut told, bare(1, Op::Last(Some(7))), Reply::Ok(2));
    assert!(rt; are_values(alloc, &told, 0, &[7], false)?);
    let fresh = reporter_of(&rt, alloc, Kind::Register, 2, 100);
    assert!(rt; are_values(alloc, &fresh, 1, &[], true)?);
    Ok(())
}

// An element that was added and removed at the same time is in or out until a read says which.
#[test]
fn an_element_is_undecided_until_it_is_read(rt: HostRuntime) -> Result<(), Fail> {
    let alloc = rt.alloc();
    let one = stamped(0, Op::LwwAdd(3), 1);
    let other = stamped(1, Op::LwwRemove(3), 2);
    let mut told = crossing(&rt, alloc, Kind::LwwSet, one, other);
    is_told(&rt, &mut told, stamped(0, Op::LwwAdd(5), 3), Reply::Ok(2));
    assert!(rt; are_elements(&rt, alloc, &told, &[5], &[3])?);
    let read = bare(1, Op::LwwRead(elements_of(&rt, alloc, &[])));
    is_told(&rt, &mut told, read, Reply::Ok(3));
    assert!(rt; are_elements(&rt, alloc, &told, &[5], &[])?);
    Ok(())
}

// Two elements behind the same anchor can come either way round until a read says which.
#[test]
fn a_list_keeps_what_some_order_allows(rt: HostRuntime) -> Result<(), Fail> {
    let alloc = rt.alloc();
    let insert = |element| Op::After { anchor: 0, element };
    let one = stamped(0, insert(1), 1);
    let other = stamped(1, insert(2), 2);
    let mut told = crossing(&rt, alloc, Kind::Rga, one, other);
    assert!(rt; is_nearest(&rt, alloc, &told, &[1, 2], (&[1, 2], 2, &[0]))?);
    assert!(rt; is_nearest(&rt, alloc, &told, &[2, 8, 1], (&[2, 1], 2, &[0]))?);
    let read = bare(1, Op::RgaRead(elements_of(&rt, alloc, &[2, 1])));
    is_told(&rt, &mut told, read, Reply::Ok(2));
    assert!(rt; is_nearest(&rt, alloc, &told, &[1, 2], (&[2, 1], 1, &[]))?);
    Ok(())
}

// Nothing is said of an update, of a read of another kind, or of a replica that does not exist.
#[test]
fn other_operations_have_no_possible_answers(rt: HostRuntime) -> Result<(), Fail> {
    let alloc = rt.alloc();
    let register = reporter_of(&rt, alloc, Kind::Register, 2, 100);
    let counter = reporter_of(&rt, alloc, Kind::Counter, 2, 100);
    let reads = [Op::Write(7), Op::Count(0)];
    for read in &reads {
        assert!(rt; answers_to(alloc, &register, 0, read)?.is_none());
    }
    assert!(rt; answers_to(alloc, &register, 2, &Op::Last(None))?.is_none());
    assert!(rt; answers_to(alloc, &counter, 0, &Op::Last(None))?.is_none());
    Ok(())
}
