//! Tests of `ra_any_order`: what the next read of a register can return.

use crate::any_order::{Event, history};
use ra_any_order::possible_values;
use ra_labels::{NoMemory, Op};
use std::alloc::Global;
use std::process::Abort;
use std::test::Fail;

// Returns the values that the replica's next read can return, from a second question if an allocation fails in the
// first one.
fn values_after(
    rt: &impl Abort,
    alloc: Global,
    replicas: u8,
    events: &[Event],
    replica: u8,
) -> Result<Vec<Option<u32>>, NoMemory> {
    match values_once(rt, alloc, replicas, events, replica) {
        Ok(values) => Ok(values),
        Err(_) => values_once(rt, alloc, replicas, events, replica),
    }
}

fn values_once(
    rt: &impl Abort,
    alloc: Global,
    replicas: u8,
    events: &[Event],
    replica: u8,
) -> Result<Vec<Option<u32>>, NoMemory> {
    let (tracker, operations) = history(rt, alloc, replicas, events)?;
    assert!(rt; replica < tracker.replicas());
    possible_values(alloc, tracker, &operations, replica)
}

#[test]
fn either_of_two_writes_can_be_the_last(rt: HostRuntime) -> Result<(), Fail> {
    let alloc = rt.alloc();
    let events = [
        Event::Does(0, Op::Write(7)),
        Event::Does(1, Op::Write(9)),
        Event::Got(2, 0),
        Event::Got(2, 1),
    ];
    let values = values_after(&rt, alloc, 3, &events, 2)?;
    assert_eq!(rt; values.as_slice(), [Some(7), Some(9)].as_slice());
    Ok(())
}

// Replica 2 reads 9 after both writes, so another replica that has both reads 9 too.
#[test]
fn a_read_decides_the_next_one(rt: HostRuntime) -> Result<(), Fail> {
    let alloc = rt.alloc();
    let events = [
        Event::Does(0, Op::Write(7)),
        Event::Does(1, Op::Write(9)),
        Event::Got(2, 0),
        Event::Got(2, 1),
        Event::Does(2, Op::Last(Some(9))),
        Event::Got(0, 1),
    ];
    let values = values_after(&rt, alloc, 3, &events, 0)?;
    assert_eq!(rt; values.as_slice(), [Some(9)].as_slice());
    Ok(())
}

// The write of 9 sees that of 7. Replica 0 has its own write alone.
#[test]
fn an_overwritten_value_is_not_read(rt: HostRuntime) -> Result<(), Fail> {
    let alloc = rt.alloc();
    let events = [
        Event::Does(0, Op::Write(7)),
        Event::Got(1, 0),
        Event::Does(1, Op::Write(9)),
    ];
    let values = values_after(&rt, alloc, 2, &events, 1)?;
    assert_eq!(rt; values.as_slice(), [Some(9)].as_slice());
    let values = values_after(&rt, alloc, 2, &events, 0)?;
    assert_eq!(rt; values.as_slice(), [Some(7)].as_slice());
    Ok(())
}

#[test]
fn nothing_is_read_before_a_write(rt: HostRuntime) -> Result<(), Fail> {
    let alloc = rt.alloc();
    let events = [Event::Does(0, Op::Write(7))];
    let values = values_after(&rt, alloc, 2, &events, 1)?;
    assert_eq!(rt; values.as_slice(), [None].as_slice());
    Ok(())
}
