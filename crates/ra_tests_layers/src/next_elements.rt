//! Tests of `ra_any_order`: which elements the next read of an LWW set can list.

use crate::any_order::{Event, history, read_of};
use ra_any_order::{MOST_ASKED, PossibleElements, possible_elements};
use ra_labels::{NoMemory, Op};
use std::alloc::Global;
use std::process::Abort;
use std::test::Fail;

// What the next read of replica 2 of three replicas can list.
#[derive(Drop)]
struct Expected<'a> {
    listed: &'a [u32],
    undecided: &'a [u32],
    unasked: &'a [u32],
}

// Returns the answer for the next read of replica 2, from a second question if an allocation fails in the first one.
fn found_after(
    rt: &impl Abort,
    alloc: Global,
    events: &[Event],
    first: &[u32],
) -> Result<PossibleElements, NoMemory> {
    match found_once(rt, alloc, events, first) {
        Ok(found) => Ok(found),
        Err(_) => found_once(rt, alloc, events, first),
    }
}

fn found_once(
    rt: &impl Abort,
    alloc: Global,
    events: &[Event],
    first: &[u32],
) -> Result<PossibleElements, NoMemory> {
    let (tracker, operations) = history(rt, alloc, 3, events)?;
    assert!(rt; tracker.replicas() > 2);
    possible_elements(alloc, tracker, &operations, 2, first)
}

fn assert_found(
    rt: &impl Abort,
    alloc: Global,
    events: &[Event],
    first: &[u32],
    expected: &Expected,
) -> Result<(), NoMemory> {
    let found = found_after(rt, alloc, events, first)?;
    assert_eq!(rt; found.listed.as_slice(), expected.listed);
    assert_eq!(rt; found.undecided.as_slice(), expected.undecided);
    assert_eq!(rt; found.unasked.as_slice(), expected.unasked);
    Ok(())
}

// Replica 2 sees the addition of 4 and its removal, which do not see each other, the removal of 5 alone, and the
// addition of 6 alone.
#[test]
fn updates_that_do_not_see_each_other_leave_it_undecided(rt: HostRuntime) -> Result<(), Fail> {
    let alloc = rt.alloc();
    let events = [
        Event::Does(0, Op::LwwAdd(4)),
        Event::Does(1, Op::LwwRemove(4)),
        Event::Does(0, Op::LwwRemove(5)),
        Event::Does(1, Op::LwwAdd(6)),
        Event::Got(2, 0),
        Event::Got(2, 1),
        Event::Got(2, 2),
        Event::Got(2, 3),
    ];
    let expected = Expected {
        listed: &[6],
        undecided: &[4],
        unasked: &[],
    };
    assert_found(&rt, alloc, &events, &[], &expected)?;
    Ok(())
}

#[test]
fn nothing_is_listed_before_an_update_is_delivered(rt: HostRuntime) -> Result<(), Fail> {
    let alloc = rt.alloc();
    let events = [Event::Does(0, Op::LwwAdd(4))];
    let expected = Expected {
        listed: &[],
        undecided: &[],
        unasked: &[],
    };
    assert_found(&rt, alloc, &events, &[4], &expected)?;
    Ok(())
}

// The removal of 4 sees its addition. The addition of 5 sees its removal.
#[test]
fn an_update_decides_over_those_that_it_sees(rt: HostRuntime) -> Result<(), Fail> {
    let alloc = rt.alloc();
    let events = [
        Event::Does(0, Op::LwwAdd(4)),
        Event::Does(0, Op::LwwRemove(5)),
        Event::Got(1, 0),
        Event::Got(1, 1),
        Event::Does(1, Op::LwwRemove(4)),
        Event::Does(1, Op::LwwAdd(5)),
        Event::Got(2, 0),
        Event::Got(2, 1),
        Event::Got(2, 2),
        Event::Got(2, 3),
    ];
    let expected = Expected {
        listed: &[5],
        undecided: &[],
        unasked: &[],
    };
    assert_found(&rt, alloc, &events, &[], &expected)?;
    Ok(())
}

// Replica 0 reads 4 after the addition and the removal, so a replica that has both lists it too.
#[test]
fn a_read_decides_the_next_one_of_another_replica(rt: HostRuntime) -> Result<(), Fail> {
    let alloc = rt.alloc();
    let events = [
        Event::Does(0, Op::LwwAdd(4)),
        Event::Does(1, Op::LwwRemove(4)),
        Event::Got(0, 1),
        Event::Does(0, read_of(alloc, &[4])?),
        Event::Got(2, 0),
        Event::Got(2, 1),
    ];
    let expected = Expected {
        listed: &[4],
        undecided: &[],
        unasked: &[],
    };
    assert_found(&rt, alloc, &events, &[], &expected)?;
    Ok(())
}

// Replica 2 reads 4 itself before the removal is delivered to it: this decides nothing.
#[test]
fn an_earlier_read_of_fewer_updates_decides_nothing(rt: HostRuntime) -> Result<(), Fail> {
    let alloc = rt.alloc();
    let events = [
        Event::Does(0, Op::LwwAdd(4)),
        Event::Does(1, Op::LwwRemove(4)),
        Event::Got(2, 0),
        Event::Does(2, read_of(alloc, &[4])?),
        Event::Got(2, 1),
    ];
    let expected = Expected {
        listed: &[],
        undecided: &[4],
        unasked: &[],
    };
    assert_found(&rt, alloc, &events, &[], &expected)?;
    Ok(())
}

// Replica 0 adds 4 and then removes 5, and replica 1 adds 5 and then removes 4. Each of the elements can be listed, and
// not both.
#[test]
fn two_elements_share_one_order(rt: HostRuntime) -> Result<(), Fail> {
    let alloc = rt.alloc();
    let events = [
        Event::Does(0, Op::LwwAdd(4)),
        Event::Does(0, Op::LwwRemove(5)),
        Event::Does(1, Op::LwwAdd(5)),
        Event::Does(1, Op::LwwRemove(4)),
        Event::Got(2, 0),
        Event::Got(2, 1),
        Event::Got(2, 2),
        Event::Got(2, 3),
    ];
    let expected = Expected {
        listed: &[],
        undecided: &[4, 5],
        unasked: &[],
    };
    assert_found(&rt, alloc, &events, &[], &expected)?;
    Ok(())
}

// Replica 1 has no removal of 5 and reads 4 and 5. So the removal of 4 comes before its addition, and with it the
// addition of 5 before its removal: replica 2 does not list 5.
#[test]
fn a_read_of_one_element_decides_another_one(rt: HostRuntime) -> Result<(), Fail> {
    let alloc = rt.alloc();
    let events = [
        Event::Does(0, Op::LwwAdd(4)),
        Event::Does(0, Op::LwwRemove(5)),
        Event::Does(1, Op::LwwAdd(5)),
        Event::Does(1, Op::LwwRemove(4)),
        Event::Got(1, 0),
        Event::Does(1, read_of(alloc, &[4, 5])?),
        Event::Got(2, 0),
        Event::Got(2, 1),
        Event::Got(2, 2),
        Event::Got(2, 3),
    ];
    let expected = Expected {
        listed: &[4],
        undecided: &[],
        unasked: &[],
    };
    assert_found(&rt, alloc, &events, &[], &expected)?;
    Ok(())
}

// No replica added 4, so no order explains the read of it.
#[test]
fn an_impossible_read_leaves_no_elements(rt: HostRuntime) -> Result<(), Fail> {
    let alloc = rt.alloc();
    let events = [
        Event::Does(0, Op::LwwAdd(5)),
        Event::Got(2, 0),
        Event::Does(1, read_of(alloc, &[4])?),
    ];
    let expected = Expected {
        listed: &[],
        undecided: &[],
        unasked: &[],
    };
    assert_found(&rt, alloc, &events, &[], &expected)?;
    Ok(())
}

// Replica 0 adds and replica 1 removes each element below the count, and both are delivered to replica 2.
fn contested(alloc: Global, count: u32) -> Result<Vec<Event>, NoMemory> {
    let mut events = Vec::new(alloc);
    for element in 0..count {
        events.push(Event::Does(0, Op::LwwAdd(element)))?;
        events.push(Event::Does(1, Op::LwwRemove(element)))?;
    }
    for element in 0..count {
        events.push(Event::Got(2, element.saturating_mul(2)))?;
        events.push(Event::Got(2, element.saturating_mul(2).saturating_add(1)))?;
    }
    Ok(events)
}

// Two of 18 contested elements are not asked about. Those of `first` come before the others; 99 was never added.
#[test]
fn the_first_elements_are_asked_about_before_the_others(rt: HostRuntime) -> Result<(), Fail> {
    let alloc = rt.alloc();
    assert_eq!(&rt; MOST_ASKED, 16);
    let events = contested(alloc, 18)?;
    let expected = Expected {
        listed: &[],
        undecided: &[0, 1, 2, 3, 4, 5, 6, 7, 8, 9, 10, 11, 12, 13, 16, 17],
        unasked: &[14, 15],
    };
    assert_found(&rt, alloc, &events, &[99, 17, 17, 16], &expected)?;
    let events = contested(alloc, 16)?;
    let expected = Expected {
        listed: &[],
        undecided: &[0, 1, 2, 3, 4, 5, 6, 7, 8, 9, 10, 11, 12, 13, 14, 15],
        unasked: &[],
    };
    assert_found(&rt, alloc, &events, &[], &expected)?;
    Ok(())
}
