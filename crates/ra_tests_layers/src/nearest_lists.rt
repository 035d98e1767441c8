//! Tests of `ra_rga_precedence`: the explained answer nearest to a reported one.

use crate::any_order::{Event, history};
use ra_labels::{Elements, NoMemory, Op};
use ra_rga_precedence::{NearestList, nearest_list};
use std::alloc::Global;
use std::process::Abort;
use std::test::Fail;

// What is expected: the list, how many reported elements are kept, and the undecided places.
#[derive(Drop)]
struct Expected<'a> {
    list: &'a [u32],
    kept: usize,
    undecided: &'a [u32],
}

// Returns the nearest answer of the replica, from a second call if an allocation fails in the first one.
fn nearest_after(
    rt: &impl Abort,
    alloc: Global,
    replicas: u8,
    events: &[Event],
    replica: u8,
    reported: &[u32],
) -> Result<Option<NearestList>, NoMemory> {
    match nearest_once(rt, alloc, replicas, events, replica, reported) {
        Ok(nearest) => Ok(nearest),
        Err(_) => nearest_once(rt, alloc, replicas, events, replica, reported),
    }
}

fn nearest_once(
    rt: &impl Abort,
    alloc: Global,
    replicas: u8,
    events: &[Event],
    replica: u8,
    reported: &[u32],
) -> Result<Option<NearestList>, NoMemory> {
    let (tracker, operations) = history(rt, alloc, replicas, events)?;
    assert!(rt; replica < tracker.replicas());
    nearest_list(alloc, tracker, &operations, replica, reported)
}

// Checks the nearest answer.
fn check(
    rt: &impl Abort,
    alloc: Global,
    replicas: u8,
    events: &[Event],
    replica: u8,
    reported: &[u32],
    expected: Expected<'_>,
) -> Result<(), NoMemory> {
    match nearest_after(rt, alloc, replicas, events, replica, reported)? {
        Some(nearest) => {
            assert_eq!(rt; nearest.list.as_slice(), expected.list);
            assert_eq!(rt; nearest.kept, expected.kept);
            assert_eq!(rt; nearest.undecided.as_slice(), expected.undecided);
        }
        None => assert!(rt; false),
    }
    Ok(())
}

fn after(replica: u8, anchor: u32, element: u32) -> Event {
    Event::Does(replica, Op::After { anchor, element })
}

// Two replicas insert 1 and 2 at the front, and a third one receives both.
fn two_at_the_front(alloc: Global) -> Result<Vec<Event>, NoMemory> {
    let events = vec![in alloc;
        after(0, 0, 1),
        after(1, 0, 2),
        Event::Got(2, 0),
        Event::Got(2, 1),
    ]?;
    Ok(events)
}

#[test]
fn an_explained_answer_is_kept(rt: HostRuntime) -> Result<(), Fail> {
    let alloc = rt.alloc();
    let events = [after(0, 0, 1), after(0, 1, 2), after(0, 0, 3)];
    let expected = Expected {
        list: &[3, 1, 2],
        kept: 3,
        undecided: &[],
    };
    check(&rt, alloc, 1, &events, 0, &[3, 1, 2], expected)?;
    Ok(())
}

// Either order of 1 and 2 is explained, until a read decides.
#[test]
fn free_neighbors_are_undecided(rt: HostRuntime) -> Result<(), Fail> {
    let alloc = rt.alloc();
    let mut events = two_at_the_front(alloc)?;
    for reported in [[1, 2], [2, 1]] {
        let expected = Expected {
            list: &reported,
            kept: 2,
            undecided: &[0],
        };
        check(&rt, alloc, 3, &events, 2, &reported, expected)?;
    }
    let read = Op::RgaRead(Elements::new(vec![in alloc; 1, 2]?));
    events.push(Event::Does(2, read))?;
    events.push(Event::Got(0, 1))?;
    for (reported, kept) in [([1, 2], 2), ([2, 1], 1)] {
        let expected = Expected {
            list: &[1, 2],
            kept,
            undecided: &[],
        };
        check(&rt, alloc, 3, &events, 0, &reported, expected)?;
    }
    Ok(())
}

// The insertion of 2 sees that of 1.
#[test]
fn visibility_decides(rt: HostRuntime) -> Result<(), Fail> {
    let alloc = rt.alloc();
    let events = [
        after(0, 0, 1),
        Event::Got(1, 0),
        after(1, 0, 2),
        Event::Got(0, 1),
    ];
    let expected = Expected {
        list: &[2, 1],
        kept: 1,
        undecided: &[],
    };
    check(&rt, alloc, 2, &events, 0, &[1, 2], expected)?;
    Ok(())
}

#[test]
fn an_anchor_comes_first(rt: HostRuntime) -> Result<(), Fail> {
    let alloc = rt.alloc();
    let events = [after(0, 0, 1), after(0, 1, 2), after(0, 2, 3)];
    let expected = Expected {
        list: &[1, 2, 3],
        kept: 2,
        undecided: &[],
    };
    check(&rt, alloc, 1, &events, 0, &[1, 3, 2], expected)?;
    Ok(())
}

// 3 is removed, 4 is not visible, and 9 is never inserted.
#[test]
fn wrong_elements_are_left_out(rt: HostRuntime) -> Result<(), Fail> {
    let alloc = rt.alloc();
    let events = [
        after(0, 0, 1),
        after(0, 1, 2),
        after(0, 2, 3),
        Event::Does(0, Op::RgaRemove(3)),
        after(1, 0, 4),
    ];
    for reported in [
        &[1, 2].as_slice(),
        &[1, 2, 3].as_slice(),
        &[4, 9, 1, 2].as_slice(),
        &[1, 2, 1].as_slice(),
    ] {
        let expected = Expected {
            list: &[1, 2],
            kept: 2,
            undecided: &[],
        };
        check(&rt, alloc, 2, &events, 0, reported, expected)?;
    }
    let expected = Expected {
        list: &[1, 2],
        kept: 1,
        undecided: &[],
    };
    check(&rt, alloc, 2, &events, 0, &[2], expected)?;
    Ok(())
}

// 1 is removed, and 2 keeps its place behind it.
#[test]
fn a_removed_anchor_keeps_its_place(rt: HostRuntime) -> Result<(), Fail> {
    let alloc = rt.alloc();
    let events = [
        after(0, 0, 1),
        after(0, 1, 2),
        Event::Does(0, Op::RgaRemove(1)),
        after(1, 0, 3),
        Event::Got(1, 0),
        Event::Got(1, 1),
        Event::Got(1, 2),
    ];
    for reported in [[3, 2], [2, 3]] {
        let expected = Expected {
            list: &reported,
            kept: 2,
            undecided: &[0],
        };
        check(&rt, alloc, 2, &events, 1, &reported, expected)?;
    }
    Ok(())
}

#[test]
fn an_empty_list_has_no_neighbors(rt: HostRuntime) -> Result<(), Fail> {
    let alloc = rt.alloc();
    for reported in [&[].as_slice(), &[5].as_slice()] {
        let expected = Expected {
            list: &[],
            kept: 0,
            undecided: &[],
        };
        check(&rt, alloc, 1, &[], 0, reported, expected)?;
    }
    Ok(())
}

// Two reads contradict each other. In the other history a replica receives 2 and not its anchor.
#[test]
fn nothing_is_nearest_without_an_order(rt: HostRuntime) -> Result<(), Fail> {
    let alloc = rt.alloc();
    let mut events = two_at_the_front(alloc)?;
    for list in [[1, 2], [2, 1]] {
        let mut elements = Vec::new(alloc);
        elements.extend_from_slice(&list)?;
        events.push(Event::Does(2, Op::RgaRead(Elements::new(elements))))?;
    }
    assert!(&rt; nearest_after(&rt, alloc, 3, &events, 2, &[1, 2])?.is_none());
    let events = [after(0, 0, 1), after(1, 1, 2), Event::Got(2, 1)];
    assert!(&rt; nearest_after(&rt, alloc, 3, &events, 2, &[2])?.is_none());
    Ok(())
}

// A replica has the elements 1 to `count`, which as many replicas inserted at the front.
fn many_at_the_front(alloc: Global, count: u8) -> Result<Vec<Event>, NoMemory> {
    let mut events = Vec::new(alloc);
    for replica in 0..count {
        events.push(after(replica, 0, replica as u32 + 1))?;
        events.push(Event::Got(count, replica as u32))?;
    }
    Ok(events)
}

// Of 19 pairs 16 are asked about: those from the first change on, or else the last ones.
#[test]
fn sixteen_pairs_are_asked_about(rt: HostRuntime) -> Result<(), Fail> {
    let alloc = rt.alloc();
    let events = many_at_the_front(alloc, 20)?;
    let mut reported = Vec::new(alloc);
    let mut places = Vec::new(alloc);
    for element in 1..21u32 {
        reported.push(element)?;
    }
    for place in 0..19u32 {
        places.push(place)?;
    }
    let expected = Expected {
        list: &reported,
        kept: 20,
        undecided: places.get(3..).unwrap_or(&[]),
    };
    check(&rt, alloc, 21, &events, 20, &reported, expected)?;
    let mut wrong = vec![in alloc; 99]?;
    wrong.extend_from_slice(&reported)?;
    let expected = Expected {
        list: &reported,
        kept: 20,
        undecided: places.get(..16).unwrap_or(&[]),
    };
    check(&rt, alloc, 21, &events, 20, &wrong, expected)?;
    Ok(())
}

// Another replica read 1 to 20. The reported list has the pair at one place the other way round.
#[test]
fn the_longest_beginning_is_kept(rt: HostRuntime) -> Result<(), Fail> {
    let alloc = rt.alloc();
    let mut events = many_at_the_front(alloc, 20)?;
    let mut list = Vec::new(alloc);
    for element in 1..21u32 {
        list.push(element)?;
        events.push(Event::Got(21, element - 1))?;
    }
    events.push(Event::Does(21, Op::RgaRead(Elements::new(list.clone()?))))?;
    for place in 0..19usize {
        let mut reported = list.clone()?;
        assert!(rt; place + 1 < reported.len());
        reported.swap(place, place + 1);
        let expected = Expected {
            list: &list,
            kept: place + 1,
            undecided: &[],
        };
        check(&rt, alloc, 22, &events, 20, &reported, expected)?;
    }
    let mut reported = list.clone()?;
    reported.reverse();
    let expected = Expected {
        list: &list,
        kept: 1,
        undecided: &[],
    };
    check(&rt, alloc, 22, &events, 20, &reported, expected)?;
    Ok(())
}

// Each element stands behind the one before it, so the tree is as deep as the list is long.
#[test]
fn a_deep_tree_is_listed(rt: HostRuntime) -> Result<(), Fail> {
    let alloc = rt.alloc();
    let mut events = Vec::new(alloc);
    let mut list = Vec::new(alloc);
    for element in 1..10_001u32 {
        events.push(after(0, element - 1, element))?;
        list.push(element)?;
    }
    let expected = Expected {
        list: &list,
        kept: 10_000,
        undecided: &[],
    };
    check(&rt, alloc, 1, &events, 0, &list, expected)?;
    let mut reported = list.clone()?;
    assert!(rt; reported.len() == 10_000);
    reported.swap(9_998, 9_999);
    let expected = Expected {
        list: &list,
        kept: 9_999,
        undecided: &[],
    };
    check(&rt, alloc, 1, &events, 0, &reported, expected)?;
    Ok(())
}
