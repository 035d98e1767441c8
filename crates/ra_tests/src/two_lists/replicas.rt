//! The list of one replica, with labels that it issued. Deliveries are tested where records exist (`lists`), since
//! their contract requires some.

use super::elements::insert;
use ra_labels::{Elements, LOWEST, Query, Stamp};
use ra_rga_elements::{ElementList, ROOT};
use ra_rga_replica::ReplicaList;
use std::alloc::Global;
use std::process::Abort;

// The list of a replica, and that of all elements. Each is dropped by one call, and not field by field at the end of a
// test.
struct Own {
    list: ReplicaList,
}

struct All {
    list: ElementList,
}

impl Drop for Own {
    fn drop(self) {
        let Own { list: _ } = self;
    }
}

impl Drop for All {
    fn drop(self) {
        let All { list: _ } = self;
    }
}

fn list_of(rt: &impl Abort, alloc: Global) -> Own {
    match ReplicaList::new(alloc) {
        Ok(list) => Own { list },
        Err(_) => panic!(rt; "no memory"),
    }
}

fn all_of(rt: &impl Abort, alloc: Global) -> All {
    match ElementList::new(alloc) {
        Ok(list) => All { list },
        Err(_) => panic!(rt; "no memory"),
    }
}

// The replica issues an insertion of a new element, which is also added to the list of all. Returns the number of
// steps.
fn put(
    rt: &impl Abort,
    list: &mut ReplicaList,
    all: &mut ElementList,
    label: u32,
    element: u32,
    stamp: Stamp,
    anchor: u32,
) -> u64 {
    let steps = put_own(rt, list, all, label, stamp, anchor);
    assert!(rt; insert(all, element, stamp, anchor) == Ok(true));
    steps
}

// Issues the insertion in the replica's own list.
fn put_own(
    rt: &impl Abort,
    list: &mut ReplicaList,
    all: &ElementList,
    label: u32,
    stamp: Stamp,
    anchor: u32,
) -> u64 {
    assert!(rt; (anchor as usize) < all.len() && all.len() <= 1_000_000);
    match list.put_own(all, label, stamp, anchor) {
        Ok(steps) => steps,
        Err(_) => panic!(rt; "no memory"),
    }
}

// The replica issues a removal. Returns the number of steps.
fn remove_own(
    rt: &impl Abort,
    list: &mut ReplicaList,
    all: &ElementList,
    label: u32,
    number: u32,
) -> u64 {
    assert!(rt; (number as usize) < all.len());
    match list.remove_own(label, number) {
        Ok(steps) => steps,
        Err(_) => panic!(rt; "no memory"),
    }
}

// Returns the list of a replica that joins from the one of this list.
fn copy_of(rt: &impl Abort, list: &ReplicaList) -> Own {
    match list.copy() {
        Ok(list) => Own { list },
        Err(_) => panic!(rt; "no memory"),
    }
}

// Returns `true` if the list shows exactly these elements. It shows none, not even an empty list, while a label waits.
fn shows(list: &ReplicaList, all: &ElementList, elements: Vec<u32>) -> bool {
    list.admits(all, &Query::RgaRead(Elements::new(elements)))
}

// Each element is inserted behind the one before it, and each third one is removed. The list is also copied.
#[test]
fn labels_of_its_own_lead_to_a_state(rt: HostRuntime) {
    let mut all = all_of(&rt, rt.alloc());
    let mut own = list_of(&rt, rt.alloc());
    let shown = grown(&rt, rt.alloc(), &mut own.list, &mut all.list);
    assert_eq!(rt; own.list.greatest().clock, 1_999);
    assert!(rt; shows(&copy_of(&rt, &own.list).list, &all.list, shown));
}

// Grows the list in this way, and returns the elements that stay.
fn grown(
    rt: &impl Abort,
    alloc: Global,
    list: &mut ReplicaList,
    all: &mut ElementList,
) -> Vec<u32> {
    let mut shown = Vec::new(alloc);
    for number in 1..2_000u32 {
        let element = number.wrapping_add(1_000);
        let stamp = Stamp {
            clock: number,
            replica: 1,
        };
        let steps = put(rt, list, all, number, element, stamp, number - 1);
        assert_eq!(rt; steps, 1);
        if number % 3 != 0 {
            assert!(rt; shown.push(element).is_ok());
        } else {
            assert_eq!(rt; remove_own(rt, list, all, number, number), 1);
        }
    }
    shown
}

// The update of a replica's label: an insertion with an anchor and a clock, or a removal.
#[derive(Clone, Copy)]
enum Act {
    Put {
        element: u32,
        clock: u32,
        anchor: u32,
    },
    Remove(u32),
}

// The replica issues these, each with its label and the expected number of steps.
fn are_issued(
    rt: &impl Abort,
    list: &mut ReplicaList,
    all: &mut ElementList,
    replica: u8,
    acts: &[(u32, Act, u64)],
) {
    for (label, act, steps) in acts {
        let taken = match *act {
            Act::Put {
                element,
                clock,
                anchor,
            } => put(
                rt,
                list,
                all,
                *label,
                element,
                Stamp { clock, replica },
                anchor,
            ),
            Act::Remove(number) => remove_own(rt, list, all, *label, number),
        };
        assert_eq!(rt; taken, *steps);
    }
}

const FIRST: Act = Act::Put {
    element: 10,
    clock: 1,
    anchor: ROOT,
};

const BEHIND_IT: Act = Act::Put {
    element: 20,
    clock: 2,
    anchor: 1,
};

const ANOTHER: Act = Act::Put {
    element: 30,
    clock: 3,
    anchor: ROOT,
};

#[test]
fn a_new_list_shows_nothing(rt: HostRuntime) {
    let all = all_of(&rt, rt.alloc());
    let own = list_of(&rt, rt.alloc());
    assert_eq!(rt; own.list.greatest(), LOWEST);
    assert!(rt; shows(&own.list, &all.list, Vec::new(rt.alloc())));
    assert!(rt; !shows(&own.list, &all.list, list_of_one(&rt, rt.alloc(), 10)));
}

// Nothing that the first of two replicas issued was delivered to the second one, which issues labels that depend on it.
#[test]
fn labels_wait_for_what_is_not_there(rt: HostRuntime) {
    let mut all = all_of(&rt, rt.alloc());
    let mut first = list_of(&rt, rt.alloc());
    are_issued(&rt, &mut first.list, &mut all.list, 0, &[(0, FIRST, 1)]);
    let mut second = list_of(&rt, rt.alloc());
    let waiting = [(1, BEHIND_IT, 0), (2, Act::Remove(1), 0)];
    are_issued(&rt, &mut second.list, &mut all.list, 1, &waiting);
    is_greatest(&rt, &second.list, 2, 1);
    assert!(rt; !shows(&second.list, &all.list, Vec::new(rt.alloc())));
    assert!(rt; shows(&first.list, &all.list, list_of_one(&rt, rt.alloc(), 10)));
}

// Asserts that the greatest stamp in the list has this clock and this replica.
fn is_greatest(rt: &impl Abort, list: &ReplicaList, clock: u32, replica: u8) {
    assert_eq!(rt; list.greatest(), Stamp { clock, replica });
}

fn list_of_one(rt: &impl Abort, alloc: Global, element: u32) -> Vec<u32> {
    match vec![in alloc; element] {
        Ok(list) => list,
        Err(_) => panic!(rt; "no memory"),
    }
}

// A replica joins from one with a pending label. The label is pending at the new one too, whose own labels leave the
// other one unchanged.
#[test]
fn those_that_wait_wait_at_a_replica_that_joins(rt: HostRuntime) {
    let mut all = all_of(&rt, rt.alloc());
    let stamp = Stamp {
        clock: 1,
        replica: 0,
    };
    assert!(rt; insert(&mut all.list, 10, stamp, ROOT) == Ok(true));
    let mut own = list_of(&rt, rt.alloc());
    are_issued(&rt, &mut own.list, &mut all.list, 1, &[(1, BEHIND_IT, 0)]);
    let mut copy = copy_of(&rt, &own.list);
    assert!(rt; !shows(&copy.list, &all.list, Vec::new(rt.alloc())));
    are_issued(&rt, &mut copy.list, &mut all.list, 2, &[(2, ANOTHER, 1)]);
    assert!(rt; !shows(&copy.list, &all.list, list_of_one(&rt, rt.alloc(), 30)));
    is_greatest(&rt, &copy.list, 3, 2);
    is_greatest(&rt, &own.list, 2, 1);
}
