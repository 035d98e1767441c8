//! Tests of `ra_rga_precedence`: worked examples, which answers they get, and calls after a failed allocation.

use ra_any_order::is_order_of_labels;
use ra_labels::{Elements, NoMemory, Op};
use ra_precedence::StuckSet;
use ra_rga_precedence::{AnyOrder, Refutation, meets_demands, refutes, some_order};
use ra_visibility::{MOST_LABELS, Tracker};
use std::alloc::Global;
use std::process::Abort;
use std::test::Fail;

// What happens in a history.
#[derive(Drop)]
enum Event {
    // The replica inserts the second element behind the first one.
    After(u8, u32, u32),
    // The replica removes the element.
    Remove(u8, u32),
    // The replica returns this list.
    Read(u8, Vec<u32>),
    // The label is delivered to the replica.
    Got(u8, u32),
}

// The answer of a test: the order or the reason why there is none.
#[derive(Debug, PartialEq, Eq, Drop)]
enum Answer {
    Order(Vec<u32>),
    Stuck(Vec<u32>),
    Twice(u32, u32),
    Root(u32),
    Absent(u32),
    Open(u32, u32),
    Wrong(u32, u32),
    Unlisted(u32, u32),
    Below(u32, u32, u32),
}

// Returns the answer for the history, from a second call if an allocation fails in the first one.
fn answer_to(
    rt: &impl Abort,
    alloc: Global,
    replicas: u8,
    events: &[Event],
) -> Result<Answer, NoMemory> {
    let mut tracker = Tracker::new(alloc, replicas)?;
    let mut performed = Vec::new(alloc);
    for event in events {
        let (replica, op) = match event {
            Event::After(replica, anchor, element) => {
                let op = Op::After {
                    anchor: *anchor,
                    element: *element,
                };
                (*replica, op)
            }
            Event::Remove(replica, element) => (*replica, Op::RgaRemove(*element)),
            Event::Read(replica, list) => (*replica, Op::RgaRead(Elements::new(list.clone()?))),
            Event::Got(replica, label) => {
                assert!(rt; *replica < tracker.replicas());
                assert!(rt; tracker.deliver(*replica, *label).is_ok());
                continue;
            }
        };
        assert!(rt; replica < tracker.replicas());
        assert!(rt; tracker.labels() < MOST_LABELS);
        tracker.issue(replica, op.is_update())?;
        performed.push(op)?;
    }
    let mut operations = Vec::new(alloc);
    for op in &performed {
        operations.push(op)?;
    }
    let answer = match some_order(alloc, &tracker, &operations) {
        Ok(answer) => answer,
        Err(_) => some_order(alloc, &tracker, &operations)?,
    };
    assert!(rt; is_shown(alloc, &tracker, &operations, &answer)?);
    Ok(plain(rt, answer))
}

// Returns whether the checks accept the answer, from a second call if an allocation fails in the first one.
fn is_shown(
    alloc: Global,
    tracker: &Tracker,
    operations: &[&Op],
    answer: &AnyOrder,
) -> Result<bool, NoMemory> {
    match answer {
        AnyOrder::Exists(order) => match explains(alloc, tracker, operations, order) {
            Ok(is) => Ok(is),
            Err(_) => explains(alloc, tracker, operations, order),
        },
        AnyOrder::NoneExists(reason) => match refutes(alloc, tracker, operations, reason) {
            Ok(is) => Ok(is),
            Err(_) => refutes(alloc, tracker, operations, reason),
        },
    }
}

fn explains(
    alloc: Global,
    tracker: &Tracker,
    operations: &[&Op],
    order: &[u32],
) -> Result<bool, NoMemory> {
    Ok(
        is_order_of_labels(alloc, tracker, order)?
            && meets_demands(alloc, tracker, operations, order)?,
    )
}

// Returns the answer. A stuck set has to have reasons.
fn plain(rt: &impl Abort, answer: AnyOrder) -> Answer {
    let reason = match answer {
        AnyOrder::Exists(order) => return Answer::Order(order),
        AnyOrder::NoneExists(reason) => reason,
    };
    match reason {
        Refutation::Stuck(StuckSet { labels, reasons }) => {
            assert!(rt; !reasons.is_empty());
            Answer::Stuck(labels)
        }
        Refutation::Twice(m, n) => Answer::Twice(m, n),
        Refutation::Root(label) => Answer::Root(label),
        Refutation::Absent(label) => Answer::Absent(label),
        Refutation::Open { read, label } => Answer::Open(read, label),
        Refutation::Wrong { read, element } => Answer::Wrong(read, element),
        Refutation::Unlisted { read, label } => Answer::Unlisted(read, label),
        Refutation::Below {
            read,
            first,
            second,
        } => Answer::Below(read, first, second),
    }
}

// Returns the labels among these, in the order; none if there is no order.
fn among(alloc: Global, answer: Answer, labels: &[u32]) -> Result<Vec<u32>, NoMemory> {
    let mut found = Vec::new(alloc);
    if let Answer::Order(order) = answer {
        for label in &order {
            if labels.contains(label) {
                found.push(*label)?;
            }
        }
    }
    Ok(found)
}

// Two elements at the front: replicas that list them alike are explained, whatever the clocks say, and others are not.
#[test]
fn two_reads_have_to_agree(rt: HostRuntime) -> Result<(), Fail> {
    let alloc = rt.alloc();
    let mut events = vec![in alloc;
        Event::After(0, 0, 1),
        Event::After(1, 0, 2),
        Event::Got(0, 1),
        Event::Got(1, 0),
        Event::Read(0, vec![in alloc; 1, 2]?),
        Event::Read(1, vec![in alloc; 1, 2]?),
    ]?;
    let found = answer_to(&rt, alloc, 2, &events)?;
    assert_eq!(rt; among(alloc, found, &[0, 1])?, vec![in alloc; 1, 0]?);
    events.pop();
    events.push(Event::Read(1, vec![in alloc; 2, 1]?))?;
    let found = answer_to(&rt, alloc, 2, &events)?;
    assert_eq!(rt; found, Answer::Stuck(vec![in alloc; 0, 1]?));
    Ok(())
}

// Each read stands before the next update of its replica, and behind what it sees, whatever its number is.
#[test]
fn reads_stand_before_the_next_update(rt: HostRuntime) -> Result<(), Fail> {
    let alloc = rt.alloc();
    let events = vec![in alloc;
        Event::After(0, 0, 1),
        Event::Read(1, Vec::new(alloc)),
        Event::After(1, 0, 2),
        Event::Got(0, 2),
        Event::Got(1, 0),
        Event::Read(1, vec![in alloc; 1, 2]?),
        Event::Read(0, vec![in alloc; 1, 2]?),
    ]?;
    let found = answer_to(&rt, alloc, 2, &events)?;
    assert_eq!(rt; found, Answer::Order(vec![in alloc; 1, 2, 0, 3, 4]?));
    Ok(())
}

// Three reads, each of two elements at the front, make a cycle.
#[test]
fn three_reads_make_a_cycle(rt: HostRuntime) -> Result<(), Fail> {
    let alloc = rt.alloc();
    let events = vec![in alloc;
        Event::After(0, 0, 1),
        Event::After(1, 0, 2),
        Event::After(2, 0, 3),
        Event::Got(0, 1),
        Event::Got(1, 2),
        Event::Got(2, 0),
        Event::Read(0, vec![in alloc; 1, 2]?),
        Event::Read(1, vec![in alloc; 2, 3]?),
        Event::Read(2, vec![in alloc; 3, 1]?),
    ]?;
    let found = answer_to(&rt, alloc, 3, &events)?;
    assert_eq!(rt; found, Answer::Stuck(vec![in alloc; 0, 1, 2]?));
    Ok(())
}

// What Yjs shows of five insertions by three clients: no order explains it. The first insertion stands before the
// others, which make a cycle, so it is stuck with them.
#[test]
fn one_read_of_five_insertions(rt: HostRuntime) -> Result<(), Fail> {
    let alloc = rt.alloc();
    let events = vec![in alloc;
        Event::After(0, 0, 9),
        Event::Got(1, 0),
        Event::Got(2, 0),
        Event::After(1, 9, 3),
        Event::After(1, 0, 4),
        Event::After(0, 0, 5),
        Event::Got(2, 3),
        Event::After(2, 9, 6),
        Event::Got(2, 1),
        Event::Got(2, 2),
        Event::Read(2, vec![in alloc; 5, 4, 9, 3, 6]?),
    ]?;
    let found = answer_to(&rt, alloc, 3, &events)?;
    assert_eq!(rt; found, Answer::Stuck(vec![in alloc; 0, 1, 2, 3, 4]?));
    Ok(())
}

// An element and the one behind it stay together: a read that tears them apart is refuted.
#[test]
fn a_subtree_stays_together(rt: HostRuntime) -> Result<(), Fail> {
    let alloc = rt.alloc();
    let mut events = vec![in alloc;
        Event::After(0, 0, 1),
        Event::After(0, 1, 2),
        Event::After(1, 0, 3),
        Event::Got(1, 0),
        Event::Got(1, 1),
        Event::Read(1, vec![in alloc; 1, 3, 2]?),
    ]?;
    let found = answer_to(&rt, alloc, 2, &events)?;
    assert_eq!(rt; found, Answer::Stuck(vec![in alloc; 0, 2]?));
    events.pop();
    events.push(Event::Read(1, vec![in alloc; 1, 2, 3]?))?;
    let found = answer_to(&rt, alloc, 2, &events)?;
    assert_eq!(rt; among(alloc, found, &[0, 1, 2])?, vec![in alloc; 2, 0, 1]?);
    Ok(())
}

// An update comes after what it sees and after the insertion of its anchor, which its replica need not have.
#[test]
fn updates_come_after_what_they_need(rt: HostRuntime) -> Result<(), Fail> {
    let alloc = rt.alloc();
    let sees = vec![in alloc;
        Event::After(0, 0, 1),
        Event::Got(1, 0),
        Event::After(1, 0, 2),
        Event::Read(1, vec![in alloc; 1, 2]?),
    ]?;
    let found = answer_to(&rt, alloc, 2, &sees)?;
    assert_eq!(rt; found, Answer::Stuck(vec![in alloc; 0, 1]?));
    let mut needs = vec![in alloc;
        Event::After(0, 0, 7),
        Event::After(1, 7, 1),
        Event::After(1, 0, 2),
        Event::Got(0, 1),
        Event::Got(0, 2),
        Event::Read(0, vec![in alloc; 7, 1, 2]?),
    ]?;
    let found = answer_to(&rt, alloc, 2, &needs)?;
    assert_eq!(rt; found, Answer::Stuck(vec![in alloc; 0, 1, 2]?));
    needs.pop();
    needs.push(Event::Read(0, vec![in alloc; 2, 7, 1]?))?;
    let found = answer_to(&rt, alloc, 2, &needs)?;
    assert_eq!(rt; among(alloc, found, &[0, 1, 2])?, vec![in alloc; 0, 1, 2]?);
    let anchor_later = vec![in alloc;
        Event::After(0, 7, 1),
        Event::After(1, 0, 7),
        Event::Got(0, 1),
        Event::Read(0, vec![in alloc; 7, 1]?),
    ]?;
    let found = answer_to(&rt, alloc, 2, &anchor_later)?;
    assert_eq!(rt; among(alloc, found, &[0, 1])?, vec![in alloc; 1, 0]?);
    let cycle = vec![in alloc; Event::After(0, 2, 1), Event::After(1, 1, 2)]?;
    let found = answer_to(&rt, alloc, 2, &cycle)?;
    assert_eq!(rt; found, Answer::Stuck(vec![in alloc; 0, 1]?));
    Ok(())
}

// The place of a removed element is free.
#[test]
fn a_removed_element_is_not_compared(rt: HostRuntime) -> Result<(), Fail> {
    let alloc = rt.alloc();
    let events = vec![in alloc;
        Event::After(0, 0, 1),
        Event::After(1, 0, 2),
        Event::After(2, 0, 3),
        Event::Got(0, 1),
        Event::Remove(0, 2),
        Event::Got(2, 0),
        Event::Got(2, 1),
        Event::Got(2, 3),
        Event::Read(2, vec![in alloc; 1, 3]?),
        Event::Got(0, 2),
        Event::Read(0, vec![in alloc; 1, 3]?),
    ]?;
    let found = answer_to(&rt, alloc, 3, &events)?;
    assert_eq!(rt; among(alloc, found, &[0, 2])?, vec![in alloc; 2, 0]?);
    Ok(())
}

// The reads of one replica see more and more: each lists what is there now, and what is new to it decides.
#[test]
fn later_reads_see_more(rt: HostRuntime) -> Result<(), Fail> {
    let alloc = rt.alloc();
    let mut events = vec![in alloc;
        Event::After(0, 0, 1),
        Event::Read(0, vec![in alloc; 1]?),
        Event::After(1, 0, 2),
        Event::Got(1, 0),
        Event::Read(1, vec![in alloc; 2, 1]?),
        Event::Remove(1, 1),
        Event::Read(1, vec![in alloc; 2]?),
        Event::Got(0, 2),
        Event::Read(0, vec![in alloc; 2, 1]?),
        Event::After(0, 1, 3),
        Event::Got(0, 4),
        Event::Read(0, vec![in alloc; 2, 3]?),
    ]?;
    let found = answer_to(&rt, alloc, 2, &events)?;
    assert_eq!(rt; among(alloc, found, &[0, 2])?, vec![in alloc; 0, 2]?);
    events.push(Event::Read(0, vec![in alloc; 2, 1, 3]?))?;
    assert_eq!(rt; answer_to(&rt, alloc, 2, &events)?, Answer::Wrong(9, 1));
    events.pop();
    events.push(Event::Read(0, vec![in alloc; 2]?))?;
    assert_eq!(rt; answer_to(&rt, alloc, 2, &events)?, Answer::Unlisted(9, 7));
    Ok(())
}

// Each reason that no order can change.
#[test]
fn reasons_apart_from_the_order(rt: HostRuntime) -> Result<(), Fail> {
    let alloc = rt.alloc();
    let twice = vec![in alloc; Event::After(0, 0, 1), Event::After(1, 0, 1)]?;
    assert_eq!(rt; answer_to(&rt, alloc, 2, &twice)?, Answer::Twice(0, 1));
    let root = vec![in alloc; Event::After(0, 0, 0)]?;
    assert_eq!(rt; answer_to(&rt, alloc, 1, &root)?, Answer::Root(0));
    let absent = vec![in alloc; Event::After(0, 7, 1)]?;
    assert_eq!(rt; answer_to(&rt, alloc, 1, &absent)?, Answer::Absent(0));
    let root_removed = vec![in alloc; Event::Remove(0, 0)]?;
    assert_eq!(rt; answer_to(&rt, alloc, 1, &root_removed)?, Answer::Absent(0));
    let open = vec![in alloc;
        Event::After(0, 0, 1),
        Event::Remove(1, 1),
        Event::Got(0, 1),
        Event::Read(0, Vec::new(alloc)),
        Event::Read(1, Vec::new(alloc)),
    ]?;
    assert_eq!(rt; answer_to(&rt, alloc, 2, &open)?, Answer::Open(3, 1));
    let below = vec![in alloc;
        Event::After(0, 0, 1),
        Event::After(0, 1, 2),
        Event::Read(0, vec![in alloc; 2, 1]?),
    ]?;
    assert_eq!(rt; answer_to(&rt, alloc, 1, &below)?, Answer::Below(2, 2, 1));
    let removed = vec![in alloc;
        Event::After(0, 0, 1),
        Event::Remove(0, 1),
        Event::Read(0, vec![in alloc; 1]?),
    ]?;
    assert_eq!(rt; answer_to(&rt, alloc, 1, &removed)?, Answer::Wrong(2, 1));
    let again = vec![in alloc;
        Event::After(0, 0, 1),
        Event::After(0, 1, 2),
        Event::Read(0, vec![in alloc; 1, 2, 2]?),
    ]?;
    assert_eq!(rt; answer_to(&rt, alloc, 1, &again)?, Answer::Wrong(2, 2));
    let unlisted = vec![in alloc; Event::After(0, 0, 1), Event::Read(0, Vec::new(alloc))]?;
    assert_eq!(rt;
        answer_to(&rt, alloc, 1, &unlisted)?,
        Answer::Unlisted(1, 0)
    );
    Ok(())
}
