//! Tests of `ra_any_order`: worked examples, which answers they get, and calls after a failed allocation.

use ra_any_order::{AnyOrder, Refutation, linearizes, refutes, some_order};
use ra_labels::{Elements, NoMemory, Op};
use ra_precedence::StuckSet;
use ra_visibility::{MOST_LABELS, Tracker};
use std::alloc::Global;
use std::process::Abort;
use std::test::Fail;

/// What happens in a history.
#[derive(Drop)]
pub enum Event {
    /// The replica performs the operation.
    Does(u8, Op),
    /// The label is delivered to the replica.
    Got(u8, u32),
}

// The answer of a test: the order; or the stuck set; or the read, and the element of an LWW set.
#[derive(Debug, PartialEq, Eq, Drop)]
enum Answer {
    Order(Vec<u32>),
    Stuck(Vec<u32>),
    Read(u32, Option<u32>),
}

/// Returns the visibility of the history, and its labels' operations.
pub fn history<'a>(
    rt: &impl Abort,
    alloc: Global,
    replicas: u8,
    events: &'a [Event],
) -> Result<(Tracker, Vec<&'a Op>), NoMemory> {
    let mut tracker = Tracker::new(alloc, replicas)?;
    let mut operations = Vec::new(alloc);
    for event in events {
        match event {
            Event::Does(replica, op) => {
                assert!(rt; *replica < tracker.replicas());
                assert!(rt; tracker.labels() < MOST_LABELS);
                tracker.issue(*replica, op.is_update())?;
                operations.push(op)?;
            }
            Event::Got(replica, label) => {
                assert!(rt; *replica < tracker.replicas());
                assert!(rt; tracker.deliver(*replica, *label).is_ok());
            }
        }
    }
    Ok((tracker, operations))
}

// Returns the answer for the history, from a second call if an allocation fails in the first one.
fn answer_to(
    rt: &impl Abort,
    alloc: Global,
    replicas: u8,
    events: &[Event],
) -> Result<Answer, NoMemory> {
    let (tracker, operations) = history(rt, alloc, replicas, events)?;
    let answer = match some_order(alloc, &tracker, &operations) {
        Ok(answer) => answer,
        Err(_) => some_order(alloc, &tracker, &operations)?,
    };
    assert!(rt; is_shown(alloc, &tracker, &operations, &answer)?);
    Ok(plain(rt, answer))
}

// Returns whether a check accepts the answer, from a second call if an allocation fails in the first one.
fn is_shown(
    alloc: Global,
    tracker: &Tracker,
    operations: &[&Op],
    answer: &AnyOrder,
) -> Result<bool, NoMemory> {
    match answer {
        AnyOrder::Exists(order) => match linearizes(alloc, tracker, operations, order) {
            Ok(is) => Ok(is),
            Err(_) => linearizes(alloc, tracker, operations, order),
        },
        AnyOrder::NoneExists(reason) => match refutes(alloc, tracker, operations, reason) {
            Ok(is) => Ok(is),
            Err(_) => refutes(alloc, tracker, operations, reason),
        },
    }
}

// Returns the answer. A stuck set has to have reasons.
fn plain(rt: &impl Abort, answer: AnyOrder) -> Answer {
    match answer {
        AnyOrder::Exists(order) => Answer::Order(order),
        AnyOrder::NoneExists(Refutation::Stuck(StuckSet { labels, reasons })) => {
            assert!(rt; !reasons.is_empty());
            Answer::Stuck(labels)
        }
        AnyOrder::NoneExists(Refutation::Read { label, element }) => Answer::Read(label, element),
    }
}

// Returns the labels among these, in the order; none if there is no order.
fn among(alloc: Global, answer: Answer, labels: &[u32]) -> Result<Vec<u32>, NoMemory> {
    let mut found = Vec::new(alloc);
    if let Answer::Order(order) = answer {
        for label in &order {
            if labels.contains(label) {
                found.push(*label)?;
            }
        }
    }
    Ok(found)
}

// The later write has the lower clock: a read of it is explained, and one of the earlier write is not.
#[test]
fn a_later_write_overwrites(rt: HostRuntime) -> Result<(), Fail> {
    let alloc = rt.alloc();
    let events = [
        Event::Does(0, Op::Write(7)),
        Event::Got(1, 0),
        Event::Does(1, Op::Write(9)),
        Event::Does(1, Op::Last(Some(9))),
    ];
    let found = among(alloc, answer_to(&rt, alloc, 2, &events)?, &[0, 1, 2])?;
    assert_eq!(rt; found.as_slice(), [0, 1, 2].as_slice());
    Ok(())
}

#[test]
fn an_overwritten_value_is_stuck(rt: HostRuntime) -> Result<(), Fail> {
    let alloc = rt.alloc();
    let events = [
        Event::Does(0, Op::Write(7)),
        Event::Got(1, 0),
        Event::Does(1, Op::Write(9)),
        Event::Does(1, Op::Last(Some(7))),
    ];
    let found = answer_to(&rt, alloc, 2, &events)?;
    assert_eq!(rt; found, Answer::Stuck(vec![in alloc; 0, 1]?));
    Ok(())
}

// A write that no other replica sees is not part of the conflict of the others.
#[test]
fn an_unseen_write_is_not_stuck(rt: HostRuntime) -> Result<(), Fail> {
    let alloc = rt.alloc();
    let events = [
        Event::Does(0, Op::Write(7)),
        Event::Does(2, Op::Write(5)),
        Event::Got(1, 0),
        Event::Does(1, Op::Write(9)),
        Event::Does(1, Op::Last(Some(7))),
    ];
    let found = answer_to(&rt, alloc, 3, &events)?;
    assert_eq!(rt; found, Answer::Stuck(vec![in alloc; 0, 2]?));
    Ok(())
}

// A replica's own later write overwrites its earlier one in each order.
#[test]
fn an_own_overwritten_value_is_impossible(rt: HostRuntime) -> Result<(), Fail> {
    let alloc = rt.alloc();
    let events = [
        Event::Does(0, Op::Write(7)),
        Event::Does(0, Op::Write(9)),
        Event::Does(0, Op::Last(Some(7))),
    ];
    assert_eq!(rt; answer_to(&rt, alloc, 1, &events)?, Answer::Read(2, None));
    Ok(())
}

// Two labels write the value that both reads return: one of them comes after the write of the other value.
#[test]
fn one_of_equal_writes_is_the_last(rt: HostRuntime) -> Result<(), Fail> {
    let alloc = rt.alloc();
    let events = [
        Event::Does(0, Op::Write(7)),
        Event::Does(1, Op::Write(7)),
        Event::Does(2, Op::Write(9)),
        Event::Got(0, 2),
        Event::Got(0, 1),
        Event::Got(1, 2),
        Event::Got(2, 0),
        Event::Got(2, 1),
        Event::Does(0, Op::Last(Some(7))),
        Event::Does(2, Op::Last(Some(7))),
    ];
    let found = among(alloc, answer_to(&rt, alloc, 3, &events)?, &[0, 1, 2])?;
    assert_eq!(rt; found.len(), 3);
    assert!(rt; found.last() != Some(&2));
    Ok(())
}

// Of two equal writes the one that could be the last cannot be here: the order of the writes is 0, 2, 1.
#[test]
fn the_other_of_equal_writes_is_the_last(rt: HostRuntime) -> Result<(), Fail> {
    let alloc = rt.alloc();
    let events = [
        Event::Does(0, Op::Write(7)),
        Event::Does(1, Op::Write(7)),
        Event::Does(2, Op::Write(9)),
        Event::Got(0, 2),
        Event::Got(1, 2),
        Event::Got(3, 0),
        Event::Got(3, 1),
        Event::Got(3, 2),
        Event::Does(0, Op::Last(Some(9))),
        Event::Does(1, Op::Last(Some(7))),
        Event::Does(3, Op::Last(Some(7))),
    ];
    let found = among(alloc, answer_to(&rt, alloc, 4, &events)?, &[0, 1, 2])?;
    assert_eq!(rt; found.as_slice(), [0, 2, 1].as_slice());
    Ok(())
}

// No two of these three reads contradict each other.
#[test]
fn three_reads_are_stuck(rt: HostRuntime) -> Result<(), Fail> {
    let alloc = rt.alloc();
    let events = [
        Event::Does(0, Op::Write(7)),
        Event::Does(1, Op::Write(7)),
        Event::Does(2, Op::Write(9)),
        Event::Got(0, 2),
        Event::Got(1, 2),
        Event::Got(3, 0),
        Event::Got(3, 1),
        Event::Got(3, 2),
        Event::Does(0, Op::Last(Some(9))),
        Event::Does(3, Op::Last(Some(7))),
        Event::Does(1, Op::Last(Some(9))),
    ];
    let found = answer_to(&rt, alloc, 4, &events)?;
    assert_eq!(rt; found, Answer::Stuck(vec![in alloc; 0, 1, 2]?));
    Ok(())
}

#[test]
fn a_written_register_has_a_value(rt: HostRuntime) -> Result<(), Fail> {
    let alloc = rt.alloc();
    let events = [
        Event::Does(0, Op::Write(7)),
        Event::Got(1, 0),
        Event::Does(1, Op::Last(None)),
    ];
    assert_eq!(rt; answer_to(&rt, alloc, 2, &events)?, Answer::Read(1, None));
    Ok(())
}

#[test]
fn an_unwritten_register_has_none(rt: HostRuntime) -> Result<(), Fail> {
    let alloc = rt.alloc();
    let none = [Event::Does(0, Op::Last(None))];
    assert_eq!(rt;
        answer_to(&rt, alloc, 1, &none)?,
        Answer::Order(vec![in alloc; 0]?)
    );
    let some = [Event::Does(0, Op::Last(Some(7)))];
    assert_eq!(rt; answer_to(&rt, alloc, 1, &some)?, Answer::Read(0, None));
    Ok(())
}

// Returns the first labels of a test: replica 0 adds 4 and then removes 5, replica 1 adds 5 and then removes 4, and
// replica 2 gets all of it.
fn crossed_updates(alloc: Global) -> Result<Vec<Event>, NoMemory> {
    Ok(vec![in alloc;
        Event::Does(0, Op::LwwAdd(4)),
        Event::Does(0, Op::LwwRemove(5)),
        Event::Does(1, Op::LwwAdd(5)),
        Event::Does(1, Op::LwwRemove(4)),
        Event::Got(2, 0),
        Event::Got(2, 1),
        Event::Got(2, 2),
        Event::Got(2, 3),
    ]?)
}

/// Returns a read of the elements.
pub fn read_of(alloc: Global, elements: &[u32]) -> Result<Op, NoMemory> {
    Ok(Op::LwwRead(Elements::new(elements.to_vec(alloc)?)))
}

// The removal of 4 comes before its addition, although replica 1 removes 4 after it adds 5.
#[test]
fn one_element_of_two_is_explained(rt: HostRuntime) -> Result<(), Fail> {
    let alloc = rt.alloc();
    let mut events = crossed_updates(alloc)?;
    events.push(Event::Does(2, read_of(alloc, &[4])?))?;
    let found = among(alloc, answer_to(&rt, alloc, 3, &events)?, &[0, 1, 2, 3])?;
    assert_eq!(rt; found.as_slice(), [2, 3, 0, 1].as_slice());
    Ok(())
}

// Either element can be in the set, and not both.
#[test]
fn two_elements_are_stuck(rt: HostRuntime) -> Result<(), Fail> {
    let alloc = rt.alloc();
    let mut events = crossed_updates(alloc)?;
    events.push(Event::Does(2, read_of(alloc, &[4, 5])?))?;
    let found = answer_to(&rt, alloc, 3, &events)?;
    assert_eq!(rt; found, Answer::Stuck(vec![in alloc; 0, 1, 2, 3]?));
    Ok(())
}

// Only the removal of 5 is new to the second read. Its condition and that of the first read for 4, which the second
// read does not add again, contradict each other.
#[test]
fn a_second_read_relies_on_the_first(rt: HostRuntime) -> Result<(), Fail> {
    let alloc = rt.alloc();
    let events = [
        Event::Does(0, Op::LwwAdd(4)),
        Event::Does(0, Op::LwwRemove(5)),
        Event::Does(1, Op::LwwAdd(5)),
        Event::Does(1, Op::LwwRemove(4)),
        Event::Got(2, 0),
        Event::Got(2, 2),
        Event::Got(2, 3),
        Event::Does(2, read_of(alloc, &[4, 5])?),
        Event::Got(2, 1),
        Event::Does(2, read_of(alloc, &[4, 5])?),
    ];
    let found = among(
        alloc,
        answer_to(&rt, alloc, 3, &events[..8])?,
        &[0, 1, 2, 3],
    )?;
    assert_eq!(rt; found.as_slice(), [2, 3, 0, 1].as_slice());
    let found = answer_to(&rt, alloc, 3, &events)?;
    assert_eq!(rt; found, Answer::Stuck(vec![in alloc; 0, 1, 2, 3]?));
    Ok(())
}

// A new removal by the same replica replaces the addition as the newest update: nothing can lead to the last read.
#[test]
fn a_new_update_replaces_the_newest_one(rt: HostRuntime) -> Result<(), Fail> {
    let alloc = rt.alloc();
    let events = [
        Event::Does(0, Op::LwwAdd(4)),
        Event::Got(1, 0),
        Event::Does(1, read_of(alloc, &[4])?),
        Event::Does(0, Op::LwwRemove(4)),
        Event::Got(1, 2),
        Event::Does(1, read_of(alloc, &[])?),
        Event::Does(1, read_of(alloc, &[4])?),
    ];
    assert_eq!(rt;
        answer_to(&rt, alloc, 2, &events)?,
        Answer::Read(4, Some(4))
    );
    Ok(())
}

#[test]
fn an_added_element_is_in_the_set(rt: HostRuntime) -> Result<(), Fail> {
    let alloc = rt.alloc();
    let events = [
        Event::Does(0, Op::LwwAdd(4)),
        Event::Got(1, 0),
        Event::Does(1, read_of(alloc, &[])?),
    ];
    let found = answer_to(&rt, alloc, 2, &events)?;
    assert_eq!(rt; found, Answer::Read(1, Some(4)));
    Ok(())
}

#[test]
fn an_element_that_was_not_added_is_not(rt: HostRuntime) -> Result<(), Fail> {
    let alloc = rt.alloc();
    let events = [
        Event::Does(0, Op::LwwAdd(4)),
        Event::Does(0, read_of(alloc, &[4, 9])?),
    ];
    assert_eq!(rt;
        answer_to(&rt, alloc, 1, &events)?,
        Answer::Read(1, Some(9))
    );
    Ok(())
}
