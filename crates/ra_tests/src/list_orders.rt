//! The order of a list's elements that a monitor returns, and the cycle where there is none.

use crate::commands::{elements_of, is_told, list_order_of, reporter_of};
use ra_labels::{Cause, Command, Edge, Insertion, Kind, ListOp, Op, Reply};
use ra_monitor::Reporter;
use std::process::Abort;
use std::test::Fail;

// A report of the first replica.
fn operate(op: ListOp) -> Command {
    Command::Operate {
        replica: 0,
        op: Op::List(op),
        stamp: None,
    }
}

fn insert(left: u32, element: u32, right: u32) -> Command {
    operate(ListOp::Insert(Insertion {
        left,
        element,
        right,
    }))
}

// Asserts that the elements are in this order.
fn is_ordered(rt: &impl Abort, reporter: &Reporter, want: &[u32]) {
    match list_order_of(rt, reporter.monitor()) {
        Some(order) => assert_eq!(rt; order.as_slice(), want),
        None => panic!(rt; "a list has no order"),
    }
}

#[test]
fn a_list_has_an_order_up_to_its_fault(rt: HostRuntime) -> Result<(), Fail> {
    let alloc = rt.alloc();
    let mut list = reporter_of(&rt, alloc, Kind::List, 1, 100);
    is_ordered(&rt, &list, &[]);
    is_told(&rt, &mut list, insert(0, 7, 0), Reply::Ok(0));
    is_told(&rt, &mut list, insert(0, 4, 7), Reply::Ok(1));
    is_told(&rt, &mut list, insert(4, 9, 7), Reply::Ok(2));
    is_told(&rt, &mut list, operate(ListOp::Remove(4)), Reply::Ok(3));
    is_ordered(&rt, &list, &[4, 9, 7]);
    let wrong = operate(ListOp::Read(elements_of(&rt, alloc, &[7, 9])));
    let no = Reply::No {
        label: 4,
        cause: Cause::Order,
    };
    is_told(&rt, &mut list, wrong, no);
    is_ordered(&rt, &list, &[4, 9, 7]);
    is_told(&rt, &mut list, insert(0, 5, 4), no);
    is_ordered(&rt, &list, &[4, 9, 7]);
    Ok(())
}

fn edge(before: u32, after: u32, label: u32) -> Edge {
    Edge {
        before,
        after,
        label,
    }
}

#[test]
fn a_list_without_an_order_has_a_cycle(rt: HostRuntime) -> Result<(), Fail> {
    let alloc = rt.alloc();
    let mut list = reporter_of(&rt, alloc, Kind::List, 1, 100);
    is_told(&rt, &mut list, insert(0, 7, 0), Reply::Ok(0));
    is_told(&rt, &mut list, insert(0, 4, 7), Reply::Ok(1));
    is_told(&rt, &mut list, insert(4, 9, 7), Reply::Ok(2));
    assert!(rt; list.monitor().cycle().is_none());
    let wrong = operate(ListOp::Read(elements_of(&rt, alloc, &[4, 7, 9])));
    let no = Reply::No {
        label: 3,
        cause: Cause::Order,
    };
    is_told(&rt, &mut list, wrong, no);
    // The only cycle of the edges, wherever it begins.
    match list.monitor().cycle() {
        Some(cycle) => {
            assert_eq!(rt; cycle.len(), 2);
            assert!(rt; cycle.contains(&edge(9, 7, 2)));
            assert!(rt; cycle.contains(&edge(7, 9, 3)));
        }
        None => panic!(rt; "no cycle"),
    }
    Ok(())
}

#[test]
fn a_wrong_answer_of_a_list_has_no_cycle(rt: HostRuntime) -> Result<(), Fail> {
    let alloc = rt.alloc();
    let mut list = reporter_of(&rt, alloc, Kind::List, 1, 100);
    is_told(&rt, &mut list, insert(0, 7, 0), Reply::Ok(0));
    let wrong = operate(ListOp::Read(elements_of(&rt, alloc, &[7, 9])));
    let no = Reply::No {
        label: 1,
        cause: Cause::Query,
    };
    is_told(&rt, &mut list, wrong, no);
    assert!(rt; list.monitor().cycle().is_none());
    Ok(())
}

#[test]
fn other_kinds_have_no_order(rt: HostRuntime) -> Result<(), Fail> {
    for kind in [
        Kind::Counter,
        Kind::OrSet,
        Kind::Register,
        Kind::LwwSet,
        Kind::Rga,
    ] {
        let reporter = reporter_of(&rt, rt.alloc(), kind, 1, 100);
        assert!(rt; list_order_of(&rt, reporter.monitor()).is_none());
        assert!(rt; reporter.monitor().cycle().is_none());
    }
    Ok(())
}
