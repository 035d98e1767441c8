//! Tests of `ra_another_order`: what another order explains of a log, before and after a violation.

use crate::commands::{bare, elements_of, got, is_told, reporter_of, stamped};
use ra_another_order::{
    Answer, Reason, SecondOpinion, another_order, linearizes, refutes, second_opinion,
};
use ra_journal::Entry;
use ra_labels::{Cause, Command, Kind, NoMemory, Op, Reply};
use ra_monitor::Reporter;
use ra_precedence::Held;
use std::alloc::Global;
use std::process::Abort;
use std::test::Fail;

fn write(replica: u8, value: u32, clock: u32) -> Command {
    stamped(replica, Op::Write(value), clock)
}

fn read(replica: u8, value: u32) -> Command {
    bare(replica, Op::Last(Some(value)))
}

fn insert(replica: u8, element: u32, clock: u32) -> Command {
    insert_behind(replica, 0, element, clock)
}

fn insert_behind(replica: u8, anchor: u32, element: u32, clock: u32) -> Command {
    stamped(replica, Op::After { anchor, element }, clock)
}

fn listed(rt: &impl Abort, alloc: Global, replica: u8, list: &[u32]) -> Command {
    bare(replica, Op::RgaRead(elements_of(rt, alloc, list)))
}

// What another order explains of the log, from a second call if an allocation fails in the first one. The checks accept
// the answer.
fn answer_to(
    rt: &impl Abort,
    alloc: Global,
    kind: Kind,
    told: &Reporter,
) -> Result<Option<Answer>, NoMemory> {
    let log = told.monitor().log();
    let answer = match another_order(alloc, kind, 2, log) {
        Ok(answer) => answer,
        Err(_) => another_order(alloc, kind, 2, log)?,
    };
    if let Some(found) = &answer {
        assert!(rt; is_shown(alloc, kind, log, found)?);
    }
    Ok(answer)
}

// Whether a check accepts the answer about this log, from a second call if an allocation fails in the first one.
fn is_shown(
    alloc: Global,
    kind: Kind,
    log: &[Entry<Command, Reply>],
    answer: &Answer,
) -> Result<bool, NoMemory> {
    match answer {
        Answer::Exists(order) => {
            let explains = match linearizes(alloc, kind, 2, log, order) {
                Ok(explains) => explains,
                Err(_) => linearizes(alloc, kind, 2, log, order)?,
            };
            Ok(explains == Some(true))
        }
        Answer::NoneExists(reason) => match refutes(alloc, kind, 2, log, reason) {
            Ok(refuted) => Ok(refuted),
            Err(_) => refutes(alloc, kind, 2, log, reason),
        },
    }
}

// What another order explains of the log, from a second call if an allocation fails in the first one. The answer is
// that about the first entries, and a check of those accepts it.
fn opinion(
    rt: &impl Abort,
    alloc: Global,
    told: &Reporter,
    end: usize,
) -> Result<Option<SecondOpinion>, NoMemory> {
    let monitor = told.monitor();
    let (setup, log) = (monitor.setup(), monitor.log());
    let opinion = match second_opinion(alloc, &setup, log, end) {
        Ok(opinion) => opinion,
        Err(_) => second_opinion(alloc, &setup, log, end)?,
    };
    if let Some(found) = &opinion {
        let first = log.get(..end).unwrap_or(log);
        assert!(rt; is_shown(alloc, setup.kind, first, &found.answer)?);
    }
    Ok(opinion)
}

// Whether some order explains the labels that the first entries report, how many labels some order explains, and the
// place of the next one.
fn explained(
    rt: &impl Abort,
    alloc: Global,
    told: &Reporter,
    end: usize,
) -> Result<(bool, u32, Option<u32>), NoMemory> {
    let Some(opinion) = opinion(rt, alloc, told, end)? else {
        panic!(rt; "the question is not asked");
    };
    Ok((
        opinion.answer.exists(),
        opinion.extent.explained,
        opinion.extent.stop,
    ))
}

// The order that explains all labels.
fn order_in(rt: &impl Abort, answer: Option<Answer>) -> Vec<u32> {
    match answer {
        Some(Answer::Exists(order)) => order,
        _ => panic!(rt; "no order explains the labels"),
    }
}

// The reason why none does.
fn reason_in(rt: &impl Abort, answer: Option<Answer>) -> Reason {
    match answer {
        Some(Answer::NoneExists(reason)) => reason,
        _ => panic!(rt; "there is no reason"),
    }
}

// Whether the order explains what the log reports, from a second call if an allocation fails in the first one.
fn is_order(
    alloc: Global,
    kind: Kind,
    told: &Reporter,
    order: &[u32],
) -> Result<Option<bool>, NoMemory> {
    let log = told.monitor().log();
    match linearizes(alloc, kind, 2, log, order) {
        Ok(is) => Ok(is),
        Err(_) => linearizes(alloc, kind, 2, log, order),
    }
}

// Whether the reason shows that none does, from a second call if an allocation fails in the first one.
fn is_reason(
    alloc: Global,
    kind: Kind,
    told: &Reporter,
    reason: &Reason,
) -> Result<bool, NoMemory> {
    let log = told.monitor().log();
    match refutes(alloc, kind, 2, log, reason) {
        Ok(is) => Ok(is),
        Err(_) => refutes(alloc, kind, 2, log, reason),
    }
}

// Whether these are the reasons, in any order: each a label, the one label that comes later, and the label that
// requires it.
fn are_reasons(reasons: &[Held], expected: &[(u32, u32, u32)]) -> bool {
    reasons.len() == expected.len()
        && expected.iter().all(|(label, later, by)| {
            reasons.iter().any(|it| it.label == *label
                && it.after.as_slice() == [*later].as_slice()
                && it.by == *by)
        })
}

// A register whose second write sees the first one and has a lower clock. The last reply is a violation.
fn clock_goes_back(rt: &impl Abort, alloc: Global) -> Reporter {
    let mut told = reporter_of(rt, alloc, Kind::Register, 2, 100);
    is_told(rt, &mut told, write(0, 7, 5), Reply::Ok(0));
    is_told(rt, &mut told, got(1, 0), Reply::Got(0));
    is_told(rt, &mut told, write(1, 9, 4), BACK);
    told
}

// The reply to each command from this violation on.
const BACK: Reply = Reply::No {
    label: 1,
    cause: Cause::Order,
};

// The clocks are wrong, and nothing else is.
#[test]
fn another_order_explains_all(rt: HostRuntime) -> Result<(), Fail> {
    let alloc = rt.alloc();
    let mut told = clock_goes_back(&rt, alloc);
    is_told(&rt, &mut told, read(1, 9), BACK);
    is_told(&rt, &mut told, got(0, 1), BACK);
    is_told(&rt, &mut told, read(0, 9), BACK);
    let order = order_in(&rt, answer_to(&rt, alloc, Kind::Register, &told)?);
    assert_eq!(rt; order.len(), 4);
    assert_eq!(rt; order[0], 0);
    assert_eq!(rt; order[1], 1);
    assert_eq!(rt; explained(&rt, alloc, &told, 3)?, (true, 4, None));
    Ok(())
}

// The first read is explained by another order, and the one after it by none.
#[test]
fn a_later_read_is_explained_by_none(rt: HostRuntime) -> Result<(), Fail> {
    let alloc = rt.alloc();
    let mut told = clock_goes_back(&rt, alloc);
    is_told(&rt, &mut told, read(1, 9), BACK);
    is_told(&rt, &mut told, got(0, 1), BACK);
    is_told(&rt, &mut told, read(0, 7), BACK);
    match reason_in(&rt, answer_to(&rt, alloc, Kind::Register, &told)?) {
        Reason::Lww(ra_any_order::Refutation::Stuck(set)) => {
            assert!(rt; set.labels.as_slice() == [0, 1].as_slice());
            // Label 1 sees label 0, and label 3 reads what label 0 wrote.
            assert!(rt; are_reasons(&set.reasons, &[(0, 1, 1), (1, 0, 3)]));
        }
        _ => panic!(rt; "no set is stuck"),
    }
    assert_eq!(rt; explained(&rt, alloc, &told, 3)?, (true, 3, Some(5)));
    assert_eq!(rt; explained(&rt, alloc, &told, 6)?, (false, 3, Some(5)));
    Ok(())
}

// Another order explains some labels beyond the violation; the search finds the last one whichever entries are asked
// about first.
#[test]
fn the_last_explained_label_is_found(rt: HostRuntime) -> Result<(), Fail> {
    let alloc = rt.alloc();
    let mut told = clock_goes_back(&rt, alloc);
    is_told(&rt, &mut told, got(0, 1), BACK);
    for _ in 0..20 {
        is_told(&rt, &mut told, read(1, 9), BACK);
    }
    for _ in 0..30 {
        is_told(&rt, &mut told, read(0, 7), BACK);
    }
    for end in [0, 3, 4, 23, 24, 25, 26, 54, 1_000].iter() {
        let found = explained(&rt, alloc, &told, *end)?;
        assert_eq!(rt; found, (*end <= 24, 22, Some(24)));
    }
    Ok(())
}

// The insertions of an RGA in the other order explain both reads if they list the same, and no order does otherwise.
#[test]
fn an_rga_has_another_order(rt: HostRuntime) -> Result<(), Fail> {
    let alloc = rt.alloc();
    let violation = Reply::No {
        label: 2,
        cause: Cause::Query,
    };
    let mut told = reporter_of(&rt, alloc, Kind::Rga, 2, 100);
    is_told(&rt, &mut told, insert(0, 1, 1), Reply::Ok(0));
    is_told(&rt, &mut told, insert(1, 2, 2), Reply::Ok(1));
    is_told(&rt, &mut told, got(0, 1), Reply::Got(1));
    is_told(&rt, &mut told, got(1, 0), Reply::Got(0));
    is_told(&rt, &mut told, listed(&rt, alloc, 0, &[1, 2]), violation);
    // 1 was inserted last, and the read stands behind both insertions.
    let order = order_in(&rt, answer_to(&rt, alloc, Kind::Rga, &told)?);
    assert!(rt; order.as_slice() == [1, 0, 2].as_slice());
    assert_eq!(rt; explained(&rt, alloc, &told, 5)?, (true, 3, None));
    is_told(&rt, &mut told, listed(&rt, alloc, 1, &[2, 1]), violation);
    match reason_in(&rt, answer_to(&rt, alloc, Kind::Rga, &told)?) {
        Reason::Rga(ra_rga_precedence::Refutation::Stuck(set)) => {
            assert!(rt; set.labels.as_slice() == [0, 1].as_slice());
            // Label 2 lists 1 before 2, and label 3 the other way round.
            assert!(rt; are_reasons(&set.reasons, &[(0, 1, 3), (1, 0, 2)]));
        }
        _ => panic!(rt; "no set is stuck"),
    }
    Ok(())
}

// An insertion behind an element is explained once the element is inserted, and never if it is not.
#[test]
fn an_anchor_comes_later(rt: HostRuntime) -> Result<(), Fail> {
    let alloc = rt.alloc();
    let violation = Reply::No {
        label: 1,
        cause: Cause::Update,
    };
    let mut told = reporter_of(&rt, alloc, Kind::Rga, 2, 100);
    is_told(&rt, &mut told, insert(0, 1, 1), Reply::Ok(0));
    is_told(&rt, &mut told, insert_behind(0, 5, 2, 2), violation);
    assert_eq!(rt; explained(&rt, alloc, &told, 2)?, (false, 1, Some(1)));
    is_told(&rt, &mut told, insert(1, 5, 3), violation);
    assert_eq!(rt; explained(&rt, alloc, &told, 2)?, (false, 3, None));
    is_told(&rt, &mut told, insert_behind(1, 9, 4, 4), violation);
    is_told(&rt, &mut told, insert(1, 8, 5), violation);
    assert_eq!(rt; explained(&rt, alloc, &told, 2)?, (false, 3, Some(3)));
    Ok(())
}

// A violation of a counter is final already.
#[test]
fn a_counter_has_no_other_order(rt: HostRuntime) -> Result<(), Fail> {
    let alloc = rt.alloc();
    let told = reporter_of(&rt, alloc, Kind::Counter, 2, 100);
    assert!(rt; answer_to(&rt, alloc, Kind::Counter, &told)?.is_none());
    assert!(rt; opinion(&rt, alloc, &told, 0)?.is_none());
    Ok(())
}

// Of two writes, the second of which sees the first one, and a read after them, only one order explains the read.
#[test]
fn orders_of_a_register_are_checked(rt: HostRuntime) -> Result<(), Fail> {
    let alloc = rt.alloc();
    let mut told = clock_goes_back(&rt, alloc);
    is_told(&rt, &mut told, read(1, 9), BACK);
    let kind = Kind::Register;
    assert_eq!(rt; is_order(alloc, kind, &told, &[0, 1, 2])?, Some(true));
    assert_eq!(rt; is_order(alloc, kind, &told, &[1, 0, 2])?, Some(false));
    assert_eq!(rt; is_order(alloc, kind, &told, &[0, 2, 1])?, Some(false));
    assert_eq!(rt; is_order(alloc, kind, &told, &[0, 1])?, Some(false));
    assert_eq!(rt; is_order(alloc, kind, &told, &[0, 1, 2, 2])?, Some(false));
    assert_eq!(rt; is_order(alloc, kind, &told, &[0, 1, 3])?, Some(false));
    assert_eq!(rt; is_order(alloc, Kind::Counter, &told, &[0, 1, 2])?, None);
    is_told(&rt, &mut told, read(1, 7), BACK);
    assert_eq!(rt; is_order(alloc, kind, &told, &[0, 1, 2, 3])?, Some(false));
    Ok(())
}

// Of the two insertions of an RGA the one that is listed first comes last. Where the read stands matters as well: it
// comes after what it sees and after the earlier label of its replica.
#[test]
fn orders_of_an_rga_are_checked(rt: HostRuntime) -> Result<(), Fail> {
    let alloc = rt.alloc();
    let violation = Reply::No {
        label: 2,
        cause: Cause::Query,
    };
    let mut told = reporter_of(&rt, alloc, Kind::Rga, 2, 100);
    is_told(&rt, &mut told, insert(0, 1, 1), Reply::Ok(0));
    is_told(&rt, &mut told, insert(1, 2, 2), Reply::Ok(1));
    is_told(&rt, &mut told, got(0, 1), Reply::Got(1));
    is_told(&rt, &mut told, listed(&rt, alloc, 0, &[1, 2]), violation);
    let kind = Kind::Rga;
    assert_eq!(rt; is_order(alloc, kind, &told, &[1, 0, 2])?, Some(true));
    assert_eq!(rt; is_order(alloc, kind, &told, &[0, 1, 2])?, Some(false));
    assert_eq!(rt; is_order(alloc, kind, &told, &[1, 2, 0])?, Some(false));
    assert_eq!(rt; is_order(alloc, kind, &told, &[2, 1, 0])?, Some(false));
    assert_eq!(rt; is_order(alloc, kind, &told, &[1, 0])?, Some(false));
    Ok(())
}

// The stuck set of a register, and the same one for another kind, without its labels, and with a reason of another
// label.
#[test]
fn a_stuck_set_of_a_register_is_checked(rt: HostRuntime) -> Result<(), Fail> {
    let alloc = rt.alloc();
    let mut told = clock_goes_back(&rt, alloc);
    is_told(&rt, &mut told, read(1, 7), BACK);
    let kind = Kind::Register;
    let found = reason_in(&rt, answer_to(&rt, alloc, kind, &told)?);
    assert!(rt; is_reason(alloc, kind, &told, &found)?);
    assert!(rt; !is_reason(alloc, Kind::Rga, &told, &found)?);
    for change in 0..2 {
        match reason_in(&rt, answer_to(&rt, alloc, kind, &told)?) {
            Reason::Lww(ra_any_order::Refutation::Stuck(mut set)) => {
                assert_eq!(rt; set.reasons.len(), 2);
                if change == 0 {
                    set.labels.clear();
                } else {
                    set.reasons[0].by = 3;
                }
                let changed = Reason::Lww(ra_any_order::Refutation::Stuck(set));
                assert!(rt; !is_reason(alloc, kind, &told, &changed)?);
            }
            _ => panic!(rt; "no set is stuck"),
        }
    }
    Ok(())
}

// A read of a value that nobody wrote, and another label in its place.
#[test]
fn an_impossible_read_is_checked(rt: HostRuntime) -> Result<(), Fail> {
    let alloc = rt.alloc();
    let mut told = clock_goes_back(&rt, alloc);
    is_told(&rt, &mut told, read(1, 8), BACK);
    let kind = Kind::Register;
    let found = reason_in(&rt, answer_to(&rt, alloc, kind, &told)?);
    assert!(rt; is_reason(alloc, kind, &told, &found)?);
    for label in 0..4 {
        let element = None;
        let other = Reason::Lww(ra_any_order::Refutation::Read { label, element });
        assert_eq!(rt; is_reason(alloc, kind, &told, &other)?, label == 2);
    }
    Ok(())
}

// A cycle of two insertions of an RGA, by the insertions alone: each is behind the element of the other one.
#[test]
fn reasons_of_an_rga_are_checked(rt: HostRuntime) -> Result<(), Fail> {
    let alloc = rt.alloc();
    let violation = Reply::No {
        label: 0,
        cause: Cause::Update,
    };
    let kind = Kind::Rga;
    let mut told = reporter_of(&rt, alloc, kind, 2, 100);
    is_told(&rt, &mut told, insert_behind(0, 2, 1, 1), violation);
    let absent = reason_in(&rt, answer_to(&rt, alloc, kind, &told)?);
    assert!(rt; is_reason(alloc, kind, &told, &absent)?);
    let other = Reason::Rga(ra_rga_precedence::Refutation::Root(0));
    assert!(rt; !is_reason(alloc, kind, &told, &other)?);
    is_told(&rt, &mut told, insert_behind(1, 1, 2, 2), violation);
    let stuck = reason_in(&rt, answer_to(&rt, alloc, kind, &told)?);
    assert!(rt; is_reason(alloc, kind, &told, &stuck)?);
    assert!(rt; !is_reason(alloc, kind, &told, &absent)?);
    Ok(())
}

// An LWW set whose read does not list the element that it sees added. A check rejects the reason for other kinds.
#[test]
fn answers_about_a_set_are_checked(rt: HostRuntime) -> Result<(), Fail> {
    let alloc = rt.alloc();
    let kind = Kind::LwwSet;
    let violation = Reply::No {
        label: 1,
        cause: Cause::Query,
    };
    let mut told = reporter_of(&rt, alloc, kind, 2, 100);
    is_told(&rt, &mut told, stamped(0, Op::LwwAdd(4), 1), Reply::Ok(0));
    assert_eq!(rt; is_order(alloc, kind, &told, &[0])?, Some(true));
    let nothing = Op::LwwRead(elements_of(&rt, alloc, &[]));
    is_told(&rt, &mut told, bare(0, nothing), violation);
    assert_eq!(rt; is_order(alloc, kind, &told, &[0, 1])?, Some(false));
    let found = reason_in(&rt, answer_to(&rt, alloc, kind, &told)?);
    assert!(rt; is_reason(alloc, kind, &told, &found)?);
    assert!(rt; !is_reason(alloc, Kind::Counter, &told, &found)?);
    Ok(())
}
