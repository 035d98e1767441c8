//! Texts that a session receives piece by piece, and reports of them.

use super::crossing::{Crossing, KINDS, made_of};
use super::{REPLIES, SETS, is_fault};
use ra_history_text::{CheckFault, Session};
use ra_labels::Kind;
use ra_monitor::Report;
use std::alloc::Global;
use std::process::Abort;

// 200,000 updates, two in a round.
const ROUNDS: u32 = 100_000;

// 10,000 updates, two in a round.
const ROUNDS_IN_PIECES: u32 = 5_000;

// Asserts that a session that is fed the text, this many bytes at a time, answers and reports as expected.
fn is_answered(
    rt: &impl Abort,
    alloc: Global,
    text: &[u8],
    length: usize,
    replies: &[u8],
    report: Report,
) {
    let mut session = Session::new(alloc);
    let mut answer = Vec::new(alloc);
    for piece in text.chunks(length.max(1)) {
        is_fault(rt, session.feed(piece, &mut answer).err(), None, length);
    }
    is_report(rt, session.finish(&mut answer), report, length);
    assert!(rt; answer.as_slice() == replies, "{length} bytes at a time");
}

fn is_report(rt: &impl Abort, ended: Result<Report, CheckFault>, wanted: Report, length: usize) {
    match ended {
        Ok(report) => assert_eq!(rt; report, wanted, "{length} bytes at a time"),
        Err(fault) => is_fault(rt, Some(fault), None, length),
    }
}

// The text is cut at each of its bytes.
#[test]
fn takes_pieces(rt: HostRuntime) {
    let report = Report {
        kind: Kind::OrSet,
        calls: 9,
        labels: 4,
        refused: 1,
        fault: None,
    };
    for length in 1..=SETS.len() {
        let text = SETS.as_bytes();
        is_answered(&rt, rt.alloc(), text, length, REPLIES.as_bytes(), report);
    }
}

#[test]
fn long_texts_are_fed_in_one_piece(rt: HostRuntime) {
    for kind in KINDS {
        let made = made_of(&rt, rt.alloc(), kind, ROUNDS);
        is_taken(&rt, rt.alloc(), &made, made.text().len());
    }
}

#[test]
fn texts_are_fed_in_pieces_of_each_length(rt: HostRuntime) {
    let made = made_of(&rt, rt.alloc(), Kind::OrSet, ROUNDS_IN_PIECES);
    for length in 1..=100 {
        is_taken(&rt, rt.alloc(), &made, length);
    }
}

fn is_taken(rt: &impl Abort, alloc: Global, made: &Crossing, length: usize) {
    is_answered(
        rt,
        alloc,
        made.text(),
        length,
        made.replies(),
        made.report(),
    );
}
