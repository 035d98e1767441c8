//! The largest number of passes on one desk, each on a thread of its own; some of them are dropped.
ghost use Rattle.std.specs.Prelude.{All, IfOk, IfSome};
ghost use Rattle.ra_ticket.specs.Passes.{IsPassOf};

use crate::desks::{Answer, Outcome, are_found, counted, is_told, outcome_of, reply_in};
use crate::lock::GREATEST;
use crate::lock::threads::{last_pass, start_together};
use ra_desk::Desk;
use ra_journal::Entry;
use ra_labels::{Command, Refusal, Reply};
use ra_monitor::Monitor;
use ra_ticket::Pass;
use std::alloc::{AllocError, Global};
use std::process::Abort;
use std::sync::Wait;
use std::sync::atomic::AtomicUsize;
use std::thread;
use std::thread::Threads;

/// The first number of a replica that joins three initial ones, and the number of joins, up to replica 63.
const FIRST_TO_JOIN: u8 = 3;

const JOINS: u32 = 61;

// The commands of a pass, call by call.
#[derive(Clone, Copy)]
enum Asks {
    Verdict,
    /// Joins of the replicas, one after another.
    Joins,
}

impl Asks {
    fn command(self, call: u32) -> Command {
        match self {
            Asks::Verdict => Command::Verdict,
            Asks::Joins => Command::Join {
                replica: FIRST_TO_JOIN + (call % JOINS) as u8,
                from: 0,
            },
        }
    }
}

// The numbers of the replies: of the verdict `yes`, of a full log, and of a worn lock; and for joins, of joined
// replicas and of replicas that existed before.
#[derive(Clone, Copy, Debug, PartialEq, Eq)]
struct AnswerCounts {
    yes: u32,
    full: u32,
    worn: u32,
    joined: u32,
    there: u32,
}

impl AnswerCounts {
    const NOTHING: AnswerCounts = AnswerCounts {
        yes: 0,
        full: 0,
        worn: 0,
        joined: 0,
        there: 0,
    };

    // Returns the number of calls that were replied to.
    fn replied(self) -> u32 {
        self.yes
            .saturating_add(self.joined)
            .saturating_add(self.there)
    }

    fn add(&mut self, answer: Answer) {
        match outcome_of(answer) {
            Outcome::Replied(reply) => self.add_reply(reply),
            Outcome::Full => self.full = self.full.saturating_add(1),
            Outcome::Worn => self.worn = self.worn.saturating_add(1),
            Outcome::HandedBack => {}
        }
    }

    fn add_reply(&mut self, reply: Reply) {
        match reply {
            Reply::Yes(0) => self.yes = self.yes.saturating_add(1),
            Reply::Joined(_) => self.joined = self.joined.saturating_add(1),
            Reply::Refused(Refusal::ReplicaThere) => self.there = self.there.saturating_add(1),
            _ => {}
        }
    }
}

// A pass with the counts of its replies.
#[derive(Drop)]
struct Asked {
    pass: Pass<Monitor>,
    told: AnswerCounts,
}

// Makes this many calls with the pass.
fn ask<R: Wait>(rt: &R, desk: &Desk, pass: Pass<Monitor>, asks: Asks, calls: u32) -> Asked
    requires { IsPassOf desk.now pass }
    ensures { IsPassOf desk.now result.pass }
{
    let mut pass = pass;
    let mut told = AnswerCounts::NOTHING;
    for call in 0..calls {
        told.add(desk.submit(rt, &mut pass, asks.command(call)));
    }
    Asked { pass, told }
}

// Makes this many calls with each pass below this number, on a thread of its own; the threads start together. The
// threads of the other passes drop them before any call.
fn ask_all<R: Threads + Wait + Sync>(
    rt: &R,
    desk: &Desk,
    passes: Vec<Pass<Monitor>>,
    callers: u8,
    asks: Asks,
    calls: u32,
) -> Result<Vec<Option<Asked>>, AllocError>
    requires { All (IsPassOf desk.now) passes.items }
    ensures { IfOk result (λ asked. All (λ one. IfSome one (λ a. IsPassOf desk.now a.pass)) asked.items) }
{
    let started = AtomicUsize::new(0);
    let count = passes.len();
    thread::map_vec(
        rt,
        passes,
        &|pass: Pass<Monitor>| -> Option<Asked>
            requires { IsPassOf desk.now pass }
            ensures { IfSome result (λ a. IsPassOf desk.entry.now a.pass) }
        {
            start_together(&started, count);
            if pass.number() < callers {
                Some(ask(rt, desk, pass, asks, calls))
            } else {
                None
            }
        },
    )
}

// Returns the sum of all counts.
fn told_to(asked: &[Option<Asked>]) -> AnswerCounts {
    let mut all = AnswerCounts::NOTHING;
    for one in asked {
        if let Some(Asked { told, .. }) = one {
            all.yes = all.yes.saturating_add(told.yes);
            all.full = all.full.saturating_add(told.full);
            all.worn = all.worn.saturating_add(told.worn);
            all.joined = all.joined.saturating_add(told.joined);
            all.there = all.there.saturating_add(told.there);
        }
    }
    all
}

// Removes the first of the passes, and returns it and the others.
fn first_of(
    rt: &impl Abort,
    desk: &Desk,
    mut asked: Vec<Option<Asked>>,
) -> (Pass<Monitor>, Vec<Option<Asked>>)
    requires { All (λ one. IfSome one (λ a. IsPassOf desk.now a.pass)) asked.items }
    ensures first { IsPassOf desk.now result.0 }
    ensures others { All (λ one. IfSome one (λ a. IsPassOf desk.now a.pass)) result.1.items }
{
    assert!(rt; !asked.is_empty());
    match asked.remove(0) {
        Some(Asked { pass, .. }) => (pass, asked),
        None => panic!(rt; "the first was dropped"),
    }
}

// Lets the pass meet each of the others, and asserts that it finds this many calls each time.
fn meet_each(
    rt: &impl Abort,
    desk: &Desk,
    first: Pass<Monitor>,
    others: Vec<Option<Asked>>,
    calls: u32,
) -> Pass<Monitor>
    requires { IsPassOf desk.now first × All (λ one. IfSome one (λ a. IsPassOf desk.now a.pass)) others.items }
    ensures { IsPassOf desk.now result }
{
    let mut first = first;
    for other in others {
        first = meet_one(rt, desk, first, other, calls);
    }
    first
}

// Lets the pass meet this one, unless it was dropped.
fn meet_one(
    rt: &impl Abort,
    desk: &Desk,
    first: Pass<Monitor>,
    other: Option<Asked>,
    calls: u32,
) -> Pass<Monitor>
    requires { IsPassOf desk.now first × IfSome other (λ a. IsPassOf desk.now a.pass) }
    ensures { IsPassOf desk.now result }
{
    match other {
        Some(Asked { pass, .. }) => {
            let (first, _other, found) = desk.meet(first, pass);
            assert!(rt; found == calls, "{found} calls");
            first
        }
        None => first,
    }
}

// A test case: the limit of the log, the first ticket, the number of passes, the number of those that call, their
// commands, the number of calls of each, and the expected counts.
type Row = (u32, u64, u8, u8, Asks, u32, AnswerCounts);

// Ten calls of each; a log that is full after fifty calls; ten remaining tickets; half of the passes dropped before any
// call. In the last one each of some passes joins the same replicas, so each replica joins once and exists all other
// times.
const ROWS: [Row; 5] = [
    (
        640,
        0,
        64,
        64,
        Asks::Verdict,
        10,
        AnswerCounts {
            yes: 640,
            ..AnswerCounts::NOTHING
        },
    ),
    (
        50,
        0,
        64,
        64,
        Asks::Verdict,
        1,
        AnswerCounts {
            yes: 50,
            full: 14,
            ..AnswerCounts::NOTHING
        },
    ),
    (
        100,
        GREATEST - 9,
        64,
        64,
        Asks::Verdict,
        1,
        AnswerCounts {
            yes: 10,
            worn: 54,
            ..AnswerCounts::NOTHING
        },
    ),
    (
        6_400,
        0,
        64,
        32,
        Asks::Verdict,
        1,
        AnswerCounts {
            yes: 32,
            ..AnswerCounts::NOTHING
        },
    ),
    (
        1_000,
        0,
        8,
        8,
        Asks::Joins,
        JOINS,
        AnswerCounts {
            joined: 61,
            there: 427,
            ..AnswerCounts::NOTHING
        },
    ),
];

#[test]
fn passes_on_threads_have_their_calls(rt: HostRuntime) {
    for (limit, first, passes, callers, asks, calls, told) in ROWS {
        let (desk, passes) = counted(&rt, rt.alloc(), limit, passes, first);
        let asked = match ask_all(&rt, &desk, passes, callers, asks, calls) {
            Ok(asked) => asked,
            Err(_) => panic!(rt; "no memory"),
        };
        assert_eq!(rt; told_to(asked.as_slice()), told);
        let (mut pass, others) = first_of(&rt, &desk, asked);
        are_found(&rt, desk.glance(&mut pass), told.replied(), None);
        let pass = meet_each(&rt, &desk, pass, others, told.replied());
        match desk.close(pass) {
            Ok(monitor) => {
                is_left(&rt, &monitor, told);
                has_entries_of_each(&rt, monitor.log(), callers, calls);
            }
            Err(_) => panic!(rt; "not settled"),
        }
    }
}

// Three replicas are initial.
fn is_left(rt: &impl Abort, monitor: &Monitor, told: AnswerCounts) {
    let report = monitor.report();
    assert!(rt; report.calls == told.replied() && report.refused == told.there);
    assert_eq!(rt;
        u32::from(monitor.replicas()),
        told.joined.saturating_add(3)
    );
}

// If each call was replied to, each of these passes has an entry for each of its calls, and otherwise at most these.
fn has_entries_of_each(rt: &impl Abort, log: &[Entry<Command, Reply>], passes: u8, calls: u32) {
    let is_each = log.len() == usize::from(passes).saturating_mul(calls as usize);
    for pass in 0..passes {
        let own = log.iter().filter(|entry| entry.pass == pass).count();
        assert!(rt;
            own == calls as usize || (!is_each && own < calls as usize),
            "pass {pass}"
        );
    }
}

// Tries a verdict with each pass in turn, which is replied to.
fn try_in_turn(
    rt: &impl Abort,
    alloc: Global,
    desk: &Desk,
    passes: Vec<Pass<Monitor>>,
) -> Vec<Pass<Monitor>>
    requires { All (IsPassOf desk.now) passes.items }
    ensures { All (IsPassOf desk.now) result.items }
{
    let mut tried = Vec::new(alloc);
    for pass in passes {
        let mut pass = pass;
        let reply = reply_in(desk.try_submit(&mut pass, Command::Verdict));
        is_told(rt, reply, Reply::Yes(0));
        match tried.push(pass) {
            Ok(()) => {}
            Err(_) => panic!(rt; "no memory"),
        }
    }
    tried
}

// On one thread, with a log of exactly this size: the entries have the tickets 0 to 127.
#[test]
fn passes_try_in_turn_twice_round(rt: HostRuntime) {
    let (desk, passes) = counted(&rt, rt.alloc(), 128, 64, 0);
    let passes = try_in_turn(&rt, rt.alloc(), &desk, passes);
    let mut passes = try_in_turn(&rt, rt.alloc(), &desk, passes);
    let pass = last_pass(&rt, &desk, &mut passes);
    match desk.close(pass) {
        Ok(monitor) => are_in_turn(&rt, monitor.log()),
        Err(_) => panic!(rt; "not settled"),
    }
}

fn are_in_turn(rt: &impl Abort, log: &[Entry<Command, Reply>]) {
    assert_eq!(rt; log.len(), 128);
    for (place, entry) in log.iter().enumerate() {
        assert!(rt; entry.ticket == place as u64 && usize::from(entry.pass) == place % 64);
    }
}
