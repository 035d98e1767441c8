//! Rounds, one after the other, until the time is over or something is found.

use crate::chance::Chance;
use crate::check::finding_in;
use crate::finding::Finding;
use crate::plan::WRITERS;
use crate::round::{Closed, Setting, play};
use crate::words::Words;
use anyhow::Result;
use ra_labels::Kind;
use std::alloc::Global;
use std::io::Print;
use std::sync::Wait;
use std::thread::Threads;
use std::time::{Clock, Duration, Instant};

const KINDS: [Kind; 8] = [
    Kind::Counter,
    Kind::Register,
    Kind::LwwSet,
    Kind::OrSet,
    Kind::Rga,
    Kind::List,
    Kind::Any,
    Kind::MvRegister,
];

// The counts of one round, or of all rounds.
#[derive(Clone, Copy)]
struct Sum {
    rounds: u64,
    calls: u64,
    labels: u64,
    refused: u64,
    busy: u64,
    full: u64,
    looks: u64,
    dropped: u64,
    lies: u64,
}

impl Sum {
    const NOTHING: Sum = Sum {
        rounds: 0,
        calls: 0,
        labels: 0,
        refused: 0,
        busy: 0,
        full: 0,
        looks: 0,
        dropped: 0,
        lies: 0,
    };

    // Returns the counts of one round.
    fn of(closed: &Closed) -> Sum {
        let report = closed.monitor.report();
        let mut sum = Sum {
            rounds: 1,
            labels: u64::from(report.labels),
            refused: u64::from(report.refused),
            dropped: closed.dropped,
            lies: u64::from(report.fault.is_some()),
            ..Sum::NOTHING
        };
        for record in &closed.records {
            sum.calls = sum.calls.wrapping_add(record.told);
            sum.busy = sum.busy.wrapping_add(record.busy);
            sum.full = sum.full.wrapping_add(record.full);
            sum.looks = sum.looks.wrapping_add(record.looks);
        }
        sum
    }

    fn add(&mut self, other: Sum) {
        self.rounds = self.rounds.wrapping_add(other.rounds);
        self.calls = self.calls.wrapping_add(other.calls);
        self.labels = self.labels.wrapping_add(other.labels);
        self.refused = self.refused.wrapping_add(other.refused);
        self.busy = self.busy.wrapping_add(other.busy);
        self.full = self.full.wrapping_add(other.full);
        self.looks = self.looks.wrapping_add(other.looks);
        self.dropped = self.dropped.wrapping_add(other.dropped);
        self.lies = self.lies.wrapping_add(other.lies);
    }
}

/// Plays rounds for this many seconds, and prints a line for each and one for all of them. Returns `true` if nothing
/// was found.
pub fn soak<R: Threads + Wait + Clock + Print + Sync>(
    rt: &R,
    alloc: Global,
    words: Words,
) -> Result<bool> {
    let Words { seconds, seed } = words;
    println!(rt; "soak of {seconds} seconds, seed {seed}")?;
    let start = Instant::now(rt)?;
    let mut chance = Chance::new(seed);
    let mut all = Sum::NOTHING;
    for number in 0..u32::MAX {
        if start.elapsed(rt)?.as_secs() >= seconds {
            break;
        }
        let setting = setting_of(number, &mut chance);
        let (sum, finding) = play_and_check(rt, alloc, setting)?;
        tell_round(rt, number, setting.kind, sum)?;
        all.add(sum);
        if let Some(finding) = finding {
            let kind = setting.kind;
            println!(rt; "found with seed {seed}, in round {number}, of kind {kind:?}: {finding}")?;
            return Ok(false);
        }
    }
    tell_all(rt, all, start.elapsed(rt)?)?;
    Ok(true)
}

// Returns the parameters of the next round. One in four has a lie, and one in four a log that may be too short.
fn setting_of(number: u32, chance: &mut Chance) -> Setting {
    let kind = KINDS[(number % 6) as usize];
    let lie = if chance.is_one_in(4) {
        Some((chance.below(u32::from(WRITERS)) as u8, chance.below(100)))
    } else {
        None
    };
    let limit = if chance.is_one_in(4) { 3_000 } else { 100_000 };
    Setting {
        kind,
        seed: chance.seed(),
        limit,
        turns: 20 + chance.below(200),
        lie,
    }
}

fn play_and_check<R: Threads + Wait + Sync>(
    rt: &R,
    alloc: Global,
    setting: Setting,
) -> Result<(Sum, Option<Finding>)> {
    let closed = play(rt, alloc, setting)?;
    let finding = finding_in(alloc, setting, &closed);
    let sum = Sum::of(&closed);
    // What is closed has many fields. Dropping it by a call lets the proof unfold them once.
    drop(closed);
    Ok((sum, finding?))
}

fn tell_round(rt: &impl Print, number: u32, kind: Kind, sum: Sum) -> Result<()> {
    let Sum {
        calls,
        busy,
        full,
        looks,
        dropped,
        ..
    } = sum;
    let fault = if sum.lies > 0 {
        "a lie told"
    } else {
        "no fault"
    };
    println!(rt;
        "round {number}: {kind:?}, {calls} calls, {busy} busy, {full} full, {looks} looks, {dropped} dropped, {fault}"
    )?;
    Ok(())
}

fn tell_all(rt: &impl Print, all: Sum, time: Duration) -> Result<()> {
    let seconds = time.as_secs().max(1);
    let Sum {
        rounds,
        calls,
        labels,
        refused,
        busy,
        full,
        looks,
        dropped,
        lies,
    } = all;
    println!(rt;
        "{rounds} rounds in {seconds} seconds: {calls} calls, {} a second, with {labels} labels and {refused} \
         refusals; {busy} busy, {full} full, {looks} looks, {dropped} passes dropped, {lies} lies told; nothing found",
        calls / seconds
    )?;
    Ok(())
}
