//! The check of a million lines, compared with a plain loop that reads the same bytes, splits lines and fields and
//! pushes one log entry for each line.

mod plain;
mod texts;

use anyhow::{Result, bail};
use plain::cut_and_log;
use ra_history_text::check;
use std::alloc::Global;
use std::io;
use std::io::{Print, Read};
use std::time::{Clock, Duration, Instant};
use texts::text_of;

/// The number of lines that are timed.
const LINES: u32 = 1_000_000;

/// The number of times that each is timed, in turns.
const TURNS: u32 = 5;

/// Runs the loop once, and prints how many entries it pushed, so that its run can be timed beside a run of the check.
pub fn print_entries<R: Read>(rt: &impl Print, alloc: Global, reader: &mut R) -> Result<()> {
    let entries = cut_and_log(alloc, reader)?;
    println!(rt; "{entries}")?;
    Ok(())
}

/// Prints the times of check and loop, a line for each turn.
pub fn print_times<R: Clock + Print>(rt: &R, alloc: Global) -> Result<()> {
    println!(rt; "line          check (ms)  lines/s     loop (ms)   lines/s")?;
    for line in ["verdict", "a write 7 @3"] {
        let text = text_of(alloc, line, LINES)?;
        for _ in 0..TURNS {
            print_turn(rt, alloc, line, text.as_bytes())?;
        }
    }
    Ok(())
}

fn print_turn<R: Clock + Print>(rt: &R, alloc: Global, line: &str, text: &[u8]) -> Result<()> {
    let checked = time_of_check(rt, alloc, text)?;
    let cut = time_of_loop(rt, alloc, text)?;
    println!(rt;
        "{line:<12}  {:>10}  {:>10}  {:>9}  {:>10}",
        checked.as_millis(),
        lines_a_second(checked),
        cut.as_millis(),
        lines_a_second(cut)
    )?;
    Ok(())
}

fn lines_a_second(time: Duration) -> u128 {
    let micros = time.as_micros().max(1);
    u128::from(LINES) * 1_000_000 / micros
}

fn time_of_check<R: Clock>(rt: &R, alloc: Global, text: &[u8]) -> Result<Duration> {
    let mut reader = text;
    // The output is discarded, since the loop writes nothing.
    let mut writer = io::sink();
    let start = Instant::now(rt)?;
    let Ok(outcome) = check(alloc, &mut reader, &mut writer) else {
        bail!("the text was not checked");
    };
    let time = start.elapsed(rt)?;
    if outcome.report.calls != LINES {
        bail!("a line was not answered");
    }
    Ok(time)
}

fn time_of_loop<R: Clock>(rt: &R, alloc: Global, text: &[u8]) -> Result<Duration> {
    let mut reader = text;
    let start = Instant::now(rt)?;
    let entries = cut_and_log(alloc, &mut reader)?;
    let time = start.elapsed(rt)?;
    // The two lines before the commands are logged too.
    if entries != LINES as usize + 2 {
        bail!("a line was not logged");
    }
    Ok(time)
}
