//! Measurements of what no contract states: the lock, the room for log entries, and the check of a text.
//!
//!     ra_timing lock       times a million calls of the ticket lock, and of a Mutex around the same log
//!     ra_timing monitor    times a million reports to a monitor behind the ticket lock, and behind a Mutex
//!     ra_timing calls      counts the answers to each of eight threads that submit, in turns by the lock and a Mutex
//!     ra_timing yields     the same with a holder of the lock that yields the processor
//!     ra_timing alone      the same with one thread that submits
//!     ra_timing attempts   the same with two threads that try
//!     ra_timing glances    the same with one that submits and one that glances
//!     ra_timing order      prints the places in the log of calls that wait, and how many were seen to wait
//!     ra_timing room       prints the room for log entries after a reservation for a thousand
//!     ra_timing text       times the check of a million lines beside a plain loop
//!     ra_timing loop       prints how many entries that loop pushes, once, for standard input
//!
//! Without arguments it prints nothing, since the gate runs it so.
#![tactic(auto)]

mod lock;
mod room;
mod text;
mod words;

use crate::words::{Word, word_of};
use anyhow::Result;

fn main(rt: HostRuntime) -> Result<()> {
    match word_of(&rt)? {
        None => Ok(()),
        Some(Word::Lock) => lock::print_times(&rt, rt.alloc()),
        Some(Word::Monitor) => lock::print_monitor_times(&rt, rt.alloc()),
        Some(Word::Asked(asked)) => lock::print_counts(&rt, rt.alloc(), asked),
        Some(Word::Order) => lock::print_places(&rt, rt.alloc()),
        Some(Word::Room) => room::print_room(&rt, rt.alloc()),
        Some(Word::Text) => text::print_times(&rt, rt.alloc()),
        Some(Word::Loop) => text::print_entries(&rt, rt.alloc(), &mut rt.reader()),
    }
}
