//! A round on one desk: 64 threads with one pass each, then 32 threads with two passes each. The desk is closed at the
//! end.
ghost use Rattle.std.specs.Prelude.{All, IfOk, IfSome};
ghost use Rattle.ra_ticket.specs.Passes.{IsPassOf};

use crate::chance::Chance;
use crate::pairs::{Left, pair_up, part};
use crate::plan::REPLICAS;
use crate::record::Record;
use crate::threads::{play_apart, play_in_pairs};
use anyhow::{Result, bail};
use ra_desk::Desk;
use ra_labels::{Kind, NoMemory};
use ra_monitor::Monitor;
use ra_ticket::{Pass, TicketLock};
use std::alloc::Global;
use std::sync::Wait;
use std::sync::atomic::AtomicU32;
use std::thread::Threads;

/// The number of passes.
pub const PASSES: u8 = 64;

/// The parameters of a round.
#[derive(Clone, Copy)]
pub struct Setting {
    /// The kind of the desk's monitor.
    pub kind: Kind,
    /// The seed of the plans of all passes.
    pub seed: u64,
    /// The limit of the log.
    pub limit: u32,
    /// The number of turns of each pass, both alone and beside another one.
    pub turns: u32,
    /// The pass that lies, and the number of commands before the lie, if there is one.
    pub lie: Option<(u8, u32)>,
}

/// The results of a round: the monitor of the closed desk, and the record of each pass.
#[derive(Drop)]
pub struct Closed {
    /// The monitor.
    pub monitor: Monitor,
    /// A record for each pass.
    pub records: Vec<Record>,
    /// The number of passes that were dropped before the end.
    pub dropped: u64,
}

/// Plays the round.
pub fn play<R: Threads + Wait + Sync>(rt: &R, alloc: Global, setting: Setting) -> Result<Closed> {
    match Monitor::new(alloc, setting.kind, REPLICAS, setting.limit) {
        Ok(monitor) => match TicketLock::open(alloc, monitor, PASSES, 0) {
            Ok((desk, passes)) => play_on(rt, alloc, desk, passes, setting),
            Err(_) => bail!("no desk"),
        },
        Err(_) => bail!("no monitor"),
    }
}

// Plays the round on this desk, and closes it.
fn play_on<R: Threads + Wait + Sync>(
    rt: &R,
    alloc: Global,
    desk: Desk,
    passes: Vec<Pass<Monitor>>,
    setting: Setting,
) -> Result<Closed>
    requires { All (IsPassOf desk) passes.items }
{
    match play_both(rt, alloc, &desk, passes, setting) {
        Ok(left) => close(desk, left),
        Err(NoMemory) => bail!("no memory"),
    }
}

// Plays with threads of one pass each, and then with threads of two each.
fn play_both<R: Threads + Wait + Sync>(
    rt: &R,
    alloc: Global,
    desk: &Desk,
    passes: Vec<Pass<Monitor>>,
    setting: Setting,
) -> Result<Left, NoMemory>
    requires { All (IsPassOf desk.now) passes.items }
    ensures { IfOk result (λ left. IfSome left.pass (IsPassOf desk.now)) }
{
    let clock = AtomicU32::new(1);
    let players = play_apart(rt, alloc, desk, &clock, passes, setting)?;
    let pairs = pair_up(alloc, desk, players, Chance::new(setting.seed))?;
    let pairs = play_in_pairs(rt, alloc, desk, &clock, pairs, setting.turns)?;
    part(alloc, desk, pairs)
}

fn close(desk: Desk, left: Left) -> Result<Closed>
    requires { IfSome left.pass (IsPassOf desk) }
{
    let Left {
        pass,
        records,
        dropped,
    } = left;
    match pass {
        Some(pass) => match desk.close(pass) {
            Ok(monitor) => Ok(Closed {
                monitor,
                records,
                dropped,
            }),
            Err(_) => bail!("the desk is not settled"),
        },
        None => bail!("no pass is left"),
    }
}
