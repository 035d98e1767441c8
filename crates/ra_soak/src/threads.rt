//! The threads of a round, which start together. Each has one pass, or two.
ghost use Rattle.std.specs.Prelude.{All, IfOk, IfSome};
ghost use Rattle.ra_ticket.specs.Passes.{IsPassOf};

use crate::pairs::Pair;
use crate::plan::Plan;
use crate::player::{Player, take_turn, take_turn_beside};
use crate::record::Record;
use crate::round::{PASSES, Setting};
use ra_desk::Desk;
use ra_monitor::Monitor;
use ra_ticket::Pass;
use std::alloc::{AllocError, Global};
use std::sync::Wait;
use std::sync::atomic::{AtomicU32, AtomicUsize, Ordering};
use std::thread;
use std::thread::Threads;

// The number of times that a thread looks whether all have started.
const MOST_LOOKS: u32 = 100_000;

// Waits until this many threads have arrived, for a bounded time, since some may be unable to run beside this one.
fn start_together(started: &AtomicUsize, count: usize) {
    started.fetch_add(1, Ordering::SeqCst);
    for _ in 0..MOST_LOOKS {
        if started.load(Ordering::SeqCst) >= count {
            return;
        }
        thread::yield_now();
    }
}

/// Plays the turns of each pass on a thread of its own.
pub fn play_apart<R: Threads + Wait + Sync>(
    rt: &R,
    alloc: Global,
    desk: &Desk,
    clock: &AtomicU32,
    passes: Vec<Pass<Monitor>>,
    setting: Setting,
) -> Result<Vec<Player>, AllocError>
    requires { All (IsPassOf desk.now) passes.items }
    ensures { IfOk result (λ players. All (λ p. IfSome p.pass (IsPassOf desk.now)) players.items) }
{
    let started = AtomicUsize::new(0);
    let count = passes.len();
    thread::map_vec(
        rt,
        passes,
        &|pass: Pass<Monitor>| -> Player
            requires { IsPassOf desk.now pass }
            ensures { IfSome result.pass (IsPassOf desk.entry.now) }
        {
            start_together(&started, count);
            play_alone(rt, alloc, desk, clock, pass, setting)
        },
    )
}

fn play_alone<R: Wait>(
    rt: &R,
    alloc: Global,
    desk: &Desk,
    clock: &AtomicU32,
    pass: Pass<Monitor>,
    setting: Setting,
) -> Player
    requires { IsPassOf desk.now pass }
    ensures { IfSome result.pass (IsPassOf desk.now) }
{
    let mut player = player_of(alloc, desk, pass, setting);
    for _ in 0..setting.turns {
        if take_turn(rt, alloc, desk, clock, &mut player).is_err() {
            player.record.is_short = true;
        }
    }
    player
}

// Returns the pass with its plan. The last pass stays to the end.
fn player_of(alloc: Global, desk: &Desk, pass: Pass<Monitor>, setting: Setting) -> Player
    requires { IsPassOf desk.now pass }
    ensures { IfSome result.pass (IsPassOf desk.now) }
{
    let number = pass.number();
    let seed = setting.seed.wrapping_add(u64::from(number));
    let lies_after = match setting.lie {
        Some((liar, after)) if liar == number => Some(after),
        _ => None,
    };
    let plan = Plan::new(alloc, setting.kind, number, seed, lies_after).staying(
        number == PASSES - 1,
    );
    Player {
        pass: Some(pass),
        plan,
        record: Record::new(alloc, number),
    }
}

/// Plays the turns of each pair of passes on a thread of its own.
pub fn play_in_pairs<R: Threads + Wait + Sync>(
    rt: &R,
    alloc: Global,
    desk: &Desk,
    clock: &AtomicU32,
    pairs: Vec<Pair>,
    turns: u32,
) -> Result<Vec<Pair>, AllocError>
    requires { All (λ p. IfSome p.one.pass (IsPassOf desk.now) × IfSome p.other.pass (IsPassOf desk.now)) pairs.items }
    ensures { IfOk result (λ pairs. All (λ p. IfSome p.one.pass (IsPassOf desk.now)
        × IfSome p.other.pass (IsPassOf desk.now)) pairs.items) }
{
    let started = AtomicUsize::new(0);
    let count = pairs.len();
    thread::map_vec(
        rt,
        pairs,
        &|pair: Pair| -> Pair
            requires { IfSome pair.one.pass (IsPassOf desk.now) × IfSome pair.other.pass (IsPassOf desk.now) }
            ensures { IfSome result.one.pass (IsPassOf desk.entry.now)
                × IfSome result.other.pass (IsPassOf desk.entry.now) }
        {
            start_together(&started, count);
            play_beside(rt, alloc, desk, clock, pair, turns)
        },
    )
}

// Plays the turns of both passes, one after the other.
fn play_beside<R: Wait>(
    rt: &R,
    alloc: Global,
    desk: &Desk,
    clock: &AtomicU32,
    pair: Pair,
    turns: u32,
) -> Pair
    requires { IfSome pair.one.pass (IsPassOf desk.now) × IfSome pair.other.pass (IsPassOf desk.now) }
    ensures { IfSome result.one.pass (IsPassOf desk.now) × IfSome result.other.pass (IsPassOf desk.now) }
{
    let Pair { mut one, mut other } = pair;
    for _ in 0..turns {
        if take_turn_beside(rt, alloc, desk, clock, &mut one, &mut other).is_err() {
            one.record.is_short = true;
        }
        if take_turn_beside(rt, alloc, desk, clock, &mut other, &mut one).is_err() {
            other.record.is_short = true;
        }
    }
    Pair { one, other }
}
