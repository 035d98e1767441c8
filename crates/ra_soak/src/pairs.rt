//! Pairs of passes that share a thread, and the results of all pairs.
ghost use Rattle.std.specs.Prelude.{◌≡◌, ◌+◌, ◌≤◌, length, All, IfOk, IfSome};
ghost use Rattle.ra_ticket.specs.Passes.{IsPassOf};

use crate::chance::Chance;
use crate::player::Player;
use crate::record::Record;
use crate::round::PASSES;
use ra_desk::Desk;
use ra_labels::NoMemory;
use ra_monitor::Monitor;
use ra_ticket::Pass;
use std::alloc::Global;

/// Two passes on one thread.
#[derive(Drop)]
pub struct Pair {
    /// The one that has its turn first.
    pub one: Player,
    /// The other one.
    pub other: Player,
}

/// The results at the end.
#[derive(Drop)]
pub struct Left {
    /// A remaining pass, if there is one.
    pub pass: Option<Pass<Monitor>>,
    /// All records.
    pub records: Vec<Record>,
    /// The number of passes that were dropped.
    pub dropped: u64,
}

/// Forms pairs of passes at random.
pub fn pair_up(
    alloc: Global,
    desk: &Desk,
    players: Vec<Player>,
    chance: Chance,
) -> Result<Vec<Pair>, NoMemory>
    requires { All (λ p. IfSome p.pass (IsPassOf desk.now)) players.items }
    ensures { IfOk result (λ pairs. All (λ p. IfSome p.one.pass (IsPassOf desk.now)
        × IfSome p.other.pass (IsPassOf desk.now)) pairs.items) }
{
    let mut players = players;
    let mut chance = chance;
    let mut pairs = Vec::new(alloc);
    for _ in 0..PASSES / 2 {
        if players.len() >= 2 {
            pairs.push(draw_pair(desk, &mut players, &mut chance))?;
        }
    }
    Ok(pairs)
}

// Removes two players at random, and returns them as a pair.
fn draw_pair(desk: &Desk, players: &mut Vec<Player>, chance: &mut Chance) -> Pair
    requires two { 2 ≤ length players.old.items }
    requires passes { All (λ p. IfSome p.pass (IsPassOf desk.now)) players.old.items }
    ensures others { All (λ p. IfSome p.pass (IsPassOf desk.now)) players.new.items }
    ensures one { IfSome result.one.pass (IsPassOf desk.now) }
    ensures other { IfSome result.other.pass (IsPassOf desk.now) }
{
    let one = draw(desk, players, chance);
    let other = draw(desk, players, chance);
    Pair { one, other }
}

// Removes a player at random, and returns it.
fn draw(desk: &Desk, players: &mut Vec<Player>, chance: &mut Chance) -> Player
    requires one { 1 ≤ length players.old.items }
    requires passes { All (λ p. IfSome p.pass (IsPassOf desk.now)) players.old.items }
    ensures fewer { length players.new.items + 1 ≡ length players.old.items }
    ensures others { All (λ p. IfSome p.pass (IsPassOf desk.now)) players.new.items }
    ensures drawn { IfSome result.pass (IsPassOf desk.now) }
{
    let at = chance.below(u32::from(PASSES)) as usize % players.len();
    players.swap_remove(at)
}

/// Returns the results of the pairs.
pub fn part(alloc: Global, desk: &Desk, pairs: Vec<Pair>) -> Result<Left, NoMemory>
    requires { All (λ p. IfSome p.one.pass (IsPassOf desk.now) × IfSome p.other.pass (IsPassOf desk.now)) pairs.items }
    ensures { IfOk result (λ left. IfSome left.pass (IsPassOf desk.now)) }
{
    let mut pairs = pairs;
    let mut pass = None;
    let mut records = Vec::new(alloc);
    let mut dropped = 0u64;
    for _ in 0..pairs.len() {
        if let Some(Pair { one, other }) = last_of(desk, &mut pairs) {
            dropped = dropped
                .wrapping_add(u64::from(one.pass.is_none()))
                .wrapping_add(u64::from(other.pass.is_none()));
            records.push(one.record)?;
            records.push(other.record)?;
            pass = first_of(desk, pass, first_of(desk, one.pass, other.pass));
        }
    }
    Ok(Left {
        pass,
        records,
        dropped,
    })
}

// Removes the last pair, and returns it.
fn last_of(desk: &Desk, pairs: &mut Vec<Pair>) -> Option<Pair>
    requires { All (λ p. IfSome p.one.pass (IsPassOf desk.now)
        × IfSome p.other.pass (IsPassOf desk.now)) pairs.old.items }
    ensures others { All (λ p. IfSome p.one.pass (IsPassOf desk.now)
        × IfSome p.other.pass (IsPassOf desk.now)) pairs.new.items }
    ensures last { IfSome result (λ p. IfSome p.one.pass (IsPassOf desk.now)
        × IfSome p.other.pass (IsPassOf desk.now)) }
{
    pairs.pop()
}

// Returns the first of two passes that exists.
fn first_of(
    desk: &Desk,
    one: Option<Pass<Monitor>>,
    other: Option<Pass<Monitor>>,
) -> Option<Pass<Monitor>>
    requires { IfSome one (IsPassOf desk.now) × IfSome other (IsPassOf desk.now) }
    ensures { IfSome result (IsPassOf desk.now) }
{
    match one {
        Some(pass) => Some(pass),
        None => other,
    }
}
