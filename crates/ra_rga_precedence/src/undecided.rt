//! Which neighbours in a list can perhaps come the other way round.
ghost use Rattle.std.specs.Prelude.{◌<◌, ℕ, length, Contains};
ghost use Rattle.ra_rga_precedence.specs.Ranks.{AreNeedRanks};
ghost use Rattle.ra_rga_precedence.specs.UpdateConditions.{AreBelow};

use crate::neighbors::edge;
use crate::relations::{Relation, relation_of};
use ra_labels::NoMemory;
use ra_precedence::{Condition, Solution, name_only_below, order_of};
use ra_visibility::Tracker;
use std::alloc::Global;

/// How many pairs of neighbours are asked about at most.
pub const MOST_ASKED: usize = 16;

/// A pair of neighbours in a list whose order an order of the labels can change.
#[derive(Clone, Copy)]
pub struct FreePair {
    /// The place of the first one.
    pub place: usize,
    /// The insertion under which the first one stands. It is later than the other insertion.
    pub left: u32,
    /// The insertion under which the second one stands.
    pub right: u32,
}

/// Returns the pairs of neighbours among the labels of a list that can come the other way round by the conditions of
/// the records. Neighbours whose order visibility decides are skipped, and of the others at most `MOST_ASKED` are asked
/// about: first those from the given place on, and then those before it, the last one first.
///
/// # Errors
///
/// `NoMemory` if allocation fails, or if there are more than 2^32 conditions.
///
/// # Complexity
///
/// O(n + l · d), where `n` is the number of labels and the length of the conditions, `l` that of the list, and `d` the
/// depth of the tree of insertions.
pub fn free_pairs(
    conditions: &mut Vec<Condition>,
    alloc: Global,
    tracker: &Tracker,
    needed: &[Option<u32>],
    ranks: &[usize],
    labels: &[u32],
    start: usize,
    count: u32,
) -> Result<Vec<FreePair>, NoMemory>
    requires below { AreBelow (length needed.now) needed.now }
    requires ranks { AreNeedRanks needed.now ranks.now }
    requires labels { (m : ℕ) → Contains labels.now m → m < length needed.now }
{
    let pairs = labels.len().saturating_sub(1);
    let mut asked: usize = 0;
    let mut free = Vec::new(alloc);
    for turn in 0..pairs {
        if asked >= MOST_ASKED {
            break;
        }
        let place = place_at(pairs, start, turn);
        let open = open_pair(tracker, needed, ranks, labels[place], labels[place + 1]);
        if let Some((left, right)) = open {
            asked += 1;
            if can_turn(conditions, alloc, left, right, count)? {
                free.push(FreePair { place, left, right })?;
            }
        }
    }
    Ok(free)
}

// Returns `true` if some order that meets the conditions has the second label after the first one.
fn can_turn(
    conditions: &mut Vec<Condition>,
    alloc: Global,
    first: u32,
    second: u32,
    count: u32,
) -> Result<bool, NoMemory> {
    let condition = edge(alloc, count, first, second)?;
    conditions.push(condition)?;
    let found = order_if_any(alloc, count, conditions)?;
    conditions.pop();
    Ok(found.is_some())
}

/// Returns an order that meets the conditions, if they name labels below the count and there is such an order.
///
/// # Errors
///
/// `NoMemory` if allocation fails, or if there are more than 2^32 conditions.
///
/// # Complexity
///
/// O(n), with `n` the count and the length of the conditions.
pub fn order_if_any(
    alloc: Global,
    count: u32,
    conditions: &[Condition],
) -> Result<Option<Vec<u32>>, NoMemory> {
    if !name_only_below(count, conditions) {
        return Ok(None);
    }
    match order_of(alloc, count, conditions)? {
        Solution::Order(order) => Ok(Some(order)),
        Solution::Stuck(_) => Ok(None),
    }
}

// Returns the place of a turn: those from the start on, and then those before it, the last one first.
fn place_at(pairs: usize, start: usize, turn: usize) -> usize
    requires { turn < pairs }
    ensures { result < pairs }
{
    if start >= pairs {
        pairs - 1 - turn
    } else if turn < pairs - start {
        start + turn
    } else {
        pairs - 1 - turn
    }
}

// Returns the insertions that decide which of two labels comes first, if there are such ones and visibility does not
// decide: the later one of them comes first, and so does what stands under it.
fn open_pair(
    tracker: &Tracker,
    needed: &[Option<u32>],
    ranks: &[usize],
    first: u32,
    second: u32,
) -> Option<(u32, u32)>
    requires below { AreBelow (length needed.now) needed.now }
    requires ranks { AreNeedRanks needed.now ranks.now }
    requires first { first < length needed.now }
    requires second { second < length needed.now }
{
    match relation_of(needed, ranks, first, second) {
        Relation::Under => None,
        Relation::Above => None,
        Relation::Apart { left, right } => open_between(tracker, left, right),
    }
}

// Returns the two labels, unless the first one sees the second one.
fn open_between(tracker: &Tracker, left: u32, right: u32) -> Option<(u32, u32)> {
    if left < tracker.labels() && tracker.vis(left).has(right) {
        return None;
    }
    Some((left, right))
}
