//! The search for the longest beginning of reported labels that some order lists as they are.
ghost use Rattle.std.specs.Prelude.{◌≡◌, ◌<◌, ◌≤◌, ◌+◌, length, take, IfOk, IfSome};
ghost use Rattle.ra_rga_precedence.specs.UpdateConditions.{NameBelow};
ghost use Rattle.ra_precedence.specs.Lasts.{IsOrderFor};
ghost use Rattle.ra_rga_precedence.specs.Beginnings.{IsLongest, SomeStuck};

use ra_labels::NoMemory;
use ra_precedence::{Condition, Solution, order_of, stuck_set};
use std::alloc::Global;

/// A beginning of the reported labels, and an order that lists them as they are.
#[derive(Drop)]
pub struct Beginning {
    /// How many pairs of neighbours it has.
    pub pairs: usize,
    /// The order.
    pub order: Vec<u32>,
}

/// Returns the longest beginning whose pairs some order of the labels below the count lists as they are, or `None` if
/// no order meets the conditions of the records. These are the first `base` conditions. Behind them there is one for
/// each pair, `by` a number from the count on.
///
/// The question is asked first of all pairs. If no order lists them, the conditions of a small stuck set name pairs,
/// and the next question is about those before the last of them. Usually some order lists these, and none does with the
/// next pair, so three questions are enough. Every fourth one is about the middle.
///
/// # Errors
///
/// `NoMemory` if allocation fails, or if there are more than 2^32 conditions.
///
/// # Complexity
///
/// O(log p) times O(n · log n), where `p` is the number of pairs, and `n` the count and the length of the conditions.
/// O(n) if some order lists them all.
pub fn longest_beginning(
    alloc: Global,
    count: u32,
    conditions: &[Condition],
    base: usize,
) -> Result<Option<Beginning>, NoMemory>
    requires named { NameBelow count conditions.now }
    requires within { base ≤ length conditions.now }
    ensures { IfOk result (λ found. IfSome found (IsLongest count conditions.now base)) }
{
    let pairs = conditions.len() - base;
    match order_of(alloc, count, conditions)? {
        Solution::Order(order) => Ok(Some(Beginning { pairs, order })),
        Solution::Stuck(set) => {
            let likely = pairs_before(alloc, count, conditions, set)?;
            let found = search(alloc, count, conditions, base, likely)?;
            Ok(found)
        }
    }
}

// Returns the longest beginning, if no order lists all pairs. The likely number of pairs is asked about first.
fn search(
    alloc: Global,
    count: u32,
    conditions: &[Condition],
    base: usize,
    likely: usize,
) -> Result<Option<Beginning>, NoMemory>
    requires named { NameBelow count conditions.now }
    requires within { base ≤ length conditions.now }
    requires stuck { SomeStuck count conditions.now }
    ensures { IfOk result (λ found. IfSome found (IsLongest count conditions.now base)) }
{
    let mut found: Option<Beginning> = None;
    let mut kept: usize = 0;
    let mut refused = conditions.len() - base;
    let mut likely = likely;
    let mut turn = 0u8;
    while kept + 1 < refused {
        let next = next_number(kept, refused, likely, turn);
        let asked = &conditions[..base + next];
        match order_of(alloc, count, asked)? {
            Solution::Order(order) => {
                kept = next;
                likely = refused;
                found = Some(Beginning { pairs: next, order });
            }
            Solution::Stuck(set) => {
                refused = next;
                likely = pairs_before(alloc, count, asked, set)?;
            }
        }
        turn = turn.wrapping_add(1) % 4;
    }
    if refused == 0 || found.is_some() {
        return Ok(found);
    }
    let beginning = without_pairs(alloc, count, &conditions[..base])?;
    Ok(beginning)
}

// Returns the beginning without pairs, if some order meets the conditions.
fn without_pairs(
    alloc: Global,
    count: u32,
    conditions: &[Condition],
) -> Result<Option<Beginning>, NoMemory>
    requires { NameBelow count conditions.now }
    ensures { IfOk result (λ found. IfSome found (λ it. (it.pairs ≡ 0)
        × IsOrderFor count conditions.now it.order.items)) }
{
    match order_of(alloc, count, conditions)? {
        Solution::Order(order) => Ok(Some(Beginning { pairs: 0, order })),
        Solution::Stuck(_) => Ok(None),
    }
}

// Returns the number between the bounds about which the question is asked next: the likely one or the next to it, and
// at every fourth turn that in the middle.
fn next_number(kept: usize, refused: usize, likely: usize, turn: u8) -> usize
    requires { kept + 1 < refused }
    ensures above { kept < result }
    ensures below { result < refused }
{
    if turn == 3 {
        kept + (refused - kept) / 2
    } else if likely <= kept {
        kept + 1
    } else if likely < refused {
        likely
    } else {
        refused - 1
    }
}

// Returns how many pairs come before the last one that a small subset of the stuck set names. The search depends on it
// only for its cost.
fn pairs_before(
    alloc: Global,
    count: u32,
    conditions: &[Condition],
    set: Vec<u32>,
) -> Result<usize, NoMemory> {
    let stuck = stuck_set(alloc, count, conditions, set)?;
    let mut pairs: usize = 0;
    for held in &stuck.reasons {
        if held.by >= count {
            pairs = pairs.max((held.by - count) as usize);
        }
    }
    Ok(pairs)
}
