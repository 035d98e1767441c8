//! Whether a list of labels is an order that meets all conditions.
ghost use Rattle.std.specs.Prelude.{◌≡◌, ◌<◌, ◌≤◌, ◌↔◌, ℕ, List, true, IfOk, MatchOption, Contains, get_or};
ghost use Rattle.ra_precedence.specs.Conditions.{HasEachBelow, Meets, MeetsAll};
ghost use Rattle.ra_precedence.specs.Positions.{ArePositions, IsLastPosition, is_before_by_position};

use crate::condition::Condition;
use ra_labels::NoMemory;
use std::alloc::Global;

/// Returns `true` if the list has each label below the count once, nothing else, and meets all conditions. So an order
/// can be checked without knowing how it was found.
///
/// # Errors
///
/// `NoMemory` if allocation fails.
///
/// # Complexity
///
/// O(n), with `n` the count, the length of the list and that of the conditions.
pub fn is_order(
    alloc: Global,
    count: u32,
    conditions: &[Condition],
    order: &[u32],
) -> Result<bool, NoMemory>
    // The result is `true` exactly if the list has each label below the count once and meets all conditions.
    ensures { IfOk result (λ is. (is ≡ true)
        ↔ (HasEachBelow count order.now × MeetsAll order.now conditions.now)) }
{
    match positions_of(alloc, count, order)? {
        Some(positions) => Ok(meets_all(&positions, conditions)),
        None => Ok(false),
    }
}

/// Returns for each label below the count its position in the list, counted from 1; `None` unless the list has each of
/// these labels once, and nothing else. The clause says of the positions only that they grow along the list.
///
/// # Errors
///
/// `NoMemory` if allocation fails.
///
/// # Complexity
///
/// O(n), with `n` the count and the length of the list.
pub fn positions_of(
    alloc: Global,
    count: u32,
    order: &[u32],
) -> Result<Option<Vec<usize>>, NoMemory>
    // The positions are those of an order of the labels below the count; without a result the list is no such order.
    ensures { IfOk result (λ it. MatchOption it (¬ HasEachBelow count order.now)
        (λ positions. HasEachBelow count order.now × ArePositions order.now positions.items)) }
{
    let mut positions: Vec<usize> = Vec::new(alloc);
    positions.resize(count as usize, 0)?;
    for (index, label) in order.iter().enumerate() {
        let at = *label as usize;
        if at >= positions.len() || positions[at] != 0 {
            return Ok(None);
        }
        positions[at] = index + 1;
    }
    if positions.contains(&0) {
        return Ok(None);
    }
    Ok(Some(positions))
}

/// Returns `true` if both labels have a position, and the position of the first one is below that of the second one.
pub fn is_before_by_position(positions: &[usize], first: u32, second: u32) -> bool
    // The result compares both positions, where 0 is none.
    ensures { result ≡ is_before_by_position positions.now first second }
{
    let position = position_in(positions, first);
    0 < position && position < position_in(positions, second)
}

// Returns the position of the label, or 0 if there is none.
fn position_in(positions: &[usize], label: u32) -> usize
    ensures { result ≡ get_or positions.now label 0 }
{
    match positions.get(label as usize) {
        Some(position) => *position,
        None => 0,
    }
}

// Returns `true` if the order of these positions meets all conditions.
fn meets_all(positions: &[usize], conditions: &[Condition]) -> bool
    ensures { (order : List ℕ) → ArePositions order positions.now
        → (result ≡ true) ↔ MeetsAll order conditions.now }
{
    for condition in conditions {
        if !meets(positions, condition) {
            return false;
        }
    }
    true
}

// Returns `true` if the order of these positions meets the condition.
fn meets(positions: &[usize], condition: &Condition) -> bool
    ensures { (order : List ℕ) → ArePositions order positions.now → (result ≡ true) ↔ Meets order condition.now }
{
    let last = last_position(positions, condition.after());
    for label in condition.before() {
        let position = position_in(positions, *label);
        if position == 0 || position >= last {
            return false;
        }
    }
    true
}

// Returns the last position of these labels, or 0 if none has a position.
fn last_position(positions: &[usize], labels: &[u32]) -> usize
    ensures { IsLastPosition positions.now labels.now result }
{
    let mut last = 0;
    for label in labels {
        let position = position_in(positions, *label);
        if position > last {
            last = position;
        }
    }
    last
}
