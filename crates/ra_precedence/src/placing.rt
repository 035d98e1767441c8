//! Placing labels from the end of an order.
ghost use Rattle.std.specs.Prelude.{◌≡◌, ◌≤◌, ◌<◌, ◌+◌, ◌^◌, ◌==◌, ◌&&◌, nat_lt, ℕ, [], length, get_or, if◌then◌else◌, IfOk, OnOk};
ghost use Rattle.ra_precedence.specs.Conditions.{NameOnlyBelow};
ghost use Rattle.ra_precedence.specs.Placing.{times, AreOpenCounts, AreUses, AreReleased, IsMet, AreUsed, AllArePlaced};

use crate::condition::Condition;
use crate::uses::Uses;
use ra_labels::NoMemory;
use std::alloc::Global;

/// Places each label that can be placed, the last one of the order first. Each number says in how many conditions its
/// label is open, before and after.
///
/// # Errors
///
/// `NoMemory` if allocation fails.
///
/// # Complexity
///
/// O(n), with `n` the number of labels and the length of the conditions.
pub fn place_all(
    alloc: Global,
    conditions: &[Condition],
    uses: &Uses,
    numbers: &mut Vec<u32>,
) -> Result<Vec<u32>, NoMemory>
    requires named { NameOnlyBelow (length numbers.old.items) conditions.now }
    requires used { AreUses conditions.now uses.now }
    requires lists { length uses.now ≡ length numbers.old.items }
    requires open { AreOpenCounts conditions.now [] numbers.old.items }
    requires fits { length numbers.old.items < 2 ^ 32 }
    ensures placed { IfOk result (λ placed. AllArePlaced conditions.now numbers.new.items placed.items) }
    ensures len { length numbers.new.items ≡ length numbers.old.items }
{
    let mut met = Vec::new(alloc);
    met.resize(conditions.len(), false)?;
    let mut placed = free_labels(alloc, numbers.as_slice())?;
    let mut next = 0;
    while next < placed.len() {
        use_label(conditions, uses, &mut met, numbers, &mut placed, next)?;
        next += 1;
    }
    Ok(placed)
}

// Returns the labels that are open in no condition.
fn free_labels(alloc: Global, numbers: &[u32]) -> Result<Vec<u32>, NoMemory>
    requires { length numbers.now < 2 ^ 32 }
    ensures { IfOk result (λ labels. (b : ℕ) → times b labels.items
        ≡ (if nat_lt b (length numbers.now) && get_or numbers.now b 0 == 0 then 1 else 0)) }
{
    let mut labels = Vec::new(alloc);
    for (label, number) in numbers.iter().enumerate() {
        if *number == 0 {
            labels.push(label as u32)?;
        }
    }
    Ok(labels)
}

// Meets each condition that has the next placed label in `after`.
fn use_label(
    conditions: &[Condition],
    uses: &Uses,
    met: &mut Vec<bool>,
    numbers: &mut Vec<u32>,
    placed: &mut Vec<u32>,
    next: usize,
) -> Result<(), NoMemory>
    requires named { NameOnlyBelow (length numbers.old.items) conditions.now }
    requires used { AreUses conditions.now uses.now }
    requires lists { length uses.now ≡ length numbers.old.items }
    requires there { next < length placed.old.items }
    requires kept { AreUsed conditions.now met.old.items numbers.old.items placed.old.items next }
    ensures used { OnOk result
        (AreUsed conditions.now met.new.items numbers.new.items placed.new.items (next + 1)) }
    ensures there { OnOk result (next < length placed.new.items) }
    ensures len { length numbers.new.items ≡ length numbers.old.items }
{
    for index in uses.of(placed[next]) {
        meet(conditions, *index as usize, met, numbers, placed)?;
    }
    Ok(())
}

// Meets the condition with this index, unless it is met already.
fn meet(
    conditions: &[Condition],
    index: usize,
    met: &mut Vec<bool>,
    numbers: &mut Vec<u32>,
    placed: &mut Vec<u32>,
) -> Result<(), NoMemory>
    requires there { index < length conditions.now }
    requires met_len { length met.old.items ≡ length conditions.now }
    requires open { AreOpenCounts conditions.now met.old.items numbers.old.items }
    ensures met { OnOk result (IsMet conditions.now index met.old.items met.new.items numbers.old.items
        numbers.new.items placed.old.items placed.new.items) }
    ensures len { length numbers.new.items ≡ length numbers.old.items }
{
    if !met[index] {
        met[index] = true;
        release(conditions[index].before(), numbers, placed)?;
    }
    Ok(())
}

// Takes one from the number of each of these labels, once for each time it is listed, and places those that reach 0.
fn release(labels: &[u32], numbers: &mut Vec<u32>, placed: &mut Vec<u32>) -> Result<(), NoMemory>
    requires { (b : ℕ) → times b labels.now ≤ get_or numbers.old.items b 0 }
    ensures released { OnOk result (AreReleased labels.now numbers.old.items numbers.new.items placed.old.items
        placed.new.items) }
    ensures len { length numbers.new.items ≡ length numbers.old.items }
{
    for label in labels {
        let index = *label as usize;
        let left = numbers[index] - 1;
        numbers[index] = left;
        if left == 0 {
            placed.push(*label)?;
        }
    }
    Ok(())
}
