//! In how many conditions each label is open: in how many that are not met it has to stand before others.
ghost use Rattle.std.specs.Prelude.{◌≡◌, ◌+◌, ◌<◌, ℕ, length, get_or, Contains, [], IfOk, OnOk};
ghost use Rattle.ra_precedence.specs.Conditions.{NameOnlyBelow};
ghost use Rattle.ra_precedence.specs.Placing.{times, AreOpenCounts};

use crate::condition::Condition;
use ra_labels::NoMemory;
use std::alloc::Global;

/// Returns in how many conditions each label is open if none is met.
///
/// # Errors
///
/// `NoMemory` if allocation fails, or if a label is in `before` 2^32 times.
///
/// # Complexity
///
/// O(n), with `n` the count and the length of the conditions.
pub fn open_counts(
    alloc: Global,
    count: usize,
    conditions: &[Condition],
) -> Result<Vec<u32>, NoMemory>
    requires { NameOnlyBelow count conditions.now }
    ensures open { IfOk result (λ numbers. AreOpenCounts conditions.now [] numbers.items) }
    ensures len { IfOk result (λ numbers. length numbers.items ≡ count) }
{
    let mut numbers = Vec::new(alloc);
    numbers.resize(count, 0)?;
    for condition in conditions {
        count_all(&mut numbers, condition.before())?;
    }
    Ok(numbers)
}

/// Adds one for each of the labels.
///
/// # Errors
///
/// `NoMemory` if a number would be 2^32.
///
/// # Complexity
///
/// O(n), with `n` the number of the labels.
pub fn count_all(numbers: &mut Vec<u32>, labels: &[u32]) -> Result<(), NoMemory>
    requires { (b : ℕ) → Contains labels.now b → b < length numbers.old.items }
    ensures len { length numbers.new.items ≡ length numbers.old.items }
    ensures each { OnOk result ((b : ℕ) → get_or numbers.new.items b 0
        ≡ get_or numbers.old.items b 0 + times b labels.now) }
{
    for label in labels {
        let index = *label as usize;
        let Some(more) = numbers[index].checked_add(1) else {
            return Err(NoMemory);
        };
        numbers[index] = more;
    }
    Ok(())
}
