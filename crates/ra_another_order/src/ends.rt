//! Where prefixes of the labels end in a log.
ghost use Rattle.std.specs.Prelude.{◌≡◌, ◌<◌, ◌≤◌, ◌⊎◌, ℕ, IfOk, length, get_or};
ghost use Rattle.ra_another_order.specs.Extent.{end_in, AreEnds};

use ra_labels::NoMemory;
use std::alloc::Global;

/// Returns for each prefix of the labels, given by its length, how many entries of the log report it: the entries up to
/// the place of its last label.
///
/// # Errors
///
/// `NoMemory` if allocation fails.
///
/// # Complexity
///
/// O(n), where `n` is the number of prefixes.
pub fn ends_of(alloc: Global, places: &[u32], counts: &[u32]) -> Result<Vec<usize>, NoMemory>
    // No prefix is longer than the list of places.
    requires { (i : ℕ) → i < length counts.now → get_or counts.now i 0 ≤ length places.now }
    // The ends are those of the prefixes, one by one.
    ensures { IfOk result (λ ends. AreEnds places.now counts.now ends.items) }
{
    let mut ends = Vec::new(alloc);
    for at in 0..counts.len() {
        let count = counts[at] as usize;
        ends.push(if count == 0 {
            0
        } else {
            places[count - 1] as usize + 1
        })?;
    }
    Ok(ends)
}
