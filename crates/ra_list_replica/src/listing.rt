//! The comparison of numbers with marks: whether each is shown, and none occurs twice.
ghost use Rattle.std.specs.Prelude.{◌≡◌, ◌↔◌, ℕ, ◌<◌, ◌≤◌, length, take, get_or, Contains, IsTrue};
ghost use Rattle.ra_list_replica.specs.declared.mark.Mark.TheVariants.{Shown};
ghost use Rattle.ra_list_replica.specs.View.{mark_at};
ghost use Rattle.ra_list_replica.specs.Listing.{AreShownInTurn, hidden, shown};

use crate::mark::Mark;

/// Returns `true` if each of the numbers is shown and none occurs twice. The marks are changed and restored.
///
/// # Complexity
///
/// O(n) for `n` numbers.
pub fn are_shown_once(marks: &mut [Mark], numbers: &[u32]) -> bool
    ensures exactly { IsTrue result ↔ AreShownInTurn marks.old numbers.now }
    ensures same { marks.new ≡ marks.old }
{
    let count = hide_shown(marks, numbers);
    show(marks, &numbers[..count]);
    count == numbers.len()
}

// Hides the numbers one after another, up to the first that is not shown, and returns how many are hidden.
fn hide_shown(marks: &mut [Mark], numbers: &[u32]) -> usize
    ensures few { result ≤ length numbers.now }
    ensures hidden { marks.new ≡ hidden marks.old (take result numbers.now) }
    ensures shown { AreShownInTurn marks.old (take result numbers.now) }
    ensures last { result < length numbers.now → ¬ (mark_at marks.new (get_or numbers.now result 0) ≡ Shown) }
{
    let mut count = 0;
    for number in numbers {
        if !is_shown(marks, *number) {
            return count;
        }
        marks[*number as usize] = Mark::Removed;
        count += 1;
    }
    count
}

// Returns `true` if the number is shown.
fn is_shown(marks: &[Mark], number: u32) -> bool
    ensures { IsTrue result ↔ (mark_at marks.now number ≡ Shown) }
{
    match marks.get(number as usize) {
        Some(mark) => *mark == Mark::Shown,
        None => false,
    }
}

// Shows the numbers.
fn show(marks: &mut [Mark], numbers: &[u32])
    requires { (n : ℕ) → Contains numbers.now n → n < length marks.old }
    ensures { marks.new ≡ shown marks.old numbers.now }
{
    for number in numbers {
        marks[*number as usize] = Mark::Shown;
    }
}
