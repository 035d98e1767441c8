//! The numbers of a list's elements, most of which follow each other in the replica's last read too.
ghost use Rattle.std.specs.Prelude.{◌≡◌, ◌⊎◌, ◌<◌, ◌++◌, ◌∷◌, [], length, get_or, Some, IsTrue, IfOk, OnOk, MatchOption};
ghost use Rattle.std.specs.List.{slice_get};
ghost use Rattle.ra_list_replica.specs.Numbers.{AreNumbersOf, HasUnnumbered};
ghost use Rattle.ra_list_replica.specs.Listing.{AreAsLast};

use crate::element_numbers::ElementNumbers;
use crate::mark::Mark;
use ra_labels::NoMemory;
use std::alloc::Global;

/// The numbers of a list's elements, and where they differ from those of the last read.
#[derive(Drop)]
pub struct Listed {
    /// The numbers, in the order of the list.
    pub numbers: Vec<u32>,
    /// The indexes, except 0, of the elements that did not directly follow the same element in the last read.
    pub places: Vec<usize>,
}

/// Returns the numbers of the elements of a list, or `None` if one of them has no number.
///
/// The list is compared with the last read, element by element: an element that was removed since is skipped there, and
/// one that was inserted since is looked up, as no others are.
///
/// # Errors
///
/// `NoMemory` if allocation fails.
///
/// # Complexity
///
/// O(n + l + m log k) for `n` elements, `l` of the last read and `k` numbered ones. `m` elements are looked up: those
/// inserted since the last read and, where the list contradicts the order of the last read, all behind that place.
pub fn numbers_of(
    alloc: Global,
    elements: &ElementNumbers,
    marks: &[Mark],
    last: &[u32],
    list: &[u32],
) -> Result<Option<Listed>, NoMemory>
    ensures numbers { IfOk result (λ found. MatchOption found (HasUnnumbered elements.now list.now)
        (λ listed. AreNumbersOf elements.now list.now listed.numbers.items)) }
    ensures as_last { IfOk result (λ found. MatchOption found (Unit {0})
        (λ listed. AreAsLast last.now listed.numbers.items listed.places.items)) }
{
    let mut numbers = Vec::with_capacity(alloc, list.len())?;
    let mut places = Vec::new(alloc);
    // The last read is compared up to this index. `follows` says whether the previous element was found directly before
    // it there.
    let mut next = 0;
    let mut follows = false;
    for element in list {
        let at = first_not_removed(marks, last, next);
        if is_at(elements, last, at, *element) {
            if !follows || at != next {
                push_place(&mut places, numbers.len())?;
            }
            numbers.push(last[at])?;
            next = at + 1;
            follows = true;
        } else {
            let Some(number) = elements.number_of(*element) else {
                return Ok(None);
            };
            push_place(&mut places, numbers.len())?;
            numbers.push(number)?;
            next = at;
            follows = false;
        }
    }
    Ok(Some(Listed { numbers, places }))
}

// Returns the first index from this one on at which the number is not removed, or the length if there is none.
fn first_not_removed(marks: &[Mark], numbers: &[u32], from: usize) -> usize {
    let mut index = from;
    while index < numbers.len() && is_removed(marks, numbers[index]) {
        index += 1;
    }
    index
}

// Returns `true` if the number at this index is that of the element.
fn is_at(elements: &ElementNumbers, numbers: &[u32], index: usize, element: u32) -> bool
    ensures { IsTrue result → (index < length numbers.now)
        × (slice_get elements.now (get_or numbers.now index 0) ≡ Some element) }
{
    match numbers.get(index) {
        Some(number) => elements.element(*number) == Some(element),
        None => false,
    }
}

// Appends an index, unless it is that of the first element.
fn push_place(places: &mut Vec<usize>, index: usize) -> Result<(), NoMemory>
    ensures { OnOk result (((index ≡ 0) × (places.new.items ≡ places.old.items))
        ⊎ ((0 < index) × (places.new.items ≡ places.old.items ++ index ∷ []))) }
{
    if index > 0 {
        places.push(index)?;
    }
    Ok(())
}

// Returns `true` if the number is removed.
fn is_removed(marks: &[Mark], number: u32) -> bool {
    match marks.get(number as usize) {
        Some(mark) => *mark == Mark::Removed,
        None => false,
    }
}

/// Returns the number of each element, or `None` if one of them has none.
///
/// # Errors
///
/// `NoMemory` if allocation fails.
///
/// # Complexity
///
/// O(n log k) for `n` elements, `k` of which are numbered.
pub fn numbers_of_part(
    alloc: Global,
    elements: &ElementNumbers,
    list: &[u32],
) -> Result<Option<Vec<u32>>, NoMemory>
    ensures { IfOk result (λ found. MatchOption found (HasUnnumbered elements.now list.now)
        (λ numbers. AreNumbersOf elements.now list.now numbers.items)) }
{
    let mut numbers = Vec::with_capacity(alloc, list.len())?;
    for element in list {
        let Some(found) = elements.number_of(*element) else {
            return Ok(None);
        };
        numbers.push(found)?;
    }
    Ok(Some(numbers))
}
