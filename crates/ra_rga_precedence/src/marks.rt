//! What a read lists, by marks of labels.
ghost use Rattle.std.specs.Prelude.{◌≡◌, ◌<◌, ℕ, true, false, length, get_or, Contains, Some, IfOk, MatchOption};
ghost use Rattle.std.specs.Ordering.{nat_cmp};
ghost use Rattle.std.specs.BTreeMap.{get};
ghost use Rattle.ra_rga_precedence.specs.Marks.{lacks_need, shown_label, IsListing, AreUnmarked};

use ra_labels::NoMemory;
use ra_visibility::Seen;
use std::alloc::Global;
use std::collections::BTreeMap;

/// The labels that insert the elements of a list.
#[derive(Drop)]
pub enum Listing {
    /// These labels, in the order of the list.
    Labels(Vec<u32>),
    /// An element that is not to be listed, or is listed again.
    Wrong(u32),
}

/// Returns `true` if the label is visible, and the one that inserts what it needs is not.
pub fn lacks_need(needed: &[Option<u32>], seen: &Seen<'_>, label: u32) -> bool
    requires { label < length needed.now }
    ensures { result ≡ lacks_need needed.now seen.now label }
{
    if !seen.has(label) {
        return false;
    }
    match needed[label as usize] {
        Some(inserter) => !seen.has(inserter),
        None => false,
    }
}

/// Returns the labels that insert the elements of the list, and marks them. Each has to be visible and not marked.
///
/// # Errors
///
/// `NoMemory` if allocation fails.
///
/// # Complexity
///
/// O(l · log n), where `l` is the length of the list and `n` the number of insertions.
pub fn listed_labels(
    alloc: Global,
    inserters: &BTreeMap<u32, u32>,
    seen: &Seen<'_>,
    marks: &mut Vec<bool>,
    list: &[u32],
) -> Result<Listing, NoMemory>
    requires { (x m : ℕ) → get nat_cmp inserters.now x ≡ Some m → m < length marks.old.items }
    ensures len { length marks.new.items ≡ length marks.old.items }
    ensures listing { IfOk result
        (IsListing (get nat_cmp inserters.now) seen.now marks.old.items list.now marks.new.items) }
{
    let mut labels = Vec::new(alloc);
    for element in list {
        match shown_label(inserters, seen, marks, *element) {
            Some(label) => {
                marks[label as usize] = true;
                labels.push(label)?;
            }
            None => return Ok(Listing::Wrong(*element)),
        }
    }
    Ok(Listing::Labels(labels))
}

// Returns the label that inserts the element, if it is visible and not marked.
fn shown_label(
    inserters: &BTreeMap<u32, u32>,
    seen: &Seen<'_>,
    marks: &[bool],
    element: u32,
) -> Option<u32>
    requires { (x m : ℕ) → get nat_cmp inserters.now x ≡ Some m → m < length marks.now }
    ensures { result ≡ shown_label (get nat_cmp inserters.now) seen.now marks.now element }
{
    match inserters.get(&element) {
        Some(label) => if seen.has(*label) && !marks[*label as usize] {
            Some(*label)
        } else {
            None
        },
        None => None,
    }
}

/// Returns one of the labels that is not marked, if there is one.
///
/// # Complexity
///
/// O(l), where `l` is the number of labels.
pub fn unmarked_label(marks: &[bool], labels: &[u32]) -> Option<u32>
    requires { (m : ℕ) → Contains labels.now m → m < length marks.now }
    ensures { MatchOption result ((m : ℕ) → Contains labels.now m → get_or marks.now m false ≡ true)
        (λ m. Contains labels.now m × (get_or marks.now m false ≡ false)) }
{
    for label in labels {
        if !marks[*label as usize] {
            return Some(*label);
        }
    }
    None
}

/// Removes the marks of the labels.
///
/// # Complexity
///
/// O(l), where `l` is the number of labels.
pub fn unmark(marks: &mut Vec<bool>, labels: &[u32])
    requires { (m : ℕ) → Contains labels.now m → m < length marks.old.items }
    ensures { AreUnmarked marks.old.items labels.now marks.new.items }
{
    for label in labels {
        marks[*label as usize] = false;
    }
}
