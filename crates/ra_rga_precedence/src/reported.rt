//! Which labels a read of a replica can list, and which of them a reported answer lists.
ghost use Rattle.std.specs.Prelude.{◌≡◌, ◌<◌, ◌≤◌, true, false, ℕ, length, Contains, IfOk, IfSome};
ghost use Rattle.ra_rga_precedence.specs.Marks.{lacks_need};

use crate::marks::lacks_need;
use crate::operations::element_inserted;
use ra_labels::{NoMemory, Op};
use ra_visibility::Seen;
use std::alloc::Global;
use std::collections::BTreeMap;

/// Returns marks of the insertions below the count whose elements a read lists that sees these updates: it sees the
/// insertion, and no removal of the element. Returns `None` if it sees an update and not the insertion that this needs.
///
/// # Errors
///
/// `NoMemory` if allocation fails.
///
/// # Complexity
///
/// O(n), where `n` is the count.
pub fn shown_labels(
    alloc: Global,
    operations: &[&Op],
    needed: &[Option<u32>],
    seen: &Seen<'_>,
    count: u32,
) -> Result<Option<Vec<bool>>, NoMemory>
    requires { length needed.now ≡ count }
    ensures len { IfOk result (λ shown. IfSome shown (λ marks. length marks.items ≡ count)) }
    ensures closed { IfOk result (λ shown. IfSome shown (λ marks. (m : ℕ) → m < count
        → lacks_need needed.now seen.now m ≡ false)) }
{
    let mut shown = Vec::new(alloc);
    for label in 0..count {
        if lacks_need(needed, seen, label) {
            return Ok(None);
        }
        let is_insertion = element_inserted(operations, label).is_some();
        shown.push(is_insertion && seen.has(label))?;
    }
    for label in 0..count {
        if seen.has(label) && element_inserted(operations, label).is_none() {
            if let Some(inserter) = label_at(needed, label) {
                remove_mark(&mut shown, inserter);
            }
        }
    }
    Ok(Some(shown))
}

/// Returns the labels that insert the elements of the list, where they are marked, each once.
///
/// # Errors
///
/// `NoMemory` if allocation fails.
///
/// # Complexity
///
/// O(n + l · log n), where `l` is the length of the list and `n` the number of labels.
pub fn reported_labels(
    alloc: Global,
    inserters: &BTreeMap<u32, u32>,
    shown: &Vec<bool>,
    list: &[u32],
) -> Result<Vec<u32>, NoMemory>
    ensures { IfOk result (λ labels. (m : ℕ) → Contains labels.items m → m < length shown.now.items) }
{
    let mut open = shown.clone()?;
    let mut labels = Vec::new(alloc);
    for element in list {
        if let Some(label) = inserters.get(element) {
            if is_marked(&open, *label) {
                remove_mark(&mut open, *label);
                labels.push(*label)?;
            }
        }
    }
    Ok(labels)
}

/// Returns `true` if the label is marked.
pub fn is_marked(marks: &[bool], label: u32) -> bool
    ensures { result ≡ true → label < length marks.now }
{
    match marks.get(label as usize) {
        Some(mark) => *mark,
        None => false,
    }
}

/// Returns the label at the place of this one, if there is one.
pub fn label_at(labels: &[Option<u32>], label: u32) -> Option<u32> {
    match labels.get(label as usize) {
        Some(it) => *it,
        None => None,
    }
}

fn remove_mark(marks: &mut Vec<bool>, label: u32)
    ensures { length marks.new.items ≡ length marks.old.items }
{
    if let Some(mark) = marks.get_mut(label as usize) {
        *mark = false;
    }
}
