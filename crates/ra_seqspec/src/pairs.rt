//! The pairs of an OR-Set, sorted by element and then by identifier.
ghost use Rattle.std.specs.Prelude.{◌≡◌, ◌↔◌, ◌∷◌, [], IsTrue, IfOk, IfSome, MatchOption};
ghost use Rattle.std.specs.BTreeSet.{IsOrdered};
ghost use Rattle.ra_labels.specs.Lists.{pair_cmp, identifiers_of, without_pairs};
ghost use Rattle.ra_seqspec.specs.Pairs.{distinct_elements, elements_above, IsRestOf};

use ra_labels::{Elements, NoMemory};
use std::alloc::Global;
use std::collections::BTreeSet;
use std::collections::btree_set::Range;

/// The number of pairs after which a walk over the elements skips the other pairs of the same element.
const PAIRS_BEFORE_SKIP: usize = 8;

/// Removes the element's pairs with these identifiers.
///
/// # Complexity
///
/// O(k log n), where `k` is the number of identifiers and `n` the number of pairs.
pub fn take_out(pairs: &mut BTreeSet<(u32, u32)>, element: u32, ids: &[u32])
    requires { IsOrdered pair_cmp pairs.old }
    ensures left { pairs.new.keys ≡ without_pairs element ids.now pairs.old.keys }
    ensures ordered { IsOrdered pair_cmp pairs.new }
{
    for id in ids {
        pairs.remove(&(element, *id));
    }
}

/// Returns `true` if the list has the element's identifiers in increasing order.
///
/// # Complexity
///
/// O(log n + k), where `n` is the number of pairs and `k` the number of the element's identifiers.
pub fn are_identifiers(pairs: &BTreeSet<(u32, u32)>, element: u32, ids: &[u32]) -> bool
    ensures { IsTrue result ↔ (ids.now ≡ identifiers_of element pairs.now.keys) }
{
    let mut left = ids;
    for pair in pairs.range((element, 0)..) {
        if pair.0 != element {
            break;
        }
        match left.split_first() {
            Some((id, rest)) if *id == pair.1 => left = rest,
            _ => return false,
        }
    }
    left.is_empty()
}

/// Returns `true` if the list has the distinct elements of the pairs in increasing order.
///
/// # Complexity
///
/// O(k log n), where `k` is the number of elements in the list and `n` the number of pairs.
pub fn are_elements(pairs: &BTreeSet<(u32, u32)>, list: &[u32]) -> bool
    ensures { IsTrue result ↔ (list.now ≡ distinct_elements pairs.now.keys) }
{
    let mut rest = pairs.range((0, 0)..);
    let mut last = None;
    let mut left = list;
    while let Some((element, others)) = left.split_first() {
        if next_element(pairs, &mut rest, last) != Some(*element) {
            return false;
        }
        last = Some(*element);
        left = others;
    }
    next_element(pairs, &mut rest, last).is_none()
}

/// Returns the element's identifiers in increasing order.
///
/// # Errors
///
/// `NoMemory` if allocation fails.
///
/// # Complexity
///
/// O(log n + k), where `n` is the number of pairs and `k` the number of the element's identifiers.
pub fn identifiers(
    alloc: Global,
    pairs: &BTreeSet<(u32, u32)>,
    element: u32,
) -> Result<Elements, NoMemory>
    requires { IsOrdered pair_cmp pairs.now }
    ensures { IfOk result (λ ids. ids ≡ identifiers_of element pairs.now.keys) }
{
    let mut ids = Vec::new(alloc);
    for pair in pairs.range((element, 0)..) {
        if pair.0 != element {
            break;
        }
        ids.push(pair.1)?;
    }
    Ok(Elements::new(ids))
}

/// Returns the distinct elements of the pairs in increasing order.
///
/// # Errors
///
/// `NoMemory` if allocation fails.
///
/// # Complexity
///
/// O(k log n), where `k` is the number of elements and `n` the number of pairs.
pub fn elements(alloc: Global, pairs: &BTreeSet<(u32, u32)>) -> Result<Elements, NoMemory>
    ensures { IfOk result (λ list. list ≡ distinct_elements pairs.now.keys) }
{
    let mut list = Vec::new(alloc);
    let mut rest = pairs.range((0, 0)..);
    let mut last = None;
    while let Some(element) = next_element(pairs, &mut rest, last) {
        list.push(element)?;
        last = Some(element);
    }
    Ok(Elements::new(list))
}

// Returns the smallest element that is greater than the last one. Moves `rest` behind the element's first pair: the
// pairs that are left to walk over. O(log n), however many pairs the last element has.
#[inline(always)]
fn next_element<'a>(
    pairs: &'a BTreeSet<(u32, u32)>,
    rest: &mut Range<'a, (u32, u32)>,
    last: Option<u32>,
) -> Option<u32>
    requires ordered { IsOrdered pair_cmp pairs.now }
    requires rest { IsRestOf pairs.now.keys last rest.old }
    ensures next { MatchOption result (elements_above last pairs.now.keys ≡ [])
        (λ x. elements_above last pairs.now.keys ≡ x ∷ elements_above result pairs.now.keys) }
    ensures rest { IfSome result (λ x. IsRestOf pairs.now.keys result rest.new) }
{
    for _ in 0..PAIRS_BEFORE_SKIP {
        let pair = rest.next()?;
        if last != Some(pair.0) {
            return Some(pair.0);
        }
    }
    if let Some(element) = last {
        *rest = pairs.range((element, u32::MAX)..);
    }
    while let Some(pair) = rest.next() {
        if last != Some(pair.0) {
            return Some(pair.0);
        }
    }
    None
}
