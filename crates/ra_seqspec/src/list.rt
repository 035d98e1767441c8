//! The elements of a list: those that were inserted, and those that were removed.
ghost use Rattle.std.specs.Prelude.{◌≡◌, [], is_some, unwrap_or, IfOk, IsOk, IfSome, OnErr, true, false};
ghost use Rattle.std.specs.List.{list_all};
ghost use Rattle.ra_labels.specs.Lists.{is_among};
ghost use Rattle.ra_labels.specs.FreeList.{empty_list, shown_in, is_neighbor, can_insert, list_step, list_answers};
ghost use Rattle.ra_labels.specs.FreeList as free;
ghost use Rattle.ra_seqspec.specs.ListElements.{list_of, changes_list, corrected, answered_list, shown_among};

use ra_labels::{Elements, Insertion, ListQuery, ListUpdate, NoMemory};
use std::alloc::Global;
use std::collections::BTreeSet;
use std::marker::Model;

// What an insertion names in place of a neighbour that it does not have.
const NO_NEIGHBOR: u32 = 0;

/// The elements of a list, without their order.
#[derive(Drop)]
pub struct ListElements {
    // The elements that were inserted.
    inserted: BTreeSet<u32>,
    // The elements that were removed.
    removed: BTreeSet<u32>,
}

impl Model for ListElements {
    ghost use Rattle.std.specs.Ordering.{nat_cmp};
    ghost use Rattle.std.specs.BTreeSet.{IsOrdered};
    ghost use Rattle.ra_labels.specs.FreeList.{ListState};
    ghost use Rattle.ra_seqspec.specs.ListElements.{list_of};

    ghost Value = { ListState };

    ghost view = { λ l. list_of l.inserted l.removed };

    ghost invariant = { λ l. IsOrdered nat_cmp l.inserted × IsOrdered nat_cmp l.removed };
}

impl ListElements {
    /// Creates the list without elements. Does not allocate.
    pub fn new(alloc: Global) -> ListElements
        ensures { result ≡ empty_list }
    {
        ListElements {
            inserted: BTreeSet::new(alloc),
            removed: BTreeSet::new(alloc),
        }
    }

    /// Returns an equal list that owns its memory.
    ///
    /// # Errors
    ///
    /// `NoMemory` if allocation fails.
    ///
    /// # Complexity
    ///
    /// O(n), where `n` is the number of elements, the removed ones included.
    pub fn copy(&self) -> Result<ListElements, NoMemory>
        ensures { IfOk result (λ copy. copy ≡ self.now) }
    {
        Ok(ListElements {
            inserted: self.inserted.clone()?,
            removed: self.removed.clone()?,
        })
    }

    /// Applies the update and returns `true`. Returns `false` and changes nothing if the list does not admit it.
    ///
    /// # Errors
    ///
    /// `NoMemory` if allocation fails; the list is unchanged. Only an admitted insertion and the first removal of an
    /// element allocate.
    ///
    /// # Complexity
    ///
    /// O(log n), where `n` is the number of elements.
    pub fn apply(&mut self, update: &ListUpdate) -> Result<bool, NoMemory>
        ensures admitted { IfOk result (λ is_admitted. is_admitted ≡ is_some (list_step self.old update.now)) }
        ensures step { IfOk result (λ is_admitted. self.new ≡ unwrap_or (list_step self.old update.now) self.old) }
        ensures err { OnErr result (self.new ≡ self.old) }
        ensures memory { changes_list self.old update.now ≡ false → IsOk result }
    {
        match update {
            ListUpdate::Put(insertion) => {
                if !can_insert(&self.inserted, *insertion) {
                    return Ok(false);
                }
                self.inserted.insert(insertion.element)?;
            }
            ListUpdate::Hide(element) => {
                if !has(&self.inserted, *element) {
                    return Ok(false);
                }
                self.removed.insert(*element)?;
            }
        }
        Ok(true)
    }

    /// Returns `true` if the query's answer is right, apart from the order of its elements. Does not allocate.
    ///
    /// # Complexity
    ///
    /// O(log n) for the query of an update, where `n` is the number of elements. A read or a part of `k` elements is
    /// searched for each of them: O(k² + k log n) for a part, and O(k² + n (k + log n)) for a read.
    pub fn admits(&self, query: &ListQuery) -> bool
        ensures { result ≡ list_answers self.now query.now }
    {
        match query {
            ListQuery::Near(insertion) => are_neighbors(&self.inserted, *insertion),
            ListQuery::Has(element) => has(&self.inserted, *element),
            ListQuery::Read(answer) => {
                has_each_once(answer.as_slice())
                    && are_shown(&self.inserted, &self.removed, answer.as_slice())
                    && are_listed(&self.inserted, &self.removed, answer.as_slice())
            }
            ListQuery::Part(answer) => {
                has_each_once(answer.as_slice())
                    && are_shown(&self.inserted, &self.removed, answer.as_slice())
            }
        }
    }

    /// Returns the query with a right answer, which is its own answer if that is right. The elements of a wrong read
    /// become those that are shown, in increasing order, and those of a wrong part its shown elements, each once. There
    /// is no right answer to the query of an update that names an element which is not in the list.
    ///
    /// # Errors
    ///
    /// `NoMemory` if allocation fails.
    ///
    /// # Complexity
    ///
    /// As `admits`.
    pub fn answer(&self, alloc: Global, query: &ListQuery) -> Result<Option<ListQuery>, NoMemory>
        ensures answer { IfOk result (λ answer. answer ≡ answered_list self.now query.now) }
        ensures right { IfOk result (λ answer. IfSome answer (λ it. list_answers self.now it ≡ true)) }
    {
        if self.admits(query) {
            return Ok(Some(copy_of(query)?));
        }
        self.corrected(alloc, query)
    }

    // Returns the query with a right answer in place of a wrong one.
    fn corrected(&self, alloc: Global, query: &ListQuery) -> Result<Option<ListQuery>, NoMemory>
        ensures answer { IfOk result (λ answer. answer ≡ corrected self.now query.now) }
        ensures right { IfOk result (λ answer. IfSome answer (λ it. list_answers self.now it ≡ true)) }
    {
        let answer = match query {
            ListQuery::Near(_) | ListQuery::Has(_) => return Ok(None),
            ListQuery::Read(_) => ListQuery::Read(shown(alloc, &self.inserted, &self.removed)?),
            ListQuery::Part(answer) => ListQuery::Part(shown_among(
                alloc,
                &self.inserted,
                &self.removed,
                answer.as_slice(),
            )?),
        };
        Ok(Some(answer))
    }
}

// Returns an equal query that owns its memory.
fn copy_of(query: &ListQuery) -> Result<ListQuery, NoMemory>
    ensures { IfOk result (λ copy. copy ≡ query.now) }
{
    Ok(match query {
        ListQuery::Near(insertion) => ListQuery::Near(*insertion),
        ListQuery::Has(element) => ListQuery::Has(*element),
        ListQuery::Read(answer) => ListQuery::Read(answer.clone()?),
        ListQuery::Part(answer) => ListQuery::Part(answer.clone()?),
    })
}

// Returns `true` if the element is in the set.
#[tactic(auto, using(crate::proofs::ListMembers::among_keys))]
fn has(elements: &BTreeSet<u32>, element: u32) -> bool
    ensures { result ≡ is_among element elements.now.keys }
{
    elements.contains(&element)
}

// Returns `true` if the element is in the list.
#[tactic(auto, using(crate::proofs::ListMembers::among_list))]
fn lists(list: &[u32], element: u32) -> bool
    ensures { result ≡ is_among element list.now }
{
    list.contains(&element)
}

// Returns `true` if both neighbours of the insertion that it names were inserted.
fn are_neighbors(inserted: &BTreeSet<u32>, insertion: Insertion) -> bool
    ensures { result ≡ free.are_neighbors (record { inserted = inserted.now.keys; removed = [] }) insertion }
{
    is_neighbor(inserted, insertion.left) && is_neighbor(inserted, insertion.right)
}

// Returns `true` if no neighbour is named, or one that was inserted.
fn is_neighbor(inserted: &BTreeSet<u32>, element: u32) -> bool
    ensures { result ≡ is_neighbor (record { inserted = inserted.now.keys; removed = [] }) element }
{
    element == NO_NEIGHBOR || has(inserted, element)
}

// Returns `true` if the element of the insertion is new, and its neighbours were inserted.
fn can_insert(inserted: &BTreeSet<u32>, insertion: Insertion) -> bool
    ensures { result ≡ can_insert (record { inserted = inserted.now.keys; removed = [] }) insertion }
{
    insertion.element != NO_NEIGHBOR
        && !has(inserted, insertion.element)
        && are_neighbors(inserted, insertion)
}

// Returns `true` if the element was inserted and not removed.
fn is_shown(inserted: &BTreeSet<u32>, removed: &BTreeSet<u32>, element: u32) -> bool
    ensures { result ≡ is_among element (shown_in (list_of inserted.now removed.now)) }
{
    has(inserted, element) && !has(removed, element)
}

// Returns `true` if no element is in the list twice.
fn has_each_once(list: &[u32]) -> bool
    ensures { result ≡ free.has_each_once list.now }
{
    let mut left = list;
    while let Some((element, rest)) = left.split_first() {
        if lists(rest, *element) {
            return false;
        }
        left = rest;
    }
    true
}

// Returns `true` if each element of the list is shown.
fn are_shown(inserted: &BTreeSet<u32>, removed: &BTreeSet<u32>, list: &[u32]) -> bool
    ensures { result ≡ list_all (λ x. is_among x (shown_in (list_of inserted.now removed.now))) list.now }
{
    let mut left = list;
    while let Some((element, rest)) = left.split_first() {
        if !is_shown(inserted, removed, *element) {
            return false;
        }
        left = rest;
    }
    true
}

// Returns `true` if each element that is shown is in the list.
fn are_listed(inserted: &BTreeSet<u32>, removed: &BTreeSet<u32>, list: &[u32]) -> bool
    ensures { result ≡ list_all (λ x. is_among x list.now) (shown_in (list_of inserted.now removed.now)) }
{
    for element in inserted {
        if !has(removed, *element) && !lists(list, *element) {
            return false;
        }
    }
    true
}

// Returns the elements that are shown, in increasing order.
fn shown(
    alloc: Global,
    inserted: &BTreeSet<u32>,
    removed: &BTreeSet<u32>,
) -> Result<Elements, NoMemory>
    ensures { IfOk result (λ elements. elements ≡ shown_in (list_of inserted.now removed.now)) }
{
    let mut elements = Vec::new(alloc);
    for element in inserted {
        if !has(removed, *element) {
            elements.push(*element)?;
        }
    }
    Ok(Elements::new(elements))
}

// Returns those elements of the list that are shown, each at its last place.
fn shown_among(
    alloc: Global,
    inserted: &BTreeSet<u32>,
    removed: &BTreeSet<u32>,
    list: &[u32],
) -> Result<Elements, NoMemory>
    ensures { IfOk result (λ elements. elements ≡ shown_among (list_of inserted.now removed.now) list.now) }
{
    let mut elements = Vec::new(alloc);
    let mut left = list;
    while let Some((element, rest)) = left.split_first() {
        if is_shown(inserted, removed, *element) && !lists(rest, *element) {
            elements.push(*element)?;
        }
        left = rest;
    }
    Ok(Elements::new(elements))
}
