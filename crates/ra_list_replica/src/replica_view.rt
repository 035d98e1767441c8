//! One replica's view of a list.
ghost use Rattle.std.specs.Prelude.{◌≡◌, ℕ, ◌<◌, ◌≤◌, [], true, length, set, IfOk, OnOk, OnErr, MatchOption};
ghost use Rattle.ra_list_replica.specs.declared.mark.Mark.TheVariants as marks;
ghost use Rattle.ra_list_replica.specs.Numbers.{AreNumbersOf};
ghost use Rattle.ra_list_replica.specs.View.{mark_at, IsPart, IsRead};
ghost use Rattle.ra_list_replica.specs.Listing.{AreAsLast};

use crate::element_numbers::ElementNumbers;
use crate::finding::{Listed, numbers_of, numbers_of_part};
use crate::listing::are_shown_once;
use crate::mark::Mark;
use ra_labels::NoMemory;
use std::alloc::Global;
use std::marker::Model;

/// Which elements of a list a replica has and shows, and what it read last. Elements go by their numbers.
#[derive(Drop)]
pub struct ReplicaView {
    /// The mark of each number. Numbers behind the end are missing.
    marks: Vec<Mark>,
    /// The number of elements that are shown.
    shown: usize,
    /// The numbers of the elements of the last read.
    last: Vec<u32>,
}

impl Model for ReplicaView {
    ghost use Rattle.std.specs.Prelude.{◌≡◌};
    ghost use Rattle.ra_list_replica.specs.View.{View, shown_count};

    ghost Value = { View };

    ghost view = { λ a. record { marks = a.marks.items; last = a.last.items } };

    ghost invariant = { λ a. a.shown ≡ shown_count a.marks.items };
}

impl ReplicaView {
    /// Creates the view of a replica that has no elements. Does not allocate.
    pub fn new(alloc: Global) -> ReplicaView
        // No number has a mark.
        ensures marks { result.marks ≡ [] }
        // Nothing was read.
        ensures last { result.last ≡ [] }
    {
        ReplicaView {
            marks: Vec::new(alloc),
            shown: 0,
            last: Vec::new(alloc),
        }
    }

    /// Returns an equal view that owns its memory.
    ///
    /// # Errors
    ///
    /// `NoMemory` if allocation fails.
    ///
    /// # Complexity
    ///
    /// O(n), where `n` is the greatest number for which room was reserved.
    pub fn copy(&self) -> Result<ReplicaView, NoMemory>
        // The copy is the same view.
        ensures { IfOk result (λ copy. copy ≡ self.now) }
    {
        Ok(ReplicaView {
            marks: self.marks.clone()?,
            shown: self.shown,
            last: self.last.clone()?,
        })
    }

    /// Returns what the view says of the element with this number.
    pub fn mark(&self, number: u32) -> Mark
        // The result is the number's mark.
        ensures { result ≡ mark_at self.now.marks number }
    {
        match self.marks.get(number as usize) {
            Some(mark) => *mark,
            None => Mark::Missing,
        }
    }

    /// Reserves room for the number. What the view says of any element is unchanged.
    ///
    /// # Errors
    ///
    /// `NoMemory` if allocation fails; nothing is changed.
    pub fn reserve(&mut self, number: u32) -> Result<(), NoMemory>
        // There is room for the number.
        ensures room { OnOk result (number < length self.new.marks) }
        // No number has another mark.
        ensures same { (n : ℕ) → mark_at self.new.marks n ≡ mark_at self.old.marks n }
        // The last read is unchanged.
        ensures last { self.new.last ≡ self.old.last }
        // After a failure nothing is changed.
        ensures failed { OnErr result (self.new ≡ self.old) }
    {
        let number = number as usize;
        if self.marks.len() <= number {
            self.marks.resize(number + 1, Mark::Missing)?;
        }
        Ok(())
    }

    /// Shows an element that was missing, for whose number there is room. Does not allocate.
    pub fn insert(&mut self, number: u32)
        // There is room for the number.
        requires room { number < length self.old.marks }
        // The element was missing.
        requires missing { mark_at self.old.marks number ≡ marks.Missing }
        // The element is shown; the other marks are unchanged.
        ensures marks { self.new.marks ≡ set self.old.marks number marks.Shown }
        // The last read is unchanged.
        ensures last { self.new.last ≡ self.old.last }
    {
        self.marks[number as usize] = Mark::Shown;
        self.shown += 1;
    }

    /// Hides an element that the replica has; one that was removed before stays removed. Does not allocate.
    pub fn remove(&mut self, number: u32)
        // The replica has the element.
        requires { ¬ (mark_at self.old.marks number ≡ marks.Missing) }
        // The element is removed; the other marks are unchanged.
        ensures marks { self.new.marks ≡ set self.old.marks number marks.Removed }
        // The last read is unchanged.
        ensures last { self.new.last ≡ self.old.last }
    {
        let mark = &mut self.marks[number as usize];
        if *mark == Mark::Shown {
            self.shown -= 1;
        }
        *mark = Mark::Removed;
    }

    /// Returns the numbers of a list's elements if the list has exactly the shown elements, each once, in any order;
    /// otherwise returns `None`.
    ///
    /// # Errors
    ///
    /// `NoMemory` if allocation fails.
    ///
    /// # Complexity
    ///
    /// O(n + l + m log k) for `n` listed elements, `l` of the last read and `k` numbered ones. `m` elements are looked
    /// up: those inserted since the last read and, where the list contradicts the order of the last read, all behind
    /// that place.
    pub fn check_read(
        &mut self,
        alloc: Global,
        elements: &ElementNumbers,
        list: &[u32],
    ) -> Result<Option<Listed>, NoMemory>
        // The result is `None` exactly if the list does not have the shown elements, each once.
        ensures exactly { IfOk result (λ found. MatchOption found
            (¬ IsRead elements.now self.old.marks list.now) (λ listed. IsRead elements.now self.old.marks list.now)) }
        // The numbers are those of the listed elements.
        ensures numbers { IfOk result (λ found. MatchOption found (Unit {0})
            (λ listed. AreNumbersOf elements.now list.now listed.numbers.items)) }
        // Except at the given indexes, each directly follows the one before it in the last read too.
        ensures as_last { IfOk result (λ found. MatchOption found (Unit {0})
            (λ listed. AreAsLast self.old.last listed.numbers.items listed.places.items)) }
        // The view is unchanged.
        ensures same { self.new ≡ self.old }
    {
        let Some(listed) = numbers_of(alloc, elements, &self.marks, &self.last, list)? else {
            return Ok(None);
        };
        elements.invariant();
        if are_shown_once(&mut self.marks, &listed.numbers) && list.len() == self.shown {
            Ok(Some(listed))
        } else {
            Ok(None)
        }
    }

    /// Returns the numbers of a list's elements if each of them is shown and none is listed twice; otherwise returns
    /// `None`.
    ///
    /// # Errors
    ///
    /// `NoMemory` if allocation fails.
    ///
    /// # Complexity
    ///
    /// O(n log k) for `n` listed elements and `k` numbered ones.
    pub fn check_part(
        &mut self,
        alloc: Global,
        numbers: &ElementNumbers,
        list: &[u32],
    ) -> Result<Option<Vec<u32>>, NoMemory>
        // The result is `None` exactly if the list does not have shown elements alone, each at most once.
        ensures exactly { IfOk result (λ found. MatchOption found
            (¬ IsPart numbers.now self.old.marks list.now) (λ part. IsPart numbers.now self.old.marks list.now)) }
        // The numbers are those of the listed elements.
        ensures numbers { IfOk result (λ found. MatchOption found (Unit {0})
            (λ part. AreNumbersOf numbers.now list.now part.items)) }
        // The view is unchanged.
        ensures same { self.new ≡ self.old }
    {
        let Some(part) = numbers_of_part(alloc, numbers, list)? else {
            return Ok(None);
        };
        numbers.invariant();
        if are_shown_once(&mut self.marks, &part) {
            Ok(Some(part))
        } else {
            Ok(None)
        }
    }

    /// Keeps the numbers of a list as the last read. Does not allocate.
    pub fn keep(&mut self, numbers: Vec<u32>)
        // The numbers are those of the last read.
        ensures last { self.new.last ≡ numbers.items }
        // The marks are unchanged.
        ensures marks { self.new.marks ≡ self.old.marks }
    {
        self.last = numbers;
    }
}
