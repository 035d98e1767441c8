//! Labels sorted by rank, in runs, so that a late label moves few others.
ghost use Rattle.std.specs.Prelude.{◌≡◌, ℕ, ◌+◌, ◌<◌, ◌≤◌, true, [], length, get_or, map, vec_len, IfOk, OnOk, OnErr, option_map};
ghost use Rattle.std.specs.List.{insert, slice_get};
ghost use Rattle.std.specs.List.Sorted.{IsPartitionedBy};
ghost use Rattle.ra_labels.specs.NamedOrder.{lowest_rank};
ghost use Rattle.ra_time_order.specs.declared.run.Run.{Run};
ghost use Rattle.ra_time_order.specs.Positions.{not_above, IsPositionOf};
ghost use Rattle.ra_time_order.specs.Sorted.{joined, IsRunOf, IsSplit};

use crate::chunk::Chunk;
use crate::entry::Entry;
use crate::run::Run;
use ra_labels::{LOWEST, NoMemory, Stamp};
use std::alloc::Global;
use std::marker::Model;

/// Labels, sorted by rank. Contracts see a list, and state positions for a rank at which the list is partitioned.
#[derive(Drop)]
pub struct Sorted {
    runs: Vec<Run>,
    labels: usize,
    /// The index of the run with the newest label. No other run is full.
    newest: usize,
    /// A bound: no label has a greater rank.
    last: Stamp,
}

impl Model for Sorted {
    ghost use Rattle.ra_time_order.specs.Sorted.{Sorted, sorted_of, SortedKept};

    ghost Value = { Sorted };

    ghost view = { λ a. sorted_of a.runs.items };

    ghost invariant = { λ a. SortedKept a.runs.items a.labels a.newest a.last };
}

impl Sorted {
    /// Creates the list without labels.
    ///
    /// # Errors
    ///
    /// `NoMemory` if allocation fails.
    pub fn new(alloc: Global) -> Result<Sorted, NoMemory>
        ensures { IfOk result (λ sorted. sorted.entries ≡ []) }
    {
        let chunk = Chunk::new(alloc)?;
        let first = LOWEST;
        Ok(Sorted {
            runs: vec![in alloc; Run { first, chunk }]?,
            labels: 0,
            newest: 0,
            last: LOWEST,
        })
    }

    /// Reserves room for one more label: splits the newest label's run if it is full.
    ///
    /// # Errors
    ///
    /// `NoMemory` if allocation fails; the labels are unchanged.
    pub fn reserve(&mut self) -> Result<(), NoMemory>
        ensures entries { self.new.entries ≡ self.old.entries }
        ensures room { OnOk result (0 < self.new.room) }
    {
        let at = self.newest;
        if self.runs[at].chunk.has_room() {
            return Ok(());
        }
        split(&mut self.runs, at)?;
        Ok(())
    }

    /// Returns the number of labels.
    pub fn len(&self) -> usize
        ensures { result ≡ length self.now.entries }
    {
        self.labels
    }

    /// Returns `true` only if no label has a greater rank than this one.
    ///
    /// # Complexity
    ///
    /// O(1).
    pub fn is_past_all(&self, rank: Stamp) -> bool
        ensures { result ≡ true → IsPositionOf rank self.now.entries (length self.now.entries) }
    {
        self.last.is_at_most(rank)
    }

    /// Returns how many labels have no greater rank than this one.
    ///
    /// # Complexity
    ///
    /// O(r + log n), where `r` is the number of runs behind the position and `n` the length of a run.
    pub fn position(&self, rank: Stamp) -> usize
        ensures among { result ≤ length self.now.entries }
        ensures split { IsPartitionedBy (not_above rank) self.now.entries → IsPositionOf rank self.now.entries result }
    {
        let labels = self.labels;
        let at = run_of(self.runs.as_slice(), rank);
        let behind = count(&self.runs.as_slice()[at..]);
        labels - behind + self.runs[at].chunk.position(rank)
    }

    /// Inserts a label behind those that have no greater rank. Does not allocate.
    ///
    /// # Complexity
    ///
    /// O(r + n), where `r` is the number of runs behind the position and `n` the length of a run.
    pub fn insert(&mut self, entry: Entry)
        requires room { 0 < self.old.room }
        requires few { length self.old.entries < 4294967295 }
        ensures one { length self.new.entries ≡ length self.old.entries + 1 }
        ensures inserted { IsPartitionedBy (not_above entry.rank) self.old.entries
            → (position : ℕ) × IsPositionOf entry.rank self.old.entries position
            × (self.new.entries ≡ insert self.old.entries position entry) }
    {
        let at = run_of(self.runs.as_slice(), entry.rank);
        self.runs[at].chunk.insert(entry);
        self.labels += 1;
        self.newest = at;
        self.last = self.last.greater(entry.rank);
    }

    /// Returns the label at a position, or `None` behind the last one.
    ///
    /// # Complexity
    ///
    /// O(r), where `r` is the number of runs before the position.
    pub fn at(&self, position: usize) -> Option<u32>
        ensures { result ≡ option_map (λ entry. entry.label) (slice_get self.now.entries position) }
    {
        let mut rest = position;
        for run in &self.runs {
            if rest < run.chunk.len() {
                return run.chunk.at(rest);
            }
            rest -= run.chunk.len();
        }
        None
    }

    /// Returns the numbers of all labels, sorted by rank.
    ///
    /// # Errors
    ///
    /// `NoMemory` if allocation fails.
    ///
    /// # Complexity
    ///
    /// O(n), where `n` is the number of labels.
    pub fn numbers(&self, alloc: Global) -> Result<Vec<u32>, NoMemory>
        ensures { IfOk result (λ numbers. numbers.items ≡ map (λ entry. entry.label) self.now.entries) }
    {
        let mut numbers = Vec::new(alloc);
        for run in &self.runs {
            run.chunk.put_numbers(&mut numbers)?;
        }
        Ok(numbers)
    }
}

// Returns the last run whose first rank is not greater: labels of this rank belong there. O(number of runs behind it).
fn run_of(runs: &[Run], rank: Stamp) -> usize
    requires some { 0 < length runs.now }
    requires lowest { (d : Run) → (get_or runs.now 0 d).first ≡ lowest_rank }
    ensures { IsRunOf runs.now rank result }
{
    let mut at = runs.len() - 1;
    while rank < runs[at].first {
        at -= 1;
    }
    at
}

// Returns the number of labels in these runs.
fn count(runs: &[Run]) -> usize
    requires { length (joined runs.now) < 18446744073709551616 }
    ensures { result ≡ length (joined runs.now) }
{
    let mut labels = 0;
    for run in runs {
        labels += run.chunk.len();
    }
    labels
}

// Splits a full run. The last run is split before its last label, since most labels are added at the end; others in the
// middle.
fn split(runs: &mut Vec<Run>, at: usize) -> Result<(), NoMemory>
    requires at { at < vec_len runs.old }
    requires many { (d : Run) → 1 < length (get_or runs.old.items at d).chunk.entries }
    ensures split { OnOk result (IsSplit runs.old.items at runs.new.items) }
    ensures same { OnErr result (runs.new.items ≡ runs.old.items) }
{
    let len = runs[at].chunk.len();
    let keep = if at + 1 == runs.len() {
        len - 1
    } else {
        len / 2
    };
    runs.reserve(1)?;
    let chunk = runs[at].chunk.split_off(keep)?;
    let first = chunk.rank(0);
    let _ = runs.insert(at + 1, Run { first, chunk });
    Ok(())
}
