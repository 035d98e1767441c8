//! The settling of pending updates, after the insertion of an element for which they wait.
ghost use Rattle.std.specs.Prelude.{◌≡◌, ℕ, ◌++◌, ◌∷◌, [], Bool, List, IsPermutation, IfOk, OnOk, OnErr};
ghost use Rattle.ra_labels.specs.Records.{Records};
ghost use Rattle.ra_rga_elements.specs.ElementList.{ElementList, is_marked};
ghost use Rattle.ra_rga_replica.specs.NumberSet.{was_marked};
ghost use Rattle.ra_rga_replica.specs.PendingLabels.{labels_under};
ghost use Rattle.ra_rga_replica.specs.Cascade.{shown_after, freed_under, IsAmidst, MayFree, MayGoOn, AreFreedTo};

use crate::edit::{Edit, edit_of};
use crate::number_set::NumberSet;
use crate::pending::PendingLabels;
use crate::shown::ShownElements;
use ra_labels::NoMemory;
use std::alloc::Global;

/// Applies the label's effect and those of all pending labels that follow: those that wait for its element, then those
/// that wait for theirs. Returns all these labels.
///
/// # Errors
///
/// `NoMemory` if allocation fails; the elements are unchanged.
///
/// # Complexity
///
/// For each of the labels a constant number of hash map operations. The labels that wait for one element are sorted,
/// and the sets are extended to the greatest number if necessary.
pub fn free(
    alloc: Global,
    there: &mut NumberSet,
    shown: &mut ShownElements,
    waiting: &PendingLabels,
    edits: &[Option<Edit>],
    first: u32,
) -> Result<Vec<u32>, NoMemory>
    requires { MayFree (λ n. is_marked shown.old n) there.old.marks.items waiting.now edits.now first }
    ensures freed { IfOk result (λ labels. AreFreedTo (λ n. is_marked shown.new n) there.new.marks.items labels.items []
        waiting.now (λ n. is_marked shown.old n) there.old.marks.items edits.now first) }
    ensures err_shown { OnErr result ((number : ℕ) → is_marked shown.new number ≡ is_marked shown.old number) }
    ensures err_marks { OnErr result ((number : ℕ)
        → is_marked there.new.marks.items number ≡ is_marked there.old.marks.items number) }
{
    let mut followers = Cascade::starting_with(alloc, first)?;
    match followers.follow(there, shown, waiting, edits) {
        Ok(()) => Ok(followers.labels),
        Err(lack) => {
            there.take_out(followers.put.as_slice());
            Err(lack)
        }
    }
}

// The labels that follow one another. Their effects on what is shown are applied once all are known.
#[derive(Drop)]
struct Cascade {
    alloc: Global,
    // The labels that followed so far.
    labels: Vec<u32>,
    // The labels that no longer wait and have to follow. The last one is the next.
    ready: Vec<u32>,
    // The numbers of the elements that the labels insert.
    put: Vec<u32>,
}

impl Cascade {
    // Creates the followers with this label as the next one.
    fn starting_with(alloc: Global, first: u32) -> Result<Cascade, NoMemory>
        ensures labels { IfOk result (λ followers. followers.labels.items ≡ []) }
        ensures ready { IfOk result (λ followers. followers.ready.items ≡ first ∷ []) }
        ensures put { IfOk result (λ followers. followers.put.items ≡ []) }
    {
        Ok(Cascade {
            alloc,
            labels: Vec::new(alloc),
            ready: vec![in alloc; first]?,
            put: Vec::new(alloc),
        })
    }

    // Lets all labels follow. If allocation fails, the shown elements are unchanged, and only the marks of the new
    // elements remain.
    fn follow(
        &mut self,
        there: &mut NumberSet,
        shown: &mut ShownElements,
        waiting: &PendingLabels,
        edits: &[Option<Edit>],
    ) -> Result<(), NoMemory>
        requires amidst { MayGoOn (λ n. is_marked shown.old n) there.old.marks.items self.old.labels.items
            self.old.ready.items waiting.now edits.now }
        ensures followed { OnOk result ((all : ElementList) (records : Records) (had settled : ℕ → Bool) (first : ℕ)
            → IsAmidst (shown_after edits.now (λ n. is_marked shown.old n) self.old.labels.items)
            there.old.marks.items self.old.labels.items self.old.ready.items waiting.now all edits.now records had
            settled first
            → IsAmidst (λ n. is_marked shown.new n) there.new.marks.items self.new.labels.items [] waiting.now all
            edits.now records had settled first) }
        ensures err { OnErr result ((number : ℕ) → is_marked shown.new number ≡ is_marked shown.old number) }
        ensures put { (number : ℕ) → was_marked there.new.marks.items self.new.put.items number
            ≡ was_marked there.old.marks.items self.old.put.items number }
    {
        while let Some(label) = self.ready.pop() {
            self.follow_one(there, waiting, edits, label)?;
        }
        shown.reserve(there.marks.len())?;
        shown.make_all(edits, self.labels.as_slice());
        Ok(())
    }

    // Adds this label, and the labels that waited for its element.
    fn follow_one(
        &mut self,
        there: &mut NumberSet,
        waiting: &PendingLabels,
        edits: &[Option<Edit>],
        label: u32,
    ) -> Result<(), NoMemory>
        requires { (shows : ℕ → Bool) × MayGoOn shows there.old.marks.items self.old.labels.items
            (self.old.ready.items ++ label ∷ []) waiting.now edits.now }
        ensures followed { OnOk result ((shows : ℕ → Bool) (all : ElementList) (records : Records)
            (had settled : ℕ → Bool) (first : ℕ)
            → IsAmidst (shown_after edits.now shows self.old.labels.items) there.old.marks.items self.old.labels.items
            (self.old.ready.items ++ label ∷ []) waiting.now all edits.now records had settled first
            → IsAmidst (shown_after edits.now shows self.new.labels.items) there.new.marks.items self.new.labels.items
            self.new.ready.items waiting.now all edits.now records had settled first) }
        ensures labels { OnOk result (self.new.labels.items ≡ self.old.labels.items ++ label ∷ []) }
        ensures put { (number : ℕ) → was_marked there.new.marks.items self.new.put.items number
            ≡ was_marked there.old.marks.items self.old.put.items number }
    {
        self.labels.push(label)?;
        match edit_of(edits, label) {
            Some(Edit::PutsIn(number)) => {
                there.put_new(number, &mut self.put)?;
                add_sorted(self.alloc, &mut self.ready, waiting.under(number))?;
                Ok(())
            }
            Some(Edit::Removes(_)) => Ok(()),
            None => Ok(()),
        }
    }
}

// Adds the labels, with the greatest last, so that it follows next.
fn add_sorted(alloc: Global, ready: &mut Vec<u32>, labels: &[u32]) -> Result<(), NoMemory>
    ensures { OnOk result ((more : List ℕ) × IsPermutation labels.now more
        × (ready.new.items ≡ ready.old.items ++ more)) }
{
    let mut more = labels.to_vec(alloc)?;
    more.sort_unstable();
    ready.extend_from_slice(more.as_slice())?;
    Ok(())
}

/// Removes the labels that wait for an element which one of these labels inserts.
pub fn free_all(waiting: &mut PendingLabels, edits: &[Option<Edit>], labels: &[u32])
    ensures { (number : ℕ) → labels_under waiting.new number
        ≡ freed_under edits.now labels.now (labels_under waiting.old) number }
{
    for label in labels {
        if let Some(Edit::PutsIn(number)) = edit_of(edits, *label) {
            waiting.free(number);
        }
    }
}
