//! The last label of each element at one replica.
ghost use Rattle.std.specs.Prelude.{◌≡◌, ◌<◌, ℕ, [], Some, replicate, vec_len, slice_set, IfOk, OnOk};
ghost use Rattle.ra_witness.specs.Overriding.{label_on, labels_in};

use ra_labels::NoMemory;
use std::alloc::Global;

/// For each element, by its number, the label of the last update of the element that was delivered to the replica.
#[derive(Drop)]
pub struct LastUpdates {
    /// The labels by element. Elements behind the end have none.
    pub labels: Vec<Option<u32>>,
}

impl LastUpdates {
    /// Creates the labels of a replica without updates. Does not allocate.
    pub fn new(alloc: Global) -> LastUpdates
        ensures { result.labels.items ≡ [] }
    {
        LastUpdates {
            labels: Vec::new(alloc),
        }
    }

    /// Returns equal labels that own their memory.
    ///
    /// # Errors
    ///
    /// `NoMemory` if allocation fails.
    ///
    /// # Complexity
    ///
    /// O(n), where `n` is the number of elements for which there is room.
    pub fn copy(&self) -> Result<LastUpdates, NoMemory>
        ensures { IfOk result (λ copy. copy.labels.items ≡ self.now.labels.items) }
    {
        Ok(LastUpdates {
            labels: self.labels.clone()?,
        })
    }

    /// Returns the label of the last update of the element, if there is one.
    pub fn on(&self, element: u32) -> Option<u32>
        ensures { result ≡ label_on self.now.labels.items element }
    {
        match self.labels.get(element as usize) {
            Some(label) => *label,
            None => None,
        }
    }

    /// Reserves room for the element. The labels do not change.
    ///
    /// # Errors
    ///
    /// `NoMemory` if allocation fails.
    pub fn reserve(&mut self, element: u32) -> Result<(), NoMemory>
        ensures room { OnOk result (element < vec_len self.new.labels) }
        ensures same { (k : ℕ) → label_on self.new.labels.items k ≡ label_on self.old.labels.items k }
    {
        let element = element as usize;
        if self.labels.len() <= element {
            self.labels.resize(element + 1, None)?;
        }
        Ok(())
    }

    /// Sets the label of the last update of the element, within the reserved room.
    pub fn put(&mut self, element: u32, label: u32)
        requires { element < vec_len self.old.labels }
        ensures { self.new.labels.items ≡ slice_set self.old.labels.items element (Some label) }
    {
        self.labels[element as usize] = Some(label);
    }
}

/// Creates the labels of the given number of replicas without updates.
///
/// # Errors
///
/// `NoMemory` if allocation fails.
pub fn no_lasts(alloc: Global, replicas: u8) -> Result<Vec<LastUpdates>, NoMemory>
    ensures { IfOk result (λ lasts. labels_in lasts.items ≡ replicate replicas []) }
{
    let mut lasts = Vec::with_capacity(alloc, replicas as usize)?;
    for _ in 0..replicas {
        lasts.push(LastUpdates::new(alloc))?;
    }
    Ok(lasts)
}
