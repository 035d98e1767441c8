//! The siblings of each replica.
ghost use Rattle.std.specs.Prelude.{◌≡◌, ◌↔◌, ◌⊎◌, ◌&&◌, ℕ, ◌<◌, ◌++◌, ◌∷◌, [], true, Some, None, length, replicate, set, Contains, IsTrue, IfOk, OnOk, OnErr};
ghost use Rattle.ra_labels.specs.Lists.{rises, have_same_elements};
ghost use Rattle.ra_siblings.specs.Kept.{siblings_of, issued_at, issued_as, value_at, values_of};

use crate::issued::Issued;
use crate::label_set::LabelSet;
use ra_labels::NoMemory;
use std::alloc::Global;
use std::marker::Model;
use std::mem;

/// The siblings of each replica of a multi-value register, and of each label what it wrote and replaced.
#[derive(Drop)]
pub struct Siblings {
    /// What each label wrote and replaced, by its number.
    labels: Vec<Issued>,
    /// The siblings of each replica.
    replicas: Vec<LabelSet>,
}

impl Model for Siblings {
    ghost use Rattle.ra_siblings.specs.Kept.{Kept};

    ghost Value = { Kept };

    ghost view = { λ a. record { labels = a.labels.items; replicas = a.replicas.items } };
}

impl Siblings {
    /// Creates the siblings of the given number of replicas: none, since there are no labels.
    ///
    /// # Errors
    ///
    /// `NoMemory` if allocation fails.
    ///
    /// # Complexity
    ///
    /// O(r) for `r` replicas.
    pub fn new(alloc: Global, replicas: u8) -> Result<Siblings, NoMemory>
        // There are no labels.
        ensures labels { IfOk result (λ made. made.labels ≡ []) }
        // Each replica has no siblings.
        ensures replicas { IfOk result (λ made. made.replicas ≡ replicate replicas []) }
    {
        let mut none = Vec::with_capacity(alloc, replicas as usize)?;
        for _ in 0..replicas {
            none.push(LabelSet::new(alloc))?;
        }
        Ok(Siblings {
            labels: Vec::new(alloc),
            replicas: none,
        })
    }

    /// Returns the number of labels. It is the number that the next label gets.
    pub fn label_count(&self) -> usize
        // The result is the number of labels.
        ensures { result ≡ length self.now.labels }
    {
        self.labels.len()
    }

    /// Returns the number of replicas.
    pub fn replica_count(&self) -> usize
        // The result is the number of replicas.
        ensures { result ≡ length self.now.replicas }
    {
        self.replicas.len()
    }

    /// Returns `true` if the label is a sibling of the replica.
    ///
    /// # Complexity
    ///
    /// O(s), where the replica has `s` siblings.
    pub fn is_sibling(&self, replica: u8, label: u32) -> bool
        // The replica exists.
        requires { replica < length self.now.replicas }
        // The result is `true` exactly if the label is a sibling of the replica.
        ensures { IsTrue result ↔ Contains (siblings_of self.now replica) label }
    {
        self.replicas[replica as usize].contains(label)
    }

    /// Returns the labels of the replica's siblings, in the order of their numbers.
    pub fn labels(&self, replica: u8) -> &[u32]
        // The replica exists.
        requires { replica < length self.now.replicas }
        // The result is the list of the replica's siblings.
        ensures { result.now ≡ siblings_of self.now replica }
    {
        self.replicas[replica as usize].as_slice()
    }

    /// Adds a write, which replaces the siblings of its replica.
    ///
    /// # Errors
    ///
    /// `NoMemory` if allocation fails; nothing is changed.
    ///
    /// # Complexity
    ///
    /// O(1), amortized.
    pub fn write(&mut self, replica: u8, value: u32) -> Result<(), NoMemory>
        // The replica exists.
        requires there { replica < length self.old.replicas }
        // The number of the label fits 32 bits.
        requires few { length self.old.labels < 4294967296 }
        // The label has the value, and replaces the siblings of its replica.
        ensures labels { OnOk result (self.new.labels
            ≡ self.old.labels ++ issued_as (Some value) (siblings_of self.old replica) ∷ []) }
        // The label is the only sibling of its replica; other replicas keep theirs.
        ensures replicas { OnOk result (self.new.replicas
            ≡ set self.old.replicas replica (length self.old.labels ∷ [])) }
        // After a failure nothing is changed.
        ensures failed { OnErr result (self.new ≡ self.old) }
    {
        self.labels.reserve(1)?;
        let alone = LabelSet::of(*self.labels.allocator(), self.labels.len() as u32)?;
        let replaced = mem::replace(&mut self.replicas[replica as usize], alone);
        self.labels.push_reserved(Issued {
            value: Some(value),
            replaced,
        });
        Ok(())
    }

    /// Adds a label that is no write.
    ///
    /// # Errors
    ///
    /// `NoMemory` if allocation fails; nothing is changed.
    ///
    /// # Complexity
    ///
    /// O(1), amortized.
    pub fn add_query(&mut self) -> Result<(), NoMemory>
        // The label has no value and replaces nothing.
        ensures labels { OnOk result (self.new.labels ≡ self.old.labels ++ issued_as None [] ∷ []) }
        // The siblings of each replica are unchanged.
        ensures replicas { self.new.replicas ≡ self.old.replicas }
        // After a failure nothing is changed.
        ensures failed { OnErr result (self.new ≡ self.old) }
    {
        let replaced = LabelSet::new(*self.labels.allocator());
        self.labels.push(Issued {
            value: None,
            replaced,
        })?;
        Ok(())
    }

    /// Adds the delivery of a write to a replica: the write is a sibling, and those that it replaced are not.
    ///
    /// # Errors
    ///
    /// `NoMemory` if allocation fails; nothing is changed.
    ///
    /// # Complexity
    ///
    /// O(s + t), where the replica has `s` siblings and the write replaced `t`.
    pub fn deliver(&mut self, replica: u8, label: u32) -> Result<(), NoMemory>
        // The replica exists.
        requires there { replica < length self.old.replicas }
        // The label exists.
        requires issued { label < length self.old.labels }
        // The label is no sibling of the replica yet.
        requires new { ¬ Contains (siblings_of self.old replica) label }
        // The replica's siblings are the label, and those that it had and that the label did not replace.
        ensures siblings { OnOk result ((m : ℕ) → Contains (siblings_of self.new replica) m
            ↔ ((label ≡ m) ⊎ (Contains (siblings_of self.old replica) m
            × (¬ Contains (issued_at self.old label).replaced m)))) }
        // Other replicas keep their siblings.
        ensures others { self.new.replicas ≡ set self.old.replicas replica (siblings_of self.new replica) }
        // The labels are unchanged.
        ensures labels { self.new.labels ≡ self.old.labels }
        // After a failure nothing is changed.
        ensures failed { OnErr result (self.new ≡ self.old) }
    {
        let replaced = &self.labels[label as usize].replaced;
        let siblings = self.replicas[replica as usize].replace(replaced, label)?;
        self.replicas[replica as usize] = siblings;
        Ok(())
    }

    /// Adds a replica that joins from another one: it has the same siblings.
    ///
    /// # Errors
    ///
    /// `NoMemory` if allocation fails; nothing is changed.
    ///
    /// # Complexity
    ///
    /// O(s), where the other replica has `s` siblings.
    pub fn join(&mut self, from: u8) -> Result<(), NoMemory>
        // The other replica exists.
        requires { from < length self.old.replicas }
        // The new replica has the siblings of the other one.
        ensures replicas { OnOk result (self.new.replicas ≡ self.old.replicas ++ siblings_of self.old from ∷ []) }
        // The labels are unchanged.
        ensures labels { self.new.labels ≡ self.old.labels }
        // After a failure nothing is changed.
        ensures failed { OnErr result (self.new ≡ self.old) }
    {
        let siblings = self.replicas[from as usize].copy()?;
        self.replicas.push(siblings)?;
        Ok(())
    }

    /// Returns the values that a read at the replica has to list: those of its siblings, each once, in their order.
    ///
    /// # Errors
    ///
    /// `NoMemory` if allocation fails.
    ///
    /// # Complexity
    ///
    /// O(s log s), where the replica has `s` siblings.
    pub fn values(&self, replica: u8) -> Result<Vec<u32>, NoMemory>
        // The replica exists.
        requires { replica < length self.now.replicas }
        // The result increases strictly.
        ensures rising { IfOk result (λ values. rises values.items ≡ true) }
        // The result has the values of the replica's siblings, and no others.
        ensures values { IfOk result (λ values. have_same_elements values.items
            (values_of self.now (siblings_of self.now replica)) ≡ true) }
    {
        let mut values = self.written(self.labels(replica))?;
        values.sort_unstable();
        values.dedup();
        Ok(values)
    }

    /// Returns `true` if the list has exactly the values of the replica's siblings, each once, in their order.
    ///
    /// # Errors
    ///
    /// `NoMemory` if allocation fails.
    ///
    /// # Complexity
    ///
    /// O(s log s), where the replica has `s` siblings.
    pub fn is_right_read(&self, replica: u8, list: &[u32]) -> Result<bool, NoMemory>
        // The replica exists.
        requires { replica < length self.now.replicas }
        // The result is `true` exactly if the list increases strictly and has the values of the replica's siblings, and
        // no others.
        ensures { IfOk result (λ is_right. is_right
            ≡ (rises list.now && have_same_elements list.now (values_of self.now (siblings_of self.now replica)))) }
    {
        let values = self.values(replica)?;
        Ok(values.as_slice() == list)
    }

    /// Returns the allocator of the lists.
    pub fn allocator(&self) -> Global {
        *self.labels.allocator()
    }

    // Returns the values that the labels wrote, in the order of the labels.
    fn written(&self, labels: &[u32]) -> Result<Vec<u32>, NoMemory>
        ensures { IfOk result (λ values. values.items ≡ values_of self.now labels.now) }
    {
        let mut values = Vec::with_capacity(*self.labels.allocator(), labels.len())?;
        for label in labels {
            if let Some(value) = self.value(*label) {
                values.push(value)?;
            }
        }
        Ok(values)
    }

    // Returns the value that the label wrote, or `None` if it is no write.
    fn value(&self, label: u32) -> Option<u32>
        ensures { result ≡ value_at self.now label }
    {
        match self.labels.get(label as usize) {
            Some(issued) => issued.value,
            None => None,
        }
    }
}
