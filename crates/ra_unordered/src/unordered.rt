//! What is kept of a history of either kind.
ghost use Rattle.std.specs.Prelude.{◌≡◌, ℕ, ◌∷◌, true, Ok, IfOk, OnOk, OnErr};
ghost use Rattle.ra_labels.specs.declared.kind.Kind.{Kind};
ghost use Rattle.ra_labels.specs.declared.command.Command.TheVariants.{Deliver, Join};
ghost use Rattle.ra_labels.specs.Explained.{is_explained};
ghost use Rattle.ra_labels.specs.HistorySoFar.{History, replicas_of, empty_history, history_with, NextOperation, operate};
ghost use Rattle.ra_theorems.specs.OneState.{HasOneState};
ghost use Rattle.ra_unordered.specs.Unordered.{IsKeptOf, IsNext, IsDelivered, IsJoined, MayAdd, MayDeliver, MayJoin};

use crate::first_reads::add_read;
use crate::register::add_label;
use ra_any_reads::AnyReads;
use ra_labels::{Kind, Label, NoMemory, Op};
use ra_siblings::Siblings;
use ra_visibility::Seen;
use std::alloc::Global;

/// What is kept of a history of one of the two kinds that are judged by what each read sees.
#[derive(Drop)]
pub enum Unordered {
    /// Of an object of any type, the first read of each set of visible updates.
    Any(AnyReads),
    /// Of a multi-value register, the siblings of each replica.
    MvRegister(Siblings),
}

impl Unordered {
    /// Creates what is kept of no labels, with the given number of replicas.
    ///
    /// # Errors
    ///
    /// `NoMemory` if allocation fails.
    ///
    /// # Complexity
    ///
    /// O(r), where `r` is the number of replicas.
    pub fn new(alloc: Global, kind: Kind, replicas: u8) -> Result<Unordered, NoMemory>
        // The kind is any type or a multi-value register.
        requires { HasOneState kind }
        // The result represents the empty history of this kind and number of replicas.
        ensures { IfOk result (λ kept. IsKeptOf kept (empty_history kind replicas)) }
    {
        match kind {
            Kind::MvRegister => Ok(Unordered::MvRegister(Siblings::new(alloc, replicas)?)),
            _ => Ok(Unordered::Any(AnyReads::new(alloc))),
        }
    }

    /// Adds the next label, with what it sees, and returns `true`. If the condition of the kind fails with the label,
    /// returns `false`, and the same history is represented.
    ///
    /// # Errors
    ///
    /// `NoMemory` if allocation fails; the same history is represented.
    ///
    /// # Complexity
    ///
    /// For any type O(r · log n), where `r` is the number of replicas and `n` the number of reads that see different
    /// updates, and O(1) for an update. For a multi-value register O(1), amortized, for a write, and O(s log s) for a
    /// read by a replica with `s` siblings.
    pub fn add(&mut self, label: &Label, seen: &Seen<'_>) -> Result<bool, NoMemory>
        // The label comes next after a history that is represented, meets its condition and has fewer than
        // `MOST_LABELS` labels.
        requires { MayAdd self.old label.now seen.now }
        // The result is `true` exactly if the history with the label meets the condition of its kind.
        ensures judged { (past : History) (next : NextOperation) → IsKeptOf self.old past
            → IsNext past next label.now seen.now
            → IfOk result (λ is_met. is_met ≡ is_explained past.kind (operate next ∷ past.records)) }
        // If it does, the history with the label is represented.
        ensures taken { (past : History) (next : NextOperation) → IsKeptOf self.old past
            → IsNext past next label.now seen.now → result ≡ Ok true
            → IsKeptOf self.new (history_with past (operate next)) }
        // If it does not, or if allocation fails, nothing is changed.
        ensures same { ¬ (result ≡ Ok true) → self.new ≡ self.old }
    {
        match self {
            Unordered::Any(reads) => match &label.op {
                Op::AnyRead(value) => add_read(reads, seen, *value, label.number),
                _ => Ok(true),
            },
            Unordered::MvRegister(siblings) => add_label(siblings, label),
        }
    }

    /// Adds the delivery of the label to the replica.
    ///
    /// # Errors
    ///
    /// `NoMemory` if allocation fails; the same history is represented.
    ///
    /// # Complexity
    ///
    /// O(1) for any type. For a multi-value register O(s + t), where the replica has `s` siblings and the label
    /// replaced `t`.
    pub fn deliver(&mut self, replica: u8, label: u32) -> Result<(), NoMemory>
        // The label is an update, and its delivery to the replica is causal after a history that is represented.
        requires { MayDeliver self.old replica label }
        // The history with the delivery is represented.
        ensures delivered { (past : History) → IsKeptOf self.old past → IsDelivered past replica label
            → OnOk result (IsKeptOf self.new (history_with past (Deliver replica label))) }
        // If allocation fails, nothing is changed.
        ensures same { OnErr result (self.new ≡ self.old) }
    {
        match self {
            Unordered::Any(_) => Ok(()),
            Unordered::MvRegister(siblings) => siblings.deliver(replica, label),
        }
    }

    /// Adds the next replica, which joins from this one.
    ///
    /// # Errors
    ///
    /// `NoMemory` if allocation fails; the same history is represented.
    ///
    /// # Complexity
    ///
    /// O(1) for any type. For a multi-value register O(s), where the replica has `s` siblings.
    pub fn join(&mut self, from: u8) -> Result<(), NoMemory>
        // The replica exists after a history that is represented.
        requires { MayJoin self.old from }
        // The history with the next replica is represented.
        ensures joined { (past : History) → IsKeptOf self.old past → IsJoined past from
            → OnOk result (IsKeptOf self.new (history_with past (Join (replicas_of past) from))) }
        // If allocation fails, nothing is changed.
        ensures same { OnErr result (self.new ≡ self.old) }
    {
        match self {
            Unordered::Any(_) => Ok(()),
            Unordered::MvRegister(siblings) => siblings.join(from),
        }
    }

    /// Returns the allocator of the collections.
    pub fn allocator(&self) -> Global {
        match self {
            Unordered::Any(reads) => reads.allocator(),
            Unordered::MvRegister(siblings) => siblings.allocator(),
        }
    }
}
