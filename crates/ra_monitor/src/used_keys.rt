//! The unique keys of labels: their own stamps, and the identifiers of additions.
ghost use Rattle.std.specs.Prelude.{◌≡◌, ℕ, ◌+◌, ◌<◌, ◌||◌, false, IfOk, OnOk, vec_len, vec_capacity};
ghost use Rattle.ra_labels.specs.declared.label.Stamp.{Stamp};
ghost use Rattle.ra_labels.specs.Records.{Records};
ghost use Rattle.ra_monitor.specs.UsedKeys.{is_stamp_in, is_identifier_in, refusal_by, HasRoom, CanKeep, key_is_stamp, key_is_identifier, AreUsedKeysOf};

mod clocks;
pub mod unique_key;

use clocks::Clocks;
use ra_labels::{NoMemory, Refusal, Stamp};
use std::alloc::Global;
use std::collections::HashSet;
use unique_key::UniqueKey;

/// The stamps and identifiers of accepted labels, which no other label may have.
#[derive(Drop)]
pub struct UsedKeys {
    /// The clocks of each replica's stamps.
    pub clocks: Vec<Clocks>,
    pub identifiers: HashSet<u32>,
}

impl UsedKeys {
    /// Creates the collection without keys, for the given number of replicas.
    ///
    /// # Errors
    ///
    /// `NoMemory` if allocation fails.
    pub fn new(alloc: Global, replicas: u8) -> Result<UsedKeys, NoMemory>
        // There are clocks for each replica.
        ensures replicas { IfOk result (λ taken. vec_len taken.clocks ≡ replicas) }
        // No stamp is taken.
        ensures stamps { IfOk result (λ taken. (stamp : Stamp) → is_stamp_in taken stamp ≡ false) }
        // No identifier is taken.
        ensures identifiers { IfOk result (λ taken. (identifier : ℕ) → is_identifier_in taken identifier ≡ false) }
    {
        let mut clocks = Vec::with_capacity(alloc, replicas as usize)?;
        for _ in 0..replicas {
            clocks.push(Clocks::new(alloc))?;
        }
        Ok(UsedKeys {
            clocks,
            identifiers: HashSet::new(alloc),
        })
    }

    /// Returns the reason to reject a label with this key if another label has it.
    ///
    /// # Complexity
    ///
    /// O(1) for an identifier, and for a stamp whose clock is greater than all of its replica. Otherwise O(log n),
    /// where `n` is the number of the replica's stamps.
    pub fn refusal_of(&self, brought: UniqueKey) -> Option<Refusal>
        // If the keys are those of records, the result is the reason by which these reject the key, or `None`.
        ensures { (records : Records) → AreUsedKeysOf records self.now → result ≡ refusal_by records brought }
    {
        match brought {
            UniqueKey::Identifier(identifier) if self.identifiers.contains(&identifier) => {
                Some(Refusal::IdTaken)
            }
            UniqueKey::Stamp(stamp) if self.has_stamp(stamp) => Some(Refusal::StampTaken),
            UniqueKey::Identifier(_) | UniqueKey::Stamp(_) | UniqueKey::Nothing => None,
        }
    }

    // Returns `true` if a label has the stamp.
    fn has_stamp(&self, stamp: Stamp) -> bool
        ensures { result ≡ is_stamp_in self.now stamp }
    {
        match self.clocks.get(stamp.replica as usize) {
            Some(clocks) => clocks.has(stamp.clock),
            None => false,
        }
    }

    /// Reserves room for the key of a label of the replica. The keys do not change.
    ///
    /// # Errors
    ///
    /// `NoMemory` if allocation fails.
    pub fn reserve(&mut self, replica: u8) -> Result<(), NoMemory>
        // There are clocks for the replica.
        requires { replica < vec_len self.old.clocks }
        // There is room for an identifier and for a clock of the replica.
        ensures room { OnOk result (HasRoom self.new replica) }
        // The number of replicas is unchanged.
        ensures replicas { vec_len self.new.clocks ≡ vec_len self.old.clocks }
        // The same stamps are taken.
        ensures stamps { (stamp : Stamp) → is_stamp_in self.new stamp ≡ is_stamp_in self.old stamp }
        // The same identifiers are taken.
        ensures identifiers { (identifier : ℕ)
            → is_identifier_in self.new identifier ≡ is_identifier_in self.old identifier }
    {
        let clocks = &mut self.clocks[replica as usize];
        clocks.reserve()?;
        self.identifiers.reserve(1)?;
        Ok(())
    }

    /// Reserves room for one more replica. The keys do not change.
    ///
    /// # Errors
    ///
    /// `NoMemory` if allocation fails.
    pub fn reserve_replica(&mut self) -> Result<(), NoMemory>
        // There is room for one more replica.
        ensures place { OnOk result (vec_len self.new.clocks < vec_capacity self.new.clocks) }
        // The clocks are unchanged.
        ensures clocks { self.new.clocks.items ≡ self.old.clocks.items }
        // The number of replicas is unchanged.
        ensures replicas { vec_len self.new.clocks ≡ vec_len self.old.clocks }
        // The identifiers are unchanged.
        ensures identifiers { self.new.identifiers ≡ self.old.identifiers }
    {
        self.clocks.reserve(1)?;
        Ok(())
    }

    /// Adds one more replica, which has no stamp yet, within the reserved room. Does not allocate.
    pub fn add_replica(&mut self)
        // There is room for one more replica.
        requires { vec_len self.old.clocks < vec_capacity self.old.clocks }
        // There is one more replica.
        ensures replicas { vec_len self.new.clocks ≡ vec_len self.old.clocks + 1 }
        // The same stamps are taken.
        ensures stamps { (stamp : Stamp) → is_stamp_in self.new stamp ≡ is_stamp_in self.old stamp }
        // The identifiers are unchanged.
        ensures identifiers { self.new.identifiers ≡ self.old.identifiers }
    {
        let clocks = Clocks::new(*self.clocks.allocator());
        self.clocks.push_reserved(clocks);
    }

    /// Adds the key of a label within the reserved room. Does not allocate.
    pub fn keep(&mut self, brought: UniqueKey)
        // There is room for the key.
        requires { CanKeep self.old brought }
        // The number of replicas is unchanged.
        ensures replicas { vec_len self.new.clocks ≡ vec_len self.old.clocks }
        // The taken stamps are those before and the key, if it is one.
        ensures stamps { (stamp : Stamp) → is_stamp_in self.new stamp
            ≡ (key_is_stamp brought stamp || is_stamp_in self.old stamp) }
        // The taken identifiers are those before and the key, if it is one.
        ensures identifiers { (identifier : ℕ) → is_identifier_in self.new identifier
            ≡ (key_is_identifier brought identifier || is_identifier_in self.old identifier) }
    {
        match brought {
            UniqueKey::Identifier(identifier) => {
                let _ = self.identifiers.insert(identifier);
            }
            UniqueKey::Stamp(stamp) => {
                let clocks = &mut self.clocks[stamp.replica as usize];
                clocks.keep(stamp.clock);
            }
            UniqueKey::Nothing => {}
        }
    }
}
