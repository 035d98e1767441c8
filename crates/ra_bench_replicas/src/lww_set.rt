//! A set whose updates carry stamps, of which the greatest of each element decides.
ghost use Rattle.std.specs.Prelude.{◌≡◌, true, false, IfOk};
ghost use Rattle.ra_labels.specs.declared.kind.Kind.TheVariants as kind;
ghost use Rattle.ra_labels.specs.Answer.{kind_of, has_rising_list};
ghost use Rattle.ra_labels.specs.Visibility.{is_update};
ghost use Rattle.ra_bench_replicas.specs.Turn.{is_of_turn};

use crate::rising::add_above;
use crate::turn::Turn;
use ra_labels::{Elements, NoMemory, Op, Stamp};
use std::alloc::Global;
use std::collections::BTreeMap;

/// The update with the greatest stamp of each element. The element is present if that update is an addition.
#[derive(Drop)]
pub struct LwwSet {
    alloc: Global,
    lasts: BTreeMap<u32, Last>,
}

// The update of an element with the greatest stamp.
#[derive(Clone, Copy)]
struct Last {
    stamp: Stamp,
    is_in: bool,
}

impl LwwSet {
    /// Creates the empty set. Does not allocate.
    pub fn new(alloc: Global) -> LwwSet {
        LwwSet {
            alloc,
            lasts: BTreeMap::new(alloc),
        }
    }

    /// Returns its update of this round: the removal of its smallest element, or an addition.
    pub fn update(&self, turn: Turn) -> Op
        ensures kind { kind_of result ≡ kind.LwwSet }
        ensures rising { has_rising_list result ≡ true }
        ensures turn { is_of_turn turn result ≡ true }
    {
        match self.least() {
            Some(element) if turn.takes_out() => Op::LwwRemove(element),
            _ => Op::LwwAdd(turn.shared_element()),
        }
    }

    /// Returns the read with the elements. O(n) for n elements, including removed ones.
    pub fn read(&self) -> Result<Op, NoMemory>
        ensures kind { IfOk result (λ op. kind_of op ≡ kind.LwwSet) }
        ensures rising { IfOk result (λ op. has_rising_list op ≡ true) }
        ensures query { IfOk result (λ op. is_update op ≡ false) }
    {
        let mut elements = Vec::new(self.alloc);
        for (element, last) in &self.lasts {
            if last.is_in {
                add_above(&mut elements, *element)?;
            }
        }
        Ok(Op::LwwRead(Elements::new(elements)))
    }

    /// Applies an update of the element with this stamp: an addition or a removal.
    pub fn put(&mut self, element: u32, stamp: Stamp, is_in: bool) -> Result<(), NoMemory> {
        match self.lasts.get(&element) {
            Some(last) if stamp < last.stamp => Ok(()),
            _ => {
                self.lasts.insert(element, Last { stamp, is_in })?;
                Ok(())
            }
        }
    }

    // Returns the smallest element that is present.
    fn least(&self) -> Option<u32> {
        for (element, last) in &self.lasts {
            if last.is_in {
                return Some(*element);
            }
        }
        None
    }
}
