//! A set whose additions carry identifiers: the pairs that were added and not removed.
ghost use Rattle.std.specs.Prelude.{◌≡◌, true, false, IfOk};
ghost use Rattle.ra_labels.specs.declared.kind.Kind.TheVariants as kind;
ghost use Rattle.ra_labels.specs.Answer.{kind_of, has_rising_list};
ghost use Rattle.ra_labels.specs.Lists.{rises};
ghost use Rattle.ra_labels.specs.Visibility.{is_update};
ghost use Rattle.ra_bench_replicas.specs.Turn.{is_of_turn};

use crate::rising::add_above;
use crate::turn::Turn;
use ra_labels::{Elements, NoMemory, Op};
use std::alloc::Global;
use std::collections::BTreeSet;

/// The pairs of a present element and an identifier that it is present under.
#[derive(Drop)]
pub struct OrSet {
    alloc: Global,
    pairs: BTreeSet<(u32, u32)>,
}

impl OrSet {
    /// Creates the empty set. Does not allocate.
    pub fn new(alloc: Global) -> OrSet {
        OrSet {
            alloc,
            pairs: BTreeSet::new(alloc),
        }
    }

    /// Returns its update of this round: the removal of its smallest element, or an addition. O(number of the element's
    /// identifiers).
    pub fn update(&self, turn: Turn) -> Result<Op, NoMemory>
        ensures kind { IfOk result (λ op. kind_of op ≡ kind.OrSet) }
        ensures rising { IfOk result (λ op. has_rising_list op ≡ true) }
        ensures turn { IfOk result (λ op. is_of_turn turn op ≡ true) }
    {
        match self.pairs.first() {
            Some(pair) if turn.takes_out() => {
                let element = pair.0;
                let ids = self.identifiers(element)?;
                Ok(Op::OrRemove { element, ids })
            }
            _ => Ok(Op::OrAdd {
                element: turn.shared_element(),
                id: turn.own_number(),
            }),
        }
    }

    /// Returns the read with the elements, with one search for each.
    pub fn read(&self) -> Result<Op, NoMemory>
        ensures kind { IfOk result (λ op. kind_of op ≡ kind.OrSet) }
        ensures rising { IfOk result (λ op. has_rising_list op ≡ true) }
        ensures query { IfOk result (λ op. is_update op ≡ false) }
    {
        let mut elements = Vec::new(self.alloc);
        let mut least = 0;
        for _step in 0..self.pairs.len() {
            let Some(element) = self.element_from(least) else {
                break;
            };
            add_above(&mut elements, element)?;
            least = element.saturating_add(1);
        }
        Ok(Op::OrRead(Elements::new(elements)))
    }

    /// Adds the element under this identifier.
    pub fn put(&mut self, element: u32, id: u32) -> Result<(), NoMemory> {
        self.pairs.insert((element, id))?;
        Ok(())
    }

    /// Removes the element as far as it is present under these identifiers. Does not allocate.
    pub fn take_out(&mut self, element: u32, ids: &[u32]) {
        for id in ids {
            self.pairs.remove(&(element, *id));
        }
    }

    // Returns the smallest element that is at least this one.
    fn element_from(&self, least: u32) -> Option<u32> {
        self.pairs.range((least, 0)..).next().map(|pair| pair.0)
    }

    // Returns the identifiers that the element is present under, in ascending order.
    fn identifiers(&self, element: u32) -> Result<Elements, NoMemory>
        ensures { IfOk result (λ ids. rises ids ≡ true) }
    {
        let mut ids = Vec::new(self.alloc);
        for pair in self.pairs.range((element, 0)..) {
            if pair.0 != element {
                break;
            }
            add_above(&mut ids, pair.1)?;
        }
        Ok(Elements::new(ids))
    }
}
