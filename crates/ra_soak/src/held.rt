//! The data of a replica to which nothing is delivered: its possible updates, and the answers of its reads.
ghost use Rattle.std.specs.Prelude.{◌≤◌, length};

use crate::chance::Chance;
use ra_labels::{Elements, Insertion, Kind, ListOp, Op};
use std::alloc::{AllocError, Global};

/// The largest number of elements that a replica holds.
const MOST_HELD: u32 = 8;

/// The distance between the elements of two replicas, which is at least the length of any log.
const ELEMENTS: u32 = 1_048_576;

/// The bound below which written values are.
const VALUES: u32 = 1_000;

/// The data of a replica.
#[derive(Drop)]
pub struct Held {
    kind: Kind,
    replica: u8,
    count: i32,
    last: Option<u32>,
    // The elements in the order of the list, which ascends in a set. A new element of an RGA has a greater stamp than
    // all that the replica holds, so it goes directly behind its anchor; one of a list, behind its left neighbour.
    elements: Vec<u32>,
    // The number of elements that were ever added.
    made: u32,
}

impl Held {
    /// Creates the data of a replica before any update.
    pub fn new(alloc: Global, kind: Kind, replica: u8) -> Held {
        Held {
            kind,
            replica,
            count: 0,
            last: None,
            elements: Vec::new(alloc),
            made: 0,
        }
    }

    /// Returns an update that the replica may make. A removal is of one of its own elements.
    pub fn update(&self, alloc: Global, chance: &mut Chance) -> Result<Op, AllocError> {
        let there = self.some_element(chance);
        Ok(match (self.kind, there) {
            (Kind::Counter, _) if chance.is_one_in(3) => Op::Dec,
            (Kind::Counter, _) => Op::Inc,
            (Kind::Register, _) => Op::Write(chance.below(VALUES)),
            (Kind::LwwSet, Some(element)) => Op::LwwRemove(element),
            (Kind::LwwSet, None) => Op::LwwAdd(self.fresh()),
            (Kind::OrSet, Some(element)) => Op::OrRemove {
                element,
                ids: only(alloc, element)?,
            },
            (Kind::OrSet, None) => Op::OrAdd {
                element: self.fresh(),
                id: self.fresh(),
            },
            (Kind::Rga, Some(element)) => Op::RgaRemove(element),
            (Kind::Rga, None) => Op::After {
                anchor: self.some_element(chance).unwrap_or(0),
                element: self.fresh(),
            },
            (Kind::List, Some(element)) => Op::List(ListOp::Remove(element)),
            (Kind::List, None) => self.insertion(self.some_element(chance).unwrap_or(0)),
            (Kind::Any, _) => Op::AnyUpdate,
            (Kind::MvRegister, _) => Op::MvWrite(chance.below(VALUES)),
        })
    }

    // Returns the insertion of a new element behind this one, or at the beginning for 0.
    fn insertion(&self, left: u32) -> Op {
        let right = self.elements.get(self.place_behind(left)).copied();
        Op::List(ListOp::Insert(Insertion {
            left,
            element: self.fresh(),
            right: right.unwrap_or(0),
        }))
    }

    // Returns one of the elements, more probably the more there are.
    fn some_element(&self, chance: &mut Chance) -> Option<u32> {
        self.elements.get(chance.below(MOST_HELD) as usize).copied()
    }

    // Returns an element that no update has added.
    fn fresh(&self) -> u32 {
        u32::from(self.replica)
            .wrapping_mul(ELEMENTS)
            .wrapping_add(self.made)
            .wrapping_add(1)
    }

    /// Returns a read with its right answer.
    pub fn read(&self) -> Result<Op, AllocError> {
        Ok(match self.kind {
            Kind::Counter => Op::Count(self.count),
            Kind::Register => Op::Last(self.last),
            Kind::LwwSet => Op::LwwRead(Elements::new(self.elements.clone()?)),
            Kind::OrSet => Op::OrRead(Elements::new(self.elements.clone()?)),
            Kind::Rga => Op::RgaRead(Elements::new(self.elements.clone()?)),
            Kind::List => Op::List(ListOp::Read(Elements::new(self.elements.clone()?))),
            Kind::Any => Op::AnyRead(self.digest()),
            Kind::MvRegister => Op::MvRead(listed(*self.elements.allocator(), self.last)?),
        })
    }

    // Returns a number for the updates of this replica: 0 if there are none, and else one that no other replica has.
    fn digest(&self) -> u32 {
        if self.made == 0 { 0 } else { self.fresh() }
    }

    /// Returns a read with a wrong answer: a larger number, or an element that is never added. Of any type it is right
    /// where there are no updates, since other replicas see none either.
    pub fn lie(&self) -> Result<Op, AllocError> {
        let mut elements = self.elements.clone()?;
        elements.push(u32::MAX)?;
        Ok(match self.kind {
            Kind::Counter => Op::Count(self.count.wrapping_add(1)),
            Kind::Register => Op::Last(Some(VALUES)),
            Kind::LwwSet => Op::LwwRead(Elements::new(elements)),
            Kind::OrSet => Op::OrRead(Elements::new(elements)),
            Kind::Rga => Op::RgaRead(Elements::new(elements)),
            Kind::List => Op::List(ListOp::Read(Elements::new(elements))),
            Kind::Any if self.made == 0 => Op::AnyRead(0),
            Kind::Any => Op::AnyRead(u32::MAX),
            Kind::MvRegister => Op::MvRead(listed(*self.elements.allocator(), Some(VALUES))?),
        })
    }

    /// Applies an operation of the replica.
    pub fn take(&mut self, op: &Op) -> Result<(), AllocError> {
        match op {
            Op::Inc => self.count = self.count.wrapping_add(1),
            Op::Dec => self.count = self.count.wrapping_sub(1),
            Op::Write(value) | Op::MvWrite(value) => self.last = Some(*value),
            Op::AnyUpdate | Op::AnyRead(_) | Op::MvRead(_) => {}
            Op::LwwAdd(element) | Op::OrAdd { element, .. } => self.elements.push(*element)?,
            Op::LwwRemove(element) | Op::OrRemove { element, .. } | Op::RgaRemove(element) => {
                self.take_out(*element)
            }
            Op::After { anchor, element } => self.put_behind(*anchor, *element)?,
            Op::List(ListOp::Insert(Insertion { left, element, .. })) => {
                self.put_behind(*left, *element)?
            }
            Op::List(ListOp::Remove(element)) => self.take_out(*element),
            Op::Count(_) | Op::Last(_) | Op::LwwRead(_) | Op::OrRead(_) | Op::RgaRead(_) => {}
            Op::List(ListOp::Read(_) | ListOp::Part(_)) => {}
        }
        if adds(op) {
            self.made = self.made.wrapping_add(1);
        }
        Ok(())
    }

    fn take_out(&mut self, element: u32) {
        self.elements.retain(|it| *it != element);
    }

    // Inserts the element directly behind the anchor, or at the beginning if the anchor is missing.
    fn put_behind(&mut self, anchor: u32, element: u32) -> Result<(), AllocError> {
        let place = self.place_behind(anchor);
        self.elements.insert(place, element)?;
        Ok(())
    }

    // Returns the place directly behind this element, or the first place if the element is missing.
    fn place_behind(&self, element: u32) -> usize
        ensures { result ≤ length self.now.elements.items }
    {
        let place = self.elements.iter().position(|it| *it == element);
        place.map_or(0, |at| at + 1)
    }
}

// Returns `true` if the operation adds a new element.
fn adds(op: &Op) -> bool {
    matches!(
        op,
        Op::LwwAdd(_)
            | Op::OrAdd { .. }
            | Op::After { .. }
            | Op::List(ListOp::Insert(_))
            | Op::AnyUpdate
    )
}

// Returns the list of the value, if there is one.
fn listed(alloc: Global, value: Option<u32>) -> Result<Elements, AllocError> {
    match value {
        Some(value) => only(alloc, value),
        None => Ok(Elements::new(Vec::new(alloc))),
    }
}

// Returns a list of one number.
fn only(alloc: Global, id: u32) -> Result<Elements, AllocError> {
    let mut ids = Vec::new(alloc);
    ids.push(id)?;
    Ok(Elements::new(ids))
}
