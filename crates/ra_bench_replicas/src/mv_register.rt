//! A multi-value register: the values that no other one was written over.
ghost use Rattle.std.specs.Prelude.{◌≡◌, true, false, IfOk};
ghost use Rattle.ra_labels.specs.declared.kind.Kind.TheVariants as kind;
ghost use Rattle.ra_labels.specs.Answer.{kind_of, has_rising_list};
ghost use Rattle.ra_labels.specs.Visibility.{is_update};
ghost use Rattle.ra_bench_replicas.specs.Turn.{is_of_turn};

use crate::counts::Counts;
use crate::rising::add_above;
use crate::turn::Turn;
use ra_labels::{Elements, NoMemory, Op};
use std::alloc::Global;
use std::collections::BTreeSet;

/// The values with the update that wrote each: its replica, and its number among that replica's updates. An update
/// that had been applied where another one was made was written over by it.
#[derive(Drop)]
pub struct MvRegister {
    alloc: Global,
    values: Vec<Written>,
}

#[derive(Clone, Copy)]
struct Written {
    replica: u8,
    number: u32,
    value: u32,
}

impl MvRegister {
    /// Creates the register without a value. Does not allocate.
    pub fn new(alloc: Global) -> MvRegister {
        MvRegister {
            alloc,
            values: Vec::new(alloc),
        }
    }

    /// Returns its update of this round: a write of a value of its own.
    pub fn update(&self, turn: Turn) -> Op
        ensures kind { kind_of result ≡ kind.MvRegister }
        ensures rising { has_rising_list result ≡ true }
        ensures turn { is_of_turn turn result ≡ true }
    {
        Op::MvWrite(turn.own_number())
    }

    /// Returns the read with the values, each once.
    pub fn read(&self) -> Result<Op, NoMemory>
        ensures kind { IfOk result (λ op. kind_of op ≡ kind.MvRegister) }
        ensures rising { IfOk result (λ op. has_rising_list op ≡ true) }
        ensures query { IfOk result (λ op. is_update op ≡ false) }
    {
        let mut values = BTreeSet::new(self.alloc);
        for written in &self.values {
            values.insert(written.value)?;
        }
        let mut list = Vec::new(self.alloc);
        for value in &values {
            add_above(&mut list, *value)?;
        }
        Ok(Op::MvRead(Elements::new(list)))
    }

    /// Applies a write of the value by this replica. `had` counts the updates of each replica that it had applied
    /// before.
    pub fn write(&mut self, value: u32, replica: u8, had: &Counts) -> Result<(), NoMemory> {
        let mut values = Vec::new(self.alloc);
        for written in &self.values {
            if written.number >= had.of(written.replica) {
                values.push(*written)?;
            }
        }
        values.push(Written {
            replica,
            number: had.of(replica),
            value,
        })?;
        self.values = values;
        Ok(())
    }
}
