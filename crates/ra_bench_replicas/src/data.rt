//! The data type of a replica: one of eight.
ghost use Rattle.std.specs.Prelude.{◌≡◌, true, false, IfOk};
ghost use Rattle.ra_labels.specs.Answer.{kind_of, has_rising_list};
ghost use Rattle.ra_labels.specs.Visibility.{is_update};
ghost use Rattle.ra_bench_replicas.specs.Turn.{is_of_turn};
ghost use Rattle.ra_bench_replicas.specs.Data.{kind_in};

use crate::any_object::AnyObject;
use crate::counter::Counter;
use crate::counts::Counts;
use crate::fugue_list::FugueList;
use crate::lww_set::LwwSet;
use crate::mv_register::MvRegister;
use crate::or_set::OrSet;
use crate::register::Register;
use crate::rga::Rga;
use crate::turn::Turn;
use ra_labels::{Kind, ListOp, NoMemory, Op, Stamp};
use std::alloc::Global;

/// The data of a replica, by kind.
#[derive(Drop)]
pub enum Data {
    Counter(Counter),
    Register(Register),
    LwwSet(LwwSet),
    OrSet(OrSet),
    Rga(Rga),
    List(FugueList),
    Any(AnyObject),
    MvRegister(MvRegister),
}

impl Data {
    /// Creates the data of a replica of this kind before any update.
    pub fn new(alloc: Global, kind: Kind) -> Result<Data, NoMemory>
        ensures { IfOk result (λ made. kind_in made ≡ kind) }
    {
        Ok(match kind {
            Kind::Counter => Data::Counter(Counter::new()),
            Kind::Register => Data::Register(Register::new()),
            Kind::LwwSet => Data::LwwSet(LwwSet::new(alloc)),
            Kind::OrSet => Data::OrSet(OrSet::new(alloc)),
            Kind::Rga => Data::Rga(Rga::new(alloc)?),
            Kind::List => Data::List(FugueList::new(alloc)?),
            Kind::Any => Data::Any(AnyObject::new()),
            Kind::MvRegister => Data::MvRegister(MvRegister::new(alloc)),
        })
    }

    /// Returns the replica's update of this round.
    pub fn update(&self, turn: Turn) -> Result<Op, NoMemory>
        ensures kind { IfOk result (λ op. kind_of op ≡ kind_in self.now) }
        ensures rising { IfOk result (λ op. has_rising_list op ≡ true) }
        ensures turn { IfOk result (λ op. is_of_turn turn op ≡ true) }
    {
        match self {
            Data::Counter(counter) => Ok(counter.update(turn)),
            Data::Register(register) => Ok(register.update(turn)),
            Data::LwwSet(set) => Ok(set.update(turn)),
            Data::OrSet(set) => set.update(turn),
            Data::Rga(list) => list.update(turn),
            Data::List(list) => list.update(turn),
            Data::Any(object) => Ok(object.update(turn)),
            Data::MvRegister(register) => Ok(register.update(turn)),
        }
    }

    /// Returns the query with its current answer.
    pub fn read(&self) -> Result<Op, NoMemory>
        ensures kind { IfOk result (λ op. kind_of op ≡ kind_in self.now) }
        ensures rising { IfOk result (λ op. has_rising_list op ≡ true) }
        ensures query { IfOk result (λ op. is_update op ≡ false) }
    {
        match self {
            Data::Counter(counter) => Ok(counter.read()),
            Data::Register(register) => Ok(register.read()),
            Data::LwwSet(set) => set.read(),
            Data::OrSet(set) => set.read(),
            Data::Rga(list) => list.read(),
            Data::List(list) => list.read(),
            Data::Any(object) => Ok(object.read()),
            Data::MvRegister(register) => register.read(),
        }
    }

    /// Applies an update that was made with this stamp, if it has one, or with its replica. `had` counts the
    /// updates of each replica that had been applied where it was made. An update of another kind changes nothing.
    pub fn apply(&mut self, op: &Op, stamp: Stamp, had: &Counts) -> Result<(), NoMemory>
        ensures { kind_in self.new ≡ kind_in self.old }
    {
        match (op, self) {
            (Op::Inc, Data::Counter(counter)) => counter.increase(),
            (Op::Dec, Data::Counter(counter)) => counter.decrease(),
            (Op::Write(value), Data::Register(register)) => register.write(*value, stamp),
            (Op::LwwAdd(element), Data::LwwSet(set)) => set.put(*element, stamp, true)?,
            (Op::LwwRemove(element), Data::LwwSet(set)) => set.put(*element, stamp, false)?,
            (Op::OrAdd { element, id }, Data::OrSet(set)) => set.put(*element, *id)?,
            (Op::OrRemove { element, ids }, Data::OrSet(set)) => {
                set.take_out(*element, ids.as_slice());
            }
            (Op::After { anchor, element }, Data::Rga(list)) => {
                list.insert(*anchor, *element, stamp)?;
            }
            (Op::RgaRemove(element), Data::Rga(list)) => list.hide(*element),
            (Op::List(ListOp::Insert(insertion)), Data::List(list)) => list.insert(*insertion)?,
            (Op::List(ListOp::Remove(element)), Data::List(list)) => list.hide(*element),
            (Op::AnyUpdate, Data::Any(object)) => object.apply(
                stamp.replica,
                had.of(stamp.replica),
            ),
            (Op::MvWrite(value), Data::MvRegister(register)) => {
                register.write(*value, stamp.replica, had)?;
            }
            _ => {}
        }
        Ok(())
    }
}
