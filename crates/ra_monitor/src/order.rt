//! The named order of each kind.
ghost use Rattle.std.specs.Prelude.{IfOk};
ghost use Rattle.ra_monitor.specs.Order.{IsOrderOf};
ghost use Rattle.ra_labels.specs.HistorySoFar.{empty_history};

use ra_exec_order::ExecOrder;
use ra_labels::{Kind, Label, NoMemory};
use ra_time_order::TimeRanks;
use ra_visibility::{NamedOrder, Seen};
use ra_witness::LabelOrder;
use std::alloc::Global;

/// The named order of a kind.
#[derive(Drop)]
pub enum Order {
    /// All other kinds: execution order.
    Execution(ExecOrder),
    /// Register, LWW set and RGA: timestamp order.
    Time(TimeRanks),
}

impl Order {
    /// Creates the named order of the kind without labels, for the given number of initial replicas.
    ///
    /// # Errors
    ///
    /// `NoMemory` if allocation fails.
    pub fn of(alloc: Global, kind: Kind, replicas: u8) -> Result<Order, NoMemory>
        ensures { IfOk result (λ order. IsOrderOf order (empty_history kind replicas)) }
    {
        match kind {
            Kind::Counter | Kind::OrSet | Kind::List | Kind::Any | Kind::MvRegister => {
                Ok(Order::Execution(ExecOrder::new()))
            }
            Kind::Register | Kind::LwwSet | Kind::Rga => {
                Ok(Order::Time(TimeRanks::new(alloc, replicas)?))
            }
        }
    }
}

impl LabelOrder for Order {
    ghost use Rattle.ra_monitor.specs.Order.{listed_in, room_in, IsOrderOf, lists_named, keeps_joined, keeps_delivered};

    ghost listed = { λ order. listed_in order };

    ghost room = { λ order. room_in order };

    ghost stands_for = { λ order past. IsOrderOf order past };

    fn fits(&self, label: &Label, seen: &Seen<'_>) -> bool {
        match self {
            Order::Execution(order) => order.place(label, seen).fits,
            Order::Time(order) => order.fits(label, seen),
        }
    }

    fn spare(&mut self) -> Result<(), NoMemory> {
        match self {
            Order::Execution(order) => order.spare(),
            Order::Time(order) => order.spare(),
        }
    }

    #[inline(always)]
    fn put(&mut self, label: &Label, seen: &Seen<'_>) {
        match self {
            Order::Execution(order) => {
                let place = order.place(label, seen);
                order.put(label, seen, place);
            }
            Order::Time(order) => order.put(label, seen),
        }
    }

    fn numbers(&self, alloc: Global) -> Result<Vec<u32>, NoMemory> {
        match self {
            Order::Execution(order) => order.numbers(alloc),
            Order::Time(order) => order.numbers(alloc),
        }
    }

    ghost lists = { λ order past stands. lists_named order past stands };

    ghost keeps_joined = { λ order past joined from stands room. keeps_joined order past joined from stands room };

    ghost keeps = { λ order past to label stands. keeps_delivered order past to label stands };
}
