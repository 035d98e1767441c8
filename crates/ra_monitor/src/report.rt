//! The summary of a monitor's log.
ghost use Rattle.std.specs.Prelude.{◌≡◌, ◌&&◌, is_some};
ghost use Rattle.ra_theorems.specs.AnyOrder.{is_of_any_order};

use ra_labels::{Fault, Kind};

/// The summary of a monitor's log.
#[derive(Clone, Copy, Debug, PartialEq, Eq)]
pub struct Report {
    /// The kind of the history.
    pub kind: Kind,
    /// The number of entries of the log.
    pub calls: u32,
    /// The number of accepted labels, with a violating one.
    pub labels: u32,
    /// The number of entries whose reply is a rejection.
    pub refused: u32,
    /// The first label at which the named order failed, with the cause.
    pub fault: Option<Fault>,
}

impl Report {
    /// Returns `true` if there is a fault and the kind does not go by timestamps: it is no register, LWW set or RGA.
    /// Such a fault in a monitor's report is final: no sequence at all linearizes the records up to its label
    /// (`Monitor::report`, clause `final_fault`). For the other kinds, an order other than the timestamp order might.
    /// Does not allocate.
    pub fn is_final(&self) -> bool
        // The result is `true` exactly if the report has a fault and the kind does not go by timestamps.
        ensures { result ≡ (is_some self.now.fault && is_of_any_order self.now.kind) }
    {
        self.fault.is_some() && !matches!(self.kind, Kind::Register | Kind::LwwSet | Kind::Rga)
    }
}
