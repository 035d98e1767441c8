//! The reasons to reject a command, and the check of those that depend on its form alone.
ghost use Rattle.std.specs.Prelude.{◌≡◌, ℕ};
ghost use Rattle.ra_labels.specs.declared.command.Command.TheVariants.{Operate};
ghost use Rattle.ra_labels.specs.Answer.{form_refusal, kind_of, has_rising_list, carries_stamp};
ghost use Rattle.ra_labels.specs.Lists.{rises};

use crate::command::Command;
use crate::kind::Kind;
use crate::operation::Op;

/// The reason to reject a command. The variants stand in the order in which the reasons are tested.
#[derive(Clone, Copy, Debug, PartialEq, Eq)]
pub enum Refusal {
    /// The replica's number is not less than the number of replicas. For a join: the source's number is not less than
    /// it, or the new replica's number is greater than it.
    UnknownReplica,
    /// The operation belongs to another kind.
    WrongKind,
    /// A list that has to be strictly increasing is not.
    BadList,
    /// The operation carries a stamp, and the command has no clock or the clock 0.
    StampMissing,
    /// The operation carries no stamp, and the command has a clock.
    StampUnwanted,
    /// An accepted label has the same stamp.
    StampTaken,
    /// An accepted label has the same identifier.
    IdTaken,
    /// The label's number is not less than the number of labels.
    UnknownLabel,
    /// The label is a query; queries are not delivered.
    NotAnUpdate,
    /// The label was delivered to the replica before: the replica issued it, received it, or joined with it.
    AlreadySeen,
    /// The smallest label that the delivered label sees and that was not delivered to the receiver.
    NotCausal(u32),
    /// A replica is to join under the number of an existing one.
    ReplicaThere,
    /// A replica is to join, and the number of replicas is already the largest one.
    TooManyReplicas,
}

/// Returns the first reason to reject a command because of its form alone, in a history of this kind: `WrongKind`,
/// `BadList`, `StampMissing` or `StampUnwanted`. Returns `None` for a well-formed operation, and for every delivery,
/// join and verdict. Does not allocate.
///
/// # Complexity
///
/// O(n), where `n` is the length of the operation's list.
pub fn fits(kind: Kind, command: &Command) -> Option<Refusal>
    // The result is the first reason in the definitions to reject the command for its form, or `None` if none applies.
    ensures { result ≡ form_refusal kind command.now }
{
    match command {
        Command::Operate { op, stamp, .. } => fits_operation(kind, op, *stamp),
        Command::Deliver { .. } | Command::Join { .. } | Command::Verdict => None,
    }
}

fn fits_operation(kind: Kind, op: &Op, clock: Option<u32>) -> Option<Refusal>
    ensures { (by : ℕ) → result ≡ form_refusal kind (Operate by op.now clock) }
{
    if kind_of(op) != kind {
        Some(Refusal::WrongKind)
    } else if !has_rising_list(op) {
        Some(Refusal::BadList)
    } else {
        match (carries_stamp(op), clock) {
            (true, None | Some(0)) => Some(Refusal::StampMissing),
            (false, Some(_)) => Some(Refusal::StampUnwanted),
            (true, Some(_)) | (false, None) => None,
        }
    }
}

fn kind_of(op: &Op) -> Kind
    ensures { result ≡ kind_of op.now }
{
    match op {
        Op::Inc | Op::Dec | Op::Count(_) => Kind::Counter,
        Op::Write(_) | Op::Last(_) => Kind::Register,
        Op::LwwAdd(_) | Op::LwwRemove(_) | Op::LwwRead(_) => Kind::LwwSet,
        Op::OrAdd { .. } | Op::OrRemove { .. } | Op::OrRead(_) => Kind::OrSet,
        Op::After { .. } | Op::RgaRemove(_) | Op::RgaRead(_) => Kind::Rga,
        Op::List(_) => Kind::List,
        Op::AnyUpdate | Op::AnyRead(_) => Kind::Any,
        Op::MvWrite(_) | Op::MvRead(_) => Kind::MvRegister,
    }
}

fn has_rising_list(op: &Op) -> bool
    ensures { result ≡ has_rising_list op.now }
{
    match op {
        Op::LwwRead(list) | Op::OrRead(list) | Op::MvRead(list) => rises(list.as_slice()),
        Op::OrRemove { ids, .. } => rises(ids.as_slice()),
        _ => true,
    }
}

fn rises(list: &[u32]) -> bool
    ensures { result ≡ rises list.now }
{
    list.is_sorted_by(|x, y| x < y)
}

fn carries_stamp(op: &Op) -> bool
    ensures { result ≡ carries_stamp op.now }
{
    match op {
        Op::Write(_) | Op::LwwAdd(_) | Op::LwwRemove(_) | Op::After { .. } => true,
        Op::Inc
        | Op::Dec
        | Op::Count(_)
        | Op::Last(_)
        | Op::LwwRead(_)
        | Op::OrAdd { .. }
        | Op::OrRemove { .. }
        | Op::OrRead(_)
        | Op::RgaRemove(_)
        | Op::RgaRead(_)
        | Op::List(_)
        | Op::AnyUpdate
        | Op::AnyRead(_)
        | Op::MvWrite(_)
        | Op::MvRead(_) => false,
    }
}
