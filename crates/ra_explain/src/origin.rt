//! The origin of a label: which replica issued it, with which clock, and where the log has it.
ghost use Rattle.std.specs.Prelude.{◌≡◌, MatchOption, None, Some};
ghost use Rattle.ra_explain.specs.Origin.{operation_in, operation_of, origin_in, origin_of};

use crate::places::Places;
use ra_journal::Entry;
use ra_labels::{Command, Op, Reply};

/// The origin of a label.
#[derive(Clone, Copy, Debug, PartialEq, Eq)]
pub struct Origin {
    /// The replica that issued the label.
    pub replica: u8,
    /// The clock of its stamp, if it has one.
    pub clock: Option<u32>,
    /// Whether it is an update.
    pub is_update: bool,
}

/// Returns the origin of the label, or `None` if there is no such label.
///
/// # Complexity
///
/// O(1).
pub fn origin_of(log: &[Entry<Command, Reply>], places: &Places, label: u32) -> Option<Origin>
    // The result has the replica, the clock and the sort of the label's operation in the log, or is `None` exactly if
    // there is no such label.
    ensures { result ≡ origin_of log.now places.now label }
{
    origin_in(&places.entry(log, label)?.command)
}

fn origin_in(command: &Command) -> Option<Origin>
    ensures { result ≡ origin_in command.now }
{
    match command {
        Command::Operate { replica, op, stamp } => Some(Origin {
            replica: *replica,
            clock: *stamp,
            is_update: op.is_update(),
        }),
        Command::Deliver { .. } | Command::Join { .. } | Command::Verdict => None,
    }
}

/// Returns the operation of the command, or `None` if it is none.
pub fn operation_in(command: &Command) -> Option<&Op>
    // The result is the operation of the command, or `None` exactly if the command is none.
    ensures { MatchOption result (operation_in command.now ≡ None)
        (λ op. operation_in command.now ≡ Some op.now) }
{
    match command {
        Command::Operate { op, .. } => Some(op),
        Command::Deliver { .. } | Command::Join { .. } | Command::Verdict => None,
    }
}

/// Returns the operation of the label, or `None` if there is no such label.
///
/// # Complexity
///
/// O(1).
pub fn operation_of<'a>(
    log: &'a [Entry<Command, Reply>],
    places: &Places,
    label: u32,
) -> Option<&'a Op>
    // The result is the operation of the label in the log, or `None` exactly if there is no such label.
    ensures { MatchOption result (operation_of log.now places.now label ≡ None)
        (λ op. operation_of log.now places.now label ≡ Some op.now) }
{
    operation_in(&places.entry(log, label)?.command)
}
