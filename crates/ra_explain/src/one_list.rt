//! Whether an RGA's history holds as one of a list without clocks.
ghost use Rattle.std.specs.Prelude.{◌≡◌, [], IfOk, OnOk};
ghost use Rattle.ra_labels.specs.declared.kind.Kind.TheVariants as kinds;
ghost use Rattle.ra_monitor.specs.Trial.{HasAnswered};
ghost use Rattle.ra_explain.specs.Changes.{holds_after};
ghost use Rattle.ra_explain.specs.OneList as lists;
ghost use Rattle.ra_explain.specs.OneList.{is_one_list, list_command, list_commands, list_setup};

use crate::changes::{copy, is_ok};
use ra_accepted_commands::is_accepting_reply;
use ra_journal::Entry;
use ra_labels::{Command, Insertion, Kind, ListOp, NoMemory, Op, Reply};
use ra_monitor::{Setup, Trial};
use std::alloc::Global;

/// Returns `true` if the labels up to the one at this index of an RGA's log hold as those of a list whose insertions
/// name no neighbours. Then one order of the elements explains every read. The result is `false` if no order does, a
/// read lists wrong elements, an element is inserted twice, 0 is inserted, or a removal names an element that its
/// replica has not received.
///
/// The entries before the index must precede the first violation.
///
/// # Errors
///
/// `NoMemory` if an allocation fails, or if there are more labels than a log may have.
///
/// # Complexity
///
/// The monitor's steps for the commands, as those of a list, without their log.
pub fn is_one_list(
    alloc: Global,
    setup: &Setup,
    log: &[Entry<Command, Reply>],
    place: u32,
) -> Result<bool, NoMemory>
    // The result is `true` exactly if the single-threaded monitor of a list would answer the label `Ok` after the
    // accepted commands before it, each taken as one of a list.
    ensures { IfOk result (λ one. one ≡ is_one_list setup.now log.now place) }
{
    let Some(entry) = log.get(place as usize) else {
        return Ok(false);
    };
    let mut trial = Trial::new(alloc, &list_setup(setup))?;
    let answer = tell_all(&mut trial, &log[..place as usize], &entry.command);
    // A trial has many fields. Dropping it by a call lets the proof unfold them once, not at each return.
    drop(trial);
    answer
}

fn list_setup(setup: &Setup) -> Setup
    ensures { result ≡ list_setup setup.now }
{
    Setup {
        kind: Kind::List,
        replicas: setup.replicas,
        limit: setup.limit,
    }
}

// Returns `true` if the trial, after the accepted commands of the entries, accepts the command as a label that holds,
// each taken as one of a list.
fn tell_all(
    trial: &mut Trial,
    before: &[Entry<Command, Reply>],
    command: &Command,
) -> Result<bool, NoMemory>
    requires { HasAnswered trial.old [] }
    ensures { IfOk result (λ holds. holds
        ≡ holds_after trial.old.setup (list_commands before.now) (list_command command.now)) }
{
    tell_accepted(trial, before)?;
    let reply = trial.tell(list_command(command)?)?;
    Ok(is_ok(reply))
}

fn tell_accepted(trial: &mut Trial, before: &[Entry<Command, Reply>]) -> Result<(), NoMemory>
    requires { HasAnswered trial.old [] }
    ensures told { OnOk result (HasAnswered trial.new (list_commands before.now)) }
    ensures same_setup { trial.new.setup ≡ trial.old.setup }
{
    for entry in before {
        if is_accepting_reply(false, entry.reply) {
            trial.tell(list_command(&entry.command)?)?;
        }
    }
    Ok(())
}

// Returns the command as one of a list.
fn list_command(command: &Command) -> Result<Command, NoMemory>
    ensures { IfOk result (λ it. it ≡ list_command command.now) }
{
    match command {
        Command::Operate { replica, op, .. } => Ok(Command::Operate {
            replica: *replica,
            op: list_op(op)?,
            stamp: None,
        }),
        Command::Deliver { .. } | Command::Join { .. } | Command::Verdict => copy(command),
    }
}

// Returns the operation as one of a list.
fn list_op(op: &Op) -> Result<Op, NoMemory>
    ensures { IfOk result (λ it. it ≡ lists.list_op op.now) }
{
    match op {
        Op::After { element, .. } => Ok(Op::List(ListOp::Insert(Insertion {
            left: 0,
            element: *element,
            right: 0,
        }))),
        Op::RgaRemove(element) => Ok(Op::List(ListOp::Remove(*element))),
        Op::RgaRead(list) => Ok(Op::List(ListOp::Read(list.clone()?))),
        _ => Ok(op.clone()?),
    }
}
