//! The trial of a violating label with a change to what its replica had received.
ghost use Rattle.std.specs.Prelude.{◌≡◌, ◌++◌, [], List, IfOk, OnOk, filter, take};
ghost use Rattle.ra_labels.specs.declared.command.Command.{Command};
ghost use Rattle.ra_monitor.specs.Trial.{HasAnswered, HasAnsweredSome};
ghost use Rattle.ra_explain.specs.declared.changes.Change.TheVariants as kinds_of_change;
ghost use Rattle.ra_explain.specs.Changes as changes;
ghost use Rattle.ra_explain.specs.Changes.{got_last, got_with, kept_from, would_hold, command_holds_with};

use ra_accepted_commands::is_accepting_reply;
use ra_journal::Entry;
use ra_labels::{Command, NoMemory, Reply};
use ra_monitor::{Setup, Trial};
use std::alloc::Global;

/// One change to what had been delivered to a label's replica when it issued the label.
#[derive(Clone, Copy, Debug, PartialEq, Eq)]
pub enum Change {
    /// The label with this number had been delivered too.
    Gets(u32),
    /// The delivery at this index of the log, from 0, had not been made.
    Misses(u32),
    /// None of the replica's deliveries from this index of the log on had been made yet.
    ComesBefore(u32),
}

/// Returns `true` if the label at this index of a monitor's log would have held with the change. A trial answers the
/// accepted commands before it, except those that the change leaves out, and then the label. If the result is `true`,
/// the trial accepts the label, and the label holds by the named order. The trial rejects a delivery that depends on
/// one left out, which is thereby left out too.
///
/// The entries before the index must precede the first violation.
///
/// # Errors
///
/// `NoMemory` if an allocation fails, or if there are more labels than a log may have.
///
/// # Complexity
///
/// The monitor's steps for the commands before, without their log. The trial is dropped afterwards.
pub fn would_hold(
    alloc: Global,
    setup: &Setup,
    log: &[Entry<Command, Reply>],
    place: u32,
    change: Change,
) -> Result<bool, NoMemory>
    // The result is `true` exactly if the single-threaded monitor would answer the label `Ok` after the accepted
    // commands before it, with the change.
    ensures { IfOk result (λ holds. holds ≡ would_hold setup.now log.now place change) }
{
    let Some(entry) = log.get(place as usize) else {
        return Ok(false);
    };
    holds_with(alloc, setup, &log[..place as usize], change, &entry.command)
}

/// Returns `true` if this command would have held in place of the label at this index of a monitor's log.
///
/// The entries before the index must precede the first violation.
///
/// # Errors
///
/// Those of `would_hold`.
///
/// # Complexity
///
/// That of `would_hold`.
pub fn would_hold_as(
    alloc: Global,
    setup: &Setup,
    log: &[Entry<Command, Reply>],
    place: u32,
    command: &Command,
) -> Result<bool, NoMemory>
    // The result is `true` exactly if the single-threaded monitor would answer the command `Ok` after the accepted
    // commands before the index.
    ensures { IfOk result (λ holds. holds
        ≡ command_holds_with setup.now (take place log.now) (kinds_of_change.ComesBefore place) command.now) }
{
    let before = log.get(..place as usize).unwrap_or(log);
    // At the end of these entries this change leaves out none of them.
    holds_with(alloc, setup, before, Change::ComesBefore(place), command)
}

/// Returns, in order, those of the changes with which the label at this index would have held.
///
/// # Errors
///
/// Those of `would_hold`.
///
/// # Complexity
///
/// That of `would_hold` for each change.
pub fn changes_that_help(
    alloc: Global,
    setup: &Setup,
    log: &[Entry<Command, Reply>],
    place: u32,
    changes: &[Change],
) -> Result<Vec<Change>, NoMemory>
    // The result has exactly those of the given changes with which the label would hold, in their order.
    ensures { IfOk result (λ found. found.items
        ≡ filter (λ change. would_hold setup.now log.now place change) changes.now) }
{
    let mut found = Vec::new(alloc);
    for change in changes {
        if would_hold(alloc, setup, log, place, *change)? {
            found.push(*change)?;
        }
    }
    Ok(found)
}

/// Returns the indices, oldest first, of the replica's latest deliveries among these entries: those since its last
/// label, its own join, or the last join from it. If one of them is left out, no other replica lacks anything, and this
/// one lacks only that update and later ones that depend on it.
///
/// # Errors
///
/// `NoMemory` if an allocation fails.
///
/// # Complexity
///
/// O(number of entries).
pub fn got_last(
    alloc: Global,
    log: &[Entry<Command, Reply>],
    replica: u8,
) -> Result<Vec<usize>, NoMemory>
    // The result has exactly the indices of the replica's accepted deliveries since its last label, its own join or the
    // last join from it, oldest first.
    ensures { IfOk result (λ got. got.items ≡ got_last replica log.now) }
{
    let mut got = Vec::new(alloc);
    let mut place = 0;
    for entry in log {
        add_got(&mut got, entry, replica, place)?;
        place += 1;
    }
    Ok(got)
}

// Updates the list by the entry at this index.
fn add_got(
    got: &mut Vec<usize>,
    entry: &Entry<Command, Reply>,
    replica: u8,
    place: usize,
) -> Result<(), NoMemory>
    ensures { OnOk result (got.new.items ≡ got_with replica place got.old.items entry.now) }
{
    if is_accepting_reply(false, entry.reply) {
        if cuts_off(replica, &entry.command) {
            got.clear();
        } else if reaches(replica, &entry.command) {
            got.push(place)?;
        }
    }
    Ok(())
}

fn cuts_off(replica: u8, command: &Command) -> bool
    ensures { result ≡ changes.cuts_off replica command.now }
{
    match command {
        Command::Operate { replica: by, .. } => *by == replica,
        Command::Join {
            replica: joined,
            from,
        } => *joined == replica || *from == replica,
        Command::Deliver { .. } | Command::Verdict => false,
    }
}

// Returns `true` if the command is a delivery to the replica.
fn reaches(replica: u8, command: &Command) -> bool
    ensures { result ≡ changes.reaches replica command.now }
{
    match command {
        Command::Deliver { replica: to, .. } => *to == replica,
        Command::Operate { .. } | Command::Join { .. } | Command::Verdict => false,
    }
}

// Returns `true` if the command would have held after these entries, with the change.
fn holds_with(
    alloc: Global,
    setup: &Setup,
    before: &[Entry<Command, Reply>],
    change: Change,
    command: &Command,
) -> Result<bool, NoMemory>
    ensures { IfOk result (λ holds. holds ≡ command_holds_with setup.now before.now change command.now) }
{
    let Command::Operate { replica, .. } = command else {
        return Ok(false);
    };
    let mut trial = Trial::new(alloc, setup)?;
    let answer = tell_with(&mut trial, before, change, *replica, command);
    // A trial has many fields. Dropping it by a call lets the proof unfold them once, not at each return.
    drop(trial);
    answer
}

// Returns `true` if the trial, after the other commands, accepts the command as a label that holds.
fn tell_with(
    trial: &mut Trial,
    before: &[Entry<Command, Reply>],
    change: Change,
    replica: u8,
    command: &Command,
) -> Result<bool, NoMemory>
    requires { HasAnswered trial.old [] }
    ensures { IfOk result (λ holds. holds ≡ changes.holds_after trial.old.setup
        (changes.commands_with change replica before.now) command.now) }
{
    tell_kept(trial, before, change, replica)?;
    tell_added(trial, change, replica)?;
    let reply = trial.tell(copy(command)?)?;
    Ok(is_ok(reply))
}

/// Returns a copy of the command. A function of its own, so that proofs of its callers need not unfold the command.
pub fn copy(command: &Command) -> Result<Command, NoMemory>
    ensures { IfOk result (λ copy. copy ≡ command.now) }
{
    Ok(command.clone()?)
}

// Reports to the trial the commands that are not left out.
fn tell_kept(
    trial: &mut Trial,
    before: &[Entry<Command, Reply>],
    change: Change,
    replica: u8,
) -> Result<(), NoMemory>
    requires { HasAnswered trial.old [] }
    ensures told { OnOk result (HasAnswered trial.new (kept_from change replica 0 before.now)) }
    ensures same_setup { trial.new.setup ≡ trial.old.setup }
{
    let mut place = 0;
    for entry in before {
        if is_kept(change, replica, place, entry) {
            trial.tell(copy(&entry.command)?)?;
        }
        place += 1;
    }
    Ok(())
}

// Reports to the trial the command that is added.
fn tell_added(trial: &mut Trial, change: Change, replica: u8) -> Result<(), NoMemory>
    requires { HasAnsweredSome trial.old }
    ensures told { (commands : List Command) → HasAnswered trial.old commands
        → OnOk result (HasAnswered trial.new (commands ++ changes.added_by change replica)) }
    ensures same_setup { trial.new.setup ≡ trial.old.setup }
{
    match change {
        Change::Gets(label) => {
            trial.tell(Command::Deliver { replica, label })?;
            Ok(())
        }
        Change::Misses(_) | Change::ComesBefore(_) => Ok(()),
    }
}

// Returns `true` if the command was accepted and is not left out.
fn is_kept(change: Change, replica: u8, place: usize, entry: &Entry<Command, Reply>) -> bool
    ensures { result ≡ changes.is_kept change replica place entry.now }
{
    is_accepting_reply(false, entry.reply) && !is_left_out(change, replica, place, &entry.command)
}

fn is_left_out(change: Change, replica: u8, place: usize, command: &Command) -> bool
    ensures { result ≡ changes.is_left_out change replica place command.now }
{
    match change {
        Change::Gets(_) => false,
        Change::Misses(at) => place == at as usize && reaches(replica, command),
        Change::ComesBefore(at) => place >= at as usize && reaches(replica, command),
    }
}

/// Returns `true` if the reply is `Ok`.
pub fn is_ok(reply: Reply) -> bool
    ensures { result ≡ changes.is_ok reply }
{
    match reply {
        Reply::Ok(_) => true,
        Reply::Got(_) | Reply::Joined(_) | Reply::Yes(_) | Reply::No { .. } | Reply::Refused(_) =>
            false,
    }
}
