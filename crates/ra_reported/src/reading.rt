//! The commands that were read so far.
ghost use Rattle.std.specs.Prelude.{◌≡◌, ◌<◌, None, List, IfOk, OnOk};
ghost use Rattle.ra_labels.specs.declared.kind.Kind.{Kind};
ghost use Rattle.ra_labels.specs.declared.command.Command.TheVariants.{Operate, Deliver as Delivered, Join as Joined};
ghost use Rattle.ra_labels.specs.Answer.{form_refusal, refusal_of};
ghost use Rattle.ra_labels.specs.HistorySoFar.{History, empty_history, replicas_of, NextOperation, operate};
ghost use Rattle.ra_monitor.specs.Monitor.{MonitorEntry};
ghost use Rattle.ra_monitor.specs.UsedKeys.{key_of, AreUsedKeysOf};
ghost use Rattle.ra_visibility.specs.Tracked.{replicas_in};
ghost use Rattle.ra_reported.specs.Reported.{reported_after};
ghost use Rattle.ra_reported.specs.Reading.{IsReadingOf, HasClocks, IsPlaceAdded, IsOperationAt};

use ra_labels::{Command, Kind, MOST_REPLICAS, NoMemory, Op, Refusal, fits};
use ra_monitor::used_keys::UsedKeys;
use ra_monitor::used_keys::unique_key::UniqueKey;
use ra_visibility::{DeliverFault, MOST_LABELS, Tracker};
use std::alloc::Global;

/// The data structures that represent the commands that were read.
#[derive(Drop)]
pub struct Reading {
    /// What was delivered to each replica, and what each label sees.
    pub tracker: Tracker,
    /// The stamps and identifiers of the labels, which no other label may have.
    pub taken: UsedKeys,
    /// The place of each label's operation in the log.
    pub places: Vec<u32>,
}

impl Reading {
    /// Creates the representation of a history without commands.
    ///
    /// # Errors
    ///
    /// `NoMemory` if allocation fails.
    pub fn new(alloc: Global, replicas: u8) -> Result<Reading, NoMemory>
        ensures clocks { IfOk result HasClocks }
        ensures stands { IfOk result (λ reading. (kind : Kind) (log : List MonitorEntry)
            → IsReadingOf log reading (empty_history kind replicas)) }
    {
        Ok(Reading {
            tracker: Tracker::new(alloc, replicas)?,
            taken: UsedKeys::new(alloc, replicas)?,
            places: Vec::new(alloc),
        })
    }

    /// Reads the command at this place of the log: accepts it, unless a reason to reject it applies.
    ///
    /// # Errors
    ///
    /// `NoMemory` if allocation fails, or if there are 1,048,576 labels already.
    pub fn read(&mut self, kind: Kind, command: &Command, place: u32) -> Result<(), NoMemory>
        requires { HasClocks self.old }
        ensures clocks { OnOk result (HasClocks self.new) }
        ensures stands { (past : History) (log : List MonitorEntry) → past.kind ≡ kind
            → IsOperationAt log place command.now → IsReadingOf log self.old past
            → OnOk result (IsReadingOf log self.new (reported_after past command.now)) }
        ensures places { OnOk result (IsPlaceAdded self.old.places.items place self.new.places.items) }
    {
        match command {
            Command::Operate { replica, op, stamp } => {
                let misfit = fits(kind, command);
                self.operate(*replica, op, *stamp, misfit, place)
            }
            Command::Deliver { replica, label } => self.deliver(*replica, *label),
            Command::Join { replica, from } => self.join(*replica, *from),
            Command::Verdict => Ok(()),
        }
    }

    // Reads an operation whose form has this reason to reject it, if any.
    fn operate(
        &mut self,
        replica: u8,
        op: &Op,
        clock: Option<u32>,
        misfit: Option<Refusal>,
        place: u32,
    ) -> Result<(), NoMemory>
        requires { HasClocks self.old }
        ensures clocks { OnOk result (HasClocks self.new) }
        ensures stands { (past : History) (log : List MonitorEntry) → let command = Operate replica op.now clock in
            misfit ≡ form_refusal past.kind command → IsOperationAt log place command → IsReadingOf log self.old past
            → OnOk result (IsReadingOf log self.new (reported_after past command)) }
        ensures places { OnOk result (IsPlaceAdded self.old.places.items place self.new.places.items) }
    {
        let brought = UniqueKey::by(replica, op, clock);
        if self.refusal_of(replica, misfit, brought).is_some() {
            return Ok(());
        }
        if self.tracker.labels() >= MOST_LABELS {
            return Err(NoMemory);
        }
        self.taken.reserve(replica)?;
        self.tracker.issue(replica, op.is_update())?;
        self.taken.keep(brought);
        self.places.push(place)?;
        Ok(())
    }

    // Returns the first reason to reject an operation of the replica with this stamp or identifier, if any.
    fn refusal_of(
        &self,
        replica: u8,
        misfit: Option<Refusal>,
        brought: UniqueKey,
    ) -> Option<Refusal>
        ensures there { result ≡ None → replica < replicas_in self.now.tracker.now }
        ensures form { result ≡ None → misfit ≡ None }
        ensures first { (past : History) (next : NextOperation) → AreUsedKeysOf past.records self.now.taken
            → replicas_in self.now.tracker.now ≡ replicas_of past → next.by ≡ replica
            → misfit ≡ form_refusal past.kind (operate next) → brought ≡ key_of next
            → result ≡ refusal_of past.kind past.initial_replicas past.records (operate next) }
    {
        if replica >= self.tracker.replicas() {
            return Some(Refusal::UnknownReplica);
        }
        match misfit {
            Some(refusal) => Some(refusal),
            None => self.taken.refusal_of(brought),
        }
    }

    // Reads a delivery.
    fn deliver(&mut self, replica: u8, label: u32) -> Result<(), NoMemory>
        requires { HasClocks self.old }
        ensures clocks { OnOk result (HasClocks self.new) }
        ensures stands { (past : History) (log : List MonitorEntry) → IsReadingOf log self.old past
            → OnOk result (IsReadingOf log self.new (reported_after past (Delivered replica label))) }
        ensures places { OnOk result (self.new.places ≡ self.old.places) }
    {
        if replica >= self.tracker.replicas() {
            return Ok(());
        }
        match self.tracker.deliver(replica, label) {
            Ok(()) => Ok(()),
            Err(DeliverFault::Refused(_)) => Ok(()),
            Err(DeliverFault::NoMemory) => Err(NoMemory),
        }
    }

    // Reads a join.
    fn join(&mut self, replica: u8, from: u8) -> Result<(), NoMemory>
        requires { HasClocks self.old }
        ensures clocks { OnOk result (HasClocks self.new) }
        ensures stands { (past : History) (log : List MonitorEntry) → IsReadingOf log self.old past
            → OnOk result (IsReadingOf log self.new (reported_after past (Joined replica from))) }
        ensures places { OnOk result (self.new.places ≡ self.old.places) }
    {
        let replicas = self.tracker.replicas();
        if from >= replicas || replica != replicas || replicas >= MOST_REPLICAS {
            return Ok(());
        }
        self.taken.reserve_replica()?;
        self.tracker.join(from)?;
        self.taken.add_replica();
        Ok(())
    }
}
