//! The single-threaded monitor: a log, and the representation of its history.
ghost use Rattle.std.specs.Prelude.{◌≡◌, ℕ, ◌+◌, ◌-◌, ◌<◌, ◌≤◌, ◌↔◌, [], length, map, min, IsTrue, IfSome, IfOk, IsOk, OnOk, IsErrOf, MatchOption};
ghost use Rattle.ra_labels.specs.Records.{label_count, replica_count};
ghost use Rattle.ra_labels.specs.Edges.{IsCycle};
ghost use Rattle.ra_labels.specs.ListHistory.{required_edges};
ghost use Rattle.ra_labels.specs.Visibility.{has_delivered};
ghost use Rattle.ra_labels.specs.Linearization.{must_precede, IsRaLinearization};
ghost use Rattle.ra_labels.specs.NamedOrder.{named_sequence};
ghost use Rattle.ra_theorems.specs.AnyOrder.{is_of_any_order};
ghost use Rattle.ra_theorems.specs.OrderedLists.{IsListLinearization};
ghost use Rattle.ra_monitor.specs.Limits.{AreReplicas, IsLimit};
ghost use Rattle.ra_journal.specs.Log.{last_ticket_of};
ghost use Rattle.ra_labels.specs.declared.kind.Kind.TheVariants as kinds;
ghost use Rattle.ra_witness.specs.ListOrder.{Explains};
ghost use Rattle.ra_witness.specs.Sequence.{ref_of};
ghost use Rattle.ra_monitor.specs.Steps.{IsStep};

use crate::faults::NewFault;
use crate::parts::Parts;
use crate::report::Report;
use crate::setup::Setup;
use ra_journal::{Entry, Journal, MOST_ENTRIES, StepFault};
use ra_labels::{Command, Edge, Kind, MOST_REPLICAS, NoMemory, Reply};
use ra_witness::PartRef;
use std::alloc::Global;
use std::marker::Model;

/// The single-threaded monitor of one history. It is one box, so a move copies a pointer: the ticket lock moves it out
/// of its slot and back at each call.
pub struct Monitor {
    parts: Box<Parts>,
}

impl Model for Monitor {
    ghost use Rattle.ra_monitor.specs.Monitor as model;

    ghost Value = { model.Monitor };

    ghost use Rattle.ra_monitor.specs.Kept.{monitor_of, MonitorKept};

    ghost view = { λ m. monitor_of m.parts.value };

    ghost invariant = { λ m. MonitorKept m.parts.value };
}

impl Drop for Monitor {
    // Written out, so that code that drops a monitor calls this function, instead of the drop of each part.
    fn drop(self) {
        let Monitor { parts: _ } = self;
    }
}

impl Monitor {
    ghost use Rattle.ra_monitor.specs.Monitor.{records_of, records_before_fault_in, fault_in, refused_count, IsLegalLog, IsFinalFault, IsOrderFault};

    /// Creates a monitor of a history of this kind, with the given number of initial replicas and the largest number of
    /// entries of its log.
    ///
    /// # Errors
    ///
    /// `BadReplicas` if the number of replicas is not in 1 to 64, then `BadLimit` if the limit is not in 1 to
    /// 1,048,576. Both are tested before any allocation. `NoMemory` if allocation fails.
    pub fn new(alloc: Global, kind: Kind, replicas: u8, limit: u32) -> Result<Monitor, NewFault>
        // The new monitor's log is empty.
        ensures log { IfOk result (λ monitor. monitor.log ≡ []) }
        // The new monitor has the given kind.
        ensures kind { IfOk result (λ monitor. monitor.setup.kind ≡ kind) }
        // The new monitor has the given number of initial replicas.
        ensures replicas { IfOk result (λ monitor. monitor.setup.replicas ≡ replicas) }
        // The new monitor's log has the given limit.
        ensures limit { IfOk result (λ monitor. monitor.setup.limit ≡ limit) }
        // `BadReplicas` is returned exactly if the number of replicas is not from 1 to 64.
        ensures bad_replicas { IsErrOf result NewFault.BadReplicas ↔ (AreReplicas replicas → ⊥) }
        // `BadLimit` is returned exactly if the number of replicas is allowed and the limit is not from 1 to 1,048,576.
        ensures bad_limit { IsErrOf result NewFault.BadLimit ↔ (AreReplicas replicas × (IsLimit limit → ⊥)) }
    {
        if replicas < 1 || replicas > MOST_REPLICAS {
            return Err(NewFault::BadReplicas);
        }
        if limit < 1 || limit > MOST_ENTRIES {
            return Err(NewFault::BadLimit);
        }
        let setup = Setup {
            kind,
            replicas,
            limit,
        };
        match Parts::new(alloc, &setup) {
            Ok(parts) => Ok(Monitor { parts }),
            Err(NoMemory) => Err(NewFault::NoMemory),
        }
    }

    /// Returns the values with which the monitor was created.
    pub fn setup(&self) -> Setup
        // The result is the setup with which the monitor was created.
        ensures setup { result ≡ self.now.setup }
        // Its number of replicas is from 1 to 64, and its limit from 1 to 1,048,576.
        ensures range { AreReplicas result.replicas × IsLimit result.limit }
    {
        self.parts.setup
    }

    /// Returns the log, the oldest entry first.
    pub fn log(&self) -> &[Entry<Command, Reply>]
        // The result is the log, oldest entry first.
        ensures entries { result.now ≡ self.now.log }
        // The log is legal: each reply is the single-threaded monitor's answer after the entries before it, and tickets
        // increase strictly.
        ensures legal { IsLegalLog self.now.setup self.now.log }
        // The log has at most as many entries as its limit, which is from 1 to 1,048,576.
        ensures fits { (length self.now.log ≤ self.now.setup.limit) × IsLimit self.now.setup.limit }
    {
        self.parts.log.as_slice()
    }

    /// Returns the log, and consumes `self`.
    pub fn into_log(self) -> Vec<Entry<Command, Reply>>
        // The result has exactly the entries of the log.
        ensures entries { result.items ≡ self.log }
        // The log is legal: each reply is the single-threaded monitor's answer after the entries before it, and tickets
        // increase strictly.
        ensures legal { IsLegalLog self.setup self.log }
    {
        let Monitor { parts } = self;
        Box::into_inner(parts).into_log()
    }

    /// Returns the number of replicas so far, those that joined included. Does not allocate.
    pub fn replicas(&self) -> u8
        // The result is the number of initial replicas and of the accepted joins in the log.
        ensures replicas { result ≡ replica_count self.now.setup.replicas (records_of self.now.setup self.now.log) }
        // The number is from 1 to 64.
        ensures range { AreReplicas result }
    {
        self.parts.history.replicas
    }

    /// Returns `true` if the label was delivered to the replica so far: an update that it issued, received or joined
    /// with. Returns `false` if the replica or the label does not exist. Does not allocate.
    ///
    /// # Complexity
    ///
    /// O(1).
    pub fn has_delivered(&self, replica: u8, label: u32) -> bool
        // The result is `true` exactly if, by the records of the log, the label is an update that was delivered to the
        // replica.
        ensures { result ≡ has_delivered (records_of self.now.setup self.now.log) replica label }
    {
        self.parts.history.has_delivered(replica, label)
    }

    /// Returns the number of steps so far: the updates applied to the states of replicas, at the issuer and at
    /// receivers. No clause of this crate states it; those of `ra_witness` do (`counted`, `settled`, `few_steps`). It
    /// stops growing at 2^64 - 1. Does not allocate.
    pub fn steps(&self) -> u64 {
        self.parts.history.witness.steps()
    }

    /// Returns the number of entries, within the limit, that can be logged before the log has to allocate. Does not
    /// allocate.
    pub fn room(&self) -> u32
        // The result is the number of entries that can be logged before the log has to allocate.
        ensures room { result ≡ self.now.room }
        // The room never exceeds what the limit leaves.
        ensures within { length self.now.log + result ≤ self.now.setup.limit }
    {
        let parts = &*self.parts;
        let left = parts.setup.limit as usize - parts.log.len();
        let free = parts.log.capacity() - parts.log.len();
        free.min(left) as u32
    }

    /// Reserves room for this many entries, or for as many as the limit allows. While room is left, `step` does not
    /// return `NoMemory` for a command that leaves the records unchanged (clause `settled`). An entry takes 80 bytes.
    ///
    /// # Errors
    ///
    /// `NoMemory` if allocation fails, which is attempted only if the room is missing. The log is unchanged in each
    /// case.
    ///
    /// # Complexity
    ///
    /// O(n), where `n` is the number of entries, since the log may be moved; O(1) if the room exists.
    pub fn reserve(&mut self, entries: u32) -> Result<(), NoMemory>
        // After success there is room for the requested number of entries, or for as many as the limit leaves.
        ensures room { OnOk result (min entries (self.old.setup.limit - length self.old.log) ≤ self.new.room) }
        // If that room already exists, the call succeeds.
        ensures there { min entries (self.old.setup.limit - length self.old.log) ≤ self.old.room → IsOk result }
        // The room never decreases, even after a failure.
        ensures kept_room { self.old.room ≤ self.new.room }
        // The log is unchanged, even after a failure.
        ensures log { self.new.log ≡ self.old.log }
        // The setup never changes.
        ensures same_setup { self.new.setup ≡ self.old.setup }
    {
        let parts = &mut *self.parts;
        let left = parts.setup.limit as usize - parts.log.len();
        let more = left.min(entries as usize);
        if parts.log.capacity() - parts.log.len() < more {
            parts.log.reserve(more)?;
        }
        Ok(())
    }

    /// Returns all parts in the named order, of the labels before a fault, or of all labels if there is none.
    ///
    /// # Errors
    ///
    /// `NoMemory` if allocation fails.
    ///
    /// # Complexity
    ///
    /// O(n), where `n` is the number of labels.
    pub fn sequence(&self) -> Result<Vec<PartRef>, NoMemory>
        // The result is the named sequence of the labels before the fault, or of all labels if there is none.
        ensures named { IfOk result (λ parts. parts.items
            ≡ map ref_of (named_sequence self.now.setup.kind (records_before_fault_in self.now.setup self.now.log))) }
        // This sequence is an RA-linearization of the records before the fault.
        ensures linearizes { let records = records_before_fault_in self.now.setup self.now.log in OnOk result
            (IsRaLinearization self.now.setup.kind records (named_sequence self.now.setup.kind records)) }
    {
        self.parts.history.sequence()
    }

    /// Returns the elements of a list, removed ones too, in one order that explains the labels before a fault, or all
    /// labels if there is none. Returns `None` for another kind. Other orders may explain them too.
    ///
    /// # Errors
    ///
    /// `NoMemory` if allocation fails.
    ///
    /// # Complexity
    ///
    /// O(n), where `n` is the number of elements.
    pub fn list_order(&self) -> Result<Option<Vec<u32>>, NoMemory>
        // The result is an order exactly if the kind is a list. The order has exactly the elements that the labels
        // before the fault insert, each once, and extends the edges that these labels require.
        ensures explains { let records = records_before_fault_in self.now.setup self.now.log in
            IfOk result (λ found. MatchOption found (¬ (self.now.setup.kind ≡ kinds.List))
            (λ order. (self.now.setup.kind ≡ kinds.List) × Explains order.items records)) }
        // For this order, the named sequence of these labels is an RA-linearization by the specification of a list.
        ensures linearizes { let records = records_before_fault_in self.now.setup self.now.log in
            IfOk result (λ found. IfSome found (λ order. IsListLinearization order.items (must_precede records) records
            (named_sequence kinds.List records))) }
    {
        self.parts.history.list_order()
    }

    /// Returns a cycle of the edges that the labels require, if the kind is a list and the fault's cause is the order,
    /// and `None` otherwise. No order of the elements extends it (`no_order_extends_cycle` of `ra_list_order`), so none
    /// explains the labels up to the fault. Each edge has a label that requires it. Another cycle may be shorter, and
    /// no clause rules out that this one passes an element twice: `ra_explain` searches for a shortest cycle, which
    /// passes each of its elements once. Does not allocate.
    ///
    /// # Complexity
    ///
    /// O(1).
    pub fn cycle(&self) -> Option<&[Edge]>
        // The result is a cycle exactly if the kind is a list and the fault's cause is `Order`. Its edges are among
        // those that the labels up to the fault require. Each ends where the next one begins, and the last one where
        // the first begins.
        ensures shows { MatchOption result (¬ IsOrderFault self.now.setup self.now.log)
            (λ cycle. IsOrderFault self.now.setup self.now.log
            × IsCycle (required_edges (records_of self.now.setup self.now.log)) cycle.now) }
    {
        match &self.parts.history.cycle {
            Some(cycle) => Some(cycle.as_slice()),
            None => None,
        }
    }

    /// Returns the summary of the log. Does not allocate.
    pub fn report(&self) -> Report
        // The report states the kind of the monitor.
        ensures kind { result.kind ≡ self.now.setup.kind }
        // The number of calls is the length of the log.
        ensures calls { result.calls ≡ length self.now.log }
        // The number of labels is that of the accepted operations in the log.
        ensures labels { result.labels ≡ label_count (records_of self.now.setup self.now.log) }
        // The number of rejections is that of the log's replies `Refused`.
        ensures refused { result.refused ≡ refused_count self.now.log }
        // The fault is that of the log's records: the first label that fails and the first condition that it violates.
        ensures fault { result.fault ≡ fault_in self.now.setup self.now.log }
        // For the kinds that do not go by timestamps the fault is final: no sequence is an RA-linearization of the
        // records up to its label, not even one that only extends visibility.
        ensures final_fault { IsTrue (is_of_any_order self.now.setup.kind)
            → IsFinalFault self.now.setup self.now.log result.fault }
    {
        let parts = &*self.parts;
        Report {
            kind: parts.setup.kind,
            calls: parts.log.len() as u32,
            labels: parts.history.labels,
            refused: parts.refused,
            fault: parts.history.fault,
        }
    }
}

impl Journal for Monitor {
    type Command = Command;

    type Reply = Reply;

    type Setup = Setup;

    ghost use Rattle.ra_monitor.specs.Monitor.{answer_after, fault_label_in, IsNextTicket};

    ghost setup = { λ m. m.setup };

    ghost log = { λ m. m.log };

    ghost reply_of = { λ setup log command. answer_after setup log command };

    ghost fault_of = { λ setup log. fault_label_in setup log };

    ghost limit_of = { λ setup. setup.limit };

    /// Returns the largest number of entries of the log.
    fn limit(&self) -> u32 {
        self.parts.setup.limit
    }

    /// Returns the number of entries of the log.
    fn calls(&self) -> u32 {
        self.parts.log.len() as u32
    }

    /// Returns the label of the fault, if there is one.
    fn fault(&self) -> Option<u32> {
        match self.parts.history.fault {
            Some(fault) => Some(fault.label),
            None => None,
        }
    }

    /// Returns the ticket of the log's last entry, if there is one. The next ticket has to be greater.
    fn last_ticket(&self) -> Option<u64>
        // The result is the ticket of the log's last entry, or `None` if the log is empty.
        ensures last { result ≡ last_ticket_of self.now.log }
        // Every greater ticket may be that of the next step.
        ensures next { (ticket : ℕ) → IfSome result (λ last. last < ticket) → IsNextTicket self.now ticket }
    {
        match self.parts.log.as_slice().last() {
            Some(entry) => Some(entry.ticket),
            None => None,
        }
    }

    /// Answers a command. The reply is logged with the pass and the ticket, and returned.
    ///
    /// # Errors
    ///
    /// `Full` exactly if the log has reached its limit, which is tested first; `NoMemory` if allocation fails. Both
    /// return the command, and leave the log unchanged.
    ///
    /// # Complexity
    ///
    /// The calls of the tracker, the order and the witness that the command needs; they read no other label's
    /// operation. A join copies the counts and the state of one replica (measured in bench/README.md).
    fn step(&mut self, pass: u8, ticket: u64, command: Command) -> Result<Reply, StepFault<Command>>
        // The ticket is greater than that of the log's last entry.
        requires { IsNextTicket self.old ticket }
        // The call returns what every report to a monitor does: of the reply, the log, errors and room.
        ensures step { IsStep self.old self.new pass ticket command result }
    {
        self.parts.step(pass, ticket, command)
    }
}
