//! The accepted commands in the form of data structures: here a command is accepted, rejected or answered.
ghost use Rattle.std.specs.Prelude.{◌≡◌, ℕ, ◌+◌, ◌<◌, ◌≤◌, [], map, IfOk, OnErr, OnOk, MatchOption, Option, None};
ghost use Rattle.ra_labels.specs.declared.operation.Op.{Op};
ghost use Rattle.ra_labels.specs.Records.{Records, label_count, replica_count, next_label};
ghost use Rattle.ra_labels.specs.Visibility.{has_delivered};
ghost use Rattle.ra_labels.specs.NamedOrder.{named_sequence};
ghost use Rattle.ra_labels.specs.Fault.{fault_of};
ghost use Rattle.ra_labels.specs.Answer.{no_reply, form_refusal, refusal_of, refusal_of_join, answer_to_accepted};
ghost use Rattle.ra_labels.specs.HistorySoFar.{History, history_with, replicas_of, IsAccepted, NextOperation, next_operation, operate};
ghost use Rattle.ra_labels.specs.declared.kind.Kind.TheVariants as kinds;
ghost use Rattle.ra_witness.specs.ListOrder.{Explains};
ghost use Rattle.ra_witness.specs.Sequence.{ref_of};
ghost use Rattle.ra_witness.specs.Witness.{IsWitnessOf};
ghost use Rattle.ra_monitor.specs.Order.{IsOrderOf};
ghost use Rattle.ra_monitor.specs.UsedKeys.{key_of, AreUsedKeysOf};
ghost use Rattle.ra_monitor.specs.Limits.{AreReplicas};
ghost use Rattle.ra_monitor.specs.History.{Represents, IsAnswered, JoinsRecords, HasNewest, IsOfFew, IsFaultless, MayOperate, MayAccept, MayJoin, MayAnswer, history_in, before_fault};
ghost use Rattle.ra_monitor.specs.declared.setup.Setup.{Setup};

use crate::order::Order;
use crate::setup::Setup;
use crate::used_keys::UsedKeys;
use crate::used_keys::unique_key::UniqueKey;
use ra_labels::{
    Command, Edge, Fault, Label, MOST_REPLICAS, NoMemory, Op, Refusal, Reply, Stamp, fits,
};
use ra_visibility::{DeliverFault, Tracker};
use ra_witness::{PartRef, Witness};
use std::alloc::Global;
use std::mem;

/// The data structures that represent the accepted commands.
#[derive(Drop)]
pub struct TrackedHistory {
    /// The number of labels.
    pub labels: u32,
    /// The number of replicas.
    pub replicas: u8,
    /// The updates that were delivered to each replica, and that each label sees.
    pub tracker: Tracker,
    /// The labels before the fault in their order, and the state of each replica after its updates before the fault.
    pub witness: Witness<Order>,
    /// The stamps and identifiers of the labels before the fault, which no other label may have.
    pub taken: UsedKeys,
    /// The first label at which the named order failed.
    pub fault: Option<Fault>,
    /// If the fault is the order of a list, a cycle of the edges that the labels up to it require.
    pub cycle: Option<Vec<Edge>>,
}

impl TrackedHistory {
    /// Creates the representation of a history without commands.
    ///
    /// # Errors
    ///
    /// `NoMemory` if allocation fails.
    pub fn new(alloc: Global, setup: &Setup) -> Result<TrackedHistory, NoMemory>
        ensures { IfOk result (λ history. Represents history (history_in setup.now [])) }
    {
        let tracker = Tracker::new(alloc, setup.replicas)?;
        let taken = UsedKeys::new(alloc, setup.replicas)?;
        let order = Order::of(alloc, setup.kind, setup.replicas)?;
        // The witness is created last: if that fails, fewer parts are dropped, and the proof covers each drop.
        let witness = Witness::new(alloc, setup.kind, setup.replicas, order)?;
        Ok(TrackedHistory {
            labels: 0,
            replicas: setup.replicas,
            tracker,
            witness,
            taken,
            fault: None,
            cycle: None,
        })
    }

    /// Returns `true` if the label was delivered to the replica, and `false` if the replica or the label does not
    /// exist.
    pub fn has_delivered(&self, replica: u8, label: u32) -> bool
        requires { (past : History) × Represents self.now past }
        ensures { (past : History) → Represents self.now past → result ≡ has_delivered past.records replica label }
    {
        replica < self.replicas && self.tracker.sees(replica, label)
    }

    /// Returns all parts of the labels before the fault, in the named order.
    ///
    /// # Errors
    ///
    /// `NoMemory` if allocation fails.
    ///
    /// # Complexity
    ///
    /// O(n), where `n` is the number of labels.
    pub fn sequence(&self) -> Result<Vec<PartRef>, NoMemory>
        ensures { (past : History) → Represents self.now past → IfOk result (λ parts.
            parts.items ≡ map ref_of (named_sequence past.kind (before_fault past).records)) }
    {
        self.witness.sequence()
    }

    /// Returns the elements of a list, removed ones too, in the kept order; `None` for another kind.
    ///
    /// # Errors
    ///
    /// `NoMemory` if allocation fails.
    ///
    /// # Complexity
    ///
    /// O(n) with `n` elements.
    pub fn list_order(&self) -> Result<Option<Vec<u32>>, NoMemory>
        ensures { (past : History) → Represents self.now past → IfOk result (λ found.
            MatchOption found (¬ (past.kind ≡ kinds.List))
            (λ order. (past.kind ≡ kinds.List) × Explains order.items (before_fault past).records)) }
    {
        self.witness.list_order()
    }

    /// Answers a command as the single-threaded monitor does. Its operation is moved into a label and back, so no list
    /// is copied here.
    ///
    /// # Errors
    ///
    /// `NoMemory` if allocation fails, which happens only for a command that would join the records; the same records
    /// are represented.
    ///
    /// # Complexity
    ///
    /// The calls of the tracker, the order and the witness that the command needs. They read no other label's
    /// operation. A join copies the data of one replica.
    pub fn answer(&mut self, setup: &Setup, command: &mut Command) -> Result<Reply, NoMemory>
        requires { IsOfFew self.old setup.now }
        ensures taken { (records : Records) → let past = history_in setup.now records in Represents self.old past
            → IfOk result (IsAnswered self.new past command.old) }
        ensures command { command.new ≡ command.old }
        ensures err { (records : Records) → Represents self.old (history_in setup.now records)
            → OnErr result (Represents self.new (history_in setup.now records)) }
        ensures one { self.new.labels ≤ self.old.labels + 1 }
        ensures kept { OnErr result (self.new.labels ≡ self.old.labels) }
        ensures replicas { AreReplicas self.old.replicas → AreReplicas self.new.replicas }
        // Allocation fails only for a command that would join the records.
        ensures joins { (records : Records) → let past = history_in setup.now records in Represents self.old past
            → OnErr result (JoinsRecords past command.old) }
    {
        if let Some(fault) = self.fault {
            return Ok(no_reply(fault));
        }
        let misfit = fits(setup.kind, command);
        match command {
            Command::Operate { replica, op, stamp } => self.operate(*replica, op, *stamp, misfit),
            Command::Deliver { replica, label } => self.deliver(*replica, *label),
            Command::Join { replica, from } => self.join(*replica, *from),
            Command::Verdict => Ok(Reply::Yes(self.labels)),
        }
    }

    // Answers an operation whose form has this reason to reject it, if any, and moves it back.
    fn operate(
        &mut self,
        replica: u8,
        op: &mut Op,
        clock: Option<u32>,
        misfit: Option<Refusal>,
    ) -> Result<Reply, NoMemory>
        requires { MayOperate self.old (next_operation replica op.old clock) misfit }
        ensures taken { (past : History) → Represents self.old past → fault_of past.kind past.records ≡ None
            → let command = Command.Operate replica op.old clock in misfit ≡ form_refusal past.kind command
            → IfOk result (IsAnswered self.new past command) }
        ensures err { (past : History) → Represents self.old past → OnErr result (Represents self.new past) }
        ensures joins { (past : History) → Represents self.old past → fault_of past.kind past.records ≡ None
            → let command = Command.Operate replica op.old clock in misfit ≡ form_refusal past.kind command
            → OnErr result (JoinsRecords past command) }
        ensures op { op.new ≡ op.old }
        ensures replicas { self.new.replicas ≡ self.old.replicas }
        ensures one { self.new.labels ≤ self.old.labels + 1 }
        ensures kept { OnErr result (self.new.labels ≡ self.old.labels) }
    {
        let brought = UniqueKey::by(replica, op, clock);
        match self.refusal_of(replica, misfit, brought) {
            Some(refusal) => Ok(Reply::Refused(refusal)),
            None => self.accept(replica, op, clock, brought),
        }
    }

    // Returns the first reason to reject an operation of the replica with this stamp or identifier, if any.
    fn refusal_of(
        &self,
        replica: u8,
        misfit: Option<Refusal>,
        brought: UniqueKey,
    ) -> Option<Refusal>
        ensures { (past : History) (next : NextOperation) → AreUsedKeysOf past.records self.now.taken
            → self.now.replicas ≡ replicas_of past → next.by ≡ replica → misfit ≡ form_refusal past.kind (operate next)
            → brought ≡ key_of next → result ≡ refusal_of past.kind past.initial_replicas past.records (operate next) }
    {
        if replica >= self.replicas {
            return Some(Refusal::UnknownReplica);
        }
        match misfit {
            Some(refusal) => Some(refusal),
            None => self.taken.refusal_of(brought),
        }
    }

    // Answers a join: adds the next replica, unless the join is rejected.
    fn join(&mut self, replica: u8, from: u8) -> Result<Reply, NoMemory>
        requires { IsFaultless self.old }
        ensures taken { (past : History) → Represents self.old past → fault_of past.kind past.records ≡ None
            → IfOk result (IsAnswered self.new past (Command.Join replica from)) }
        ensures err { (past : History) → Represents self.old past → OnErr result (Represents self.new past) }
        ensures joins { (past : History) → Represents self.old past → fault_of past.kind past.records ≡ None
            → OnErr result (JoinsRecords past (Command.Join replica from)) }
        ensures replicas { AreReplicas self.old.replicas → AreReplicas self.new.replicas }
        ensures labels { self.new.labels ≡ self.old.labels }
    {
        match self.refusal_of_join(replica, from) {
            Some(refusal) => Ok(Reply::Refused(refusal)),
            None => self.add_replica(from),
        }
    }

    // Returns the first reason to reject a join, if any.
    fn refusal_of_join(&self, replica: u8, from: u8) -> Option<Refusal>
        ensures first { (initial_replicas : ℕ) (records : Records)
            → self.now.replicas ≡ replica_count initial_replicas records
            → refusal_of_join initial_replicas records replica from ≡ result }
        ensures few { result ≡ None → self.now.replicas < MOST_REPLICAS }
    {
        if from >= self.replicas || replica > self.replicas {
            Some(Refusal::UnknownReplica)
        } else if replica < self.replicas {
            Some(Refusal::ReplicaThere)
        } else if self.replicas >= MOST_REPLICAS {
            Some(Refusal::TooManyReplicas)
        } else {
            None
        }
    }

    // Adds the next replica, which joins from this one. The witness comes last of all that allocates: if that fails,
    // the tracker withdraws the replica.
    fn add_replica(&mut self, from: u8) -> Result<Reply, NoMemory>
        requires { MayJoin self.old from }
        ensures taken { (past : History) → Represents self.old past → fault_of past.kind past.records ≡ None
            → let join = Command.Join (replicas_of past) from in IsAccepted past join
            → IfOk result (λ reply.
            (reply ≡ Reply.Joined (replicas_of past)) × Represents self.new (history_with past join)) }
        ensures err { (past : History) → Represents self.old past → OnErr result (Represents self.new past) }
        ensures one { OnOk result (self.new.replicas ≡ self.old.replicas + 1) }
        ensures kept { OnErr result (self.new.replicas ≡ self.old.replicas) }
        ensures labels { self.new.labels ≡ self.old.labels }
    {
        self.taken.reserve_replica()?;
        let joined = self.tracker.join(from)?;
        match self.witness.join(from) {
            Ok(()) => {
                self.taken.add_replica();
                self.replicas += 1;
                Ok(Reply::Joined(joined))
            }
            Err(NoMemory) => {
                self.tracker.withdraw();
                Err(NoMemory)
            }
        }
    }

    // Answers a delivery: accepts or rejects it.
    fn deliver(&mut self, replica: u8, label: u32) -> Result<Reply, NoMemory>
        requires { IsFaultless self.old }
        ensures taken { (past : History) → Represents self.old past → fault_of past.kind past.records ≡ None
            → IfOk result (IsAnswered self.new past (Command.Deliver replica label)) }
        ensures err { (past : History) → Represents self.old past → OnErr result (Represents self.new past) }
        ensures joins { (past : History) → Represents self.old past → fault_of past.kind past.records ≡ None
            → OnErr result (JoinsRecords past (Command.Deliver replica label)) }
        ensures labels { self.new.labels ≡ self.old.labels }
        ensures replicas { self.new.replicas ≡ self.old.replicas }
    {
        if replica >= self.replicas {
            return Ok(Reply::Refused(Refusal::UnknownReplica));
        }
        match self.tracker.deliver(replica, label) {
            Ok(()) => {}
            Err(DeliverFault::Refused(refusal)) => return Ok(Reply::Refused(refusal)),
            Err(DeliverFault::NoMemory) => return Err(NoMemory),
        }
        match self.witness.deliver(replica, label) {
            Ok(()) => Ok(Reply::Got(label)),
            Err(NoMemory) => {
                self.tracker.withdraw();
                Err(NoMemory)
            }
        }
    }

    // Accepts an operation, and moves it back. The witness comes last of all that allocates: if that fails, the tracker
    // withdraws the label.
    fn accept(
        &mut self,
        replica: u8,
        op: &mut Op,
        clock: Option<u32>,
        brought: UniqueKey,
    ) -> Result<Reply, NoMemory>
        requires { MayAccept self.old (next_operation replica op.old clock) brought }
        ensures taken { (past : History) → Represents self.old past → fault_of past.kind past.records ≡ None
            → IsAccepted past (Command.Operate replica op.old clock) → IfOk result (λ reply.
            (reply ≡ answer_to_accepted past.kind past.records (Command.Operate replica op.old clock))
            × Represents self.new (history_with past (Command.Operate replica op.old clock))) }
        ensures err { (past : History) → Represents self.old past → OnErr result (Represents self.new past) }
        ensures op { op.new ≡ op.old }
        ensures replicas { self.new.replicas ≡ self.old.replicas }
        ensures one { OnOk result (self.new.labels ≡ self.old.labels + 1) }
        ensures kept { OnErr result (self.new.labels ≡ self.old.labels) }
    {
        self.taken.reserve(replica)?;
        self.tracker.issue(replica, op.is_update())?;
        let label = label_of(self.labels, replica, mem::replace(op, Op::Inc), clock);
        let answer = self.check_label(&label, brought);
        *op = label.op;
        match answer {
            Ok(reply) => Ok(reply),
            Err(NoMemory) => {
                self.tracker.withdraw();
                Err(NoMemory)
            }
        }
    }

    // Answers the newest label, and stores its stamp or identifier if the history holds with it.
    fn check_label(&mut self, label: &Label, brought: UniqueKey) -> Result<Reply, NoMemory>
        requires { MayAnswer self.old label.now brought }
        ensures answered { (past : History) (next : NextOperation) → HasNewest self.old past next label.now brought
            → IfOk result (λ reply. (reply ≡ answer_to_accepted past.kind past.records (operate next))
            × Represents self.new (history_with past (operate next))) }
        ensures witness { (past : History) → IsWitnessOf IsOrderOf self.old.witness past
            → OnErr result (IsWitnessOf IsOrderOf self.new.witness past) }
        ensures one { OnOk result (self.new.labels ≡ self.old.labels + 1) }
        ensures tracker { self.new.tracker ≡ self.old.tracker }
        ensures replicas { self.new.replicas ≡ self.old.replicas }
        ensures kept { OnErr result (self.new.labels ≡ self.old.labels) }
        ensures taken { OnErr result (self.new.taken ≡ self.old.taken) }
        ensures fault { OnErr result (self.new.fault ≡ self.old.fault) }
        ensures cycle { OnErr result (self.new.cycle ≡ self.old.cycle) }
    {
        let number = label.number;
        let seen = self.tracker.vis(number);
        let failure = self.witness.offer(label, &seen)?;
        self.labels = number + 1;
        match failure {
            None => {
                self.taken.keep(brought);
                Ok(Reply::Ok(number))
            }
            Some(failure) => {
                let fault = Fault {
                    label: number,
                    cause: failure.cause,
                };
                self.fault = Some(fault);
                self.cycle = failure.cycle;
                Ok(no_reply(fault))
            }
        }
    }
}

// Returns the label with this number that the operation becomes.
fn label_of(number: u32, replica: u8, op: Op, clock: Option<u32>) -> Label
    ensures op { result.op ≡ op }
    ensures next { (records : Records) → number ≡ label_count records → result ≡ next_label records replica op clock }
{
    let stamp = clock.map(|clock| Stamp { clock, replica });
    Label {
        number,
        replica,
        op,
        stamp,
    }
}

// Returns the reply that names the fault.
fn no_reply(fault: Fault) -> Reply
    ensures { result ≡ no_reply fault }
{
    Reply::No {
        label: fault.label,
        cause: fault.cause,
    }
}
