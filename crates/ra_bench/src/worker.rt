//! One replica with its reporter, on a thread of its own: a model for data types of other libraries.
ghost use Rattle.ra_bench.specs.Calls.{IsReported};

use crate::fault::RunFault;
use crate::gate::Gate;
use crate::lie::falsified;
use crate::round::Round;
use crate::tell::tell;
use crate::unexpected_reply::label_in;
use ra_bench_replicas::{Message, Replica};
use ra_desk::DeskReporter;
use ra_labels::{Command, Op};
use std::alloc::Global;
use std::sync::Wait;

/// A replica with its reporter.
#[derive(Drop)]
pub struct Worker {
    replica: Replica,
    reporter: DeskReporter,
}

/// The result of a worker's thread.
#[derive(Drop)]
pub struct Done {
    /// The worker.
    pub worker: Worker,
    /// The update that it made, if it made one, or the error at which it stopped.
    pub sent: Result<Option<Message>, RunFault>,
}

impl Worker {
    /// Creates the worker of this replica, which reports through this reporter.
    pub fn new(replica: Replica, reporter: DeskReporter) -> Worker {
        Worker { replica, reporter }
    }

    /// Returns the replica's number.
    pub fn number(&self) -> u8 {
        self.replica.number()
    }

    /// Runs a round with this inbox on the current thread, and returns the worker with its message.
    pub fn work<R: Wait, G: Gate>(
        self,
        rt: &R,
        alloc: Global,
        gate: &G,
        inbox: Vec<Message>,
        round: Round,
    ) -> Done {
        let mut worker = self;
        let sent = worker.pass_gate(rt, alloc, gate, inbox, round);
        Done { worker, sent }
    }

    // Runs one round between the gate's two calls.
    fn pass_gate<R: Wait, G: Gate>(
        &mut self,
        rt: &R,
        alloc: Global,
        gate: &G,
        inbox: Vec<Message>,
        round: Round,
    ) -> Result<Option<Message>, RunFault> {
        let replica = self.number();
        if !gate.enter(replica, round.number) {
            return Err(RunFault::Stalled { replica });
        }
        let sent = self.take_part(rt, inbox, round)?;
        gate.left(replica, round.number);
        Ok(sent)
    }

    // Applies what arrived, then makes an update, then reads.
    fn take_part<R: Wait>(
        &mut self,
        rt: &R,
        inbox: Vec<Message>,
        round: Round,
    ) -> Result<Option<Message>, RunFault> {
        for message in inbox {
            self.replica.hold(message)?;
        }
        self.deliver(rt)?;
        let sent = if round.has_update() {
            Some(self.update(rt, round.number)?)
        } else {
            None
        };
        if round.has_read() {
            self.read(rt, round.is_lie_of(self.number()))?;
        }
        Ok(sent)
    }

    // Applies each message that can be applied, and reports it.
    fn deliver<R: Wait>(&mut self, rt: &R) -> Result<(), RunFault> {
        for _ in 0..self.replica.held() {
            let Some(label) = self.replica.apply_next()? else {
                break;
            };
            let replica = self.number();
            self.report(rt, Command::Deliver { replica, label })?;
        }
        Ok(())
    }

    // Makes the round's update and reports it. Returns the message for the other replicas.
    fn update<R: Wait>(&mut self, rt: &R, round: u32) -> Result<Message, RunFault> {
        let made = self.replica.update(round)?;
        let op = made.op.clone()?;
        let label = self.report_operation(rt, op, made.clock)?;
        Ok(Message {
            label,
            from: self.number(),
            made,
        })
    }

    // Reads, and reports the read or a lie.
    fn read<R: Wait>(&mut self, rt: &R, is_lie: bool) -> Result<(), RunFault> {
        let read = self.replica.read()?;
        let told = if is_lie { falsified(read)? } else { read };
        self.report_operation(rt, told, None)?;
        Ok(())
    }

    fn report_operation<R: Wait>(
        &mut self,
        rt: &R,
        op: Op,
        stamp: Option<u32>,
    ) -> Result<u32, RunFault> {
        let replica = self.number();
        self.report(rt, Command::Operate { replica, op, stamp })
    }

    // Reports the command to the desk, and returns the label of its reply.
    fn report<R: Wait>(&mut self, rt: &R, command: Command) -> Result<u32, RunFault>
        ensures { IsReported self.old.reporter self.new.reporter command result }
    {
        let replica = self.reporter.number();
        let reply = tell(rt, &mut self.reporter, command)?;
        match label_in(reply) {
            Ok(label) => Ok(label),
            Err(unwanted) => Err(RunFault::Answered { replica, unwanted }),
        }
    }
}
