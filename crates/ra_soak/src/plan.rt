//! The plan of a pass, which depends on its seed, its number, and what its replica holds.

use crate::chance::Chance;
use crate::held::Held;
use ra_labels::{Command, Kind, NoMemory, Op, Refusal, Reply};
use std::alloc::Global;
use std::sync::atomic::{AtomicU32, Ordering};

/// The number of replicas.
pub const REPLICAS: u8 = 16;

/// The passes below this number report for replicas to which nothing is delivered, so they know what a read returns.
/// Those from here to the quiet replica report for replicas to which others' updates are delivered.
pub const WRITERS: u8 = 8;

// The replica that makes no update and to which none is delivered, so its reads find nothing.
const QUIET: u8 = 15;

/// The next act of a pass.
#[derive(Drop)]
pub enum Act {
    /// A call, which may wait, or an attempt.
    Call { command: Command, waits: bool },
    /// A glance.
    Glance,
    /// A meeting with another pass of its thread.
    Meet,
    /// The pass is dropped.
    Leave,
}

// The commands that a pass makes.
#[derive(Clone, Copy)]
enum Part {
    // Updates and reads of its replica.
    Writes,
    // Updates of its replica, and deliveries to it.
    Hears,
    // Commands that change nothing.
    LooksOn,
}

/// The plan of a pass.
#[derive(Drop)]
pub struct Plan {
    chance: Chance,
    part: Part,
    replica: u8,
    held: Held,
    kind: Kind,
    // All labels below this one have been delivered, as far as possible.
    delivered: u32,
    // The number of commands before it reports a read falsely.
    lies_after: Option<u32>,
    // Whether it is never dropped.
    stays: bool,
}

impl Plan {
    /// Creates the plan of the pass with this number on a desk of this kind. If `lies_after` is given, it lies after
    /// this many commands.
    pub fn new(alloc: Global, kind: Kind, pass: u8, seed: u64, lies_after: Option<u32>) -> Plan {
        let (part, replica) = if pass < WRITERS {
            (Part::Writes, pass)
        } else if pass < QUIET {
            (Part::Hears, pass)
        } else {
            (Part::LooksOn, QUIET)
        };
        Plan {
            chance: Chance::new(seed),
            part,
            replica,
            held: Held::new(alloc, kind, replica),
            kind,
            delivered: 0,
            lies_after,
            stays: false,
        }
    }

    /// Returns the plan, of a pass that is never dropped if `stays` is set.
    pub fn staying(self, stays: bool) -> Plan {
        Plan { stays, ..self }
    }

    /// Returns the next act. The clock of a stamp is drawn from the one that all passes share.
    pub fn next(&mut self, alloc: Global, clock: &AtomicU32) -> Result<Act, NoMemory> {
        if !self.stays && self.chance.is_one_in(1_000) {
            return Ok(Act::Leave);
        }
        Ok(match self.chance.below(16) {
            0 => Act::Glance,
            1 => Act::Meet,
            what => Act::Call {
                command: self.command(alloc, clock)?,
                waits: what < 11,
            },
        })
    }

    fn command(&mut self, alloc: Global, clock: &AtomicU32) -> Result<Command, NoMemory> {
        if self.lies_now() {
            return Ok(operation(self.replica, self.held.lie()?, None));
        }
        match (self.part, self.chance.below(8)) {
            (_, 0) => Ok(Command::Verdict),
            (_, 1) => self.refused(),
            (Part::Writes, 2 | 3) | (Part::LooksOn, 2..=4) => {
                Ok(operation(self.replica, self.held.read()?, None))
            }
            (Part::Writes, _) | (Part::Hears, 2 | 3) => self.update(alloc, clock),
            (Part::Hears, _) => Ok(self.delivery()),
            (Part::LooksOn, _) => self.refused(),
        }
    }

    // Returns `true` if this command is the lie.
    fn lies_now(&mut self) -> bool {
        let now = self.lies_after == Some(0);
        self.lies_after = match self.lies_after {
            Some(left) if left > 0 => Some(left - 1),
            _ => None,
        };
        now
    }

    fn update(&mut self, alloc: Global, clock: &AtomicU32) -> Result<Command, NoMemory> {
        let op = self.held.update(alloc, &mut self.chance)?;
        let stamp = if carries_stamp(&op) {
            Some(clock.fetch_add(1, Ordering::SeqCst))
        } else {
            None
        };
        Ok(operation(self.replica, op, stamp))
    }

    // Returns a delivery of the first label that has not been delivered, or, once in four times, of a label up to 15
    // later, whose causes may be missing.
    fn delivery(&mut self) -> Command {
        let ahead = if self.chance.is_one_in(4) {
            self.chance.below(16)
        } else {
            0
        };
        Command::Deliver {
            replica: self.replica,
            label: self.delivered.saturating_add(ahead),
        }
    }

    // Returns a command that is rejected, whatever was reported before.
    fn refused(&mut self) -> Result<Command, NoMemory> {
        Ok(match self.chance.below(4) {
            0 => Command::Deliver {
                replica: self.replica,
                label: u32::MAX,
            },
            1 => Command::Deliver {
                replica: REPLICAS,
                label: 0,
            },
            2 => operation(self.replica, self.held.read()?, Some(1)),
            _ if self.kind == Kind::Counter => operation(self.replica, Op::Write(1), Some(1)),
            _ => operation(self.replica, Op::Inc, None),
        })
    }

    /// Records the reply to the command.
    pub fn answered(&mut self, command: &Command, reply: Reply) -> Result<(), NoMemory> {
        match command {
            Command::Operate { op, .. } if matches!(reply, Reply::Ok(_)) => self.held.take(op)?,
            Command::Deliver { label, .. } if *label == self.delivered && needs_no_more(reply) => {
                self.delivered = self.delivered.saturating_add(1);
            }
            _ => {}
        }
        Ok(())
    }
}

// Returns `true` if the label was delivered, or is not an update.
fn needs_no_more(reply: Reply) -> bool {
    matches!(
        reply,
        Reply::Got(_) | Reply::Refused(Refusal::NotAnUpdate | Refusal::AlreadySeen)
    )
}

fn operation(replica: u8, op: Op, stamp: Option<u32>) -> Command {
    Command::Operate { replica, op, stamp }
}

fn carries_stamp(op: &Op) -> bool {
    matches!(
        op,
        Op::Write(_) | Op::LwwAdd(_) | Op::LwwRemove(_) | Op::After { .. }
    )
}
