//! The record of the replies to a pass.
use ra_labels::{Command, NoMemory, Reply};
use ra_ticket::{CallFault, Glance};
use std::alloc::Global;

/// The result of a command.
pub type Answer = Result<Reply, CallFault<Command>>;

/// One event of a pass.
#[derive(Drop)]
pub enum Event {
    /// A call that was answered.
    Told { command: Command, reply: Reply },
    /// A glance.
    Glanced(Glance),
    /// The number of calls at a meeting with another pass.
    Met(u32),
}

/// The events of a pass, in order.
#[derive(Drop)]
pub struct Record {
    /// The number of the pass.
    pub pass: u8,
    /// The calls that were answered, and the looks.
    pub events: Vec<Event>,
    /// The number of calls that were answered.
    pub told: u64,
    /// The number of calls that found the desk in use.
    pub busy: u64,
    /// The number of calls that found the log full.
    pub full: u64,
    /// The number of looks.
    pub looks: u64,
    /// Whether an allocation failed.
    pub is_short: bool,
}

impl Record {
    /// Creates an empty record.
    pub fn new(alloc: Global, pass: u8) -> Record {
        Record {
            pass,
            events: Vec::new(alloc),
            told: 0,
            busy: 0,
            full: 0,
            looks: 0,
            is_short: false,
        }
    }

    /// Returns the reply. If the command was handed back, it is counted and the result is `None`. The answer is dropped
    /// here, once.
    pub fn reply_in(&mut self, answer: Answer) -> Option<Reply> {
        match &answer {
            Ok(reply) => Some(*reply),
            Err(fault) => {
                self.count(fault);
                None
            }
        }
    }

    fn count(&mut self, fault: &CallFault<Command>) {
        match fault {
            CallFault::Busy { .. } => self.busy = self.busy.wrapping_add(1),
            CallFault::Full(_) => self.full = self.full.wrapping_add(1),
            CallFault::Worn(_) | CallFault::NoMemory(_) => self.is_short = true,
        }
    }

    /// Records the reply to a command.
    pub fn answered(&mut self, command: Command, reply: Reply) -> Result<(), NoMemory> {
        self.events.push(Event::Told { command, reply })?;
        self.told = self.told.wrapping_add(1);
        Ok(())
    }

    /// Records a look at the desk.
    pub fn looked(&mut self, event: Event) -> Result<(), NoMemory> {
        self.events.push(event)?;
        self.looks = self.looks.wrapping_add(1);
        Ok(())
    }
}
