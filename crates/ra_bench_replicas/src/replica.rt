//! A replica with its data, its clock and the messages that it holds.
ghost use Rattle.std.specs.Prelude.{◌≡◌, ◌++◌, ◌∷◌, [], true, false, length, option_map, IfOk, OnOk, OnErr};
ghost use Rattle.ra_labels.specs.declared.command.Command.TheVariants.{Operate};
ghost use Rattle.ra_labels.specs.Answer.{form_refusal};
ghost use Rattle.ra_labels.specs.Visibility.{is_update};
ghost use Rattle.ra_bench_replicas.specs.Turn.{is_of_turn};
ghost use Rattle.ra_bench_replicas.specs.Replica.{new_replica, turn_of, clock_of, later_clock, with_update, with_held, ready_place, ready_message, with_next};

use crate::counts::Counts;
use crate::data::Data;
use crate::message::{Made, Message};
use crate::stamped::carries_stamp;
use crate::turn::Turn;
use ra_labels::{Kind, NoMemory, Op, Stamp};
use std::alloc::Global;
use std::marker::Model;

/// A replica.
#[derive(Drop)]
pub struct Replica {
    data: Data,
    number: u8,
    replicas: u8,
    // The greatest clock that it saw.
    clock: u32,
    // How many updates of each replica it applied.
    applied: Counts,
    // The messages that arrived and could not be applied yet, the oldest first.
    held: Vec<Message>,
}

impl Model for Replica {
    ghost use Rattle.ra_bench_replicas.specs.Data.{kind_in};
    ghost use Rattle.ra_bench_replicas.specs.Replica as replica;

    ghost Value = { replica.Replica };

    ghost view = { λ r. record {
      kind = kind_in r.data;
      number = r.number;
      replicas = r.replicas;
      clock = r.clock;
      applied = r.applied;
      held = r.held.items;
    } };
}

impl Replica {
    /// Creates the replica with this number, from 0, among the given number of replicas, before any update.
    ///
    /// # Errors
    ///
    /// `NoMemory` if an allocation fails.
    pub fn new(alloc: Global, kind: Kind, number: u8, replicas: u8) -> Result<Replica, NoMemory>
        // The replica has this kind, number and number of replicas. It has applied no update, seen no clock, and holds
        // no message.
        ensures { IfOk result (λ replica. replica ≡ new_replica kind number replicas) }
    {
        Ok(Replica {
            data: Data::new(alloc, kind)?,
            number,
            replicas,
            clock: 0,
            applied: Counts::none(alloc, replicas)?,
            held: Vec::new(alloc),
        })
    }

    /// Returns its number.
    pub fn number(&self) -> u8
        // The result is the replica's number.
        ensures { result ≡ self.now.number }
    {
        self.number
    }

    /// Makes this round's update, and applies it here.
    ///
    /// # Errors
    ///
    /// `NoMemory` if an allocation fails; the replica's view is then unchanged.
    pub fn update(&mut self, round: u32) -> Result<Made, NoMemory>
        // The monitor does not reject the update for its form.
        ensures fits { IfOk result (λ made.
            form_refusal self.old.kind (Operate self.old.number made.op made.clock) ≡ None) }
        // The operation is an update.
        ensures update { IfOk result (λ made. is_update made.op ≡ true) }
        // The update is one that this replica may make in this round: its number, its element and whether it may remove
        // are those of the turn.
        ensures turn { IfOk result (λ made. is_of_turn (turn_of self.old round) made.op ≡ true) }
        // The update carries the next clock if it needs a stamp, and none otherwise.
        ensures clock { IfOk result (λ made. made.clock ≡ clock_of self.old made.op) }
        // The message states the updates applied before this one.
        ensures had { IfOk result (λ made. made.had ≡ self.old.applied) }
        // The replica has applied one more update of its own, and has seen this clock.
        ensures ok { IfOk result (λ made. self.new ≡ with_update self.old self.old.number made.clock) }
        // If allocation fails, kind, number, clock, counts and held messages are unchanged.
        ensures err { OnErr result (self.new ≡ self.old) }
    {
        let had = self.applied.copy()?;
        let turn = Turn {
            round,
            replica: self.number,
            replicas: self.replicas,
        };
        let op = self.data.update(turn)?;
        let is_stamped = carries_stamp(&op);
        let next = self.clock.saturating_add(1);
        let stamp = Stamp {
            clock: next,
            replica: self.number,
        };
        self.data.apply(&op, stamp, &had)?;
        self.applied.add(self.number);
        let clock = if is_stamped { Some(next) } else { None };
        self.clock = later_clock(self.clock, clock);
        Ok(Made { op, clock, had })
    }

    /// Returns the query with its current answer.
    ///
    /// # Errors
    ///
    /// `NoMemory` if an allocation fails.
    pub fn read(&self) -> Result<Op, NoMemory>
        // The monitor does not reject the query for its form.
        ensures fits { IfOk result (λ op. form_refusal self.now.kind (Operate self.now.number op None) ≡ None) }
        // The operation is a query.
        ensures query { IfOk result (λ op. is_update op ≡ false) }
    {
        self.data.read()
    }

    /// Takes a message that arrived, and keeps it until it can be applied.
    ///
    /// # Errors
    ///
    /// `NoMemory` if an allocation fails; the replica's view is then unchanged.
    pub fn hold(&mut self, message: Message) -> Result<(), NoMemory>
        // The message is held behind the others, and nothing else changed.
        ensures ok { OnOk result (self.new ≡ with_held self.old (self.old.held ++ message ∷ [])) }
        // If allocation fails, kind, number, clock, counts and held messages are unchanged.
        ensures err { OnErr result (self.new ≡ self.old) }
    {
        self.held.push(message)?;
        Ok(())
    }

    /// Returns the number of messages that it holds.
    pub fn held(&self) -> usize
        // The result is the number of held messages.
        ensures { result ≡ length self.now.held }
    {
        self.held.len()
    }

    /// Applies the first held message whose causes are all applied here, and returns its label, or `None` if there is
    /// no such message.
    ///
    /// # Errors
    ///
    /// `NoMemory` if an allocation fails; the replica's view is then unchanged.
    ///
    /// # Complexity
    ///
    /// One comparison of counts for each held message.
    pub fn apply_next(&mut self) -> Result<Option<u32>, NoMemory>
        // The result is the label of the first held message whose causes are all applied, or `None` if there is none.
        ensures label { IfOk result (λ label. label ≡ option_map (λ message. message.label) (ready_message self.old)) }
        // This message is applied and held no longer; without one, nothing changed.
        ensures ok { OnOk result (self.new ≡ with_next self.old) }
        // If allocation fails, kind, number, clock, counts and held messages are unchanged.
        ensures err { OnErr result (self.new ≡ self.old) }
    {
        let Some(place) = self.ready_place() else {
            return Ok(None);
        };
        let message = &self.held[place];
        let stamp = Stamp {
            clock: message.made.clock.unwrap_or(0),
            replica: message.from,
        };
        self.data.apply(&message.made.op, stamp, &message.made.had)?;
        let message = self.held.remove(place);
        self.applied.add(message.from);
        self.clock = later_clock(self.clock, message.made.clock);
        Ok(Some(message.label))
    }

    // Returns the index of the first held message whose causes are all applied here.
    fn ready_place(&self) -> Option<usize>
        ensures { result ≡ ready_place self.now }
    {
        let applied = &self.applied;
        self.held
            .iter()
            .position(|message| applied.reach(&message.made.had))
    }
}

// Returns the greater clock, if another one arrived.
fn later_clock(clock: u32, came: Option<u32>) -> u32
    ensures { result ≡ later_clock clock came }
{
    match came {
        Some(other) => clock.max(other),
        None => clock,
    }
}
