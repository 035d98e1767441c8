//! The messages on their way between replicas.
ghost use Rattle.std.specs.Prelude.{◌≡◌, ◌++◌, reverse, IfOk, OnOk, ◌==◌, ◌+◌, ◌%◌, ◌&&◌};
ghost use Rattle.std.specs.List.{filter};
ghost use Rattle.ra_bench.specs.Mailbox.{arrives, inbox_of};

use ra_bench_replicas::Message;
use ra_labels::NoMemory;
use std::alloc::Global;
use std::mem;

/// The messages of the last round and of the one before, each with the highest sender's first.
#[derive(Drop)]
pub struct Mailbox {
    last: Vec<Message>,
    before: Vec<Message>,
}

impl Mailbox {
    /// Creates a post without messages.
    pub fn new(alloc: Global) -> Mailbox {
        Mailbox {
            last: Vec::new(alloc),
            before: Vec::new(alloc),
        }
    }

    /// Returns copies of the messages that reach this replica in this round.
    pub fn inbox(&self, alloc: Global, replica: u8, round: u32) -> Result<Vec<Message>, NoMemory>
        ensures { IfOk result (λ inbox.
            inbox.items ≡ inbox_of self.now.last.items self.now.before.items replica round) }
    {
        let mut inbox = Vec::new(alloc);
        put_in(&mut inbox, &self.last, replica, round)?;
        put_in(&mut inbox, &self.before, replica, round)?;
        Ok(inbox)
    }

    /// Ends a round in which these messages were sent, the lowest sender's first.
    pub fn send(&mut self, sent: Vec<Message>)
        ensures last { self.new.last.items ≡ reverse sent.items }
        ensures before { self.new.before.items ≡ self.old.last.items }
    {
        let mut sent = sent;
        sent.reverse();
        self.before = mem::replace(&mut self.last, sent);
    }
}

// Appends copies of the messages that arrive, in order.
fn put_in(
    inbox: &mut Vec<Message>,
    sent: &[Message],
    replica: u8,
    round: u32,
) -> Result<(), NoMemory>
    ensures { OnOk result (inbox.new.items ≡ inbox.old.items ++ filter (arrives replica round) sent.now) }
{
    for message in sent {
        if is_for(message, replica, round) {
            inbox.push(message.copy()?)?;
        }
    }
    Ok(())
}

// Returns `true` if the message arrives here in this round.
fn is_for(message: &Message, replica: u8, round: u32) -> bool
    ensures { result ≡ arrives replica round message.now }
{
    let sum = u32::from(message.from) + u32::from(replica) + round % 2;
    message.from != replica && sum % 2 == 1
}
