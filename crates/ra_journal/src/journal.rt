//! The interface of a journal: the object that the ticket lock guards.
ghost use Rattle.std.specs.Prelude.{◌≡◌, ℕ, ◌<◌, ◌≤◌, ◌↔◌, ◌++◌, ◌∷◌, [], List, length, Option, IfSome, IfOk, IfErr, OnErr};
ghost use Rattle.ra_journal.specs.Log.{entry, last_ticket_of, IsAboveLast, unstepped};

/// The largest number of entries of a log.
pub const MOST_ENTRIES: u32 = 1_048_576;

/// The reason why a step failed. It returns the command to the caller.
#[derive(Debug, PartialEq, Eq, Drop)]
pub enum StepFault<C> {
    /// The log has reached its limit.
    Full(C),
    /// Allocation failed.
    NoMemory(C),
}

/// A state machine that answers commands one after another and logs each reply. A reply is a function of the setup, the
/// log so far and the command. Each call except `step` is meant to be O(1).
pub trait Journal: Drop + Send {
    ghost use Rattle.ra_journal.specs.declared.entry.Entry.{Entry};

    /// The commands.
    type Command;

    /// The replies.
    type Reply: Copy;

    /// Plain data that no step changes.
    type Setup;

    ghost setup: { Self → Self.Setup };

    ghost log: { Self → List (Entry Self.Command Self.Reply) };

    // the answer to a command after these entries
    ghost reply_of: { Self.Setup → List (Entry Self.Command Self.Reply) → Self.Command → Self.Reply };

    ghost fault_of: { Self.Setup → List (Entry Self.Command Self.Reply) → Option ℕ };

    ghost limit_of: { Self.Setup → ℕ };

    /// Returns the largest number of entries of the log, from 1 to `MOST_ENTRIES`.
    fn limit(&self) -> u32
        // The result is the limit that the setup states.
        ensures limit { result ≡ limit_of (setup self.now) }
        // The limit is from 1 to `MOST_ENTRIES`.
        ensures range { (0 < result) × (result ≤ MOST_ENTRIES) };

    /// Returns the number of entries of the log.
    fn calls(&self) -> u32
        // The result is the length of the log.
        ensures { result ≡ length (log self.now) };

    /// Returns the number that identifies the journal's fault, if it has one. It is less than `calls`. For a monitor it
    /// is the label of the fault.
    fn fault(&self) -> Option<u32>
        // The result is the number of the fault that the journal's setup and log determine, if there is one.
        ensures fault { result ≡ fault_of (setup self.now) (log self.now) }
        // The number that names a fault is less than the length of the log.
        ensures below { IfSome result (λ f. f < length (log self.now)) };

    /// Returns the ticket of the last entry, if there is one.
    fn last_ticket(&self) -> Option<u64>
        // The result is the ticket of the log's last entry, or `None` if the log is empty.
        ensures { result ≡ last_ticket_of (log self.now) };

    /// Answers a command, logs the reply and returns it.
    ///
    /// # Errors
    ///
    /// `Full` exactly if the log has reached its limit, even if memory is exhausted too; `NoMemory` if allocation
    /// fails. Both return the command, and leave the setup and the log unchanged.
    fn step(
        &mut self,
        pass: u8,
        ticket: u64,
        command: Self::Command,
    ) -> Result<Self::Reply, StepFault<Self::Command>>
        // The ticket is greater than that of the log's last entry.
        requires { IsAboveLast (log self.old) ticket }
        // The reply is the journal's function of the setup, the log before the call and the command.
        ensures reply { IfOk result (λ r. r ≡ reply_of (setup self.old) (log self.old) command) }
        // A successful call appends exactly one entry: this pass, this ticket, the command and the reply.
        ensures logged { IfOk result (λ r. log self.new ≡ log self.old ++ entry pass ticket command r ∷ []) }
        // `Full` is returned exactly if the log has as many entries as the limit allows.
        ensures full { (result ≡ Err (StepFault.Full command)) ↔ (length (log self.old) ≡ limit_of (setup self.old)) }
        // An error returns the command to the caller.
        ensures handed_back { IfErr result (λ f. unstepped f ≡ command) }
        // After an error, the log is unchanged.
        ensures unchanged { OnErr result (log self.new ≡ log self.old) }
        // The setup never changes.
        ensures same_setup { setup self.new ≡ setup self.old };
}
