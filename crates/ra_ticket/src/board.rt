//! The table that the passes share. Word 0 is `next`, the next ticket to be drawn, and word 1 is `serving`, the ticket
//! that may enter. Word 2 is `mark`, the number of calls in the log and the number of its fault. Slot 0 contains the
//! journal. It is out only with the seat whose ticket is served.
use atomic_table::{Seat, Shared, Table, TableRule};
use ra_journal::{Entry, Journal};
use std::alloc::Global;
use std::collections::LinkedList;
use std::marker::PhantomData;
use std::snapshot::Snapshot;

/// The index of the word with the next ticket to be drawn.
pub const NEXT: usize = 0;

/// The index of the word with the ticket that may enter.
pub const SERVING: usize = 1;

/// The index of the word with the number of calls and the fault.
pub const MARK: usize = 2;

/// The index of the journal's slot.
pub const JOURNAL: usize = 0;

/// The stage of a seat, with its ticket.
pub enum Stage {
    /// The seat has no ticket.
    Idle,
    /// The seat has drawn the ticket and has not entered.
    Waiting(u64),
    /// The seat's ticket is served, and the seat holds the journal's slot.
    Holding(u64),
}

/// The knowledge of a seat.
pub struct Known<C, R, S> {
    /// The numbers of the passes that share the seat.
    pub numbers: LinkedList<u8>,
    /// A number that the word `next` has reached.
    pub next: u64,
    /// A number that the word `serving` has reached.
    pub serving: u64,
    /// The stage of the seat.
    pub stage: Stage,
    /// The setup of the journal.
    pub setup: S,
    /// The log as far as the seat has seen it.
    pub seen: LinkedList<Entry<C, R>>,
}

/// The view of a seat at the table. It exists in proofs alone.
pub enum View<C, R, S> {
    /// The seat was joined to another one, which took over its knowledge.
    Spent,
    /// The seat has this knowledge.
    Knows(Known<C, R, S>),
    /// Another seat was joined to this one. It has the knowledge of both until it looks at the log.
    Met(Known<C, R, S>, Known<C, R, S>),
}

/// The parameters of a table.
#[derive(Drop)]
pub struct About<M> {
    /// The number of passes.
    pub passes: u8,
    /// The initial value of `next` and `serving`.
    pub first: u64,
    /// The journal at the opening.
    pub opening: Snapshot<M>,
}

/// The invariant of the table.
pub struct Turns<M> {
    journal: PhantomData<M>,
}

impl<M: Journal> TableRule<Option<M>, JournalView<M>, About<M>> for Turns<M> {
    ghost use Rattle.ra_journal.specs.Log.{readings};
    ghost use Rattle.ra_ticket.specs.Views.{starting};
    ghost use Rattle.ra_ticket.specs.Rule.{TurnsKept};

    ghost holds = { λ about. TurnsKept (readings M.setup M.log M.reply_of M.fault_of) (M.setup about.opening.value) };

    ghost first = { λ about. starting about.passes about.first (M.setup about.opening.value) };
}

/// The view of a seat of a lock over this journal.
pub type JournalView<M> = View<
    <M as Journal>::Command,
    <M as Journal>::Reply,
    <M as Journal>::Setup,
>;

/// The shared part of the table, on which the steps act.
pub type Board<M> = Shared<Option<M>, JournalView<M>, About<M>, Turns<M>>;

/// The table with its memory.
pub type LockTable<M> = Table<Option<M>, JournalView<M>, About<M>, Turns<M>, Global>;

/// A seat at the table. It has no bytes.
pub type LockSeat<M> = Seat<Option<M>, JournalView<M>>;
