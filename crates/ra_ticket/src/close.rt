//! The closing of a lock.
ghost use Rattle.std.specs.Prelude.{◌≡◌, Some, Option};
ghost use Rattle.ra_journal.specs.Log.{readings};
ghost use Rattle.ra_ticket.specs.Steps.{IsLeft};
ghost use Rattle.ra_ticket.specs.Views.{stage_of};
ghost use Rattle.ra_ticket.specs.declared.board.Stage.TheVariants.{Idle};

use crate::board::{JOURNAL, LockSeat, LockTable, NEXT, SERVING};
use crate::lock::TicketLock;
use crate::pass::Pass;
use ra_journal::Journal;

/// The state of a lock that was closed while a drawn ticket was not served. The journal is dropped. No public call
/// leaves its ticket unserved.
#[derive(Debug, PartialEq, Eq, Clone, Copy)]
pub struct Unsettled {
    /// The value of `serving`.
    pub serving: u64,
    /// The value of `next`, which is greater.
    pub next: u64,
}

// Closes the table and returns the words `next` and `serving`, and the content of the journal's slot.
fn close_table<M: Journal>(table: LockTable<M>, seat: LockSeat<M>) -> (u64, u64, Option<M>)
    requires table { seat.table_id ≡ table.shared.table_id }
    requires idle { stage_of seat.me.0 ≡ Some Idle }
    requires sized { (table.shared.table_id.words ≡ 3) × (table.shared.table_id.slots ≡ 1) }
    ensures { IsLeft (readings M.setup M.log M.reply_of M.fault_of) seat.me.0 result.0 result.1 result.2 }
{
    let mut closed = table.close_with(seat);
    let next = closed.word(NEXT);
    let serving = closed.word(SERVING);
    let slot = closed.take(JOURNAL);
    closed.free();
    (next, serving, slot)
}

impl<M: Journal> TicketLock<M> {
    ghost use Rattle.std.specs.Prelude.{◌≡◌, ◌<◌, ◌≤◌, Some, IfOk, IfErr};
    ghost use Rattle.ra_journal.specs.Log.{BeginsWith, IsLegal, entries_of};
    ghost use Rattle.ra_ticket.specs.Passes.{IsPassOf, number_of, next_reached, serving_reached};
    ghost use Rattle.ra_ticket.specs.Passes.{pass_setup, seen, mine};

    /// Closes the lock and returns the journal, whose log begins with all that the pass had seen and contains all of
    /// the pass's own calls. Remaining passes can no longer be used. Does not wait and does not allocate.
    ///
    /// # Errors
    ///
    /// `Unsettled`, with the two words, if a drawn ticket was not served. The journal is then dropped.
    pub fn close(self, pass: Pass<M>) -> Result<M, Unsettled>
        // The pass belongs to this lock.
        requires own { IsPassOf self pass }
        // The returned journal has the setup of the pass.
        ensures setup { IfOk result (λ m. pass_setup pass ≡ Some (M.setup m)) }
        // The log of the returned journal is legal.
        ensures legal { IfOk result (λ m. IsLegal (M.reply_of (M.setup m)) (M.log m)) }
        // It begins with the log that the pass had seen.
        ensures begins { IfOk result (λ m. BeginsWith (M.log m) (seen pass)) }
        // It has exactly the pass's own entries under its number.
        ensures mine { IfOk result (λ m. entries_of (number_of pass) (M.log m) ≡ mine pass) }
        // `Unsettled` reports two numbers, the first less than the second.
        ensures unsettled { IfErr result (λ u. u.serving < u.next) }
        // Neither number is less than what the pass knew of the tickets.
        ensures reached { IfErr result (λ u. (serving_reached pass ≤ u.serving) × (next_reached pass ≤ u.next)) }
    {
        let TicketLock { table } = self;
        let Pass {
            number: _,
            serving: _,
            seat,
        } = pass;
        let (next, serving, slot) = close_table(table, seat);
        if next == serving {
            Ok(slot.unwrap())
        } else {
            Err(Unsettled { serving, next })
        }
    }
}
