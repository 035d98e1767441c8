//! The lock and its calls.
ghost use Rattle.std.specs.Prelude.{◌≡◌};

use crate::at_once::{enter_served, learn_serving};
use crate::board::LockTable;
use crate::draw::{GREATEST_TICKET, learn_next};
use crate::enter::enter;
use crate::fault::CallFault;
use crate::pass::Pass;
use crate::serve::serve;
use ra_journal::Journal;
use std::sync::Wait;

/// A journal at which passes take turns, in the order of their tickets.
#[derive(Drop)]
pub struct TicketLock<M: Journal> {
    pub(crate) table: LockTable<M>,
    ghost sized: { (table.shared.table_id.words ≡ 3) × (table.shared.table_id.slots ≡ 1) },
}

impl<M: Journal> TicketLock<M> {
    ghost use Rattle.std.specs.Prelude.{◌≡◌, ◌≤◌, ◌⊎◌, IfErr};
    ghost use Rattle.ra_ticket.specs.Faults.{IsWorn, IsBusy};
    ghost use Rattle.ra_ticket.specs.Passes.{IsPassOf, next_reached, seen, IsFoundBusy};
    ghost use Rattle.ra_ticket.specs.Calls.{IsCall};

    /// Draws a ticket, waits until it is served, lets the journal answer the command, and publishes the answer.
    ///
    /// It first tries up to 64 times for a ticket that is served at once, and holds none between two tries. The first
    /// try is one compare-exchange from the number after the pass's last ticket, and fails if another call has drawn a
    /// ticket since. Then it draws the next ticket to wait with, and tries again whenever another call draws first.
    /// Until then others may overtake it; a call that draws later is not served before it. It pauses between two tries,
    /// and then between two looks at the ticket that is served: for 1, 2, 4 .. 64 spins, and after that by yielding the
    /// processor.
    ///
    /// # Errors
    ///
    /// `Worn` if all tickets are drawn; no ticket was drawn. `Full` or `NoMemory` from the journal: the ticket is
    /// served and leaves no entry.
    ///
    /// # Complexity
    ///
    /// The journal's step and three atomic steps, if no other call has drawn a ticket since the pass's last call;
    /// otherwise two or three more for each try, one for each pass that draws at the same time, and the wait. The
    /// journal's own bytes, not what it owns, are copied twice.
    pub fn submit<R: Wait>(
        &self,
        rt: &R,
        pass: &mut Pass<M>,
        command: M::Command,
    ) -> Result<M::Reply, CallFault<M::Command>>
        // The pass belongs to this lock.
        requires own { IsPassOf self.now pass.old }
        // The call returns what every call with a command does: of the pass, the log, its own entries and the tickets.
        ensures call { IsCall M.reply_of M.limit_of pass.old pass.new command result }
        // After `Worn`, the pass has seen nothing more.
        ensures worn_unchanged { IfErr result (λ f. IsWorn f → seen pass.new ≡ seen pass.old) }
        // `Busy` is never returned.
        ensures never_busy { IfErr result (λ f. ¬ (IsBusy f)) }
    {
        let board = &self.table.shared;
        match enter(rt, board, &mut pass.seat, pass.serving) {
            Some((ticket, journal)) => {
                let outcome = serve(board, &mut pass.seat, pass.number, ticket, journal, command);
                pass.serving = ticket + 1;
                outcome
            }
            None => Err(CallFault::Worn(command)),
        }
    }

    /// Serves the call at once, if no other one is in progress. Does not wait.
    ///
    /// # Errors
    ///
    /// `Busy` if another call is in progress, or `Worn` if all tickets are drawn: it has drawn none. `Full` or
    /// `NoMemory` from the journal: its ticket is served and leaves no entry.
    ///
    /// # Complexity
    ///
    /// Two atomic steps. If it enters, also the journal's step, two more atomic steps and two copies of the journal's
    /// own bytes.
    pub fn try_submit(
        &self,
        pass: &mut Pass<M>,
        command: M::Command,
    ) -> Result<M::Reply, CallFault<M::Command>>
        // The pass belongs to this lock.
        requires own { IsPassOf self.now pass.old }
        // The call returns what every call with a command does: of the pass, the log, its own entries and the tickets.
        ensures call { IsCall M.reply_of M.limit_of pass.old pass.new command result }
        // `Busy` reports the ticket being served and, above it, the next ticket to draw, and this is what the pass has
        // then learned of the tickets.
        ensures busy_found { IfErr result (λ f. IsBusy f → IsFoundBusy pass.new f) }
        // `Busy` is returned only while tickets are left.
        ensures busy_below_the_end { IfErr result (λ f. IsBusy f → next_reached pass.new ≤ GREATEST_TICKET) }
        // After `Worn` or `Busy`, the pass has seen nothing more.
        ensures not_drawn_unchanged { IfErr result (λ f. IsWorn f ⊎ IsBusy f → seen pass.new ≡ seen pass.old) }
    {
        let board = &self.table.shared;
        let at = learn_serving(board, &mut pass.seat);
        if at > GREATEST_TICKET {
            // All tickets are served, so `next` is at its end too.
            learn_next(board, &mut pass.seat);
            return Err(CallFault::Worn(command));
        }
        match enter_served(board, &mut pass.seat, at) {
            Ok(journal) => {
                let outcome = serve(board, &mut pass.seat, pass.number, at, journal, command);
                pass.serving = at + 1;
                outcome
            }
            Err(found) if found > GREATEST_TICKET => Err(CallFault::Worn(command)),
            Err(found) => Err(CallFault::Busy { at, found, command }),
        }
    }
}
