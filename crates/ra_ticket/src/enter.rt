//! The entry of a pass, with a ticket that is served at once or by waiting for its turn.
ghost use Rattle.std.specs.Prelude.{◌≡◌, ◌+◌, ◌≤◌, [], Some, IfSome, IfNone, MatchBool};
ghost use Rattle.ra_journal.specs.Log.{readings, BeginsWith};
ghost use Rattle.ra_ticket.specs.Steps.{IsSeated, IsSameSeat, Carries, HasLifted, KeepsOwn};
ghost use Rattle.ra_ticket.specs.Views.{stage_of, next_of, serving_of, seen_of};
ghost use Rattle.ra_ticket.specs.declared.board.Stage.TheVariants.{Idle, Waiting, Holding};

use crate::at_once::enter_at_once;
use crate::backoff::Backoff;
use crate::board::{Board, LockSeat, SERVING};
use crate::draw::{GREATEST_TICKET, draw_ticket};
use crate::plays::Look;
use crate::slot::lift_out;
use ra_journal::Journal;
use std::sync::Wait;

// Loads `serving`, and returns `true` if the ticket is served. The seat then holds the slot with the journal.
fn look<M: Journal>(board: &Board<M>, seat: &mut LockSeat<M>, ticket: u64) -> bool
    requires table { IsSeated seat.old.table_id board.now.table_id }
    requires waits { (stage_of seat.old.me.0 ≡ Some (Waiting ticket)) × (seat.old.me.1 ≡ []) }
    ensures seat { IsSameSeat seat.old seat.new }
    ensures served { MatchBool result
        ((stage_of seat.new.me.0 ≡ Some (Holding ticket))
        × Carries (readings M.setup M.log M.reply_of M.fault_of) seat.new ticket)
        ((stage_of seat.new.me.0 ≡ Some (Waiting ticket)) × (seat.new.me.1 ≡ [])) }
    ensures seen { MatchBool result
        (BeginsWith (seen_of seat.new.me.0) (seen_of seat.old.me.0))
        (seen_of seat.new.me.0 ≡ seen_of seat.old.me.0) }
    ensures own { KeepsOwn seat.old.me.0 seat.new.me.0 }
{
    board.load::<Look<M>>(seat, SERVING) == ticket
}

// Waits until the ticket is served, and takes the journal out of its slot. Between two looks at `serving` it backs off:
// the waits grow until they yield the processor.
fn wait_for_turn<M: Journal, R: Wait>(
    rt: &R,
    board: &Board<M>,
    seat: &mut LockSeat<M>,
    ticket: u64,
) -> M
    requires table { IsSeated seat.old.table_id board.now.table_id }
    requires waits { (stage_of seat.old.me.0 ≡ Some (Waiting ticket)) × (seat.old.me.1 ≡ []) }
    ensures seat { IsSameSeat seat.old seat.new }
    ensures entered { HasLifted (readings M.setup M.log M.reply_of M.fault_of) seat.old seat.new ticket result }
{
    let mut backoff = Backoff::new();
    for _ in rt.forever() {
        if look(board, seat, ticket) {
            return lift_out(board, seat);
        }
        backoff.wait();
    }
    unreachable!()
}

/// Enters with a ticket that is served at once, or draws the next one and waits until it is served. Returns the ticket
/// and the journal, or `None` if all tickets are drawn. The first try is with `known`, a number that `serving` had
/// reached as far as the seat has seen.
pub(crate) fn enter<M: Journal, R: Wait>(
    rt: &R,
    board: &Board<M>,
    seat: &mut LockSeat<M>,
    known: u64,
) -> Option<(u64, M)>
    requires table { IsSeated seat.old.table_id board.now.table_id }
    requires idle { (stage_of seat.old.me.0 ≡ Some Idle) × (seat.old.me.1 ≡ []) }
    requires known { known ≤ serving_of seat.old.me.0 }
    ensures seat { IsSameSeat seat.old seat.new }
    ensures entered { IfSome result
        (λ r. HasLifted (readings M.setup M.log M.reply_of M.fault_of) seat.old seat.new r.0 r.1) }
    ensures room { IfSome result (λ r. r.0 ≤ GREATEST_TICKET) }
    ensures worn { IfNone result ((stage_of seat.new.me.0 ≡ Some Idle) × (seat.new.me.1 ≡ [])
        × (seen_of seat.new.me.0 ≡ seen_of seat.old.me.0) × (next_of seat.new.me.0 ≡ GREATEST_TICKET + 1)) }
{
    if let Some(entered) = enter_at_once(board, seat, known) {
        return Some(entered);
    }
    let ticket = draw_ticket(rt, board, seat)?;
    Some((ticket, wait_for_turn(rt, board, seat, ticket)))
}
