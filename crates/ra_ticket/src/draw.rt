//! The drawing of a ticket.
ghost use Rattle.std.specs.Prelude.{◌≡◌, ◌≢◌, ◌+◌, ◌≤◌, Some, IfSome, IfNone};
ghost use Rattle.ra_ticket.specs.Steps.{IsSeated, IsSameSeat};
ghost use Rattle.ra_ticket.specs.Views.{stage_of, next_of, serving_of, seen_of};
ghost use Rattle.ra_ticket.specs.declared.board.Stage.TheVariants.{Idle, Waiting};

use crate::board::{Board, LockSeat, NEXT};
use crate::plays::{Draw, Learn};
use ra_journal::Journal;
use std::sync::Wait;

/// The last ticket that can be drawn. After it `next` stays one greater.
pub const GREATEST_TICKET: u64 = 18_446_744_073_709_551_614;

/// Loads `next`, and returns a number that it has reached. It is at least what the seat knows of `serving`.
pub(crate) fn learn_next<M: Journal>(board: &Board<M>, seat: &mut LockSeat<M>) -> u64
    requires table { IsSeated seat.old.table_id board.now.table_id }
    requires idle { stage_of seat.old.me.0 ≡ Some Idle }
    ensures seat { IsSameSeat seat.old seat.new }
    ensures slot { seat.new.me.1 ≡ seat.old.me.1 }
    ensures seen { seen_of seat.new.me.0 ≡ seen_of seat.old.me.0 }
    ensures idle { stage_of seat.new.me.0 ≡ Some Idle }
    ensures learned { next_of seat.new.me.0 ≡ result }
    ensures served { serving_of seat.old.me.0 ≤ result }
{
    board.load::<Learn>(seat, NEXT)
}

/// Tries to draw the ticket by a compare-exchange of `next`. Returns the number found, which equals the ticket if it
/// was drawn.
pub(crate) fn try_draw<M: Journal>(board: &Board<M>, seat: &mut LockSeat<M>, ticket: u64) -> u64
    requires table { IsSeated seat.old.table_id board.now.table_id }
    requires idle { stage_of seat.old.me.0 ≡ Some Idle }
    requires room { ticket ≤ GREATEST_TICKET }
    ensures seat { IsSameSeat seat.old seat.new }
    ensures slot { seat.new.me.1 ≡ seat.old.me.1 }
    ensures seen { seen_of seat.new.me.0 ≡ seen_of seat.old.me.0 }
    ensures drawn { result ≡ ticket → stage_of seat.new.me.0 ≡ Some (Waiting ticket) }
    ensures missed { result ≢ ticket → (stage_of seat.new.me.0 ≡ Some Idle) × (next_of seat.new.me.0 ≡ result) }
{
    board.compare_exchange::<Draw>(seat, NEXT, ticket, ticket + 1)
}

/// Draws the next ticket, or returns `None` if all are drawn. Tries again if another pass drew the ticket first, which
/// costs one more atomic step for each such pass.
pub(crate) fn draw_ticket<M: Journal, R: Wait>(
    rt: &R,
    board: &Board<M>,
    seat: &mut LockSeat<M>,
) -> Option<u64>
    requires table { IsSeated seat.old.table_id board.now.table_id }
    requires idle { stage_of seat.old.me.0 ≡ Some Idle }
    ensures seat { IsSameSeat seat.old seat.new }
    ensures slot { seat.new.me.1 ≡ seat.old.me.1 }
    ensures seen { seen_of seat.new.me.0 ≡ seen_of seat.old.me.0 }
    ensures drawn { IfSome result (λ ticket. stage_of seat.new.me.0 ≡ Some (Waiting ticket)) }
    ensures room { IfSome result (λ ticket. ticket ≤ GREATEST_TICKET) }
    ensures worn { IfNone result
        ((stage_of seat.new.me.0 ≡ Some Idle) × (next_of seat.new.me.0 ≡ GREATEST_TICKET + 1)) }
{
    let mut ticket = learn_next(board, seat);
    for _ in rt.forever() {
        if ticket > GREATEST_TICKET {
            return None;
        }
        let found = try_draw(board, seat, ticket);
        if found == ticket {
            return Some(ticket);
        }
        ticket = found;
    }
    unreachable!()
}
