//! The entry of a pass with a ticket that is served at once.
ghost use Rattle.std.specs.Prelude.{◌≡◌, ◌≢◌, ◌≤◌, ◌<◌, [], Some, IfSome, IfNone, IfOk, IfErr};
ghost use Rattle.ra_journal.specs.Log.{readings, BeginsWith};
ghost use Rattle.ra_ticket.specs.Steps.{IsSeated, IsSameSeat, Carries, HasLifted, KeepsOwn};
ghost use Rattle.ra_ticket.specs.Views.{stage_of, next_of, serving_of, seen_of};
ghost use Rattle.ra_ticket.specs.declared.board.Stage.TheVariants.{Idle, Holding};

use crate::backoff::Backoff;
use crate::board::{Board, LockSeat, NEXT, SERVING};
use crate::draw::{GREATEST_TICKET, learn_next};
use crate::plays::{DrawServed, LearnServing};
use crate::slot::lift_out;
use ra_journal::Journal;

// The number of tries for a ticket that is served at once, before a call draws one to wait with.
const TRIES_AT_ONCE: u32 = 64;

/// Loads `serving`, and returns a number that it has reached.
pub(crate) fn learn_serving<M: Journal>(board: &Board<M>, seat: &mut LockSeat<M>) -> u64
    requires table { IsSeated seat.old.table_id board.now.table_id }
    requires idle { stage_of seat.old.me.0 ≡ Some Idle }
    ensures seat { IsSameSeat seat.old seat.new }
    ensures slot { seat.new.me.1 ≡ seat.old.me.1 }
    ensures seen { seen_of seat.new.me.0 ≡ seen_of seat.old.me.0 }
    ensures idle { stage_of seat.new.me.0 ≡ Some Idle }
    ensures learned { serving_of seat.new.me.0 ≡ result }
{
    board.load::<LearnServing>(seat, SERVING)
}

// Tries, by a compare-exchange of `next`, to draw a ticket that `serving` had reached as far as the seat has seen.
// Returns the number found, which equals the ticket if it was drawn. The seat then holds the slot with the journal.
fn try_draw_served<M: Journal>(board: &Board<M>, seat: &mut LockSeat<M>, ticket: u64) -> u64
    requires table { IsSeated seat.old.table_id board.now.table_id }
    requires idle { (stage_of seat.old.me.0 ≡ Some Idle) × (seat.old.me.1 ≡ []) }
    requires served { ticket ≤ serving_of seat.old.me.0 }
    requires room { ticket ≤ GREATEST_TICKET }
    ensures seat { IsSameSeat seat.old seat.new }
    ensures seen { BeginsWith (seen_of seat.new.me.0) (seen_of seat.old.me.0) }
    ensures own { KeepsOwn seat.old.me.0 seat.new.me.0 }
    ensures drawn { result ≡ ticket → (stage_of seat.new.me.0 ≡ Some (Holding ticket))
        × Carries (readings M.setup M.log M.reply_of M.fault_of) seat.new ticket }
    ensures missed { result ≢ ticket → (stage_of seat.new.me.0 ≡ Some Idle) × (seat.new.me.1 ≡ [])
        × (seen_of seat.new.me.0 ≡ seen_of seat.old.me.0) × (serving_of seat.new.me.0 ≡ serving_of seat.old.me.0)
        × (next_of seat.new.me.0 ≡ result) × (ticket < result) }
{
    board.compare_exchange::<DrawServed<M>>(seat, NEXT, ticket, ticket + 1)
}

/// Enters, in one step, with a ticket that `serving` had reached as far as the seat has seen, if `next` equals it: no
/// other call is then in progress. Otherwise returns the value of `next`, which is greater, as the error.
pub(crate) fn enter_served<M: Journal>(
    board: &Board<M>,
    seat: &mut LockSeat<M>,
    ticket: u64,
) -> Result<M, u64>
    requires table { IsSeated seat.old.table_id board.now.table_id }
    requires idle { (stage_of seat.old.me.0 ≡ Some Idle) × (seat.old.me.1 ≡ []) }
    requires served { ticket ≤ serving_of seat.old.me.0 }
    requires room { ticket ≤ GREATEST_TICKET }
    ensures seat { IsSameSeat seat.old seat.new }
    ensures entered { IfOk result (HasLifted (readings M.setup M.log M.reply_of M.fault_of) seat.old seat.new ticket) }
    ensures missed { IfErr result (λ found. (stage_of seat.new.me.0 ≡ Some Idle) × (seat.new.me.1 ≡ [])
        × (seen_of seat.new.me.0 ≡ seen_of seat.old.me.0) × (serving_of seat.new.me.0 ≡ serving_of seat.old.me.0)
        × (next_of seat.new.me.0 ≡ found) × (ticket < found)) }
{
    let found = try_draw_served(board, seat, ticket);
    if found == ticket {
        Ok(lift_out(board, seat))
    } else {
        Err(found)
    }
}

// Tries repeatedly to enter with a ticket that is served at once, which needs `next` equal to `serving`. Returns the
// ticket and the journal. Between two tries it spins and later yields, without a ticket drawn. It stops when all
// tickets are drawn.
#[inline(never)]
fn enter_once_free<M: Journal>(board: &Board<M>, seat: &mut LockSeat<M>) -> Option<(u64, M)>
    requires table { IsSeated seat.old.table_id board.now.table_id }
    requires idle { (stage_of seat.old.me.0 ≡ Some Idle) × (seat.old.me.1 ≡ []) }
    ensures seat { IsSameSeat seat.old seat.new }
    ensures entered { IfSome result
        (λ r. HasLifted (readings M.setup M.log M.reply_of M.fault_of) seat.old seat.new r.0 r.1) }
    ensures room { IfSome result (λ r. r.0 ≤ GREATEST_TICKET) }
    ensures else_idle { IfNone result ((stage_of seat.new.me.0 ≡ Some Idle) × (seat.new.me.1 ≡ [])
        × (seen_of seat.new.me.0 ≡ seen_of seat.old.me.0)) }
{
    let mut backoff = Backoff::new();
    for _ in 1..TRIES_AT_ONCE {
        let next = learn_next(board, seat);
        if next > GREATEST_TICKET {
            return None;
        }
        let serving = learn_serving(board, seat);
        if next == serving
            && let Ok(journal) = enter_served(board, seat, serving)
        {
            return Some((serving, journal));
        }
        backoff.wait();
    }
    None
}

/// Enters with a ticket that is served at once, if one of up to 64 tries finds `next` equal to `serving`. Returns the
/// ticket and the journal. The first try is a compare-exchange from `known`, a number that `serving` had reached as far
/// as the seat has seen: it is still `serving`, unless another pass was served since.
pub(crate) fn enter_at_once<M: Journal>(
    board: &Board<M>,
    seat: &mut LockSeat<M>,
    known: u64,
) -> Option<(u64, M)>
    requires table { IsSeated seat.old.table_id board.now.table_id }
    requires idle { (stage_of seat.old.me.0 ≡ Some Idle) × (seat.old.me.1 ≡ []) }
    requires known { known ≤ serving_of seat.old.me.0 }
    ensures seat { IsSameSeat seat.old seat.new }
    ensures entered { IfSome result
        (λ r. HasLifted (readings M.setup M.log M.reply_of M.fault_of) seat.old seat.new r.0 r.1) }
    ensures room { IfSome result (λ r. r.0 ≤ GREATEST_TICKET) }
    ensures else_idle { IfNone result ((stage_of seat.new.me.0 ≡ Some Idle) × (seat.new.me.1 ≡ [])
        × (seen_of seat.new.me.0 ≡ seen_of seat.old.me.0)) }
{
    if known > GREATEST_TICKET {
        // All tickets are served.
        return None;
    }
    match enter_served(board, seat, known) {
        Ok(journal) => Some((known, journal)),
        Err(_) => enter_once_free(board, seat),
    }
}
