//! The publication of an entry and the release of the journal.
ghost use Rattle.std.specs.Prelude.{◌≡◌, ℕ, ◌+◌, ◌≤◌, [], ◌∷◌, Some};
ghost use Rattle.ra_journal.specs.Log.{readings, IsLegal};
ghost use Rattle.ra_ticket.specs.Steps.{IsSeated, IsSameSeat, HoldsPublished, HoldsAhead, MayPublish};
ghost use Rattle.ra_ticket.specs.Views.{stage_of, serving_of, seen_of};
ghost use Rattle.ra_ticket.specs.declared.board.Stage.TheVariants.{Idle, Holding};

use crate::board::{Board, LockSeat, MARK, SERVING};
use crate::mark::pack;
use crate::plays::{Publish, Release};
use crate::slot::put_back;
use ra_journal::Journal;

// Stores `mark`: the log of the journal in the slot becomes the front.
fn store_mark<M: Journal>(board: &Board<M>, seat: &mut LockSeat<M>, mark: u64)
    requires table { IsSeated seat.old.table_id board.now.table_id }
    requires ahead { MayPublish (readings M.setup M.log M.reply_of M.fault_of) seat.old mark }
    ensures seat { IsSameSeat seat.old seat.new }
    ensures stage { stage_of seat.new.me.0 ≡ stage_of seat.old.me.0 }
    ensures holds { HoldsPublished (readings M.setup M.log M.reply_of M.fault_of) seat.new }
    ensures published { (journal : M) → seat.old.me.1 ≡ (0, Some journal) ∷ []
        → (seen_of seat.new.me.0 ≡ M.log journal) × IsLegal (M.reply_of (M.setup journal)) (M.log journal) }
{
    board.store::<Publish<M>>(seat, MARK, mark);
}

/// Puts the journal, which has answered, back into the slot and stores its mark.
pub(crate) fn publish<M: Journal>(board: &Board<M>, seat: &mut LockSeat<M>, journal: M)
    requires table { IsSeated seat.old.table_id board.now.table_id }
    requires ahead { HoldsAhead (readings M.setup M.log M.reply_of M.fault_of) seat.old journal }
    ensures seat { IsSameSeat seat.old seat.new }
    ensures stage { stage_of seat.new.me.0 ≡ stage_of seat.old.me.0 }
    ensures holds { HoldsPublished (readings M.setup M.log M.reply_of M.fault_of) seat.new }
    ensures seen { seen_of seat.new.me.0 ≡ M.log journal }
    ensures legal { IsLegal (M.reply_of (M.setup journal)) (M.log journal) }
{
    let mark = pack(journal.calls(), journal.fault());
    put_back(board, seat, journal);
    store_mark(board, seat, mark);
}

/// Adds one to `serving`: the seat releases the slot, and the next ticket is served.
pub(crate) fn release<M: Journal>(board: &Board<M>, seat: &mut LockSeat<M>)
    requires table { IsSeated seat.old.table_id board.now.table_id }
    requires holds { HoldsPublished (readings M.setup M.log M.reply_of M.fault_of) seat.old }
    ensures seat { IsSameSeat seat.old seat.new }
    ensures idle { (stage_of seat.new.me.0 ≡ Some Idle) × (seat.new.me.1 ≡ []) }
    ensures seen { seen_of seat.new.me.0 ≡ seen_of seat.old.me.0 }
    ensures served { (ticket : ℕ) → stage_of seat.old.me.0 ≡ Some (Holding ticket)
        → (serving_of seat.new.me.0 ≡ ticket + 1) × (serving_of seat.old.me.0 ≤ ticket) }
{
    board.fetch_add::<Release>(seat, SERVING, 1);
}
