//! The slot of the journal while a seat holds it: the journal is taken out and put back.
ghost use Rattle.std.specs.Prelude.{◌≡◌, [], ◌∷◌, Some, None};
ghost use Rattle.ra_ticket.specs.Steps.{IsSeated};

use crate::board::{Board, JOURNAL, LockSeat};
use ra_journal::Journal;

/// Takes the journal out of the slot that the seat holds.
pub(crate) fn lift_out<M: Journal>(board: &Board<M>, seat: &mut LockSeat<M>) -> M
    requires table { IsSeated seat.old.table_id board.now.table_id }
    requires full { (journal : M) × (seat.old.me.1 ≡ (0, Some journal) ∷ []) }
    ensures journal { seat.old.me.1 ≡ (0, Some result) ∷ [] }
    ensures seat { (seat.new.table_id ≡ seat.old.table_id) × (seat.new.id ≡ seat.old.id) }
    ensures slot { seat.new.me ≡ (seat.old.me.0, (0, None) ∷ []) }
{
    board.exchange(seat, JOURNAL, None).unwrap()
}

/// Puts the journal back into the slot that the seat holds.
pub(crate) fn put_back<M: Journal>(board: &Board<M>, seat: &mut LockSeat<M>, journal: M)
    requires table { IsSeated seat.old.table_id board.now.table_id }
    requires empty { seat.old.me.1 ≡ (0, None) ∷ [] }
    ensures seat { (seat.new.table_id ≡ seat.old.table_id) × (seat.new.id ≡ seat.old.id) }
    ensures slot { seat.new.me ≡ (seat.old.me.0, (0, Some journal) ∷ []) }
{
    let _ = board.exchange(seat, JOURNAL, Some(journal));
}
