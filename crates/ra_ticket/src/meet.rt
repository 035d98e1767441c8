//! The meeting of two passes, which share what they know.
ghost use Rattle.std.specs.Prelude.{◌≡◌, ℕ, max, [], ◌∷◌, Some};
ghost use Rattle.ra_journal.specs.Log.{readings};
ghost use Rattle.ra_ticket.specs.Steps.{IsSeated, SeesMarked, SeesFor, GoesOn};
ghost use Rattle.ra_ticket.specs.Views.{stage_of, numbers_of, next_of, serving_of, seen_of, IsMet, met};
ghost use Rattle.ra_ticket.specs.declared.board.Stage.TheVariants.{Idle};

use crate::board::{Board, LockSeat, MARK};
use crate::lock::TicketLock;
use crate::mark::read;
use crate::open::split_first;
use crate::pass::Pass;
use crate::plays::{LookTogether, Meet};
use ra_journal::Journal;

// Joins the second of two seats, of one pass each, to the first.
fn join<M: Journal>(board: &Board<M>, seat: &mut LockSeat<M>, other: LockSeat<M>)
    requires tables { IsSeated seat.old.table_id board.now.table_id × IsSeated other.table_id board.now.table_id }
    requires idle { (stage_of seat.old.me.0 ≡ Some Idle) × (stage_of other.me.0 ≡ Some Idle) }
    requires slots { other.me.1 ≡ [] }
    ensures table { seat.new.table_id ≡ seat.old.table_id }
    ensures met { seat.new.me.0 ≡ met seat.old.me.0 other.me.0 }
    ensures slot { seat.new.me.1 ≡ seat.old.me.1 }
{
    board.join_seat::<Meet>(seat, other);
}

// Loads `mark` with a seat to which another was joined. The seat has then seen the log that the word describes.
fn look_together<M: Journal>(board: &Board<M>, seat: &mut LockSeat<M>) -> u64
    requires table { IsSeated seat.old.table_id board.now.table_id }
    requires both { IsMet seat.old.me.0 }
    ensures table { seat.new.table_id ≡ seat.old.table_id }
    ensures slot { seat.new.me.1 ≡ seat.old.me.1 }
    ensures idle { stage_of seat.new.me.0 ≡ Some Idle }
    ensures numbers { numbers_of seat.new.me.0 ≡ numbers_of seat.old.me.0 }
    ensures sees { SeesFor seat.old.me.0 seat.new.me.0 }
    ensures marked { SeesMarked (readings M.setup M.log M.reply_of M.fault_of) seat.new.me.0 result }
    ensures bounds { (next_of seat.new.me.0 ≡ next_of seat.old.me.0)
        × (serving_of seat.new.me.0 ≡ serving_of seat.old.me.0) }
{
    board.load::<LookTogether<M>>(seat, MARK)
}

// Joins the seats of two passes, loads `mark` and splits the seat again. Returns the first pass's seat and the mark.
fn look_and_part<M: Journal>(
    board: &Board<M>,
    seat: &mut LockSeat<M>,
    other: LockSeat<M>,
) -> (LockSeat<M>, u64)
    requires tables { IsSeated seat.old.table_id board.now.table_id × IsSeated other.table_id board.now.table_id }
    requires idle { (stage_of seat.old.me.0 ≡ Some Idle) × (stage_of other.me.0 ≡ Some Idle) }
    requires slots { (seat.old.me.1 ≡ []) × (other.me.1 ≡ []) }
    ensures tables { (result.0.table_id ≡ seat.old.table_id) × (seat.new.table_id ≡ seat.old.table_id) }
    ensures slots { (result.0.me.1 ≡ []) × (seat.new.me.1 ≡ []) }
    ensures parted { (n m : ℕ) → numbers_of seat.old.me.0 ≡ n ∷ [] → numbers_of other.me.0 ≡ m ∷ []
        → GoesOn seat.old.me.0 result.0.me.0 n × GoesOn other.me.0 seat.new.me.0 m }
    ensures one_log { seen_of seat.new.me.0 ≡ seen_of result.0.me.0 }
    ensures bounds { (next_of result.0.me.0 ≡ max (next_of seat.old.me.0) (next_of other.me.0))
        × (serving_of result.0.me.0 ≡ max (serving_of seat.old.me.0) (serving_of other.me.0)) }
    ensures rest_bounds { (next_of seat.new.me.0 ≡ max (next_of seat.old.me.0) (next_of other.me.0))
        × (serving_of seat.new.me.0 ≡ max (serving_of seat.old.me.0) (serving_of other.me.0)) }
    ensures marked { SeesMarked (readings M.setup M.log M.reply_of M.fault_of) result.0.me.0 result.1
        × SeesMarked (readings M.setup M.log M.reply_of M.fault_of) seat.new.me.0 result.1 }
{
    join(board, seat, other);
    let mark = look_together(board, seat);
    let first = split_first(board, seat);
    (first, mark)
}

impl<M: Journal> TicketLock<M> {
    ghost use Rattle.std.specs.Prelude.{◌≡◌, length};
    ghost use Rattle.ra_ticket.specs.Passes.{IsPassOf, IsSamePass, KnowsWhatEitherKnew, KnowsLegal, seen, mine};

    /// Shares what two passes know, and returns both, in the given order. They have then seen one log, at a point
    /// during this call. It begins with all that either had seen, and contains all calls of both. The returned number
    /// is its length. Does not wait, does not allocate and cannot fail.
    ///
    /// # Complexity
    ///
    /// O(1): three atomic loads.
    pub fn meet(&self, first: Pass<M>, second: Pass<M>) -> (Pass<M>, Pass<M>, u32)
        // Both passes belong to this lock.
        requires own { IsPassOf self.now first × IsPassOf self.now second }
        // The first pass keeps its number, lock and setup, and has seen no less than before.
        ensures first { IsSamePass first result.0 }
        // The second pass keeps its number, lock and setup, and has seen no less than before.
        ensures second { IsSamePass second result.1 }
        // The own entries of the first pass are those before.
        ensures mine_first { mine result.0 ≡ mine first }
        // The own entries of the second pass are those before.
        ensures mine_second { mine result.1 ≡ mine second }
        // Both have then seen one log.
        ensures one_log { seen result.1 ≡ seen result.0 }
        // That log is legal.
        ensures legal { KnowsLegal M.reply_of result.0 × KnowsLegal M.reply_of result.1 }
        // Of the tickets, each pass then knows exactly what either knew.
        ensures draws_none { KnowsWhatEitherKnew first second result.0 × KnowsWhatEitherKnew first second result.1 }
        // The returned number is the length of that log.
        ensures calls { result.2 ≡ length (seen result.0) }
    {
        let board = &self.table.shared;
        let Pass {
            number,
            serving,
            mut seat,
        } = first;
        let Pass {
            number: other_number,
            serving: other_serving,
            seat: other,
        } = second;
        let (own, mark) = look_and_part(board, &mut seat, other);
        let (calls, _) = read(mark);
        let first = Pass {
            number,
            serving,
            seat: own,
        };
        let second = Pass {
            number: other_number,
            serving: other_serving,
            seat,
        };
        (first, second, calls)
    }
}
