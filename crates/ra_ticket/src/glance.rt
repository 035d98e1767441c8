//! A look at the log without a call.
ghost use Rattle.std.specs.Prelude.{◌≡◌, Some};
ghost use Rattle.ra_journal.specs.Log.{readings, BeginsWith};
ghost use Rattle.ra_ticket.specs.Steps.{IsSeated, IsSameSeat, SeesMarked};
ghost use Rattle.ra_ticket.specs.Views.{stage_of, next_of, serving_of, seen_of, HasOwn};
ghost use Rattle.ra_ticket.specs.declared.board.Stage.TheVariants.{Idle};

use crate::board::{Board, LockSeat, MARK};
use crate::lock::TicketLock;
use crate::mark::read;
use crate::pass::Pass;
use crate::plays::LookAtMark;
use ra_journal::Journal;

/// The length and the fault of a lock's log, at one point.
#[derive(Debug, PartialEq, Eq, Clone, Copy)]
pub struct Glance {
    /// The number of its entries.
    pub calls: u32,
    /// The number that the journal gives to its fault, if it has one.
    pub fault: Option<u32>,
}

/// Loads `mark`. The seat has then seen the log that the word describes.
pub(crate) fn look_at_mark<M: Journal>(board: &Board<M>, seat: &mut LockSeat<M>) -> u64
    requires table { IsSeated seat.old.table_id board.now.table_id }
    requires idle { stage_of seat.old.me.0 ≡ Some Idle }
    ensures seat { IsSameSeat seat.old seat.new }
    ensures slot { seat.new.me.1 ≡ seat.old.me.1 }
    ensures idle { stage_of seat.new.me.0 ≡ Some Idle }
    ensures begins { BeginsWith (seen_of seat.new.me.0) (seen_of seat.old.me.0) }
    ensures own { HasOwn seat.old.me.0 (seen_of seat.new.me.0) }
    ensures marked { SeesMarked (readings M.setup M.log M.reply_of M.fault_of) seat.new.me.0 result }
    ensures bounds { (next_of seat.new.me.0 ≡ next_of seat.old.me.0)
        × (serving_of seat.new.me.0 ≡ serving_of seat.old.me.0) }
{
    board.load::<LookAtMark<M>>(seat, MARK)
}

impl<M: Journal> TicketLock<M> {
    ghost use Rattle.std.specs.Prelude.{◌≡◌, length, IfSome};
    ghost use Rattle.ra_ticket.specs.Passes.{IsPassOf, IsSamePass, KnowsLegal, pass_setup, seen, mine};
    ghost use Rattle.ra_ticket.specs.Passes.{next_reached, serving_reached};

    /// Returns the number of the log's entries and its fault, at a point during this call. The pass has then seen that
    /// log: it begins with all that the pass had seen, and contains all of the pass's own calls. Does not wait, does
    /// not allocate and cannot fail.
    ///
    /// # Complexity
    ///
    /// O(1): one atomic load.
    pub fn glance(&self, pass: &mut Pass<M>) -> Glance
        // The pass belongs to this lock.
        requires own { IsPassOf self.now pass.old }
        // The pass keeps its number, lock and setup, and knows no less of the tickets and of the log than before.
        ensures pass { IsSamePass pass.old pass.new }
        // The log that the pass has then seen is legal.
        ensures legal { KnowsLegal M.reply_of pass.new }
        // The pass's own entries in it are those before.
        ensures mine { mine pass.new ≡ mine pass.old }
        // What the pass knows of the tickets is unchanged.
        ensures draws_none { (next_reached pass.new ≡ next_reached pass.old)
            × (serving_reached pass.new ≡ serving_reached pass.old) }
        // The number of calls is the length of the log that the pass has then seen.
        ensures calls { result.calls ≡ length (seen pass.new) }
        // The fault is that of this log.
        ensures fault { IfSome (pass_setup pass.new) (λ s. result.fault ≡ M.fault_of s (seen pass.new)) }
    {
        let mark = look_at_mark(&self.table.shared, &mut pass.seat);
        let (calls, fault) = read(mark);
        Glance { calls, fault }
    }
}
