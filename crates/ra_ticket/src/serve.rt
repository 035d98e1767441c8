//! The call of a pass that has the journal.
ghost use Rattle.std.specs.Prelude.{◌≡◌, ◌≢◌, ◌+◌, ◌≤◌, [], ◌∷◌, ◌++◌, length, Some, None, IfOk, IfErr, IfSome};
ghost use Rattle.ra_ticket.specs.Faults.{unserved, IsWorn, IsFull, IsNoMemory, IsBusy};
ghost use Rattle.ra_journal.specs.Log.{readings, entry, IsLegal};
ghost use Rattle.ra_ticket.specs.Steps.{IsSeated, IsSameSeat, HasEntered};
ghost use Rattle.ra_ticket.specs.Views.{stage_of, numbers_of, serving_of, setup_of, seen_of};
ghost use Rattle.ra_ticket.specs.declared.board.Stage.TheVariants.{Idle, Holding};

use crate::board::{Board, LockSeat};
use crate::fault::CallFault;
use crate::release::{publish, release};
use crate::slot::put_back;
use ra_journal::Journal;

/// Lets the journal answer the command, publishes the answer and releases the journal. The seat has taken the journal
/// out of its slot with this ticket. A fault of the journal publishes nothing.
pub(crate) fn serve<M: Journal>(
    board: &Board<M>,
    seat: &mut LockSeat<M>,
    number: u8,
    ticket: u64,
    mut journal: M,
    command: M::Command,
) -> Result<M::Reply, CallFault<M::Command>>
    requires table { IsSeated seat.old.table_id board.now.table_id }
    requires number { numbers_of seat.old.me.0 ≡ number ∷ [] }
    requires holds { (stage_of seat.old.me.0 ≡ Some (Holding ticket)) × (seat.old.me.1 ≡ (0, None) ∷ []) }
    requires entered { HasEntered (readings M.setup M.log M.reply_of M.fault_of) seat.old.me.0 ticket journal }
    ensures seat { IsSameSeat seat.old seat.new }
    ensures idle { (stage_of seat.new.me.0 ≡ Some Idle) × (seat.new.me.1 ≡ []) }
    ensures served { (serving_of seat.new.me.0 ≡ ticket + 1) × (serving_of seat.old.me.0 ≤ ticket) }
    ensures logged { IfOk result (λ r. seen_of seat.new.me.0
        ≡ seen_of seat.old.me.0 ++ entry number ticket command r ∷ []) }
    ensures legal { IfSome (setup_of seat.new.me.0) (λ s. IsLegal (M.reply_of s) (seen_of seat.new.me.0)) }
    ensures else_same { IfErr result (λ _. seen_of seat.new.me.0 ≡ seen_of seat.old.me.0) }
    ensures handed_back { IfErr result (λ f. unserved f ≡ command) }
    ensures full { IfErr result (λ f. IsFull f
        → IfSome (setup_of seat.new.me.0) (λ s. length (seen_of seat.new.me.0) ≡ M.limit_of s)) }
    ensures not_full { IfErr result (λ f. IsNoMemory f
        → IfSome (setup_of seat.new.me.0) (λ s. length (seen_of seat.new.me.0) ≢ M.limit_of s)) }
    ensures drawn { IfErr result (λ f. (¬ (IsWorn f)) × (¬ (IsBusy f))) }
{
    let outcome = match journal.step(number, ticket, command) {
        Ok(reply) => {
            publish(board, seat, journal);
            Ok(reply)
        }
        Err(fault) => {
            put_back(board, seat, journal);
            Err(CallFault::from(fault))
        }
    };
    release(board, seat);
    outcome
}
