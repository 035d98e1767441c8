//! The right to make calls on a lock.
ghost use Rattle.std.specs.Prelude.{◌≡◌, ◌≤◌, [], ◌∷◌, Some};
ghost use Rattle.ra_ticket.specs.Views.{stage_of, numbers_of, serving_of};
ghost use Rattle.ra_ticket.specs.declared.board.Stage.TheVariants.{Idle};

use crate::board::LockSeat;
use ra_journal::Journal;

/// The right to make calls on one lock, one after another. It may move to another thread. Dropping it between calls
/// does not affect other passes.
#[derive(Drop)]
pub struct Pass<M: Journal> {
    pub(crate) number: u8,
    // A number that `serving` has reached, as far as the pass has seen: one above the ticket of its last call.
    pub(crate) serving: u64,
    pub(crate) seat: LockSeat<M>,
    ghost numbered: { numbers_of seat.me.0 ≡ number ∷ [] },
    ghost served: { serving ≤ serving_of seat.me.0 },
    ghost idle: { stage_of seat.me.0 ≡ Some Idle },
    ghost empty: { seat.me.1 ≡ [] },
}

impl<M: Journal> Pass<M> {
    ghost use Rattle.ra_ticket.specs.Passes.{number_of, HasSetup};

    /// Returns its index in the list that `open` returned, from 0. Every pass has a setup.
    pub fn number(&self) -> u8
        // The result is the pass's number.
        ensures number { result ≡ number_of self.now }
        // The pass has a setup.
        ensures setup { HasSetup self.now }
    {
        self.number
    }
}
