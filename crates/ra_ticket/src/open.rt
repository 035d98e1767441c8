//! The opening of a lock and the distribution of its passes.
ghost use Rattle.std.specs.Prelude.{◌≡◌, ◌-◌, ◌<◌, ◌≤◌, ◌⊎◌, [], map, All, IfOk, IsOkUnless, Some};
ghost use Rattle.std.specs.List.{range_with_len};
ghost use Rattle.ra_ticket.specs.Steps.{IsSeated, IsPart};
ghost use Rattle.ra_ticket.specs.Views.{stage_of, numbers_of, seen_of};
ghost use Rattle.ra_ticket.specs.Views.{first_only, others_only, starting};
ghost use Rattle.ra_ticket.specs.Passes.{number_of, next_reached, serving_reached, pass_setup, seen, IsPassOf};
ghost use Rattle.ra_ticket.specs.Dealing.{AreDealt};
ghost use Rattle.ra_ticket.specs.declared.board.Stage.TheVariants.{Idle};

use crate::board::{About, Board, LockSeat, LockTable};
use crate::fault::OpenFault;
use crate::lock::TicketLock;
use crate::mark::pack;
use crate::pass::Pass;
use crate::plays::CutFirst;
use atomic_table::Table;
use ra_journal::Journal;
use std::alloc::{AllocError, Global};
use std::snapshot::Snapshot;

/// The largest number of passes of a lock.
pub const MOST_PASSES: u8 = 64;

/// Splits a seat: the first pass gets a seat of its own.
pub(crate) fn split_first<M: Journal>(board: &Board<M>, rest: &mut LockSeat<M>) -> LockSeat<M>
    requires table { IsSeated rest.old.table_id board.now.table_id }
    requires idle { stage_of rest.old.me.0 ≡ Some Idle }
    ensures table { (rest.new.table_id ≡ rest.old.table_id) × (result.table_id ≡ rest.old.table_id) }
    ensures slots { (rest.new.me.1 ≡ rest.old.me.1) × (result.me.1 ≡ []) }
    ensures first { IsPart rest.old.me.0 result.me.0 (first_only (numbers_of rest.old.me.0)) }
    ensures rest { IsPart rest.old.me.0 rest.new.me.0 (others_only (numbers_of rest.old.me.0)) }
{
    board.split_seat::<CutFirst>(rest)
}

// Creates the table with the journal in its slot, and a seat with all passes.
fn set_table<M: Journal>(
    alloc: Global,
    state: M,
    passes: u8,
    first: u64,
) -> Result<(LockTable<M>, LockSeat<M>), AllocError>
    requires { M.log state ≡ [] }
    ensures table { IfOk result (λ t. (t.0.shared.table_id.words ≡ 3) × (t.0.shared.table_id.slots ≡ 1)) }
    ensures at_table { IfOk result (λ t. t.1.table_id ≡ t.0.shared.table_id) }
    ensures seat { IfOk result (λ t. t.1.me ≡ (starting passes first (M.setup state), [])) }
{
    let mark = pack(state.calls(), state.fault());
    let about = About {
        passes,
        first,
        opening: Snapshot::of(&state),
    };
    let mut slots = Vec::new(alloc);
    slots.push(Some(state))?;
    match Table::new(alloc, &[first, first, mark], slots, &about) {
        Ok(made) => Ok(made),
        Err(_) => Err(AllocError),
    }
}

// Distributes the seats to the passes, in order.
fn deal<M: Journal>(
    alloc: Global,
    board: &Board<M>,
    mut rest: LockSeat<M>,
    passes: u8,
) -> Result<Vec<Pass<M>>, AllocError>
    requires table { IsSeated rest.table_id board.now.table_id }
    requires idle { (stage_of rest.me.0 ≡ Some Idle) × (numbers_of rest.me.0 ≡ range_with_len 0 passes) }
    requires new { seen_of rest.me.0 ≡ [] }
    ensures { IfOk result (λ v. AreDealt board.now.table_id rest.me.0 passes v.items) }
{
    let mut dealt = Vec::with_capacity(alloc, usize::from(passes))?;
    for number in 0..passes {
        let seat = split_first(board, &mut rest);
        dealt.push(Pass {
            number,
            serving: 0,
            seat,
        })?;
    }
    Ok(dealt)
}

impl<M: Journal> TicketLock<M> {
    /// Creates a lock over a journal with an empty log, and 1 to `MOST_PASSES` passes of it, numbered from 0 in the
    /// list's order. The first ticket is `first`.
    ///
    /// # Errors
    ///
    /// `BadPasses`, with the journal, for any other number of passes; otherwise `NoMemory` if an allocation fails.
    ///
    /// # Complexity
    ///
    /// O(n) for n passes.
    pub fn open(
        alloc: Global,
        state: M,
        passes: u8,
        first: u64,
    ) -> Result<(TicketLock<M>, Vec<Pass<M>>), OpenFault<M>>
        // The journal's log is empty.
        requires { M.log state ≡ [] }
        // After success there is the given number of passes, numbered from 0 in the list's order.
        ensures numbers { IfOk result (λ l. map number_of l.1.items ≡ range_with_len 0 passes) }
        // All passes belong to the returned lock.
        ensures own { IfOk result (λ l. All (IsPassOf l.0) l.1.items) }
        // Each pass knows that the next ticket to draw is `first` or later.
        ensures next { IfOk result (λ l. All (λ p. next_reached p ≡ first) l.1.items) }
        // Each pass knows that the ticket being served is `first` or later.
        ensures serving { IfOk result (λ l. All (λ p. serving_reached p ≡ first) l.1.items) }
        // Each pass has the setup of the journal.
        ensures setup { IfOk result (λ l. All (λ p. pass_setup p ≡ Some (M.setup state)) l.1.items) }
        // No pass has seen an entry.
        ensures seen { IfOk result (λ l. All (λ p. seen p ≡ []) l.1.items) }
        // Outside 1 to 64 passes, the call returns `BadPasses` with the journal.
        ensures bad_passes { (passes ≡ 0) ⊎ (MOST_PASSES < passes) → result ≡ Err (OpenFault.BadPasses state) }
        // From 1 to 64 passes, the only error is `NoMemory`.
        ensures else_no_memory { 0 < passes → passes ≤ MOST_PASSES → IsOkUnless result OpenFault.NoMemory }
    {
        if passes == 0 || passes > MOST_PASSES {
            return Err(OpenFault::BadPasses(state));
        }
        let (table, rest) = set_table(alloc, state, passes, first)?;
        let dealt = deal(alloc, &table.shared, rest, passes)?;
        Ok((TicketLock { table }, dealt))
    }
}
