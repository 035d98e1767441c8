//! A pass together with its lock, for programs that prove nothing about passes themselves.
ghost use Rattle.std.specs.Arc.{arc_value};
ghost use Rattle.ra_ticket.specs.Passes.{IsPassOf};

use crate::close::Unsettled;
use crate::fault::{CallFault, OpenFault};
use crate::glance::Glance;
use crate::lock::TicketLock;
use crate::pass::Pass;
use ra_journal::Journal;
use std::alloc::{AllocError, Global};
use std::sync::{Arc, Wait};

/// A pass with its lock, which it shares with the other callers. It may move to another thread, and be dropped between
/// calls. The last caller that is dropped drops the journal.
#[derive(Drop)]
pub struct Caller<M: Journal> {
    pub(crate) lock: Arc<TicketLock<M>, Global>,
    pub(crate) pass: Pass<M>,
    ghost own: { IsPassOf (arc_value lock) pass },
}

/// Why `close` does not return the journal.
#[derive(Drop)]
pub enum CloseFault<M: Journal> {
    /// Other callers of the lock exist. Carries this caller, with its lock and pass.
    Shared(Caller<M>),
    /// A ticket was drawn and not served. The journal is dropped.
    Unsettled(Unsettled),
}

impl<M: Journal> Caller<M> {
    ghost use Rattle.std.specs.Prelude.{◌≡◌, ◌<◌, ◌≤◌, ◌⊎◌, [], ◌∷◌, length, map, All};
    ghost use Rattle.std.specs.Prelude.{IfOk, IfErr, IfSome, IsOkUnless, Some};
    ghost use Rattle.std.specs.List.{range_with_len};
    ghost use Rattle.ra_journal.specs.Log.{BeginsWith, IsLegal, entries_of};
    ghost use Rattle.ra_ticket.specs.Calls.{IsCall};
    ghost use Rattle.ra_ticket.specs.Faults.{IsWorn, IsBusy};
    ghost use Rattle.ra_ticket.specs.Passes.{IsPassOf, IsSamePass, KnowsLegal, IsFoundBusy};
    ghost use Rattle.ra_ticket.specs.Passes.{number_of, next_reached, serving_reached, pass_setup, seen, mine};
    ghost use Rattle.ra_ticket.specs.Passes.{HasSetup, KnowsWhatEitherKnew};
    ghost use Rattle.ra_ticket.specs.declared.draw.TheConstants.{GREATEST_TICKET};
    ghost use Rattle.ra_ticket.specs.declared.open.TheConstants.{MOST_PASSES};
    ghost use Rattle.ra_ticket.specs.Callers.{pass_of, passes_of, AreOfOneLock, HandsBack, TellsUnsettled};

    /// Creates a lock over a journal with an empty log, and 1 to `MOST_PASSES` callers of it, numbered from 0 in the
    /// list's order. The first ticket is 0.
    ///
    /// # Errors
    ///
    /// `BadPasses`, with the journal, for any other number of callers; otherwise `NoMemory` if an allocation fails.
    ///
    /// # Complexity
    ///
    /// O(n) for n callers.
    pub fn open(alloc: Global, state: M, callers: u8) -> Result<Vec<Caller<M>>, OpenFault<M>>
        // The journal's log is empty.
        requires { M.log state ≡ [] }
        // After success there is the given number of callers, numbered from 0 in the list's order.
        ensures numbers { IfOk result (λ v. map number_of (passes_of v.items) ≡ range_with_len 0 callers) }
        // All callers belong to one lock.
        ensures one_lock { IfOk result (λ v. AreOfOneLock (passes_of v.items)) }
        // Each caller knows that the next ticket to draw is 0 or later.
        ensures next { IfOk result (λ v. All (λ p. next_reached p ≡ 0) (passes_of v.items)) }
        // Each caller knows that the ticket being served is 0 or later.
        ensures serving { IfOk result (λ v. All (λ p. serving_reached p ≡ 0) (passes_of v.items)) }
        // Each caller has the setup of the journal.
        ensures setup { IfOk result (λ v. All (λ p. pass_setup p ≡ Some (M.setup state)) (passes_of v.items)) }
        // No caller has seen an entry.
        ensures seen { IfOk result (λ v. All (λ p. seen p ≡ []) (passes_of v.items)) }
        // Outside 1 to 64 callers, the call returns `BadPasses` with the journal.
        ensures bad_passes { (callers ≡ 0) ⊎ (MOST_PASSES < callers) → result ≡ Err (OpenFault.BadPasses state) }
        // From 1 to 64 callers, the only error is `NoMemory`.
        ensures else_no_memory { 0 < callers → callers ≤ MOST_PASSES → IsOkUnless result OpenFault.NoMemory }
    {
        let (lock, passes) = TicketLock::open(alloc, state, callers, 0)?;
        let Ok(lock) = Arc::new(alloc, lock) else {
            return Err(OpenFault::NoMemory);
        };
        Ok(Caller::share(alloc, &lock, passes)?)
    }

    // Combines each pass with the lock.
    fn share(
        alloc: Global,
        lock: &Arc<TicketLock<M>, Global>,
        passes: Vec<Pass<M>>,
    ) -> Result<Vec<Caller<M>>, AllocError>
        requires { All (IsPassOf (arc_value lock.now)) passes.items }
        ensures { IfOk result (λ v. passes_of v.items ≡ passes.items) }
    {
        let mut callers = Vec::with_capacity(alloc, passes.len())?;
        for pass in passes {
            let lock = Arc::try_clone(lock)?;
            callers.push(Caller { lock, pass })?;
        }
        Ok(callers)
    }

    /// Returns the index of its pass in the list that `open` returned, from 0. Every pass has a setup.
    pub fn number(&self) -> u8
        // The result is the caller's number.
        ensures number { result ≡ number_of (pass_of self.now) }
        // The caller has a setup.
        ensures setup { HasSetup (pass_of self.now) }
    {
        self.pass.number()
    }

    /// Submits the command as `TicketLock::submit` does, with the caller's pass, at the same cost.
    ///
    /// # Errors
    ///
    /// Those of `TicketLock::submit`.
    pub fn submit<R: Wait>(
        &mut self,
        rt: &R,
        command: M::Command,
    ) -> Result<M::Reply, CallFault<M::Command>>
        // The call returns what every call with a command does: of the pass, the log, its own entries and the tickets.
        ensures call { IsCall M.reply_of M.limit_of (pass_of self.old) (pass_of self.new) command result }
        // After `Worn`, the caller has seen nothing more.
        ensures worn_unchanged { IfErr result (λ f. IsWorn f → seen (pass_of self.new) ≡ seen (pass_of self.old)) }
        // `Busy` is never returned.
        ensures never_busy { IfErr result (λ f. ¬ (IsBusy f)) }
    {
        self.lock.submit(rt, &mut self.pass, command)
    }

    /// Submits the command as `TicketLock::try_submit` does, with the caller's pass, at the same cost. Does not wait.
    ///
    /// # Errors
    ///
    /// Those of `TicketLock::try_submit`.
    pub fn try_submit(&mut self, command: M::Command) -> Result<M::Reply, CallFault<M::Command>>
        // The call returns what every call with a command does: of the pass, the log, its own entries and the tickets.
        ensures call { IsCall M.reply_of M.limit_of (pass_of self.old) (pass_of self.new) command result }
        // `Busy` reports the ticket being served and, above it, the next ticket to draw, and this is what the caller
        // has then learned of the tickets.
        ensures busy_found { IfErr result (λ f. IsBusy f → IsFoundBusy (pass_of self.new) f) }
        // `Busy` is returned only while tickets are left.
        ensures busy_below_the_end { IfErr result (λ f. IsBusy f
            → next_reached (pass_of self.new) ≤ GREATEST_TICKET) }
        // After `Worn` or `Busy`, the caller has seen nothing more.
        ensures not_drawn_unchanged { IfErr result (λ f. IsWorn f ⊎ IsBusy f
            → seen (pass_of self.new) ≡ seen (pass_of self.old)) }
    {
        self.lock.try_submit(&mut self.pass, command)
    }

    /// Returns what `TicketLock::glance` does, with the caller's pass, at the same cost. Does not wait and cannot fail.
    pub fn glance(&mut self) -> Glance
        // The caller keeps its number, lock and setup, and knows no less of the tickets and of the log than before.
        ensures pass { IsSamePass (pass_of self.old) (pass_of self.new) }
        // The log that the caller has then seen is legal.
        ensures legal { KnowsLegal M.reply_of (pass_of self.new) }
        // The caller's own entries in it are those before.
        ensures mine { mine (pass_of self.new) ≡ mine (pass_of self.old) }
        // What the caller knows of the tickets is unchanged.
        ensures draws_none { (next_reached (pass_of self.new) ≡ next_reached (pass_of self.old))
            × (serving_reached (pass_of self.new) ≡ serving_reached (pass_of self.old)) }
        // The number of calls is the length of the log that the caller has then seen.
        ensures calls { result.calls ≡ length (seen (pass_of self.new)) }
        // The fault is that of this log.
        ensures fault { IfSome (pass_setup (pass_of self.new))
            (λ s. result.fault ≡ M.fault_of s (seen (pass_of self.new))) }
    {
        self.lock.glance(&mut self.pass)
    }

    /// Shares what two callers of one lock know, as `TicketLock::meet` does with their passes, at the same cost. Does
    /// not wait and cannot fail.
    pub fn meet(self, other: Caller<M>) -> (Caller<M>, Caller<M>, u32)
        // Both callers belong to one lock.
        requires one_lock { AreOfOneLock (pass_of self ∷ pass_of other ∷ []) }
        // The first caller keeps its number, lock and setup, and has seen no less than before.
        ensures first { IsSamePass (pass_of self) (pass_of result.0) }
        // The second caller keeps its number, lock and setup, and has seen no less than before.
        ensures second { IsSamePass (pass_of other) (pass_of result.1) }
        // The own entries of the first caller are those before.
        ensures mine_first { mine (pass_of result.0) ≡ mine (pass_of self) }
        // The own entries of the second caller are those before.
        ensures mine_second { mine (pass_of result.1) ≡ mine (pass_of other) }
        // Both have then seen one log.
        ensures one_log { seen (pass_of result.1) ≡ seen (pass_of result.0) }
        // That log is legal.
        ensures legal { KnowsLegal M.reply_of (pass_of result.0) × KnowsLegal M.reply_of (pass_of result.1) }
        // Of the tickets, each caller then knows exactly what either knew.
        ensures draws_none { KnowsWhatEitherKnew (pass_of self) (pass_of other) (pass_of result.0)
            × KnowsWhatEitherKnew (pass_of self) (pass_of other) (pass_of result.1) }
        // The returned number is the length of that log.
        ensures calls { result.2 ≡ length (seen (pass_of result.0)) }
    {
        let Caller { lock, pass } = self;
        let Caller {
            lock: other_lock,
            pass: other_pass,
        } = other;
        let (pass, other_pass, calls) = lock.meet(pass, other_pass);
        let first = Caller { lock, pass };
        let second = Caller {
            lock: other_lock,
            pass: other_pass,
        };
        (first, second, calls)
    }

    /// Returns the journal, as `TicketLock::close` does with the caller's pass. Does not wait and does not allocate.
    ///
    /// # Errors
    ///
    /// `Shared`, with this caller, if other callers of the lock exist; `Unsettled` if a drawn ticket was not served.
    pub fn close(self) -> Result<M, CloseFault<M>>
        // The returned journal has the setup of the caller.
        ensures setup { IfOk result (λ m. pass_setup (pass_of self) ≡ Some (M.setup m)) }
        // The log of the returned journal is legal.
        ensures legal { IfOk result (λ m. IsLegal (M.reply_of (M.setup m)) (M.log m)) }
        // It begins with the log that the caller had seen.
        ensures begins { IfOk result (λ m. BeginsWith (M.log m) (seen (pass_of self))) }
        // It has exactly the caller's own entries under its number.
        ensures mine { IfOk result (λ m. entries_of (number_of (pass_of self)) (M.log m) ≡ mine (pass_of self)) }
        // `Shared` returns this caller, with its pass and its lock.
        ensures handed_back { IfErr result (λ f. HandsBack f self) }
        // `Unsettled` reports two numbers, the first less than the second, and neither less than what the caller knew
        // of the tickets.
        ensures unsettled { IfErr result (λ f. TellsUnsettled f (pass_of self)) }
    {
        let Caller { lock, pass } = self;
        match Arc::try_unwrap(lock) {
            Ok(lock) => match lock.close(pass) {
                Ok(state) => Ok(state),
                Err(unsettled) => Err(CloseFault::Unsettled(unsettled)),
            },
            Err(lock) => Err(CloseFault::Shared(Caller { lock, pass })),
        }
    }
}
