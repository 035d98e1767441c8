//! The reporter of a desk, whose contract speaks of the monitor.
ghost use Rattle.std.specs.Prelude.{◌≡◌, ◌<◌, ◌≤◌, ◌⊎◌, [], length, map, All, IfOk, IfErr, IsOkUnless, Some};
ghost use Rattle.std.specs.List.{range_with_len};
ghost use Rattle.ra_journal.specs.Log.{BeginsWith, entries_of};
ghost use Rattle.ra_monitor.specs.Monitor.{fault_label_in, IsLegalLog};
ghost use Rattle.ra_ticket.specs.Callers.{pass_of, AreOfOneLock};
ghost use Rattle.ra_ticket.specs.Faults.{IsWorn, IsBusy};
ghost use Rattle.ra_ticket.specs.Passes.{pass_setup, seen};
ghost use Rattle.ra_ticket.specs.declared.draw.TheConstants.{GREATEST_TICKET};
ghost use Rattle.ra_ticket.specs.declared.open.TheConstants.{MOST_PASSES};

use ra_labels::{Command, Reply};
use ra_monitor::theorems::replies_under_lock;
use ra_monitor::{Monitor, Setup};
use ra_ticket::{CallFault, Caller, CloseFault, Glance, Journal, OpenFault, Unsettled};
use std::alloc::{AllocError, Global};
use std::sync::Wait;

/// A reporter of a desk, for a thread of its own. It may be dropped between reports. The last reporter that is dropped
/// drops the monitor.
#[derive(Drop)]
pub struct DeskReporter {
    pub(crate) caller: Caller<Monitor>,
    // The setup of the monitor, which no report changes.
    pub(crate) setup: Setup,
    ghost same: { pass_setup (pass_of caller) ≡ Some setup },
}

/// Why `close` does not return the monitor.
#[derive(Drop)]
pub enum DeskCloseFault {
    /// Other reporters of the desk exist. Carries this reporter.
    Shared(DeskReporter),
    /// A report was begun and not finished. The monitor is dropped. No public call leaves a report unfinished.
    Unsettled(Unsettled),
}

impl DeskReporter {
    ghost use Rattle.ra_desk.specs.Calls.{IsReport};
    ghost use Rattle.ra_desk.specs.Reports.{number_of, setup_of, log_of, drawn_of, served_of, reports_of, passes_of, before_last};
    ghost use Rattle.ra_desk.specs.Reports.{IsSameReporter, EndsWith, IsReportedOnce, IsFoundBusy, AreOfOneDesk, KnowsWhatEitherKnew, HandsBack, TellsUnsettled};

    /// Opens a desk over a monitor with an empty log, with 1 to 64 reporters, numbered from 0 in the list's order.
    ///
    /// # Errors
    ///
    /// `BadPasses`, with the monitor, for any other number of reporters; otherwise `NoMemory` if an allocation fails,
    /// and the monitor is dropped.
    ///
    /// # Complexity
    ///
    /// O(n) for n reporters.
    pub fn open(
        alloc: Global,
        monitor: Monitor,
        reporters: u8,
    ) -> Result<Vec<DeskReporter>, OpenFault<Monitor>>
        // The monitor's log is empty.
        requires { monitor.log ≡ [] }
        // After success there is the given number of reporters, numbered from 0 in the list's order.
        ensures numbers { IfOk result (λ all. map number_of all.items ≡ range_with_len 0 reporters) }
        // All reporters belong to one desk.
        ensures one_desk { IfOk result (λ all. AreOfOneLock (passes_of all.items)) }
        // Each reporter has the setup of the monitor.
        ensures setup { IfOk result (λ all. All (λ r. setup_of r ≡ monitor.setup) all.items) }
        // No reporter has seen an entry of the log.
        ensures log { IfOk result (λ all. All (λ r. log_of r ≡ []) all.items) }
        // Each reporter knows of no drawn ticket.
        ensures drawn { IfOk result (λ all. All (λ r. drawn_of r ≡ 0) all.items) }
        // Each reporter knows of no served ticket.
        ensures served { IfOk result (λ all. All (λ r. served_of r ≡ 0) all.items) }
        // Outside 1 to 64 reporters, the call returns `BadPasses` with the monitor.
        ensures bad_passes { (reporters ≡ 0) ⊎ (MOST_PASSES < reporters)
            → result ≡ Err (OpenFault.BadPasses monitor) }
        // From 1 to 64 reporters, the only error is `NoMemory`.
        ensures else_no_memory { 0 < reporters → reporters ≤ MOST_PASSES → IsOkUnless result OpenFault.NoMemory }
    {
        let setup = Setup {
            kind: monitor.report().kind,
            replicas: monitor.replicas(),
            limit: monitor.limit(),
        };
        let callers = Caller::open(alloc, monitor, reporters)?;
        Ok(DeskReporter::set_up(alloc, callers, setup)?)
    }

    // Combines each caller with the setup of its monitor.
    fn set_up(
        alloc: Global,
        callers: Vec<Caller<Monitor>>,
        setup: Setup,
    ) -> Result<Vec<DeskReporter>, AllocError>
        requires same { All (λ c. pass_setup (pass_of c) ≡ Some setup) callers.items }
        requires seen { All (λ c. seen (pass_of c) ≡ []) callers.items }
        ensures callers { IfOk result (λ all. map (λ r. r.caller) all.items ≡ callers.items) }
        ensures setup { IfOk result (λ all. All (λ r. setup_of r ≡ setup) all.items) }
    {
        let mut all = Vec::with_capacity(alloc, callers.len())?;
        for caller in callers {
            all.push(DeskReporter { caller, setup })?;
        }
        Ok(all)
    }

    /// Returns its index in the list that `open` returned, from 0.
    pub fn number(&self) -> u8
        // The result is the reporter's number.
        ensures { result ≡ number_of self.now }
    {
        self.caller.number()
    }

    /// Reports a command to the monitor, in its turn, and returns the reply. It waits while other reports are answered.
    ///
    /// # Errors
    ///
    /// `Full` if the log has reached its limit; `NoMemory` if an allocation fails; `Worn` after 2^64 - 1 tickets. Each
    /// hands the command back and logs nothing.
    ///
    /// # Complexity
    ///
    /// That of `Monitor::step` and of `TicketLock::submit`.
    pub fn tell<R: Wait>(&mut self, rt: &R, command: Command) -> Result<Reply, CallFault<Command>>
        // The call returns what every report does: of the reporter, the log that it has seen, and the reply.
        ensures report { IsReport self.old self.new command result }
        // `Busy` is never returned.
        ensures never_busy { IfErr result (λ fault. ¬ (IsBusy fault)) }
        // After `Worn`, the reporter has seen nothing more.
        ensures worn_unchanged { IfErr result (λ fault. IsWorn fault → log_of self.new ≡ log_of self.old) }
    {
        replies_under_lock();
        self.caller.submit(rt, command)
    }

    /// Reports a command to the monitor if nothing else is being answered. Does not wait.
    ///
    /// # Errors
    ///
    /// `Busy` if another report is being answered, which hands the command back; otherwise those of `tell`.
    ///
    /// # Complexity
    ///
    /// That of `tell`, without the wait.
    pub fn try_tell(&mut self, command: Command) -> Result<Reply, CallFault<Command>>
        // The call returns what every report does: of the reporter, the log that it has seen, and the reply.
        ensures report { IsReport self.old self.new command result }
        // `Busy` reports the ticket being served and, above it, the next ticket to draw, and this is what the reporter
        // has then learned of the tickets.
        ensures busy_found { IfErr result (λ fault. IsBusy fault → IsFoundBusy self.new fault) }
        // `Busy` is returned only while tickets are left.
        ensures busy_below_the_end { IfErr result (λ fault. IsBusy fault → drawn_of self.new ≤ GREATEST_TICKET) }
        // After `Worn` or `Busy`, the reporter has seen nothing more.
        ensures not_drawn_unchanged { IfErr result (λ fault. IsWorn fault ⊎ IsBusy fault
            → log_of self.new ≡ log_of self.old) }
    {
        replies_under_lock();
        self.caller.try_submit(command)
    }

    /// Returns the number of reports logged so far, and the label of the first violation, if there is one. Does not
    /// wait, does not allocate and cannot fail.
    pub fn glance(&mut self) -> Glance
        // It is the same reporter of the same desk with the same setup, and it knows no less of the log and of the
        // tickets than before.
        ensures same { IsSameReporter self.old self.new }
        // The log that the reporter has then seen is legal.
        ensures legal { IsLegalLog (setup_of self.new) (log_of self.new) }
        // The reporter's own reports in it are those before.
        ensures mine { reports_of self.new ≡ reports_of self.old }
        // What the reporter knows of the tickets is unchanged.
        ensures draws_none { (drawn_of self.new ≡ drawn_of self.old) × (served_of self.new ≡ served_of self.old) }
        // The number of calls is the length of the log that the reporter has then seen.
        ensures calls { result.calls ≡ length (log_of self.new) }
        // The fault is the label of the first violation of that log, or `None` if it has none.
        ensures fault { result.fault ≡ fault_label_in (setup_of self.new) (log_of self.new) }
    {
        self.caller.glance()
    }

    /// Shares what two reporters of one desk know, and returns both, in the given order. They have then seen one log,
    /// which contains all reports of both. The returned number is its length. Does not wait, does not allocate and
    /// cannot fail.
    pub fn meet(self, other: DeskReporter) -> (DeskReporter, DeskReporter, u32)
        // Both reporters belong to one desk.
        requires one_desk { AreOfOneDesk self other }
        // The first reporter is the same one, with the same setup, and it knows no less of the log and of the tickets
        // than before.
        ensures first { IsSameReporter self result.0 }
        // The second reporter is the same one, with the same setup, and it knows no less of the log and of the tickets
        // than before.
        ensures second { IsSameReporter other result.1 }
        // The first reporter's own reports are those before.
        ensures mine_first { reports_of result.0 ≡ reports_of self }
        // The second reporter's own reports are those before.
        ensures mine_second { reports_of result.1 ≡ reports_of other }
        // Both have then seen one log.
        ensures one_log { log_of result.1 ≡ log_of result.0 }
        // That log is legal.
        ensures legal { IsLegalLog (setup_of result.0) (log_of result.0)
            × IsLegalLog (setup_of result.1) (log_of result.1) }
        // Of the tickets, each reporter then knows exactly what either knew.
        ensures draws_none { KnowsWhatEitherKnew self other result.0 × KnowsWhatEitherKnew self other result.1 }
        // The returned number is the length of that log.
        ensures calls { result.2 ≡ length (log_of result.0) }
    {
        let DeskReporter { caller, setup } = self;
        let DeskReporter {
            caller: other_caller,
            setup: other_setup,
        } = other;
        let (caller, other_caller, calls) = caller.meet(other_caller);
        let first = DeskReporter { caller, setup };
        let second = DeskReporter {
            caller: other_caller,
            setup: other_setup,
        };
        (first, second, calls)
    }

    /// Closes the desk and returns the monitor. Does not wait and does not allocate.
    ///
    /// # Errors
    ///
    /// `Shared`, with this reporter, if other reporters exist; `Unsettled` if a report was begun and not finished.
    pub fn close(self) -> Result<Monitor, DeskCloseFault>
        // The returned monitor has the reporter's setup.
        ensures setup { IfOk result (λ monitor. monitor.setup ≡ setup_of self) }
        // The log of the returned monitor is legal.
        ensures legal { IfOk result (λ monitor. IsLegalLog monitor.setup monitor.log) }
        // It begins with the log that the reporter had seen.
        ensures begins { IfOk result (λ monitor. BeginsWith monitor.log (log_of self)) }
        // It has exactly the reporter's own reports under its number.
        ensures mine { IfOk result (λ monitor. entries_of (number_of self) monitor.log ≡ reports_of self) }
        // `Shared` returns this reporter, with its pass at its desk.
        ensures handed_back { IfErr result (λ fault. HandsBack fault self) }
        // `Unsettled` reports two numbers, the first less than the second, and neither less than what the reporter knew
        // of the tickets.
        ensures unsettled { IfErr result (λ fault. TellsUnsettled fault self) }
    {
        let DeskReporter { caller, setup } = self;
        match caller.close() {
            Ok(monitor) => Ok(monitor),
            Err(CloseFault::Shared(caller)) => Err(DeskCloseFault::Shared(DeskReporter {
                caller,
                setup,
            })),
            Err(CloseFault::Unsettled(words)) => Err(DeskCloseFault::Unsettled(words)),
        }
    }
}
