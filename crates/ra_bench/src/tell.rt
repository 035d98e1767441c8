//! One call of a desk.
ghost use Rattle.std.specs.Prelude.{◌≡◌, IfOk, IfErr};
ghost use Rattle.ra_desk.specs.Reports.{number_of, setup_of, IsLogged};
ghost use Rattle.ra_bench.specs.Calls.{IsOfDesk};

use crate::fault::RunFault;
use ra_desk::DeskReporter;
use ra_labels::{Command, Reply};
use ra_ticket::CallFault;
use std::sync::Wait;

/// Reports the command to the desk, and returns its reply.
pub fn tell<R: Wait>(
    rt: &R,
    reporter: &mut DeskReporter,
    command: Command,
) -> Result<Reply, RunFault>
    ensures logged { IfOk result (λ reply. IsLogged reporter.old reporter.new command reply) }
    ensures fault { IfErr result (IsOfDesk (number_of reporter.old)) }
    ensures setup { setup_of reporter.new ≡ setup_of reporter.old }
{
    match reporter.tell(rt, command) {
        Ok(reply) => Ok(reply),
        Err(fault) => Err(fault_of(fault, reporter.number())),
    }
}

// Returns the error of the reporter with this number. The command that the fault carries is dropped here, once.
fn fault_of(fault: CallFault<Command>, replica: u8) -> RunFault
    ensures { IsOfDesk replica result }
{
    match &fault {
        CallFault::NoMemory(_) => RunFault::NoMemory,
        _ => RunFault::Lock { replica },
    }
}
