//! The end of a run: the verdict, and the report of the closed desk.
ghost use Rattle.std.specs.Prelude.{IfOk};
ghost use Rattle.ra_desk.specs.Reports.{setup_of};
ghost use Rattle.ra_bench.specs.Report.{IsReportOfRun};

use crate::fault::RunFault;
use crate::report::{BenchReport, report_of};
use crate::tell::tell;
use ra_desk::DeskReporter;
use ra_labels::Command;
use std::sync::Wait;

/// Asks for the verdict and closes the desk, which must have no other reporter.
pub fn conclude<R: Wait>(rt: &R, last: DeskReporter) -> Result<BenchReport, RunFault>
    ensures { IfOk result (IsReportOfRun (setup_of last).kind (setup_of last).replicas) }
{
    let mut last = last;
    // The reply is read from the log, so it is not needed here.
    tell(rt, &mut last, Command::Verdict)?;
    let closed = RunFault::Lock {
        replica: last.number(),
    };
    match last.close() {
        Ok(monitor) => report_of(&monitor).ok_or(closed),
        Err(_) => Err(closed),
    }
}
