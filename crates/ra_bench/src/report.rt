//! The summary of a run, computed from the log of its closed desk.
ghost use Rattle.std.specs.Prelude.{◌≡◌, ◌≤◌, IfSome, length};
ghost use Rattle.ra_bench.specs.Report.{deliveries_in, EndsInVerdict, IsReportOf};
ghost use Rattle.ra_journal.specs.declared.journal.TheConstants.{MOST_ENTRIES};

use ra_journal::Entry;
use ra_labels::{Command, Reply};
use ra_monitor::Monitor;

/// The summary of a run.
#[derive(Clone, Copy, Debug, PartialEq, Eq)]
pub struct BenchReport {
    /// The number of accepted operations.
    pub labels: u32,
    /// The number of accepted deliveries.
    pub deliveries: u32,
    /// The number of calls that the desk answered, including the one for the verdict.
    pub calls: u32,
    /// The reply to the last call, which asked for the verdict.
    pub verdict: Reply,
}

/// Returns the summary of the log, or `None` if a call was rejected or the last one did not ask for the verdict. O(n)
/// for n entries.
pub fn report_of(monitor: &Monitor) -> Option<BenchReport>
    ensures { IfSome result (λ report. IsReportOf monitor.now.setup monitor.now.log report) }
{
    let verdict = verdict_in(monitor.log())?;
    let report = monitor.report();
    if report.refused > 0 {
        return None;
    }
    Some(BenchReport {
        labels: report.labels,
        deliveries: deliveries_of(monitor.log()),
        calls: report.calls,
        verdict,
    })
}

// Returns the reply to the last call, if it asked for the verdict.
fn verdict_in(log: &[Entry<Command, Reply>]) -> Option<Reply>
    ensures { IfSome result (λ reply. EndsInVerdict log.now reply) }
{
    match log.last()? {
        Entry {
            command: Command::Verdict,
            reply,
            ..
        } => Some(*reply),
        _ => None,
    }
}

// Returns the number of accepted deliveries.
fn deliveries_of(log: &[Entry<Command, Reply>]) -> u32
    requires { length log.now ≤ MOST_ENTRIES }
    ensures { result ≡ deliveries_in log.now }
{
    let mut deliveries = 0;
    for entry in log {
        if matches!(entry.reply, Reply::Got(_)) {
            deliveries += 1;
        }
    }
    deliveries
}
