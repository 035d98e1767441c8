//! The report's line.
ghost use Rattle.std.specs.Prelude.{IfErr, OnOk};
ghost use Rattle.std.specs.Io.KnownBytes.{Appends};
ghost use Rattle.ra_history_text.specs.Written.{StopsLine};
ghost use Rattle.ra_cli_report.specs.Report.{report_line};

use ra_cli_report::report_json;
use ra_history_text::{CheckFault, write_line};
use ra_monitor::Report;
use std::alloc::Global;
use std::io::Write;

/// Writes the report's object and a line feed.
///
/// # Errors
///
/// `NoMemory` if an allocation fails: nothing was written. `Write` if the writer fails or accepts no byte: a proper
/// prefix of the line was written.
pub fn write_report<W: Write>(
    alloc: Global,
    report: &Report,
    writer: &mut W,
) -> Result<(), CheckFault>
    // After success, exactly the report's object and a line feed were written.
    ensures written { OnOk result (Appends (W.contents writer.old) (W.contents writer.new) (report_line report.now)) }
    // After `NoMemory` nothing was written, and after `Write` a proper prefix of the line. No other error occurs.
    ensures stopped { IfErr result (StopsLine (report_line report.now)
        (W.contents writer.old) (W.contents writer.new)) }
{
    write_line(report_json(alloc, report)?, writer)
}
