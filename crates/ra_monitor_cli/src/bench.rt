//! The bench's line, and the end of the program after a bench.
ghost use Rattle.std.specs.Prelude.{◌≡◌, IfErr, IfOk, OnOk, codes, string_bytes};
ghost use Rattle.std.specs.Io.KnownBytes.{Appends};
ghost use Rattle.ra_history_text.specs.Written.{StopsLine};
ghost use Rattle.ra_monitor_cli.specs.Bench as bench;
ghost use Rattle.ra_cli_common.specs.Endings.{EndsTelling};
ghost use Rattle.ra_monitor_cli.specs.Program.{EndsBench};

use ra_bench::{BenchFault, BenchReport};
use ra_cli_common::{Ending, stop};
use ra_history_lines::kind_line::kind_word;
use ra_history_text::{CheckFault, write_line};
use ra_labels::{Kind, NoMemory, Reply};
use std::alloc::Global;
use std::io::Write;

/// The result of a bench.
pub type BenchAnswer = Result<BenchReport, BenchFault>;

/// Returns the line of a bench, without a line feed.
///
/// # Errors
///
/// `NoMemory` if an allocation fails.
pub fn bench_line(
    alloc: Global,
    kind: Kind,
    replicas: u8,
    rounds: u32,
    report: &BenchReport,
) -> Result<String, NoMemory>
    // After success, the text is the bench's line, byte for byte, without a line feed.
    ensures { IfOk result (λ line. string_bytes line ≡ bench.bench_words kind replicas rounds report.now) }
{
    let asked = asked_words(alloc, kind, replicas, rounds)?;
    let counted = counted_words(alloc, report)?;
    let verdict = verdict_word(report.verdict);
    Ok(format!(in alloc; "{asked} {counted} {verdict}")?)
}

fn asked_words(alloc: Global, kind: Kind, replicas: u8, rounds: u32) -> Result<String, NoMemory>
    ensures { IfOk result (λ words. string_bytes words ≡ bench.asked_words kind replicas rounds) }
{
    let kind = kind_word(kind);
    Ok(format!(in alloc; "bench {kind} replicas {replicas} rounds {rounds}")?)
}

fn counted_words(alloc: Global, report: &BenchReport) -> Result<String, NoMemory>
    ensures { IfOk result (λ words. string_bytes words ≡ bench.counted_words report.now) }
{
    let BenchReport {
        labels,
        deliveries,
        calls,
        ..
    } = *report;
    Ok(format!(in alloc; "labels {labels} deliveries {deliveries} calls {calls}")?)
}

fn verdict_word(verdict: Reply) -> &'static str
    ensures { result.now ≡ bench.verdict_word verdict }
{
    match verdict {
        Reply::Yes(_) => "yes",
        _ => "no",
    }
}

/// Ends the program after a bench: writes its line on `out`, or the line `bench fault` on `err`.
pub fn end_bench<W: Write, E: Write>(
    alloc: Global,
    kind: Kind,
    replicas: u8,
    rounds: u32,
    answer: BenchAnswer,
    out: &mut W,
    err: &mut E,
) -> Ending
    // For a report, the bench's line is written with status 0 for the verdict `yes` and 1 otherwise, or a failed write
    // or allocation is reported with status 2. For an error, `bench fault` alone is reported, with status 1 after a
    // reply `No` and 2 otherwise.
    ensures { EndsBench kind replicas rounds answer result (W.contents out.old) (W.contents out.new)
        (E.contents err.old) (E.contents err.new) }
{
    match answer {
        Ok(report) => match write_bench(alloc, kind, replicas, rounds, &report, out) {
            Ok(()) => Ending {
                status: status_of_verdict(report.verdict),
                told: true,
            },
            Err(fault) => stop(err, fault),
        },
        Err(fault) => tell_bench_fault(err, status_of_fault(fault)),
    }
}

// Writes the bench's line.
fn write_bench<W: Write>(
    alloc: Global,
    kind: Kind,
    replicas: u8,
    rounds: u32,
    report: &BenchReport,
    out: &mut W,
) -> Result<(), CheckFault>
    ensures written { OnOk result (Appends (W.contents out.old) (W.contents out.new)
        (bench.bench_line kind replicas rounds report.now)) }
    ensures stopped { IfErr result (StopsLine (bench.bench_line kind replicas rounds report.now)
        (W.contents out.old) (W.contents out.new)) }
{
    write_line(bench_line(alloc, kind, replicas, rounds, report)?, out)
}

fn status_of_verdict(verdict: Reply) -> u8
    ensures { result ≡ bench.status_of_verdict verdict }
{
    match verdict {
        Reply::Yes(_) => 0,
        _ => 1,
    }
}

fn status_of_fault(fault: BenchFault) -> u8
    ensures { result ≡ bench.status_of_fault fault }
{
    match fault {
        BenchFault::Answered {
            reply: Reply::No { .. },
            ..
        } => 1,
        _ => 2,
    }
}

fn tell_bench_fault<E: Write>(err: &mut E, status: u8) -> Ending
    ensures { EndsTelling status result (E.contents err.old) (E.contents err.new) (codes "bench fault") }
{
    Ending {
        status,
        told: writeln!(err, "bench fault").is_ok(),
    }
}
