//! The report as JSON.
ghost use Rattle.std.specs.Prelude.{◌≡◌, IfOk, string_bytes};
ghost use Rattle.serde_json.specs.View.{view};
ghost use Rattle.ra_cli_report.specs.Report.{report_data, report_object};

use ra_history_lines::kind_line::kind_word;
use ra_history_lines::reply::cause_word;
use ra_labels::{Fault, NoMemory};
use ra_monitor::Report;
use serde_json::{Value, json};
use std::alloc::{AllocError, Global};

/// Returns the report as one compact JSON object, with its keys in byte order.
///
/// # Errors
///
/// `NoMemory` if an allocation fails.
pub fn report_json(alloc: Global, report: &Report) -> Result<String, NoMemory>
    // After success, the text is the report's JSON object, byte for byte.
    ensures { IfOk result (λ text. string_bytes text ≡ report_object report.now) }
{
    let value = value_of(alloc, report)?;
    Ok(value.to_string(alloc)?)
}

fn value_of(alloc: Global, report: &Report) -> Result<Value, AllocError>
    ensures { IfOk result (λ value. view value ≡ report_data report.now) }
{
    let kind = kind_word(report.kind);
    match report.fault {
        None => json!(in alloc; {
            "calls": report.calls,
            "kind": kind,
            "labels": report.labels,
            "refused": report.refused,
            "verdict": "yes"
        }),
        Some(Fault { label, cause }) => {
            let cause = cause_word(cause);
            let is_final = report.is_final();
            json!(in alloc; {
                "calls": report.calls,
                "cause": cause,
                "final": is_final,
                "kind": kind,
                "label": label,
                "labels": report.labels,
                "refused": report.refused,
                "verdict": "no"
            })
        }
    }
}
