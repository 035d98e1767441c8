//! The theorems about a closed log, tested in plain code: the log is compared with the replies to each pass.
ghost use Rattle.std.specs.Prelude.{◌≡◌, ◌≤◌, length, IfOk};

use crate::finding::Finding;
use crate::plan::REPLICAS;
use crate::record::{Event, Record};
use crate::round::{Closed, Setting};
use anyhow::bail;
use ra_labels::{Command, Reply};
use ra_monitor::Reporter;
use ra_ticket::{Entry, Glance};
use std::alloc::{AllocError, Global};

// Whether a theorem holds.
type Law = Result<(), Finding>;

// A call in the log.
type Call = Entry<Command, Reply>;

/// Returns the first theorem that a round breaks, if it breaks one.
pub fn finding_in(
    alloc: Global,
    setting: Setting,
    closed: &Closed,
) -> anyhow::Result<Option<Finding>> {
    let Closed {
        monitor,
        records,
        ..
    } = closed;
    if records.iter().any(|record| record.is_short) {
        bail!("no memory");
    }
    let log = monitor.log();
    let finding = match of_whole_log(log, records, setting) {
        Ok(()) => each_has_its_own(alloc, log, records)?,
        Err(finding) => Some(finding),
    };
    match finding {
        Some(finding) => Ok(Some(finding)),
        None => one_thread_answers(alloc, log, setting),
    }
}

fn of_whole_log(log: &[Call], records: &[Record], setting: Setting) -> Law {
    tickets_rise(log)?;
    a_no_stays(log, setting.lie.map(|(liar, _)| liar))?;
    all_are_there(log, records, setting.limit)
}

// The index of a log's first violation, and its label.
#[derive(Clone, Copy)]
struct FirstNo {
    place: usize,
    label: u32,
}

// Returns the log's first violation, if there is one.
fn first_no(log: &[Call]) -> Option<FirstNo> {
    for (place, call) in log.iter().enumerate() {
        if let Reply::No { label, .. } = call.reply {
            return Some(FirstNo { place, label });
        }
    }
    None
}

// Tests that tickets ascend.
fn tickets_rise(log: &[Call]) -> Law {
    let mut last = None;
    for (place, call) in log.iter().enumerate() {
        if last.is_some_and(|last: u64| call.ticket <= last) {
            return Err(Finding::Ticket { place });
        }
        last = Some(call.ticket);
    }
    Ok(())
}

// Tests that the first reply `no` is to the pass that lied, and that there is none without a lie. All later replies are
// the same.
fn a_no_stays(log: &[Call], liar: Option<u8>) -> Law {
    let mut no = None;
    for (place, call) in log.iter().enumerate() {
        let is_right = match no {
            Some(no) => call.reply == no,
            None => !matches!(call.reply, Reply::No { .. }) || liar == Some(call.pass),
        };
        if !is_right {
            return Err(Finding::Answer { place });
        }
        if matches!(call.reply, Reply::No { .. }) {
            no = Some(call.reply);
        }
    }
    Ok(())
}

// Tests that the log has as many calls as were answered, and that it is full if a pass found it so.
fn all_are_there(log: &[Call], records: &[Record], limit: u32) -> Law {
    let mut told = 0u64;
    let mut is_full = false;
    for record in records {
        told = told.wrapping_add(record.told);
        is_full = is_full || record.full > 0;
    }
    let logged = log.len();
    if logged as u64 != told {
        return Err(Finding::Whole {
            logged: logged as u64,
            told,
        });
    }
    if is_full && logged != limit as usize {
        return Err(Finding::Full { logged });
    }
    Ok(())
}

// Tests that the calls of each pass are in the log, each once and in order. Each call and each look comes after all
// that its pass had seen.
fn each_has_its_own(
    alloc: Global,
    log: &[Call],
    records: &[Record],
) -> Result<Option<Finding>, AllocError> {
    let no = first_no(log);
    for record in records {
        let own = places_of(alloc, log, record.pass)?;
        if let Err(finding) = has_its_own(log, own.as_slice(), record, no) {
            return Ok(Some(finding));
        }
    }
    Ok(None)
}

// Returns the indices of the calls of this pass.
fn places_of(alloc: Global, log: &[Call], pass: u8) -> Result<Vec<usize>, AllocError> {
    let mut places = Vec::new(alloc);
    for (place, call) in log.iter().enumerate() {
        if call.pass == pass {
            places.push(place)?;
        }
    }
    Ok(places)
}

// Tests the same of one pass, whose calls have these indices.
fn has_its_own(log: &[Call], own: &[usize], record: &Record, no: Option<FirstNo>) -> Law {
    let pass = record.pass;
    let mut seen = 0usize;
    let mut told = 0usize;
    for event in &record.events {
        seen = match event {
            Event::Told { command, reply } => {
                let place = own.get(told).copied();
                told = told.wrapping_add(1);
                match place {
                    Some(place) if seen <= place && is_logged(log, place, command, *reply) => {
                        place.wrapping_add(1)
                    }
                    _ => return Err(Finding::Call { pass, call: told }),
                }
            }
            Event::Glanced(glance) => looked(log, pass, seen, glanced(*glance, pass, no)?)?,
            Event::Met(calls) => looked(log, pass, seen, *calls as usize)?,
        };
    }
    let logged = own.len();
    if told == logged {
        Ok(())
    } else {
        Err(Finding::Count { pass, logged, told })
    }
}

// Returns `true` if this call is in the log, at this index.
fn is_logged(log: &[Call], place: usize, command: &Command, reply: Reply) -> bool {
    match log.get(place) {
        Some(call) => call.command == *command && call.reply == reply,
        None => false,
    }
}

// Returns what a pass has seen after a look that returned this many calls.
fn looked(log: &[Call], pass: u8, seen: usize, told: usize) -> Result<usize, Finding>
    ensures { IfOk result (λ calls. (calls ≡ told) × (seen ≤ told) × (told ≤ length log.now)) }
{
    if seen <= told && told <= log.len() {
        Ok(told)
    } else {
        Err(Finding::Look { pass, seen, told })
    }
}

// Returns the number of calls of a glance. Its fault is that of these calls.
fn glanced(glance: Glance, pass: u8, no: Option<FirstNo>) -> Result<usize, Finding>
    ensures { IfOk result (λ calls. calls ≡ glance.calls) }
{
    let calls = glance.calls as usize;
    let fault = match no {
        Some(FirstNo { place, label }) if place < calls => Some(label),
        _ => None,
    };
    if glance.fault == fault {
        Ok(calls)
    } else {
        Err(Finding::Fault { pass, calls })
    }
}

// Tests that a single-threaded monitor replies the same to the same commands.
fn one_thread_answers(
    alloc: Global,
    log: &[Call],
    setting: Setting,
) -> anyhow::Result<Option<Finding>> {
    match Reporter::new(alloc, setting.kind, REPLICAS, setting.limit) {
        Ok(mut reporter) => answers_as(&mut reporter, log),
        Err(_) => bail!("no monitor"),
    }
}

fn answers_as(reporter: &mut Reporter, log: &[Call]) -> anyhow::Result<Option<Finding>> {
    for (place, call) in log.iter().enumerate() {
        match replied(reporter, call.command.clone()?) {
            Some(reply) if reply == call.reply => {}
            Some(_) => return Ok(Some(Finding::OneThread { place })),
            None => bail!("no memory"),
        }
    }
    Ok(None)
}

// Returns the reply. The error that carries the command is dropped here, once.
fn replied(reporter: &mut Reporter, command: Command) -> Option<Reply> {
    reporter.tell(command).ok()
}
